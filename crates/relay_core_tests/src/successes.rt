//! What a lane notes of operations that ended as applied.
use crate::desk::{CONFIG, Entry, lane_of, outcomes_of, put_each};
use relay_core::{Lane, Success};
use relay_results::Loss;
use std::alloc::Global;
use std::process::Abort;

// The next request is answered with these entries, or lost if there are none.
fn answer(rt: &impl Abort, alloc: Global, lane: &mut Lane, entries: &[Entry<'_>]) {
    let number = lane.request().expect(rt, "memory").expect(rt, "a request");
    let settled = if entries.is_empty() {
        lane.lost(number, Loss::Closed)
    } else {
        lane.reply(number, outcomes_of(rt, alloc, entries))
    };
    assert!(rt; settled.is_ok());
}

// Whether these are the successes: the numbers of the operations, their versions and the statuses.
fn are_noted(successes: &[Success], wanted: &[(u64, u64, Option<u16>)]) -> bool {
    if successes.len() != wanted.len() {
        return false;
    }
    for i in 0..wanted.len() {
        let found = &successes[i];
        if (found.name.number, found.version, found.status) != wanted[i] {
            return false;
        }
    }
    true
}

const ABC: &[(u64, &str, &str)] = &[(1, "a", "{}"), (2, "b", "{}"), (3, "c", "")];

const THEIR_ENTRIES: &[Entry<'static>] = &[
    Entry::Index("a", 201),
    Entry::Failed("b", 400),
    Entry::Delete("c", 404),
];

// An index, an error and a delete: the first and the last are noted, with their statuses, until the
// successes are forgotten, and nothing else.
#[test]
fn successes_have_their_status(rt: HostRuntime) {
    let alloc = rt.alloc();
    let lane = lane_of(&rt, alloc, CONFIG);
    put_each(&rt, alloc, lane, ABC);
    answer(&rt, alloc, lane, THEIR_ENTRIES);
    assert!(rt; are_noted(lane.successes(), &[(1, 1, Some(201)), (3, 3, Some(404))]));
    lane.forget_successes();
    assert!(rt; lane.successes().is_empty() && lane.reports().len() == 1);
}

// An operation whose first reply is lost, and whose repeat conflicts, is noted without a status.
#[test]
fn an_earlier_request_has_no_status(rt: HostRuntime) {
    let alloc = rt.alloc();
    let lane = lane_of(&rt, alloc, CONFIG);
    put_each(&rt, alloc, lane, &[(1, "a", "{}")]);
    answer(&rt, alloc, lane, &[]);
    lane.tick();
    answer(&rt, alloc, lane, &[Entry::Failed("a", 409)]);
    assert!(rt; are_noted(lane.successes(), &[(1, 1, None)]));
}
