//! What reports say of the last request that carried an operation, and of a whole request's reason.
use crate::desk::{CONFIG, Entry, lane_of, outcomes_of, put_each};
use relay_action::Text;
use relay_core::{Cause, Lane};
use relay_results::{LastTry, Loss};
use std::alloc::Global;
use std::process::Abort;

// How a request is answered.
#[derive(Clone, Copy)]
enum Given<'a> {
    Lost(Loss),
    Whole(u16, &'a str),
    Items(&'a [Entry<'a>]),
}

// The next request is answered so.
fn answer(rt: &impl Abort, alloc: Global, lane: &mut Lane, given: Given<'_>) {
    let number = lane.request().expect(rt, "memory").expect(rt, "a request");
    let settled = match given {
        Given::Lost(why) => lane.lost(number, why),
        Given::Whole(status, reason) => {
            assert!(rt; status != 200);
            let reason = if reason.is_empty() {
                None
            } else {
                Some(Text::new(alloc, reason).expect(rt, "memory"))
            };
            lane.whole(number, status, reason)
        }
        Given::Items(entries) => lane.reply(number, outcomes_of(rt, alloc, entries)),
    };
    assert!(rt; settled.is_ok());
}

// What became of the last of three tries, if the first report says that there was one.
fn last_in(lane: &Lane) -> Option<LastTry> {
    match &lane.reports().first()?.cause {
        Cause::GaveUp { sends: 3, last } => Some(*last),
        _ => None,
    }
}

// The next requests are answered so, each before four ticks pass.
fn answer_each(rt: &impl Abort, alloc: Global, lane: &mut Lane, tries: &[Given<'_>]) {
    for given in tries {
        answer(rt, alloc, lane, *given);
        for _ in 0..4 {
            lane.tick();
        }
    }
}

// Puts one operation, whose three tries are answered so. What became of the last, if it is given up.
fn last_of(rt: &impl Abort, alloc: Global, tries: &[Given<'_>]) -> Option<LastTry> {
    let lane = lane_of(rt, alloc, CONFIG);
    put_each(rt, alloc, lane, &[(1, "a", "{}")]);
    answer_each(rt, alloc, lane, tries);
    last_in(lane)
}

const BUSY: &[Entry<'_>] = &[Entry::Failed("a", 429)];

const OTHER: &[Entry<'_>] = &[Entry::Index("b", 201)];

const CLOSED: Given<'_> = Given::Lost(Loss::Closed);

// Three answers, and what is said of the last.
const LAST: &[(&[Given<'_>], LastTry)] = &[
    (
        &[CLOSED, CLOSED, Given::Lost(Loss::TimedOut)],
        LastTry::Lost(Loss::TimedOut),
    ),
    (
        &[Given::Items(BUSY), CLOSED, Given::Lost(Loss::Refused)],
        LastTry::Lost(Loss::Refused),
    ),
    (
        &[CLOSED, Given::Whole(429, ""), Given::Whole(503, "busy")],
        LastTry::Whole(503),
    ),
    (
        &[CLOSED, Given::Whole(503, ""), Given::Items(BUSY)],
        LastTry::Item(429),
    ),
    (
        &[CLOSED, CLOSED, Given::Items(OTHER)],
        LastTry::Lost(Loss::Unreadable),
    ),
];

#[test]
fn the_last_try_is_told(rt: HostRuntime) {
    for (tries, last) in LAST {
        assert!(rt; last_of(&rt, rt.alloc(), tries) == Some(*last));
    }
}

// The reason of the report at a place, if it is on a whole request of this status.
fn reason_at(lane: &Lane, place: usize, status: u16) -> Option<&str> {
    match &lane.reports().get(place)?.cause {
        Cause::Request {
            status: other,
            reason,
        } if *other == status => match reason {
            Some(reason) => Some(reason.as_str()),
            None => Some(""),
        },
        _ => None,
    }
}

// Whether the reports are on whole requests, with these statuses and reasons.
fn have_reasons(lane: &Lane, reasons: &[(u16, &str)]) -> bool {
    for at in 0..reasons.len() {
        if reason_at(lane, at, reasons[at].0) != Some(reasons[at].1) {
            return false;
        }
    }
    lane.reports().len() == reasons.len()
}

const ABC: &[(u64, &str, &str)] = &[(2, "a", "{}"), (3, "b", ""), (4, "c", "{}")];

// Whether of three operations of a request that is refused as a whole, after a report from before,
// the first report has this reason, and no other has.
fn tells_first(rt: &impl Abort, alloc: Global, reason: &str) -> bool {
    let lane = lane_of(rt, alloc, CONFIG);
    put_each(rt, alloc, lane, &[(1, "x", "{}")]);
    answer(rt, alloc, lane, Given::Whole(400, "the one before"));
    put_each(rt, alloc, lane, ABC);
    answer(rt, alloc, lane, Given::Whole(403, reason));
    let reasons = &[(400, "the one before"), (403, reason), (403, ""), (403, "")];
    have_reasons(lane, reasons)
}

#[test]
fn the_first_has_the_reason(rt: HostRuntime) {
    let reason = "no permissions for [indices:data/write/bulk]";
    assert!(rt; tells_first(&rt, rt.alloc(), reason));
    assert!(rt; tells_first(&rt, rt.alloc(), ""));
}
