//! The maximum number of operations in a lane.
use crate::desk::{CONFIG, Entry, lane_of, outcomes_of, put};
use crate::refusals::{made_again, sends, takes};
use relay_action::{Action, Body, DocKey, Mail, Op};
use relay_batch::Limits;
use relay_core::{Lane, RelayConfig, TakeFault};
use std::alloc::Global;
use std::mem;
use std::process::Abort;

const FULL: RelayConfig = RelayConfig {
    max_held: 65_536,
    limits: Limits {
        count: 10,
        bytes: 4_096,
        linger: 65_535,
    },
    ..CONFIG
};

// Puts a delete of a document, which is taken.
fn puts(rt: &impl Abort, alloc: Global, lane: &mut Lane, number: u64, document: u64) {
    let id = format!(in alloc; "{document}").expect(rt, "memory");
    assert!(rt; put(rt, alloc, lane, number, id.as_str(), "").is_none());
}

// How many writes the next request carries; 0 if there is none.
fn carried(rt: &impl Abort, lane: &mut Lane) -> usize {
    match lane.request().expect(rt, "memory") {
        Some(number) => lane.writes(number).expect(rt, "writes").len(),
        None => 0,
    }
}

// Puts deletes of one document, or each of its own.
fn put_many(rt: &impl Abort, alloc: Global, lane: &mut Lane, count: u64, distinct: bool) {
    for number in 0..count {
        let document = if distinct { number } else { 0 };
        puts(rt, alloc, lane, number, document);
    }
}

// A lane takes 65,536 operations, all on one document or each on its own, and then one more: the
// result for that one, how many are held, and how many the next request carries.
fn fill(rt: &impl Abort, alloc: Global, distinct: bool) -> (Option<TakeFault>, u32, usize) {
    let lane = lane_of(rt, alloc, FULL);
    put_many(rt, alloc, lane, 65_536, distinct);
    let more = put(rt, alloc, lane, 65_536, "more", "");
    lane.flush();
    (more, lane.held(), carried(rt, lane))
}

#[test]
fn of_one_document(rt: HostRuntime) {
    let found = fill(&rt, rt.alloc(), false);
    assert!(rt; found == (Some(TakeFault::HeldFull), 65_536, 1));
}

#[test]
fn of_as_many_documents(rt: HostRuntime) {
    let found = fill(&rt, rt.alloc(), true);
    assert!(rt; found == (Some(TakeFault::HeldFull), 65_536, 10));
}

// Sends one operation of document 0 in each request, which is settled as applied.
fn apply_each(rt: &impl Abort, alloc: Global, lane: &mut Lane, count: u64) {
    for _ in 0..count {
        let number = lane.request().expect(rt, "memory").expect(rt, "a request");
        let outcomes = outcomes_of(rt, alloc, &[Entry::Delete("0", 200)]);
        let settled = lane
            .reply(number, outcomes)
            .expect(rt, "a request in flight");
        assert!(rt; settled.applied == 1);
    }
}

// Deletes of one document, each sent and settled as applied in its own request: how many are held
// then, and how many were looked at.
fn each_alone(rt: &impl Abort, alloc: Global, count: u64) -> (u32, u64) {
    let lane = lane_of(rt, alloc, FULL);
    put_many(rt, alloc, lane, count, false);
    lane.flush();
    apply_each(rt, alloc, lane, count);
    (lane.held(), lane.looks())
}

#[test]
fn one_look_for_each_request(rt: HostRuntime) {
    let (held, looks) = each_alone(&rt, rt.alloc(), 100);
    assert!(rt; held == 0 && 0 < looks && looks <= 100);
}

// Deletes of these documents: how many the next request carries, and how many were looked at.
fn look(rt: &impl Abort, alloc: Global, documents: &[u64]) -> (usize, u64) {
    let lane = lane_of(rt, alloc, CONFIG);
    for at in 0..documents.len() {
        puts(rt, alloc, lane, at as u64, documents[at]);
    }
    (carried(rt, lane), lane.looks())
}

// A request looks at one operation for each document that is held.
#[test]
fn looks_at_each_document(rt: HostRuntime) {
    assert!(rt; look(&rt, rt.alloc(), &[1, 2, 1, 3]) == (3, 3));
}

// A delete; a failed allocation is tried again.
fn delete_again(rt: &impl Abort, alloc: Global) -> Mail {
    let key = match DocKey::new(alloc, "b", "1") {
        Ok(key) => key,
        Err(_) => DocKey::new(alloc, "b", "1").expect(rt, "a key"),
    };
    let op = Op {
        epoch: 0,
        producer: 0,
        number: 1,
        key,
        action: Action::delete(),
    };
    Mail {
        sender: 0,
        number: 1,
        body: Body::Put(op),
    }
}

// Whichever allocation fails, the call has changed nothing, and succeeds the next time.
#[test]
fn refusals(rt: HostRuntime) {
    let mut lane = made_again(rt.alloc(), CONFIG).expect(&rt, "a lane");
    assert!(rt; takes(&mut lane, delete_again(&rt, rt.alloc())));
    assert!(rt; sends(&mut lane));
    assert!(rt; lane.held() == 1 && lane.due_in().is_none());
    mem::forget(lane);
}
