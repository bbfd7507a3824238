//! Worlds over an index that already has versions.
use crate::desk::{lane_of, put};
use crate::world::script::{THREE, accepts, world_over};
use relay_action::{Action, DocKey, List, Write};
use relay_core::{Lane, RelayConfig, Settled};
use relay_index::{Choice, Index};
use relay_results::{Loss, Outcome};
use relay_world::{Event, StepAnswer, World};
use std::alloc::Global;
use std::mem;
use std::process::Abort;

fn key_of(rt: &impl Abort, alloc: Global, id: &str) -> DocKey {
    DocKey::new(alloc, "b", id).expect(rt, "a key")
}

/// Deletes a document from an index under version 5.
fn delete_at_five(rt: &impl Abort, alloc: Global, index: &mut Index, id: &str) {
    let write = Write {
        key: key_of(rt, alloc, id),
        version: 5,
        action: Action::delete(),
    };
    index.run(&write, Choice::Run).expect(rt, "memory");
    mem::forget(write);
}

/// An index that has version 5 of the documents 1 and 2, both deleted.
fn index_at_five(rt: &impl Abort, alloc: Global) -> Index {
    let mut index = Index::new(alloc);
    delete_at_five(rt, alloc, &mut index, "1");
    delete_at_five(rt, alloc, &mut index, "2");
    index
}

/// An epoch whose versions are above those of that index.
const NEXT_EPOCH: RelayConfig = RelayConfig { epoch: 1, ..THREE };

/// A config whose lanes assign three versions, 1 to 3.
const THREE_VERSIONS: RelayConfig = RelayConfig { deal: 3, ..THREE };

/// Document 1 is put, taken and sent.
fn send_one(rt: &impl Abort, alloc: Global, world: &mut World) {
    let action = Action::index(alloc, "{}").expect(rt, "an action");
    let put = Event::Put(0, key_of(rt, alloc, "1"), action);
    assert!(rt; accepts(world, put));
    assert!(rt; accepts(world, Event::Take(0)));
    assert!(rt; accepts(world, Event::Send(0)));
}

/// The status of the first run of the first request, or 0.
fn status_of_run(world: &mut World) -> u16 {
    match world.step(&Event::Run(1, 1, Choice::Run)) {
        Ok(StepAnswer::Ran(status)) => status,
        _ => 0,
    }
}

// What was in the index before is not applied by the world, nor is it among its documents: a fresh world
// with a first version above the stored ones writes document 1, and then has only that.
#[test]
fn only_its_own(rt: HostRuntime) {
    let alloc = rt.alloc();
    let index = index_at_five(&rt, alloc);
    let world = world_over(&rt, alloc, NEXT_EPOCH, index);
    let (one, two) = (key_of(&rt, alloc, "1"), key_of(&rt, alloc, "2"));
    let before = world.keys().expect(&rt, "memory");
    assert!(rt; before.is_empty() && world.applied(&one).is_empty());
    send_one(&rt, alloc, world);
    assert!(rt; status_of_run(world) == 201);
    let keys = world.keys().expect(&rt, "memory");
    assert!(rt; keys.len() == 1 && keys.first() == Some(&one));
    assert!(rt; world.applied(&one).len() == 1 && world.applied(&two).is_empty());
}

/// How many operations the reply to request 2 settled as already applied, and how many it reported.
fn settled_by(alloc: Global, world: &mut World) -> (u32, u32) {
    let event = Event::Reply(2, List::of(Vec::new(alloc)));
    let answer = world.step(&event);
    mem::forget(event);
    match answer {
        Ok(StepAnswer::Settled(counts)) => (counts.already, counts.reported),
        _ => (0, 0),
    }
}

/// What becomes of a repeat over an index that has version 5 of each document, where 1 to 3 are
/// assigned: document 1 is put, its request is lost before it ran, and it is sent and run again.
fn becomes(rt: &impl Abort, alloc: Global, states: bool) -> (u32, u32) {
    let mut index = index_at_five(rt, alloc);
    if states {
        index.state_versions();
    }
    let world = world_over(rt, alloc, THREE_VERSIONS, index);
    send_one(rt, alloc, world);
    assert!(rt; accepts(world, Event::Lost(1)));
    assert!(rt; accepts(world, Event::Tick(0)));
    assert!(rt; accepts(world, Event::Take(0)));
    assert!(rt; accepts(world, Event::Send(0)));
    assert!(rt; accepts(world, Event::Run(2, 1, Choice::Run)));
    settled_by(alloc, world)
}

// An index with higher versions: if it states them, the operation is reported.
#[test]
fn reported_if_stated(rt: HostRuntime) {
    assert_eq!(rt; becomes(&rt, rt.alloc(), true), (0, 1));
}

// And otherwise it is taken for applied, which it never was.
#[test]
fn lost_if_not_stated(rt: HostRuntime) {
    assert_eq!(rt; becomes(&rt, rt.alloc(), false), (1, 0));
}

/// A lane takes the first operation of producer 0: a delete of document 1.
fn takes_one(rt: &impl Abort, alloc: Global, lane: &mut Lane) {
    assert!(rt; put(rt, alloc, lane, 1, "1", "").is_none());
}

/// The next request, which there is.
fn next_of(rt: &impl Abort, lane: &mut Lane) -> u64 {
    lane.request().expect(rt, "memory").expect(rt, "a request")
}

/// Runs the first write of a request on the index.
fn run_first(
    rt: &impl Abort,
    alloc: Global,
    lane: &Lane,
    number: u64,
    index: &mut Index,
) -> Outcome {
    let writes = lane.writes(number).expect(rt, "writes");
    let write = writes.first().expect(rt, "a write");
    let done = index.run(write, Choice::Run).expect(rt, "memory");
    done.outcome(alloc).expect(rt, "memory")
}

/// Answers a request with a single entry.
fn settle_with(
    rt: &impl Abort,
    alloc: Global,
    lane: &mut Lane,
    number: u64,
    outcome: Outcome,
) -> Settled {
    let mut outcomes = Vec::new(alloc);
    outcomes.push(outcome).expect(rt, "memory");
    lane.reply(number, outcomes)
        .expect(rt, "a request in flight")
}

// Why the versions of an index must be below the first one assigned: here 5 is stored and 1 is
// assigned. The request is lost before it ran, sent once more, run, and answered with the result of
// that run. This conflicts with the foreign version, which the lane takes for its own: the operation
// counts as applied, and the index never applied it.
#[test]
fn lost_without_the_condition(rt: HostRuntime) {
    let alloc = rt.alloc();
    let mut index = index_at_five(&rt, alloc);
    let lane = lane_of(&rt, alloc, THREE);
    takes_one(&rt, alloc, lane);
    let first = next_of(&rt, lane);
    assert!(rt; lane.lost(first, Loss::Closed).is_ok());
    lane.tick();
    let second = next_of(&rt, lane);
    let outcome = run_first(&rt, alloc, lane, second, &mut index);
    let counts = settle_with(&rt, alloc, lane, second, outcome);
    assert!(rt; counts.already == 1 && counts.reported == 0);
    assert!(rt; lane.held() == 0 && lane.reports().is_empty());
    assert!(rt; index.applied(&key_of(&rt, alloc, "1")).len() == 1);
    mem::forget(index);
}
