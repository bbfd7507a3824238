//! Counted wires.
use relay_fixtures::asking::{Told, asks};
use relay_fixtures::index_wire::{Way, wire_of};
use relay_lane::Loss;
use relay_progress::{CountedWire, Counts, Shared};
use std::alloc::Global;
use std::process::Abort;
use std::sync::Arc;

/// What a counted wire returns for a delete.
pub fn asks_counted(alloc: Global, way: Way, counts: Option<Shared>) -> Told {
    let mut wire = CountedWire::new(alloc, wire_of(alloc, way), counts);
    asks(alloc, &mut wire, 1, "2", 7)
}

// What a counted wire returns for a delete, and its counts.
fn counted_by(rt: &(impl Abort + AllocGlobal), way: Way) -> (Told, Shared) {
    let counts = Counts::shared(rt.alloc()).expect(rt, "memory");
    let shared = Arc::try_clone(&counts).expect(rt, "a handle");
    let told = asks_counted(rt.alloc(), way, Some(shared));
    (told, counts)
}

// The same, and how many requests, operations, answers and ends are counted, and how many operations
// are settled, are refused and are neither.
fn counted(rt: &(impl Abort + AllocGlobal), way: Way) -> (Told, [u64; 7]) {
    let (told, counts) = counted_by(rt, way);
    let found = [
        counts.requests(),
        counts.operations(),
        counts.answers(),
        counts.ended(),
        counts.settled(),
        counts.refused(),
        counts.repeats(),
    ];
    (told, found)
}

// What a wire does, what it returns, and the counts: requests, operations, answers, ends, operations
// settled, refused, and others.
const ROWS: &[(Way, Told, [u64; 7])] = &[
    (
        Way::Answers(200),
        Told::Entries(1, 200),
        [1, 1, 1, 1, 1, 0, 0],
    ),
    (
        Way::Answers(404),
        Told::Entries(1, 404),
        [1, 1, 1, 1, 1, 0, 0],
    ),
    (
        Way::Answers(400),
        Told::Entries(1, 400),
        [1, 1, 1, 1, 0, 1, 0],
    ),
    (
        Way::Answers(409),
        Told::Entries(1, 409),
        [1, 1, 1, 1, 1, 0, 0],
    ),
    (
        Way::Answers(429),
        Told::Entries(1, 429),
        [1, 1, 1, 1, 0, 0, 1],
    ),
    (
        Way::Answers(503),
        Told::Entries(1, 503),
        [1, 1, 1, 1, 0, 0, 1],
    ),
    (Way::Whole(400), Told::Whole(400), [1, 1, 1, 1, 0, 1, 0]),
    (Way::Whole(413), Told::Whole(413), [1, 1, 1, 1, 0, 1, 0]),
    (Way::Whole(429), Told::Whole(429), [1, 1, 1, 1, 0, 0, 1]),
    (Way::Whole(502), Told::Whole(502), [1, 1, 1, 1, 0, 0, 1]),
    (Way::Whole(503), Told::Whole(503), [1, 1, 1, 1, 0, 0, 1]),
    (Way::Whole(504), Told::Whole(504), [1, 1, 1, 1, 0, 0, 1]),
    (Way::Loses, Told::Fault(Loss::Closed), [1, 1, 0, 1, 0, 0, 1]),
    (
        Way::FailsSend(1, Loss::Unreachable),
        Told::Fault(Loss::Unreachable),
        [1, 1, 0, 1, 0, 0, 1],
    ),
];

#[test]
fn requests_that_were_sent(rt: HostRuntime) {
    for (way, told, wanted) in ROWS {
        assert!(rt; counted(&rt, *way) == (*told, *wanted), "{way:?}");
    }
}

// The status of an answer: entries come with 200.
fn status_of(told: Told) -> Option<u16> {
    match told {
        Told::Entries(_, _) => Some(200),
        Told::Whole(status) => Some(status),
        _ => None,
    }
}

// Whether a status is counted exactly if the answer has it.
fn counts_its_status(rt: &(impl Abort + AllocGlobal), way: Way, told: Told) -> bool {
    let (_, counts) = counted_by(rt, way);
    [99u16, 100, 200, 400, 413, 429, 502, 503, 504, 599, 600]
        .iter()
        .all(|status| counts.answered_with(*status) == u64::from(status_of(told) == Some(*status)))
}

#[test]
fn statuses_of_answers(rt: HostRuntime) {
    for (way, told, _) in ROWS {
        assert!(rt; counts_its_status(&rt, *way, *told), "{way:?}");
    }
}

#[test]
fn a_wire_that_nothing_counts(rt: HostRuntime) {
    assert!(rt; asks_counted(rt.alloc(), Way::Answers(200), None) == Told::Entries(1, 200));
}
