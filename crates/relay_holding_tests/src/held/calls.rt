//! Each call once.
use crate::held::desk::{
    Desk, empty_desk, halve, key_of, land, launch, push, take, tick, version_at,
};
use relay_held::Spot;
use std::alloc::Global;
use std::process::Abort;

// What happens to an operation after it is sent.
#[derive(Clone, Copy)]
enum After {
    Flies,
    /// It waits until this tick.
    Waits(u64),
    /// It waits until this tick, under this cap.
    WaitsUnder(u64, u32),
}

// Ticks pass until this one.
fn ticks_to(desk: &mut Desk, clock: u64) {
    for _ in desk.held.clock()..clock {
        tick(desk);
    }
}

// Sends the first operation that may be sent at a tick, and returns the version of its write.
fn sends(rt: &impl Abort, desk: &mut Desk, clock: u64, after: After) -> u64 {
    ticks_to(desk, clock);
    let write = launch(desk, 7, 2).expect(rt, "a write");
    let version = write.version;
    let landed = match after {
        After::Flies => true,
        After::Waits(due) => land(desk, due, write),
        After::WaitsUnder(due, cap) => halve(desk, due, cap, write),
    };
    assert!(rt; landed);
    version
}

// A held operation: version, the clock of its first send, due tick, cap, sends, attempts, and its place
// in flight.
type First = (u64, u64, u64, u32, u32, u32, Option<Spot>);

// The first operation of a document.
fn first_of(rt: &impl Abort, alloc: Global, desk: &Desk, document: u64) -> First {
    let key = key_of(alloc, document).expect(rt, "a key");
    let one = desk.held.first(&key).expect(rt, "an operation");
    (
        one.version,
        one.since,
        one.due,
        one.cap,
        one.sends,
        one.attempts,
        one.flies,
    )
}

// Sends what may be sent, and takes out the first operation of a document, whose number is its version.
fn takes(rt: &impl Abort, alloc: Global, desk: &mut Desk, document: u64) -> Option<u64> {
    let _ = launch(desk, 0, 0);
    let key = key_of(alloc, document).expect(rt, "a key");
    Some(take(desk, &key)?.number)
}

// Two operations of document 0, and one of document 1 that is due at tick 5.
fn three(rt: &impl Abort, alloc: Global) -> Desk {
    let mut three = empty_desk(alloc);
    assert!(rt;
        push(alloc, &mut three, 0, 0)
            && push(alloc, &mut three, 0, 0)
            && push(alloc, &mut three, 1, 5)
    );
    three
}

// At some ticks, the versions of the first two operations that may be sent, 0 if there is none, and how many looks there were by then.
const OFFERED: &[(u64, [u64; 2], u64)] = &[(0, [1, 0], 1), (4, [1, 0], 2), (5, [1, 3], 4)];

// Each row is so, one after another.
fn offer_each(rt: &impl Abort, desk: &mut Desk, rows: &[(u64, [u64; 2], u64)]) {
    for (clock, wanted, looks) in rows {
        ticks_to(desk, *clock);
        assert!(rt; desk.held.clock() == *clock && desk.held.due_in() == Some(0));
        let offered = [version_at(desk, 0), version_at(desk, 1)];
        assert!(rt; offered == *wanted && desk.held.looks() == *looks);
    }
}

#[test]
fn who_may_be_sent(rt: HostRuntime) {
    let mut desk = three(&rt, rt.alloc());
    assert!(rt; desk.held.len() == 3 && desk.held.documents() == 2);
    offer_each(&rt, &mut desk, OFFERED);
}

// A tick at which the first operation is sent, what happens to it then, its version, its document and
// what that has first, and in how many ticks one is due.
type Sending = (u64, After, u64, u64, First, u64);

const SENT: &[Sending] = &[
    (
        4,
        After::Flies,
        1,
        0,
        (
            1,
            4,
            0,
            10,
            1,
            1,
            Some(Spot {
                request: 7,
                place: 2,
            }),
        ),
        1,
    ),
    (5, After::Waits(9), 3, 1, (3, 5, 9, 10, 1, 1, None), 4),
    (
        9,
        After::WaitsUnder(9, 4),
        3,
        1,
        (3, 5, 9, 4, 2, 1, None),
        0,
    ),
];

// Each row is so, one after another.
fn send_each(rt: &impl Abort, alloc: Global, desk: &mut Desk, rows: &[Sending]) {
    for (clock, after, version, document, first, due) in rows {
        assert!(rt;
            sends(rt, desk, *clock, *after) == *version
                && first_of(rt, alloc, desk, *document) == *first
                && desk.held.due_in() == Some(*due)
        );
    }
}

#[test]
fn sent_and_back(rt: HostRuntime) {
    let mut desk = three(&rt, rt.alloc());
    send_each(&rt, rt.alloc(), &mut desk, SENT);
}

// A document, the number of the operation that is taken out of it, and how many operations and
// documents are left.
const TAKEN: &[(u64, Option<u64>, (usize, usize))] = &[
    (0, Some(1), (2, 2)),
    (0, Some(2), (1, 1)),
    (0, None, (1, 1)),
    (1, Some(3), (0, 0)),
];

// Each row is so, one after another.
fn take_each(
    rt: &impl Abort,
    alloc: Global,
    desk: &mut Desk,
    rows: &[(u64, Option<u64>, (usize, usize))],
) {
    for (document, number, left) in rows {
        assert!(rt;
            takes(rt, alloc, desk, *document) == *number
                && (desk.held.len(), desk.held.documents()) == *left
        );
    }
}

#[test]
fn taken_out(rt: HostRuntime) {
    let mut desk = three(&rt, rt.alloc());
    ticks_to(&mut desk, 5);
    take_each(&rt, rt.alloc(), &mut desk, TAKEN);
}
