//! Several requests in flight over a wire in memory: what is sent and received, in which order.
ghost use Rattle.std.specs.Prelude.{◌≡◌, []};
ghost use Rattle.relay_wires.specs.Numbers.{numbers};

use crate::wires::desk::CONFIG;
use crate::wires::loops::looped;
use relay_batch::Limits;
use relay_fixtures::desk::{closes, filled};
use relay_fixtures::notes::NO_PAUSES;
use relay_fixtures::watched::{Watch, Watched};
use relay_lane::{RelayConfig, collect, drain, pump};
use relay_loop::LoopWire;
use std::alloc::Global;
use std::mem;
use std::process::Abort;

// What a wire did: a request's number when it was sent, and a negative number when it was received.
#[derive(Drop)]
struct Calls {
    notes: [i64; 16],
    count: usize,
}

impl Calls {
    fn note(&mut self, what: i64) {
        if self.count < 16 {
            self.notes[self.count] = what;
            self.count += 1;
        }
    }
}

impl Watch for Calls {
    fn before_send(&mut self, number: u64) {
        self.note(number.min(1_000) as i64);
    }

    fn before_receive(&mut self, number: u64) {
        self.note(-(number.min(1_000) as i64));
    }
}

// A wire in memory that records what it does.
type Noting = Watched<LoopWire, Calls>;

// One operation per request, and this many requests in flight.
const fn one_each(in_flight: u32) -> RelayConfig {
    RelayConfig {
        limits: Limits {
            count: 1,
            ..CONFIG.limits
        },
        in_flight,
        ..CONFIG
    }
}

// Such a wire to an empty index that loses the reply to one number.
fn wire_of(rt: &impl Abort, alloc: Global, lost: u64) -> Noting
    ensures { numbers result.wire.out ≡ [] }
{
    Watched {
        wire: looped(rt, alloc, lost),
        watch: Calls {
            notes: [0; 16],
            count: 0,
        },
    }
}

// What was sent and received.
#[derive(Clone, Copy)]
struct Noted {
    notes: [i64; 16],
    // How many requests were sent by the call, or were still in flight.
    first: u64,
    then: u64,
    pauses: u64,
}

// A pump and a collect, with deletes of these documents.
fn pumped(rt: &impl Abort, alloc: Global, in_flight: u32, ids: &[&str]) -> Noted {
    let mut desk = filled(alloc, one_each(in_flight), ids, "").expect(rt, "memory");
    let mut wire = wire_of(rt, alloc, 0);
    let mut pace = NO_PAUSES;
    let sent = pump(&mut desk.lane, &mut wire, &mut pace).expect(rt, "memory");
    let collected = collect(&mut desk.lane, &mut wire, &mut pace);
    let notes = wire.watch.notes;
    mem::forget(wire);
    Noted {
        notes,
        first: sent,
        then: collected,
        pauses: 0,
    }
}

// A drain of deletes of these documents, with the reply to one number lost.
fn drained(rt: &impl Abort, alloc: Global, in_flight: u32, ids: &[&str], lost: u64) -> Noted {
    let mut desk = filled(alloc, one_each(in_flight), ids, "").expect(rt, "memory");
    let mut wire = wire_of(rt, alloc, lost);
    let mut pace = NO_PAUSES;
    assert!(rt; closes(&mut desk));
    assert!(rt; desk.lane.closed());
    drain(&mut desk.lane, &mut wire, &mut pace).expect(rt, "memory");
    let notes = wire.watch.notes;
    mem::forget(wire);
    Noted {
        notes,
        first: desk.lane.totals().requests,
        then: desk.lane.flying() as u64,
        pauses: pace.pauses,
    }
}

// Whether these are the records, followed by 0.
fn are(notes: [i64; 16], some: &[i64]) -> bool {
    for i in 0..16usize {
        let wanted = if i < some.len() { some[i] } else { 0 };
        if notes[i] != wanted {
            return false;
        }
    }
    true
}

const PUMPS: &[(u32, &[&str], &[i64], u64, u64)] = &[
    // The oldest is answered if no place is free.
    (
        2,
        &["1", "2", "3", "4"],
        &[1, 2, -1, 3, -2, 4, -3, -4],
        4,
        1,
    ),
    // All of them are in flight together.
    (
        8,
        &["1", "2", "3", "4"],
        &[1, 2, 3, 4, -1, -2, -3, -4],
        4,
        4,
    ),
    // One at a time.
    (1, &["1", "2", "3"], &[1, -1, 2, -2, 3, -3], 3, 0),
    // The next operation of a document waits for the one in flight.
    (2, &["1", "1", "2"], &[1, 2, -1, 3, -2, -3], 3, 1),
    (8, &["1", "1"], &[1, -1], 1, 1),
];

const DRAINS: &[(u32, &[&str], u64, &[i64], u64, u64)] = &[
    // Everything in flight is answered before a pause.
    (2, &["1", "2"], 1, &[1, 2, -1, -2, 3, -3], 3, 1),
    (8, &["1", "2", "3"], 2, &[1, 2, 3, -1, -2, -3, 4, -4], 4, 1),
    // What an answer frees is sent immediately.
    (8, &["1", "1", "2"], 0, &[1, 2, -1, 3, -2, -3], 3, 0),
];

#[test]
fn sends_while_a_place_is_free(rt: HostRuntime) {
    for (in_flight, ids, notes, sent, collected) in PUMPS {
        let noted = pumped(&rt, rt.alloc(), *in_flight, *ids);
        assert!(rt;
            are(noted.notes, *notes) && noted.first == *sent && noted.then == *collected,
            "{notes:?}"
        );
    }
}

#[test]
fn answers_come_before_a_pause(rt: HostRuntime) {
    for (in_flight, ids, lost, notes, requests, pauses) in DRAINS {
        let noted = drained(&rt, rt.alloc(), *in_flight, *ids, *lost);
        let counts = (noted.first, noted.then, noted.pauses);
        assert!(rt;
            are(noted.notes, *notes) && counts == (*requests, 0, *pauses),
            "{notes:?}"
        );
    }
}
