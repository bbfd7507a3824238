//! Free connections on which something unrequested arrived.
ghost use Rattle.std.specs.Prelude.{◌≡◌, []};

use crate::wires::streams::{BUSY, is_answered};
use crate::wires::turns::{Turns, turned};
use relay_fixtures::asking::{Told, asks};
use relay_lane::{Loss, Wire};
use std::alloc::Global;
use std::mem;
use std::process::Abort;

// 40 bytes, as `BUSY`: a reply read in pieces of 8 or 20 bytes ends with a read.
const GATE: &[u8] = b"HTTP/1.1 502 Gate\r\nContent-Length: 0\r\n\r\n";

const BUSY_TWICE: &[u8] =
    b"HTTP/1.1 503 Busy\r\nContent-Length: 0\r\n\r\nHTTP/1.1 503 Busy\r\nContent-Length: 0\r\n\r\n";

const BUSY_AND_HALF: &[u8] =
    b"HTTP/1.1 503 Busy\r\nContent-Length: 0\r\n\r\nHTTP/1.1 503 Busy\r\nConte";

const BUSY_AND_ONE: &[u8] = b"HTTP/1.1 503 Busy\r\nContent-Length: 0\r\n\r\n\n";

// The results of two deletes one after the other over streams with these turns.
fn twice(rt: &impl Abort, alloc: Global, streams: &[Turns<'_>], piece: usize) -> (Told, Told) {
    let mut wire = turned(rt, alloc, streams, piece, 1);
    let first = asks(alloc, &mut wire, 1, "2", 2);
    let second = asks(alloc, &mut wire, 2, "2", 2);
    mem::forget(wire);
    (first, second)
}

const BUSY_THEN_GATE: (Told, Told) = (Told::Whole(503), Told::Whole(502));

const NOT_SENT: Told = Told::Fault(Loss::TimedOut);

const STREAMS: &[(&[Turns<'static>], (Told, Told))] = &[
    // Nothing arrived: the connection is used again, and a second dial would fail.
    (&[&[BUSY, GATE]], BUSY_THEN_GATE),
    // A second reply, half of one, or one byte: the next request gets another connection.
    (&[&[BUSY_TWICE, BUSY], &[GATE]], BUSY_THEN_GATE),
    (&[&[BUSY_AND_HALF, BUSY], &[GATE]], BUSY_THEN_GATE),
    (&[&[BUSY_AND_ONE, BUSY], &[GATE]], BUSY_THEN_GATE),
    (&[&[BUSY_TWICE, BUSY]], (Told::Whole(503), NOT_SENT)),
    // The end arrived.
    (&[&[BUSY], &[GATE]], BUSY_THEN_GATE),
    (&[&[BUSY]], (Told::Whole(503), NOT_SENT)),
];

// Reads that end within a reply, with it, and after it.
const PIECES: [usize; 5] = [1, 7, 8, 40, 1000];

#[test]
fn bytes_that_nobody_asked_for(rt: HostRuntime) {
    for (streams, wanted) in STREAMS {
        for piece in PIECES {
            assert!(rt;
                twice(&rt, rt.alloc(), *streams, piece) == *wanted,
                "{wanted:?} {piece}"
            );
        }
    }
}

// Sends two requests without writes, and receives the reply to the earlier one first.
fn answers_both<W: Wire>(rt: &impl Abort, wire: &mut W)
    requires { W.out wire.old ≡ [] }
    ensures { W.out wire.new ≡ [] }
{
    wire.send(1, &[]).expect(rt, "the first is sent");
    wire.send(2, &[]).expect(rt, "the second is sent");
    assert!(rt; is_answered(wire.receive(1)));
    assert!(rt; is_answered(wire.receive(2)));
}

// The result of a delete over streams with these turns, once two of them are free.
fn after_two(rt: &impl Abort, alloc: Global, streams: &[Turns<'_>], piece: usize) -> Told {
    let mut wire = turned(rt, alloc, streams, piece, 2);
    answers_both(rt, &mut wire);
    let told = asks(alloc, &mut wire, 3, "2", 2);
    mem::forget(wire);
    told
}

const TWO_FREE: &[(&[Turns<'static>], Told)] = &[
    // The one freed last.
    (&[&[BUSY, BUSY], &[BUSY, GATE]], Told::Whole(502)),
    // Something arrived on that one: the other one.
    (&[&[BUSY, GATE], &[BUSY_TWICE, BUSY]], Told::Whole(502)),
    (&[&[BUSY, GATE], &[BUSY]], Told::Whole(502)),
    // On both: a third one.
    (
        &[&[BUSY_AND_HALF, BUSY], &[BUSY_TWICE, BUSY], &[GATE]],
        Told::Whole(502),
    ),
    (&[&[BUSY], &[BUSY_TWICE, BUSY]], NOT_SENT),
];

#[test]
fn the_next_free_one_or_a_dial(rt: HostRuntime) {
    for (streams, wanted) in TWO_FREE {
        for piece in PIECES {
            assert!(rt;
                after_two(&rt, rt.alloc(), *streams, piece) == *wanted,
                "{wanted:?} {piece}"
            );
        }
    }
}
