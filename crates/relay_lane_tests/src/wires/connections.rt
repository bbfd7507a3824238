//! Connections that are used again or not, dials and streams that fail, and the maximum number of
//! outstanding requests.

use crate::wires::streams::{BUSY, wired};
use relay_fixtures::asking::{Told, asks};
use relay_lane::Loss;
use std::alloc::Global;
use std::mem;
use std::process::Abort;

// Two replies after which the connection may be used again, and one after which it may not.
const KEPT_TWICE: &[u8] =
    b"HTTP/1.1 503 Busy\r\nContent-Length: 0\r\n\r\nHTTP/1.1 502 Bad\r\nContent-Length: 0\r\n\r\n";

const CLOSED: &[u8] =
    b"HTTP/1.1 503 Busy\r\nConnection: close\r\nContent-Length: 0\r\n\r\nHTTP/1.1 502 Bad\r\n\r\n";

// The results of two deletes one after the other, over streams with these bytes.
fn twice(
    rt: &impl Abort,
    alloc: Global,
    inputs: &[&[u8]],
    room: usize,
    fail_at: usize,
) -> (Told, Told) {
    let mut wire = wired(alloc, inputs, room, fail_at, 1).expect(rt, "memory");
    let first = asks(alloc, &mut wire, 1, "2", 2);
    let second = asks(alloc, &mut wire, 2, "2", 2);
    mem::forget(wire);
    (first, second)
}

const NOT_SENT: Told = Told::Fault(Loss::Unreachable);

const REFUSED: Told = Told::Fault(Loss::Refused);

const LOST: Told = Told::Fault(Loss::Closed);

const DIALS: &[(&[&[u8]], usize, usize, (Told, Told))] = &[
    // A stream in memory has all its bytes from the start, and its end after them, so it is not
    // used again.
    (&[KEPT_TWICE], 1000, 0, (Told::Whole(503), NOT_SENT)),
    (
        &[KEPT_TWICE, BUSY],
        1000,
        0,
        (Told::Whole(503), Told::Whole(503)),
    ),
    (&[BUSY, b""], 1000, 0, (Told::Whole(503), LOST)),
    (&[BUSY, BUSY], 1000, 2, (Told::Whole(503), REFUSED)),
    // Nor is one that is closed.
    (&[CLOSED], 1000, 0, (Told::Whole(503), NOT_SENT)),
    (
        &[CLOSED, BUSY],
        1000,
        0,
        (Told::Whole(503), Told::Whole(503)),
    ),
    // After a lost reply it is not used again.
    (&[b"", BUSY], 1000, 0, (LOST, Told::Whole(503))),
    // The first dial is refused, and the second.
    (&[BUSY], 1000, 1, (REFUSED, Told::Whole(503))),
    (&[CLOSED, BUSY], 1000, 2, (Told::Whole(503), REFUSED)),
    // The request has 180 bytes; a stream that takes fewer fails.
    (&[BUSY, BUSY], 180, 0, (Told::Whole(503), Told::Whole(503))),
    (&[KEPT_TWICE, BUSY], 179, 0, (LOST, LOST)),
];

#[test]
fn used_again_or_dialled(rt: HostRuntime) {
    for (inputs, room, fail_at, wanted) in DIALS {
        assert!(rt;
            twice(&rt, rt.alloc(), *inputs, *room, *fail_at) == *wanted,
            "{wanted:?}"
        );
    }
}
