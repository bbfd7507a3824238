//! Lanes with replies that are refused and streams that fail.

use crate::wires::desk::numbered;
use crate::wires::drains::{Came, drained};
use crate::wires::streams::wired_failing;
use relay_fixtures::desk::Desk;
use relay_results::Cause;
use std::alloc::Global;
use std::mem;
use std::process::Abort;

// A reply that settles a delete of the document `1`, in chunks after an interim head, and in the
// usual form.
const CHUNKED: &[u8] =
    b"HTTP/1.1 100 Continue\r\n\r\nHTTP/1.1 200 OK\r\nTransfer-Encoding: chunked\r\n\r\n5\r\n{\"ite\r\n2A\r\nms\":[{\"delete\":{\"_id\":\"1\",\"status\":200}}]}\r\n0\r\n\r\n";

const USUAL: &[u8] =
    b"HTTP/1.1 200 OK\r\nContent-Length: 47\r\n\r\n{\"items\":[{\"delete\":{\"_id\":\"1\",\"status\":200}}]}";

// The outcome of a drain, and how often the operation was sent, if it was given up.
type End = (Came, Option<u32>);

// The operation is applied at the first try, or at the second.
const AT_ONCE: End = (
    Came {
        requests: 1,
        pauses: 0,
        ticks: 0,
        applied: 1,
        already: 0,
        reports: 0,
    },
    None,
);

const AGAIN: End = (
    Came {
        requests: 2,
        pauses: 1,
        ticks: 1,
        applied: 1,
        already: 0,
        reports: 0,
    },
    None,
);

// It is given up after its three tries.
const GIVEN_UP: End = (
    Came {
        requests: 3,
        pauses: 2,
        ticks: 3,
        applied: 0,
        already: 0,
        reports: 1,
    },
    Some(3),
);

// How often the first reported operation was sent, if it was given up.
fn sends(desk: &Desk) -> Option<u32> {
    match desk.lane.reports().first()?.cause {
        Cause::GaveUp { sends, .. } => Some(sends),
        _ => None,
    }
}

// The outcome of a delete of the document `1` over streams with these bytes that move a few at a
// time, of the first of which one call fails; 0 means none.
fn ends(rt: &impl Abort, alloc: Global, inputs: &[&[u8]], piece: usize, fails_at: u64) -> End {
    let mut wire = wired_failing(rt, alloc, inputs, piece, fails_at);
    let mut desk = numbered(alloc, 1).expect(rt, "a lane");
    let came = drained(rt, &mut desk, &mut wire);
    mem::forget(wire);
    (came, sends(&desk))
}

// Whether an operation with this single reply is applied at the second try, over another
// connection, and one with no other reply is given up.
fn is_refused(rt: &impl Abort, alloc: Global, reply: &[u8], piece: usize) -> bool {
    ends(rt, alloc, &[reply, USUAL], piece, 0) == AGAIN
        && ends(rt, alloc, &[reply, reply, reply], piece, 0) == GIVEN_UP
}

#[test]
fn a_reply_cut_anywhere(rt: HostRuntime) {
    for length in 0..CHUNKED.len() {
        for piece in [1, 1000] {
            assert!(rt;
                is_refused(&rt, rt.alloc(), &CHUNKED[..length], piece),
                "{length}"
            );
        }
    }
    assert!(rt; ends(&rt, rt.alloc(), &[CHUNKED], 1, 0) == AT_ONCE);
}

// The first text, the second one repeated, and the third.
type Row<'a> = (&'a [u8], &'a [u8], usize, &'a [u8]);

// The reply of a row.
fn repeated(rt: &impl Abort, alloc: Global, row: Row) -> Vec<u8> {
    let mut text = row.0.to_vec(alloc).expect(rt, "memory");
    for _ in 0..row.2 {
        text.extend_from_slice(row.1).expect(rt, "memory");
    }
    text.extend_from_slice(row.3).expect(rt, "memory");
    text
}

const REFUSED: &[Row] = &[
    // A head without an end, too many fields in a head and in a trailer, and too many interim
    // heads.
    (
        b"HTTP/1.1 200 OK\r\nX: ",
        b"a",
        16_365,
        b"a\r\nContent-Length: 47\r\n\r\n",
    ),
    (b"HTTP/1.1 204 No Content\r\n", b"X: a\r\n", 65, b"\r\n"),
    (
        b"HTTP/1.1 200 OK\r\nTransfer-Encoding: chunked\r\n\r\n0\r\n",
        b"X: a\r\n",
        65,
        b"\r\n",
    ),
    (
        b"",
        b"HTTP/1.1 102 Processing\r\n\r\n",
        9,
        b"HTTP/1.1 204 No Content\r\n\r\n",
    ),
    // Chunks that are too long or have no size, and lengths that are invalid or differ.
    (
        b"HTTP/1.1 200 OK\r\nTransfer-Encoding: chunked\r\n\r\n",
        b"4000001\r\n",
        1,
        b"{}\r\n",
    ),
    (
        b"HTTP/1.1 200 OK\r\nTransfer-Encoding: chunked\r\n\r\n",
        b"zz\r\n",
        1,
        b"0\r\n\r\n",
    ),
    (
        b"HTTP/1.1 200 OK\r\nContent-Length: ",
        b"2, 3",
        1,
        b"\r\n\r\nok",
    ),
    (
        b"HTTP/1.1 200 OK\r\nContent-Length: ",
        b"+2",
        1,
        b"\r\n\r\nok",
    ),
    (
        b"HTTP/1.1 200 OK\r\nContent-Length: ",
        b"-2",
        1,
        b"\r\n\r\nok",
    ),
    (
        b"HTTP/1.1 200 OK\r\nContent-Length: ",
        b"0x2",
        1,
        b"\r\n\r\nok",
    ),
    (
        b"HTTP/1.1 200 OK\r\nContent-Length: ",
        b"1 2",
        1,
        b"\r\n\r\n{\"items\":[]}",
    ),
    (
        b"HTTP/1.1 200 OK\r\nContent-Length: ",
        b"67108865",
        1,
        b"\r\n\r\n",
    ),
    // Codings.
    (
        b"HTTP/1.1 200 OK\r\nTransfer-Encoding: ",
        b"gzip, chunked",
        1,
        b"\r\n\r\n0\r\n\r\n",
    ),
    (
        b"HTTP/1.1 200 OK\r\n",
        b"Transfer-Encoding: chunked\r\n",
        2,
        b"\r\n0\r\n\r\n",
    ),
    (
        b"HTTP/1.1 200 OK\r\nContent-Encoding: gzip\r\n",
        b"Content-Length: 2\r\n",
        1,
        b"\r\nok",
    ),
    (
        b"HTTP/1.1 200 OK\r\nTransfer-Encoding: chunked\r\n",
        b"Content-Length: 2\r\n",
        1,
        b"\r\nok",
    ),
    // A status that is not final, a continued line and a NUL in a field.
    (b"HTTP/1.1 101 Switching Protocols\r\n\r\n", b"", 0, b""),
    (
        b"HTTP/1.1 204 No Content\r\nX: a\r\n",
        b" b\r\n",
        1,
        b"\r\n",
    ),
    (b"HTTP/1.1 204 No Content\r\nX: a", b"\0", 1, b"\r\n\r\n"),
    // Bodies that are not replies: a page, an entry with two members, and statuses that do not
    // exist.
    (
        b"HTTP/1.1 200 OK\r\nContent-Length: 13\r\n\r\n",
        b"<html></html>",
        1,
        b"",
    ),
    (
        b"HTTP/1.1 200 OK\r\nContent-Length: 67\r\n\r\n",
        b"{\"items\":[{\"delete\":{\"_id\":\"1\",\"status\":200},\"index\":{\"_id\":\"1\"}}]}",
        1,
        b"",
    ),
    (
        b"HTTP/1.1 200 OK\r\nContent-Length: 46\r\n\r\n",
        b"{\"items\":[{\"delete\":{\"_id\":\"1\",\"status\":99}}]}",
        1,
        b"",
    ),
    (
        b"HTTP/1.1 200 OK\r\nContent-Length: 47\r\n\r\n",
        b"{\"items\":[{\"delete\":{\"_id\":\"1\",\"status\":600}}]}",
        1,
        b"",
    ),
];

#[test]
fn replies_that_are_refused(rt: HostRuntime) {
    for row in REFUSED {
        let reply = repeated(&rt, rt.alloc(), *row);
        for piece in [1, 1000] {
            assert!(rt;
                is_refused(&rt, rt.alloc(), reply.as_slice(), piece),
                "{row:?}"
            );
        }
    }
}

// The start of a reply, up to a value that is nested.
const NESTED: &[u8] =
    b"HTTP/1.1 200 OK\r\n\r\n{\"items\":[{\"delete\":{\"_id\":\"1\",\"status\":200}}],\"x\":";

// A reply whose JSON is nested this deep: arrays in an object.
fn nested(rt: &impl Abort, alloc: Global, depth: usize) -> Vec<u8> {
    let mut text = NESTED.to_vec(alloc).expect(rt, "memory");
    for _ in 1..depth {
        text.push(b'[').expect(rt, "memory");
    }
    for _ in 1..depth {
        text.push(b']').expect(rt, "memory");
    }
    text.push(b'}').expect(rt, "memory");
    text
}

// The outcome of an operation with such a reply and the usual one.
fn ends_nested(rt: &impl Abort, alloc: Global, depth: usize) -> End {
    let reply = nested(rt, alloc, depth);
    ends(rt, alloc, &[reply.as_slice(), USUAL], 1000, 0)
}

#[test]
fn replies_that_are_nested(rt: HostRuntime) {
    assert!(rt; ends_nested(&rt, rt.alloc(), 127) == AT_ONCE);
    assert!(rt; ends_nested(&rt, rt.alloc(), 128) == AGAIN);
}

const ACCEPTED: &[&[u8]] = &[
    // Lengths that agree, names in any case, a body without coding, and line ends of a lone line
    // feed.
    b"HTTP/1.1 200 OK\r\nContent-Length: 47, 47\r\n\r\n{\"items\":[{\"delete\":{\"_id\":\"1\",\"status\":200}}]}",
    b"HTTP/1.1 200 OK\r\nCONTENT-LENGTH: 47\r\ncontent-length:047\r\n\r\n{\"items\":[{\"delete\":{\"_id\":\"1\",\"status\":200}}]}",
    b"HTTP/1.1 200 OK\r\nContent-Encoding: identity\r\nContent-Length: 47\r\n\r\n{\"items\":[{\"delete\":{\"_id\":\"1\",\"status\":200}}]}",
    b"HTTP/1.1 200 OK\nContent-Length: 47\n\n{\"items\":[{\"delete\":{\"_id\":\"1\",\"status\":200}}]}",
];

#[test]
fn replies_that_are_accepted(rt: HostRuntime) {
    for reply in ACCEPTED {
        for piece in [1, 1000] {
            assert!(rt; ends(&rt, rt.alloc(), &[*reply], piece, 0) == AT_ONCE);
        }
    }
}

// The request has 176 bytes: 26 writes of at most 7.
const WRITES: u64 = 26;

#[test]
fn each_call_of_a_stream_fails_in_turn(rt: HostRuntime) {
    let calls = WRITES + (CHUNKED.len() as u64).div_ceil(7);
    for fails_at in 1..=calls {
        assert!(rt;
            ends(&rt, rt.alloc(), &[CHUNKED, USUAL], 7, fails_at) == AGAIN,
            "{fails_at}"
        );
    }
    assert!(rt; ends(&rt, rt.alloc(), &[CHUNKED], 7, calls + 1) == AT_ONCE);
}
