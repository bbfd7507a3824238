//! The target of a PUT at the front, which stays there.
ghost use Rattle.std.specs.Prelude.{◌<◌};

use crate::reading::{gives_request, over};
use relay_action::MemStream;
use relay_http::{Conn, HttpFault};
use std::alloc::Global;
use std::process::Abort;

// What is peeked: the target of a PUT, another method, or a fault.
#[derive(Clone, Copy)]
enum Peeked<'a> {
    Target(&'a [u8]),
    Other,
    Fault(HttpFault),
}

// Whether the request at the front of a connection has this target.
fn peeks(alloc: Global, conn: &mut Conn<MemStream>, wanted: Peeked<'_>) -> bool {
    match (conn.peek_put(alloc), wanted) {
        (Ok(Some(target)), Peeked::Target(right)) => target.as_slice() == right,
        (Ok(None), Peeked::Other) => true,
        (Err(fault), Peeked::Fault(right)) => fault == right,
        _ => false,
    }
}

const PUT: &[u8] = b"PUT /i/_doc/%C3%BC HTTP/1.1\r\nHost: h\r\nContent-Length: 2\r\n\r\n{}";

const POST: &[u8] = b"POST /_bulk HTTP/1.1\r\nContent-Length: 2\r\n\r\n{}";

const LOWER: &[u8] = b"put /i/_doc/1 HTTP/1.1\r\nContent-Length: 2\r\n\r\n{}";

const BLANK: &[u8] =
    b"\r\n\r\nPUT * HTTP/1.1\r\nConnection: keep-alive\r\nContent-Length: 2\r\n\r\n{}";

// A request, what is peeked of it, and whether it is a bulk request; each has the body `{}`.
const ROWS: &[(&[u8], Peeked<'_>, bool)] = &[
    (PUT, Peeked::Target(b"/i/_doc/%C3%BC"), false),
    (POST, Peeked::Other, true),
    (LOWER, Peeked::Other, false),
    (BLANK, Peeked::Target(b"*"), false),
];

// Whether this is peeked, twice, and the request is read after it.
fn stays(
    rt: &impl Abort,
    alloc: Global,
    bytes: &[u8],
    piece: usize,
    wanted: Peeked<'_>,
    bulk: bool,
) -> bool
    requires { 0 < piece }
{
    let mut conn = over(rt, alloc, bytes, piece);
    peeks(alloc, &mut conn, wanted)
        && peeks(alloc, &mut conn, wanted)
        && gives_request(alloc, &mut conn, Ok(Some((bulk, b"{}", true))))
}

#[test]
fn targets_of_puts(rt: HostRuntime) {
    for (bytes, wanted, bulk) in ROWS {
        for piece in [1, 1000] {
            assert!(rt; stays(&rt, rt.alloc(), *bytes, piece, *wanted, *bulk));
        }
    }
}

// Bytes without a head, and the fault.
const FAULTS: &[(&[u8], HttpFault)] = &[
    (b"", HttpFault::Ended),
    (b"PUT /i/_doc/1 HTTP/1.1\r\nHost: h\r\n", HttpFault::Ended),
    (b"PUT /i/_doc/1\r\n\r\n", HttpFault::Malformed),
];

// Whether peeking has this fault, and the connection is broken after it.
fn breaks(rt: &impl Abort, alloc: Global, bytes: &[u8], fault: HttpFault) -> bool {
    let mut conn = over(rt, alloc, bytes, 7);
    peeks(alloc, &mut conn, Peeked::Fault(fault))
        && !conn.is_open()
        && peeks(alloc, &mut conn, Peeked::Fault(HttpFault::Broken))
}

#[test]
fn no_head_to_peek(rt: HostRuntime) {
    for (bytes, fault) in FAULTS {
        assert!(rt; breaks(&rt, rt.alloc(), *bytes, *fault));
    }
}
