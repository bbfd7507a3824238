//! One request on one stream: what is written, and what is read.
use crate::epoch::desk::{BODY, REQUEST, Wanted, is_wanted, stream_of};
use relay_epoch::asking::ask;
use relay_epoch::message::put_message;
use std::alloc::Global;

pub const CREATED: &[u8] = b"HTTP/1.1 201 Created\r\nContent-Length: 14\r\n\r\n{\"_version\":1}";

#[test]
fn the_message(rt: HostRuntime) {
    let message = put_message(rt.alloc(), "h:9200", "/relay/_doc/epoch", BODY);
    let same = match &message {
        Ok(text) => text.as_slice() == REQUEST,
        Err(_) => false,
    };
    assert!(rt; same);
}

// Whether a stream with these bytes, of which this call fails, gives this result, and this was
// written to it.
fn gives(alloc: Global, bytes: &[u8], fail_at: u64, wanted: Wanted, written: &[u8]) -> bool {
    let Some(stream) = stream_of(alloc, bytes, fail_at) else {
        return false;
    };
    let (result, stream) = ask(alloc, stream, REQUEST);
    is_wanted(&result, wanted) && stream.written() == written
}

const LOST: Wanted = Wanted::Unreachable;

// What arrives, which call fails, the result, and how much of the request is written. Three calls
// write it, 50 bytes each.
const ROWS: &[(&[u8], u64, Wanted, usize)] = &[
    (CREATED, 0, Wanted::Epoch(1), REQUEST.len()),
    (
        b"HTTP/1.1 100 Continue\r\n\r\nHTTP/1.1 200 OK\r\nContent-Length: 14\r\n\r\n{\"_version\":8}",
        0,
        Wanted::Epoch(8),
        REQUEST.len(),
    ),
    (
        b"HTTP/1.1 200 OK\r\nTransfer-Encoding: chunked\r\n\r\n7\r\n{\"_vers\r\n7\r\nion\":9}\r\n0\r\n\r\n",
        0,
        Wanted::Epoch(9),
        REQUEST.len(),
    ),
    (
        b"HTTP/1.0 200 OK\r\n\r\n{\"_version\":3}",
        0,
        Wanted::Epoch(3),
        REQUEST.len(),
    ),
    (
        b"HTTP/1.1 200 OK\r\nContent-Length: 2\r\n\r\n{}",
        0,
        Wanted::NoVersion,
        REQUEST.len(),
    ),
    (
        b"HTTP/1.1 200 OK\r\nContent-Length: 20\r\n\r\n{\"_version\":4194304}",
        0,
        Wanted::Spent,
        REQUEST.len(),
    ),
    (b"", 0, LOST, REQUEST.len()),
    (b"garbage\r\n\r\n", 0, LOST, REQUEST.len()),
    (
        b"HTTP/1.1 200 OK\r\nContent-Length: 15\r\n\r\n{\"_version\":1}",
        0,
        LOST,
        REQUEST.len(),
    ),
    (
        b"HTTP/1.1 200 OK\r\nContent-Encoding: gzip\r\nContent-Length: 14\r\n\r\n{\"_version\":1}",
        0,
        LOST,
        REQUEST.len(),
    ),
    (CREATED, 1, LOST, 0),
    (CREATED, 2, LOST, 50),
    (CREATED, 4, LOST, REQUEST.len()),
];

#[test]
fn exchanges(rt: HostRuntime) {
    for (bytes, fail_at, wanted, written) in ROWS {
        assert!(rt; gives(rt.alloc(), bytes, *fail_at, *wanted, &REQUEST[..*written]));
    }
}
