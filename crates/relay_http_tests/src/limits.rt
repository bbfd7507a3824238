//! Messages at their limits, and one beyond them.
ghost use Rattle.std.specs.Prelude.{◌<◌};

use crate::reading::{PIECES, Reply, reads_reply};
use relay_http::HttpFault;
use std::alloc::Global;
use std::process::Abort;

// A row: a front, a text that is repeated after it, how often, a back, and the result of reading
// all of it.
type Row<'a> = (&'a [u8], &'a [u8], usize, &'a [u8], Reply<'a>);

// The text of a row.
fn text_of(rt: &impl Abort, alloc: Global, row: Row) -> Vec<u8> {
    let mut text = row.0.to_vec(alloc).expect(rt, "memory");
    for _ in 0..row.2 {
        text.extend_from_slice(row.1).expect(rt, "memory");
    }
    text.extend_from_slice(row.3).expect(rt, "memory");
    text
}

// Whether reading the text of each row has its result.
fn are_read(rt: &impl Abort, alloc: Global, rows: &[Row], piece: usize) -> bool
    requires { 0 < piece }
{
    for row in rows {
        let text = text_of(rt, alloc, *row);
        if !reads_reply(rt, alloc, text.as_slice(), piece, row.4) {
            return false;
        }
    }
    true
}

// 20 bytes, the repeated ones, and 23 bytes to the end of the head: 16,384 with 16,341 of them
const HEADS: &[Row] = &[
    (
        b"HTTP/1.1 200 OK\r\nX: ",
        b"a",
        16_341,
        b"\r\nContent-Length: 2\r\n\r\nok",
        Ok((200, b"ok", true)),
    ),
    (
        b"HTTP/1.1 200 OK\r\nX: ",
        b"a",
        16_342,
        b"\r\nContent-Length: 2\r\n\r\nok",
        Err(HttpFault::HeadLong),
    ),
    (
        b"HTTP/1.1 200 OK\r\nX: ",
        b"a",
        16_364,
        b"",
        Err(HttpFault::HeadLong),
    ),
    (
        b"HTTP/1.1 200 OK\r\nX: ",
        b"a",
        16_364,
        b"aaaa\r\nContent-Length: 2\r\n\r\nok",
        Err(HttpFault::HeadLong),
    ),
    (
        b"HTTP/1.1 200 OK\r\nX: ",
        b"a",
        16_363,
        b"",
        Err(HttpFault::Ended),
    ),
    (
        b"HTTP/1.1 200 OK\r\n",
        b"X: a\r\n",
        63,
        b"Content-Length: 2\r\n\r\nok",
        Ok((200, b"ok", true)),
    ),
    (
        b"HTTP/1.1 200 OK\r\n",
        b"X: a\r\n",
        64,
        b"Content-Length: 2\r\n\r\nok",
        Err(HttpFault::HeadLong),
    ),
];

// Empty lines before a head, after each of which it is parsed again.
const EMPTY_LINES: &[Row] = &[(
    b"",
    b"\n",
    16_384,
    b"HTTP/1.1 200 OK\r\nContent-Length: 2\r\n\r\nok",
    Err(HttpFault::HeadLong),
)];

#[test]
fn heads_at_their_limits(rt: HostRuntime) {
    for piece in PIECES {
        assert!(rt; are_read(&rt, rt.alloc(), HEADS, piece));
    }
    for piece in [100, 100_000] {
        assert!(rt; are_read(&rt, rt.alloc(), EMPTY_LINES, piece));
    }
}

const INTERIM_HEADS: &[Row] = &[
    (
        b"",
        b"HTTP/1.1 102 Processing\r\n\r\n",
        8,
        b"HTTP/1.1 204 \r\n\r\n",
        Ok((204, b"", true)),
    ),
    (
        b"",
        b"HTTP/1.1 102 Processing\r\n\r\n",
        9,
        b"HTTP/1.1 204 \r\n\r\n",
        Err(HttpFault::TooManyInterim),
    ),
    (
        b"",
        b"HTTP/1.1 102 Processing\r\n\r\n",
        8,
        b"",
        Err(HttpFault::Ended),
    ),
];

#[test]
fn interim_heads_at_their_limit(rt: HostRuntime) {
    for piece in PIECES {
        assert!(rt; are_read(&rt, rt.alloc(), INTERIM_HEADS, piece));
    }
}

const CHUNKS: &[Row] = &[
    (
        b"HTTP/1.1 200 OK\r\nTransfer-Encoding: chunked\r\n\r\n2;",
        b"a",
        252,
        b"\r\nok\r\n0\r\n\r\n",
        Ok((200, b"ok", true)),
    ),
    (
        b"HTTP/1.1 200 OK\r\nTransfer-Encoding: chunked\r\n\r\n2;",
        b"a",
        253,
        b"\r\nok\r\n0\r\n\r\n",
        Err(HttpFault::HeadLong),
    ),
    (
        b"HTTP/1.1 200 OK\r\nTransfer-Encoding: chunked\r\n\r\n0\r\n",
        b"X: a\r\n",
        64,
        b"\r\n",
        Ok((200, b"", true)),
    ),
    (
        b"HTTP/1.1 200 OK\r\nTransfer-Encoding: chunked\r\n\r\n0\r\n",
        b"X: a\r\n",
        65,
        b"\r\n",
        Err(HttpFault::HeadLong),
    ),
    (
        b"HTTP/1.1 200 OK\r\nTransfer-Encoding: chunked\r\n\r\n0\r\nX: ",
        b"a",
        16_377,
        b"\r\n\r\n",
        Ok((200, b"", true)),
    ),
    (
        b"HTTP/1.1 200 OK\r\nTransfer-Encoding: chunked\r\n\r\n0\r\nX: ",
        b"a",
        16_378,
        b"\r\n\r\n",
        Err(HttpFault::HeadLong),
    ),
];

#[test]
fn chunks_at_their_limits(rt: HostRuntime) {
    for piece in PIECES {
        assert!(rt; are_read(&rt, rt.alloc(), CHUNKS, piece));
    }
}
