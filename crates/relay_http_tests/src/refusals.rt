//! Messages read and written, with any one of their allocations refused (`make refusals`): the
//! refusal is reported, the connection is broken after it, and another one carries the message.
use crate::large::{request_named, writes_named};
use crate::reading::over_failing;
use relay_action::{MemStream, Write};
use relay_http::{Conn, HttpFault};
use relay_ndjson::bulk_len;
use std::alloc::{AllocError, Global};

fn stream_once(alloc: Global, bytes: &[u8]) -> Option<MemStream> {
    MemStream::new(alloc, bytes.to_vec(alloc).ok()?, 1_000, 7, 0).ok()
}

// A connection over a stream, by a second call over the returned stream if the first was refused.
fn conn_over(alloc: Global, stream: MemStream) -> Option<Conn<MemStream>> {
    match Conn::new(alloc, stream) {
        Ok(conn) => Some(conn),
        Err((AllocError, back)) => Conn::new(alloc, back).ok(),
    }
}

// A connection over a stream with a request.
fn conn_with_request(alloc: Global) -> Option<Conn<MemStream>> {
    let stream = stream_once(alloc, REQUESTS[0]).or_else(|| stream_once(alloc, REQUESTS[0]))?;
    conn_over(alloc, stream)
}

// Whether nothing was read from a connection yet, and the request is read, unless that is refused.
fn is_fresh(alloc: Global, conn: &mut Conn<MemStream>) -> bool {
    let fresh = conn.is_open() && conn.held() == 0;
    match read_request(alloc, conn) {
        Ok(right) => fresh && right,
        Err(fault) => fresh && fault == HttpFault::Memory,
    }
}

// Whether a connection is made, and its stream has what it had before.
fn opens(alloc: Global) -> Option<bool> {
    let mut conn = conn_with_request(alloc)?;
    Some(is_fresh(alloc, &mut conn))
}

#[test]
fn refused_connections(rt: HostRuntime) {
    assert!(rt; opens(rt.alloc()) == Some(true));
}

// A connection over these bytes, whose stream takes `room` bytes.
fn conn_of(alloc: Global, bytes: &[u8], room: usize) -> Option<Conn<MemStream>> {
    match over_failing(alloc, bytes, 7, room, 0) {
        Ok(conn) => Some(conn),
        Err(AllocError) => over_failing(alloc, bytes, 7, room, 0).ok(),
    }
}

/// What is read from a connection: a reply or a request.
#[derive(Clone, Copy)]
enum Side {
    Reply,
    Request,
}

/// A body with a length and one in chunks.
const REPLIES: [&[u8]; 2] = [
    b"HTTP/1.1 200 OK\r\nContent-Length: 70\r\n\r\n0123456789012345678901234567890123456789012345678901234567890123456789",
    b"HTTP/1.1 200 OK\r\nTransfer-Encoding: chunked\r\n\r\n28\r\n0123456789012345678901234567890123456789\r\n1e\r\n012345678901234567890123456789\r\n0\r\n\r\n",
];

const REQUESTS: [&[u8]; 2] = [
    b"POST /_bulk HTTP/1.1\r\nHost: a\r\nContent-Length: 70\r\n\r\n0123456789012345678901234567890123456789012345678901234567890123456789",
    b"POST /_bulk HTTP/1.1\r\nHost: a\r\nTransfer-Encoding: chunked\r\n\r\n28\r\n0123456789012345678901234567890123456789\r\n1e\r\n012345678901234567890123456789\r\n0\r\n\r\n",
];

const BODY: &[u8] = b"0123456789012345678901234567890123456789012345678901234567890123456789";

// Whether the next reply is a 200 with the body.
fn read_reply(alloc: Global, conn: &mut Conn<MemStream>) -> Result<bool, HttpFault> {
    let reply = conn.read_reply(alloc)?;
    Ok(reply.status == 200 && reply.body.as_slice() == BODY && reply.keep)
}

// Whether the next request is a bulk request with the body.
fn read_request(alloc: Global, conn: &mut Conn<MemStream>) -> Result<bool, HttpFault> {
    let Some(request) = conn.read_request(alloc)? else {
        return Ok(false);
    };
    Ok(request.bulk && request.body.as_slice() == BODY && request.keep)
}

fn read(alloc: Global, conn: &mut Conn<MemStream>, side: Side) -> Result<bool, HttpFault> {
    match side {
        Side::Reply => read_reply(alloc, conn),
        Side::Request => read_request(alloc, conn),
    }
}

// Whether a message is read. `Err`: it was refused, with whether the connection is broken then.
fn read_once(alloc: Global, bytes: &[u8], side: Side) -> Option<Result<bool, bool>> {
    let mut conn = conn_of(alloc, bytes, 0)?;
    Some(match read(alloc, &mut conn, side) {
        Err(HttpFault::Memory) => {
            let broken = !conn.is_open();
            Err(broken && read(alloc, &mut conn, side) == Err(HttpFault::Broken))
        }
        found => Ok(found == Ok(true) && conn.is_open() && conn.held() == 0),
    })
}

// Whether a message is read, over another connection if it was refused.
fn reads(alloc: Global, bytes: &[u8], side: Side) -> bool {
    match read_once(alloc, bytes, side) {
        Some(Ok(right)) => right,
        Some(Err(broken)) => broken && read_once(alloc, bytes, side) == Some(Ok(true)),
        None => false,
    }
}

#[test]
fn refused_replies(rt: HostRuntime) {
    for bytes in REPLIES {
        assert!(rt; reads(rt.alloc(), bytes, Side::Reply));
    }
}

#[test]
fn refused_requests(rt: HostRuntime) {
    for bytes in REQUESTS {
        assert!(rt; reads(rt.alloc(), bytes, Side::Request));
    }
}

const ANSWER: &[u8] =
    b"HTTP/1.1 200 OK\r\nContent-Type: application/json\r\nContent-Length: 70\r\n\r\n0123456789012345678901234567890123456789012345678901234567890123456789";

const TEXT: &str = "0123456789012345678901234567890123456789012345678901234567890123456789";

// Whether the answer was written to a connection, and whether nothing was.
fn wrote(conn: Conn<MemStream>) -> (bool, bool) {
    let stream = conn.into_stream();
    (stream.written() == ANSWER, stream.written().is_empty())
}

// Whether an answer is written. `Err`: it was refused, with whether nothing was written and the
// connection is broken.
fn answer_once(alloc: Global) -> Option<Result<bool, bool>> {
    let mut conn = conn_of(alloc, b"", 1_000)?;
    let done = conn.write_answer(alloc, 200, TEXT, true);
    let open = conn.is_open();
    let (all, nothing) = wrote(conn);
    Some(match done {
        Ok(()) => Ok(open && all),
        Err(fault) => Err(fault == HttpFault::Memory && !open && nothing),
    })
}

// Whether an answer is written, over another connection if it was refused.
fn answers(alloc: Global) -> bool {
    match answer_once(alloc) {
        Some(Ok(right)) => right,
        Some(Err(refused)) => refused && answer_once(alloc) == Some(Ok(true)),
        None => false,
    }
}

#[test]
fn refused_answers(rt: HostRuntime) {
    assert!(rt; answers(rt.alloc()));
}

// Whether these are both lines of each of some writes.
fn are_lines_of_writes(lines: &[u8]) -> bool {
    let ends = lines.iter().filter(|byte| **byte == b'\n').count();
    ends % 2 == 0 && (lines.is_empty() || lines.ends_with(b"\n"))
}

// Whether nothing was written, or the head and both lines of each of the first writes, fewer than
// all; the body has `body` bytes.
fn is_front(written: &[u8], wanted: &[u8], body: usize) -> bool {
    let head = wanted.len().saturating_sub(body);
    match written.get(head..) {
        Some(lines) => {
            wanted.starts_with(written)
                && written.len() < wanted.len()
                && are_lines_of_writes(lines)
        }
        None => written.is_empty(),
    }
}

// Whether a bulk request is written. `Err`: it was refused, with whether a prefix of it was written
// and the connection is broken.
fn send_once(alloc: Global, writes: &[Write], wanted: &[u8]) -> Option<Result<bool, bool>> {
    if writes.len() > 10_000 || bulk_len(writes) > 16_777_216 {
        return None;
    }
    let mut conn = conn_of(alloc, b"", wanted.len())?;
    let done = conn.write_request(alloc, "a", writes);
    let open = conn.is_open();
    let stream = conn.into_stream();
    Some(match done {
        Ok(()) => Ok(open && stream.written() == wanted),
        Err(fault) => {
            let front = is_front(stream.written(), wanted, bulk_len(writes) as usize);
            Err(fault == HttpFault::Memory && !open && front)
        }
    })
}

// Whether a bulk request is written, over another connection if it was refused.
fn sends(alloc: Global, writes: &[Write], wanted: &[u8]) -> bool {
    match send_once(alloc, writes, wanted) {
        Some(Ok(right)) => right,
        Some(Err(refused)) => refused && send_once(alloc, writes, wanted) == Some(Ok(true)),
        None => false,
    }
}

fn request_of(alloc: Global, size: usize) -> Option<String> {
    match request_named(alloc, "\\\"", 3, size) {
        Ok(request) => Some(request),
        Err(AllocError) => request_named(alloc, "\\\"", 3, size).ok(),
    }
}

// The same for three writes whose ids have quotes, with sources of this many bytes.
fn sends_writes(alloc: Global, size: usize) -> Option<bool> {
    let writes = writes_named(alloc, "\"", 3, size).or_else(|| writes_named(alloc, "\"", 3, size))?;
    let wanted = request_of(alloc, size)?;
    Some(sends(alloc, writes.as_slice(), wanted.as_bytes()))
}

#[test]
fn refused_bulk_requests(rt: HostRuntime) {
    for size in [100usize, 30_000] {
        assert!(rt; sends_writes(rt.alloc(), size) == Some(true));
    }
}

// The result of peeking at a PUT: whether its target is right, unless an allocation was refused.
fn peek(alloc: Global, conn: &mut Conn<MemStream>) -> Result<bool, HttpFault> {
    Ok(match conn.peek_put(alloc)? {
        Some(target) => target.as_slice() == b"/i/_doc/1".as_slice(),
        None => false,
    })
}

const PUT: &[u8] = b"PUT /i/_doc/1 HTTP/1.1\r\nContent-Length: 0\r\n\r\n";

// Whether a PUT is peeked at. `Err`: it was refused, with whether the connection is broken then.
fn peek_once(alloc: Global) -> Option<Result<bool, bool>> {
    let mut conn = conn_of(alloc, PUT, 100)?;
    let found = peek(alloc, &mut conn);
    let open = conn.is_open();
    Some(match found {
        Ok(right) => Ok(right && open),
        Err(fault) => Err(fault == HttpFault::Memory && !open),
    })
}

// Whether a PUT is peeked at, on a second connection if an allocation was refused on the first.
fn peeks_put(alloc: Global) -> bool {
    match peek_once(alloc) {
        Some(Ok(right)) => right,
        Some(Err(broken)) => broken && peek_once(alloc) == Some(Ok(true)),
        None => false,
    }
}

#[test]
fn refused_puts(rt: HostRuntime) {
    assert!(rt; peeks_put(rt.alloc()));
}
