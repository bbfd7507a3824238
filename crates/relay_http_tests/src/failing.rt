//! Streams that move 7 bytes at a time, with one call failing, at each position in turn.
ghost use Rattle.std.specs.Prelude.{◌≤◌, length};
ghost use Rattle.relay_ndjson.specs.Bulk.{text_of};

use crate::reading::over_failing;
use crate::replies::CHUNKED;
use crate::written::one_write;
use relay_action::{MemStream, Write};
use relay_http::HttpFault;
use relay_ndjson::bulk_len;
use std::alloc::Global;
use std::process::Abort;

const REQUEST: &[u8] = b"POST /_bulk HTTP/1.1\r\nContent-Length: 11\r\n\r\nhello world";

const BULK: &[u8] =
    b"POST /_bulk HTTP/1.1\r\nHost: a\r\nContent-Type: application/x-ndjson\r\nContent-Length: 78\r\n\r\n{\"delete\":{\"_id\":\"2\",\"_index\":\"books\",\"version\":2,\"version_type\":\"external\"}}\n";

const ANSWER: &[u8] =
    b"HTTP/1.1 200 OK\r\nContent-Type: application/json\r\nContent-Length: 11\r\n\r\nhello world";

// The result of reading a reply, and whether the connection is open afterwards.
fn reply_failing(rt: &impl Abort, alloc: Global, fail_at: u64) -> (Result<usize, HttpFault>, bool) {
    let mut conn = over_failing(alloc, CHUNKED, 7, 0, fail_at).expect(rt, "memory");
    let read = conn.read_reply(alloc).map(|reply| reply.body.len());
    (read, conn.is_open())
}

// The same for a request.
fn request_failing(
    rt: &impl Abort,
    alloc: Global,
    fail_at: u64,
) -> (Result<bool, HttpFault>, bool) {
    let mut conn = over_failing(alloc, REQUEST, 7, 0, fail_at).expect(rt, "memory");
    let read = conn.read_request(alloc).map(|request| request.is_some());
    (read, conn.is_open())
}

#[test]
fn each_read_fails_in_turn(rt: HostRuntime) {
    let reads = (CHUNKED.len() as u64).div_ceil(7);
    for fail_at in 1..=reads {
        assert!(rt; reply_failing(&rt, rt.alloc(), fail_at) == (Err(HttpFault::Read), false));
    }
    assert!(rt; reply_failing(&rt, rt.alloc(), reads + 1) == (Ok(11), true));
}

#[test]
fn each_read_of_a_request_fails_in_turn(rt: HostRuntime) {
    let reads = (REQUEST.len() as u64).div_ceil(7);
    for fail_at in 1..=reads {
        assert!(rt; request_failing(&rt, rt.alloc(), fail_at) == (Err(HttpFault::Read), false));
    }
    assert!(rt; request_failing(&rt, rt.alloc(), reads + 1) == (Ok(true), true));
}

// How many bytes were written to a stream, if they are a prefix of this message.
fn sent(stream: &MemStream, message: &[u8]) -> Option<usize> {
    if message.starts_with(stream.written()) {
        Some(stream.written().len())
    } else {
        None
    }
}

// The result of a write, whether the connection is open afterwards, and how many bytes were
// written, if they are a prefix of the message.
type Written = (Result<(), HttpFault>, bool, Option<usize>);

fn answer_failing(rt: &impl Abort, alloc: Global, room: usize, fail_at: u64) -> Written {
    let mut conn = over_failing(alloc, b"", 7, room, fail_at).expect(rt, "memory");
    let done = conn.write_answer(alloc, 200, "hello world", true);
    let open = conn.is_open();
    (done, open, sent(&conn.into_stream(), ANSWER))
}

// The same for a request.
fn bulk_failing(
    rt: &impl Abort,
    alloc: Global,
    writes: &[Write],
    room: usize,
    fail_at: u64,
) -> Written
    requires few { length writes.now ≤ 1 }
    requires size { length (text_of writes.now) ≤ 1000 }
{
    let mut conn = over_failing(alloc, b"", 7, room, fail_at).expect(rt, "memory");
    let done = conn.write_request(alloc, "a", writes);
    let open = conn.is_open();
    (done, open, sent(&conn.into_stream(), BULK))
}

#[test]
fn each_write_fails_in_turn(rt: HostRuntime) {
    let writes = (ANSWER.len() as u64).div_ceil(7);
    for fail_at in 1..=writes {
        let sent = 7 * (fail_at as usize - 1);
        assert!(rt;
            answer_failing(&rt, rt.alloc(), 1000, fail_at)
                == (Err(HttpFault::Write), false, Some(sent))
        );
    }
    for room in 0..ANSWER.len() {
        assert!(rt;
            answer_failing(&rt, rt.alloc(), room, 0) == (Err(HttpFault::Write), false, Some(room))
        );
    }
    assert!(rt;
        answer_failing(&rt, rt.alloc(), ANSWER.len(), 0) == (Ok(()), true, Some(ANSWER.len()))
    );
}

#[test]
fn each_write_of_a_request_fails_in_turn(rt: HostRuntime) {
    let bulk = one_write(&rt, rt.alloc());
    let writes = bulk.as_slice();
    assert!(rt; writes.len() == 1 && bulk_len(writes) == 78);
    for fail_at in 1..=(BULK.len() as u64).div_ceil(7) {
        let sent = 7 * (fail_at as usize - 1);
        assert!(rt;
            bulk_failing(&rt, rt.alloc(), writes, 1000, fail_at)
                == (Err(HttpFault::Write), false, Some(sent))
        );
    }
    for room in 0..BULK.len() {
        assert!(rt;
            bulk_failing(&rt, rt.alloc(), writes, room, 0)
                == (Err(HttpFault::Write), false, Some(room))
        );
    }
    assert!(rt;
        bulk_failing(&rt, rt.alloc(), writes, BULK.len(), 0) == (Ok(()), true, Some(BULK.len()))
    );
}
