//! Requests and answers as they are written, and the connection after them.
ghost use Rattle.std.specs.Prelude.{◌≤◌, length, IsTrue};
ghost use Rattle.relay_ndjson.specs.Bulk.{text_of};
ghost use Rattle.relay_http.specs.WrittenAnswer.{IsAnswerStatus};
ghost use Rattle.relay_http.specs.WrittenRequest.{is_host};

use crate::reading::{gives_reply, gives_request, over};
use relay_action::{Action, DocKey, MemStream, Write};
use relay_http::{Conn, HttpFault, is_host};
use relay_ndjson::bulk_len;
use std::alloc::Global;
use std::process::Abort;

/// A delete with version 2.
pub fn one_write(rt: &impl Abort, alloc: Global) -> Vec<Write> {
    let mut writes = Vec::new(alloc);
    let write = Write {
        key: DocKey::new(alloc, "books", "2").expect(rt, "a key"),
        version: 2,
        action: Action::delete(),
    };
    writes.push(write).expect(rt, "memory");
    writes
}

// Whether these bytes were written to the stream of a connection.
fn was_written(conn: Conn<MemStream>, wanted: &[u8]) -> bool {
    conn.into_stream().written() == wanted
}

// Whether a request to this host with these writes is written as these bytes, and leaves the connection
// open.
fn is_request(rt: &impl Abort, alloc: Global, host: &str, writes: &[Write], wanted: &[u8]) -> bool
    requires host { IsTrue (is_host host.now) }
    requires few { length writes.now ≤ 1 }
    requires size { length (text_of writes.now) ≤ 1000 }
{
    let mut conn = over(rt, alloc, b"", 5);
    assert!(rt; conn.write_request(alloc, host, writes).is_ok());
    assert!(rt; conn.is_open());
    was_written(conn, wanted)
}

#[test]
fn a_request(rt: HostRuntime) {
    let writes = one_write(&rt, rt.alloc());
    assert!(rt; writes.len() == 1 && bulk_len(writes.as_slice()) == 78);
    assert!(rt;
        is_request(
            &rt,
            rt.alloc(),
            "127.0.0.1:9200",
            writes.as_slice(),
            b"POST /_bulk HTTP/1.1\r\nHost: 127.0.0.1:9200\r\nContent-Type: application/x-ndjson\r\nContent-Length: 78\r\n\r\n{\"delete\":{\"_id\":\"2\",\"_index\":\"books\",\"version\":2,\"version_type\":\"external\"}}\n"
        )
    );
}

// Whether a request with these writes reads back with this body, and nothing follows it.
fn reads_back(rt: &impl Abort, alloc: Global, writes: &[Write], body: &'static [u8]) -> bool
    requires few { length writes.now ≤ 1 }
    requires size { length (text_of writes.now) ≤ 1000 }
{
    let mut conn = over(rt, alloc, b"", 5);
    assert!(rt; conn.write_request(alloc, "a", writes).is_ok());
    let stream = conn.into_stream();
    let mut other = over(rt, alloc, stream.written(), 5);
    gives_request(alloc, &mut other, Ok(Some((true, body, true))))
        && gives_request(alloc, &mut other, Ok(None))
}

#[test]
fn a_request_is_read_back(rt: HostRuntime) {
    let writes = one_write(&rt, rt.alloc());
    assert!(rt; writes.len() == 1 && bulk_len(writes.as_slice()) == 78);
    assert!(rt;
        reads_back(
            &rt,
            rt.alloc(),
            writes.as_slice(),
            b"{\"delete\":{\"_id\":\"2\",\"_index\":\"books\",\"version\":2,\"version_type\":\"external\"}}\n"
        )
    );
}

#[test]
fn a_request_without_writes(rt: HostRuntime) {
    assert!(rt;
        is_request(
            &rt,
            rt.alloc(),
            "a",
            &[],
            b"POST /_bulk HTTP/1.1\r\nHost: a\r\nContent-Type: application/x-ndjson\r\nContent-Length: 0\r\n\r\n"
        )
    );
}

// Whether a request with these writes, one without any and an answer are written one after another.
fn writes_in_turn(alloc: Global, conn: &mut Conn<MemStream>, writes: &[Write]) -> bool
    requires few { length writes.now ≤ 1 }
    requires size { length (text_of writes.now) ≤ 1000 }
{
    conn.write_request(alloc, "a", writes).is_ok()
        && conn.write_request(alloc, "a", &[]).is_ok()
        && conn.write_answer(alloc, 200, "ok", true).is_ok()
}

#[test]
fn messages_one_after_another(rt: HostRuntime) {
    let writes = one_write(&rt, rt.alloc());
    assert!(rt; writes.len() == 1 && bulk_len(writes.as_slice()) == 78);
    let mut conn = over(&rt, rt.alloc(), b"", 5);
    assert!(rt; writes_in_turn(rt.alloc(), &mut conn, writes.as_slice()));
    assert!(rt;
        was_written(
            conn,
            b"POST /_bulk HTTP/1.1\r\nHost: a\r\nContent-Type: application/x-ndjson\r\nContent-Length: 78\r\n\r\n{\"delete\":{\"_id\":\"2\",\"_index\":\"books\",\"version\":2,\"version_type\":\"external\"}}\nPOST /_bulk HTTP/1.1\r\nHost: a\r\nContent-Type: application/x-ndjson\r\nContent-Length: 0\r\n\r\nHTTP/1.1 200 OK\r\nContent-Type: application/json\r\nContent-Length: 2\r\n\r\nok"
        )
    );
}

// Whether this answer is written as these bytes, and leaves the connection open if it keeps it.
fn is_answer(
    rt: &impl Abort,
    alloc: Global,
    status: u16,
    body: &str,
    keep: bool,
    wanted: &[u8],
) -> bool
    requires status { IsAnswerStatus status }
    requires size { length body.now ≤ 1000 }
{
    let mut conn = over(rt, alloc, b"", 5);
    assert!(rt; conn.write_answer(alloc, status, body, keep).is_ok());
    assert!(rt; conn.is_open() == keep);
    was_written(conn, wanted)
}

const ANSWERS: &[(u16, &str, bool, &[u8])] = &[
    (
        200,
        "ok",
        true,
        b"HTTP/1.1 200 OK\r\nContent-Type: application/json\r\nContent-Length: 2\r\n\r\nok",
    ),
    (
        503,
        "ok",
        false,
        b"HTTP/1.1 503 Service Unavailable\r\nContent-Type: application/json\r\nContent-Length: 2\r\nConnection: close\r\n\r\nok",
    ),
    (
        418,
        "ok",
        false,
        b"HTTP/1.1 418 \r\nContent-Type: application/json\r\nContent-Length: 2\r\nConnection: close\r\n\r\nok",
    ),
    (
        200,
        "{}",
        false,
        b"HTTP/1.1 200 OK\r\nContent-Type: application/json\r\nContent-Length: 2\r\nConnection: close\r\n\r\n{}",
    ),
    (
        400,
        "\u{e9}",
        true,
        b"HTTP/1.1 400 Bad Request\r\nContent-Type: application/json\r\nContent-Length: 2\r\n\r\n\xc3\xa9",
    ),
];

#[test]
fn answers(rt: HostRuntime) {
    for (status, text, keep, wanted) in ANSWERS {
        assert!(rt; is_answer(&rt, rt.alloc(), *status, *text, *keep, *wanted));
    }
}

// Whether an answer after a request says that the connection closes, and whether it is open then.
fn answers_to(rt: &impl Abort, alloc: Global, request: &[u8]) -> (bool, bool) {
    let mut conn = over(rt, alloc, request, 5);
    assert!(rt; conn.read_request(alloc).is_ok());
    assert!(rt; conn.write_answer(alloc, 200, "ok", true).is_ok());
    let open = conn.is_open();
    let says_close = was_written(
        conn,
        b"HTTP/1.1 200 OK\r\nContent-Type: application/json\r\nContent-Length: 2\r\nConnection: close\r\n\r\nok",
    );
    (says_close, open)
}

const CLOSING: &[(&[u8], (bool, bool))] = &[
    (
        b"POST /_bulk HTTP/1.1\r\nConnection: close\r\n\r\n",
        (true, false),
    ),
    (b"POST /_bulk HTTP/1.0\r\n\r\n", (true, false)),
    (b"POST /_bulk HTTP/1.1\r\n\r\n", (false, true)),
];

#[test]
fn an_answer_closes_where_the_request_does(rt: HostRuntime) {
    for (request, wanted) in CLOSING {
        assert!(rt; answers_to(&rt, rt.alloc(), *request) == *wanted);
    }
}

// Whether nothing can be written to a connection or read from it any more.
fn carries_nothing(alloc: Global, conn: &mut Conn<MemStream>) -> bool {
    conn.write_answer(alloc, 200, "", true) == Err(HttpFault::Broken)
        && conn.write_request(alloc, "a", &[]) == Err(HttpFault::Broken)
        && gives_reply(alloc, conn, Err(HttpFault::Broken))
        && gives_request(alloc, conn, Err(HttpFault::Broken))
}

#[test]
fn a_broken_connection_carries_nothing(rt: HostRuntime) {
    let mut conn = over(&rt, rt.alloc(), b"HTTP/1.1 200 OK\r\n\r\n", 5);
    assert!(rt; conn.write_answer(rt.alloc(), 200, "", false).is_ok());
    assert!(rt; carries_nothing(rt.alloc(), &mut conn));
}

const HOSTS: &[(&str, bool)] = &[
    ("127.0.0.1:9200", true),
    ("[::1]:9200", true),
    ("!~", true),
    ("", false),
    ("a b", false),
    ("a\r\nX: y", false),
    ("\u{e9}", false),
    ("\u{7f}", false),
];

#[test]
fn hosts(rt: HostRuntime) {
    for (host, wanted) in HOSTS {
        assert!(rt; is_host(*host) == *wanted);
    }
}
