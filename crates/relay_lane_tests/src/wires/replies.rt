//! What replies mean to a lane, by their statuses and their bodies.

use crate::wires::streams::wired;
use relay_action::Text;
use relay_fixtures::asking::{Told, asks};
use relay_http::HttpReply;
use relay_lane::{Loss, WireReply};
use relay_wires::told::tell;
use std::alloc::Global;
use std::mem;
use std::process::Abort;

// The result of a delete if these bytes are the reply.
fn told_by(rt: &impl Abort, alloc: Global, bytes: &[u8]) -> Told {
    let inputs = [bytes];
    let mut wire = wired(alloc, &inputs, 1000, 0, 1).expect(rt, "memory");
    let told = asks(alloc, &mut wire, 1, "2", 2);
    mem::forget(wire);
    told
}

const REPLIES: &[(&[u8], Told)] = &[
    (
        b"HTTP/1.1 200 OK\r\nContent-Length: 47\r\n\r\n{\"items\":[{\"delete\":{\"_id\":\"2\",\"status\":404}}]}",
        Told::Entries(1, 404),
    ),
    (
        b"HTTP/1.1 100 Continue\r\n\r\nHTTP/1.1 200 OK\r\nTransfer-Encoding: chunked\r\n\r\n5\r\n{\"ite\r\n7\r\nms\":[]}\r\n0\r\n\r\n",
        Told::Entries(0, 0),
    ),
    (
        b"HTTP/1.0 200 OK\r\n\r\n{\"items\":[]}",
        Told::Entries(0, 0),
    ),
    (
        b"HTTP/1.1 200 OK\r\nContent-Length: 0\r\n\r\n",
        Told::Fault(Loss::Unreadable),
    ),
    (
        b"HTTP/1.1 200 OK\r\nContent-Length: 11\r\n\r\n{\"items\":3}",
        Told::Fault(Loss::Unreadable),
    ),
    (
        b"HTTP/1.1 200 OK\r\nContent-Length: 44\r\n\r\n{\"items\":[{\"index\":{\"_id\":5,\"status\":201}}]}",
        Told::Fault(Loss::Unreadable),
    ),
    (
        b"HTTP/1.1 201 Created\r\nContent-Length: 12\r\n\r\n{\"items\":[]}",
        Told::Whole(201),
    ),
    (b"HTTP/1.1 204 No Content\r\n\r\n", Told::Whole(204)),
    (
        b"HTTP/1.1 401 Unauthorized\r\nContent-Length: 0\r\n\r\n",
        Told::Whole(401),
    ),
    (
        b"HTTP/1.1 429 Too Many Requests\r\nContent-Length: 3\r\n\r\nlow",
        Told::Whole(429),
    ),
    (
        b"HTTP/1.1 503 Service Unavailable\r\n\r\n",
        Told::Whole(503),
    ),
    (b"", Told::Fault(Loss::Closed)),
    (
        b"HTTP/1.1 200 OK\r\nContent-Length: 12\r\n\r\n{\"items\":[]",
        Told::Fault(Loss::Closed),
    ),
    (
        b"HTTP/1.1 101 Switching Protocols\r\n\r\n",
        Told::Fault(Loss::Unreadable),
    ),
    (
        b"HTTP/1.1 200 OK\r\nContent-Length: 67108865\r\n\r\n",
        Told::Fault(Loss::Unreadable),
    ),
    (
        b"HTTP/1.1 200 OK\r\nContent-Encoding: gzip\r\nContent-Length: 0\r\n\r\n",
        Told::Fault(Loss::Unreadable),
    ),
    (
        b"HTTP/1.1 200 OK\r\nTransfer-Encoding: chunked\r\nContent-Length: 0\r\n\r\n",
        Told::Fault(Loss::Unreadable),
    ),
    (b"HTTP/1.1 600 None\r\n\r\n", Told::Fault(Loss::Unreadable)),
];

#[test]
fn replies(rt: HostRuntime) {
    for (bytes, wanted) in REPLIES {
        assert!(rt; told_by(&rt, rt.alloc(), *bytes) == *wanted, "{wanted:?}");
    }
}

// The reason with which the status of a whole request is told, if there is one.
fn reason_of(rt: &impl Abort, alloc: Global, status: u16, body: &[u8]) -> Option<Text> {
    let reply = HttpReply {
        status,
        body: body.to_vec(alloc).expect(rt, "memory"),
        keep: true,
    };
    match tell(alloc, &reply) {
        Ok(WireReply::Whole(told, reason)) if told == status => reason,
        _ => panic!(rt; "not told with its status"),
    }
}

// A status, the body of its reply, and the reason; the empty text stands for none.
const REASONS: &[(u16, &[u8], &str)] = &[
    (
        403,
        b"{\"error\":{\"reason\":\"denied\"},\"status\":403}",
        "denied",
    ),
    (
        405,
        b"{\"error\":\"Incorrect HTTP method\"}",
        "Incorrect HTTP method",
    ),
    (503, b"{\"error\":{\"reason\":\"no node\"}}", "no node"),
    (403, b"{\"error\":{\"type\":\"t\"}}", ""),
    (502, b"<html>Bad Gateway</html>", ""),
    (401, b"", ""),
];

#[test]
fn reasons(rt: HostRuntime) {
    for (status, body, wanted) in REASONS {
        let reason = reason_of(&rt, rt.alloc(), *status, *body);
        let text = match &reason {
            Some(reason) => reason.as_str(),
            None => "",
        };
        assert!(rt; text == *wanted, "{wanted}");
    }
}
