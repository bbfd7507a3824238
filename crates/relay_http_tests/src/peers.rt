//! What other programs write: Python's `http.client` and `http.server`, as `tests/http_fixtures.py` prints it.
use crate::reading::{Reply, Request, reads_replies, reads_requests};

const WRITES: &[u8] =
    b"{\"delete\":{\"_id\":\"1\",\"_index\":\"a\",\"version\":7,\"version_type\":\"external\"}}\n";

const ITEMS: &[u8] = b"{\"errors\":false,\"items\":[]}";

const PAGE: &[u8] =
    b"<!DOCTYPE HTML>\n<html lang=\"en\">\n    <head>\n        <meta charset=\"utf-8\">\n        <title>Error response</title>\n    </head>\n    <body>\n        <h1>Error response</h1>\n        <p>Error code: 429</p>\n        <p>Message: Too Many Requests.</p>\n        <p>Error code explanation: 429 - The user has sent too many requests in a given amount of time (\"rate limiting\").</p>\n    </body>\n</html>\n";

const REQUESTS: &[(&[u8], Request)] = &[
    (
        b"POST /_bulk HTTP/1.1\r\nHost: 127.0.0.1:9200\r\nAccept-Encoding: identity\r\nContent-Length: 74\r\nContent-Type: application/x-ndjson\r\n\r\n{\"delete\":{\"_id\":\"1\",\"_index\":\"a\",\"version\":7,\"version_type\":\"external\"}}\n",
        Ok(Some((true, WRITES, true))),
    ),
    (
        b"POST /_bulk HTTP/1.1\r\nHost: 127.0.0.1:9200\r\nAccept-Encoding: identity\r\nTransfer-Encoding: chunked\r\nContent-Type: application/x-ndjson\r\n\r\n32\r\n{\"delete\":{\"_id\":\"1\",\"_index\":\"a\",\"version\":7,\"ver\r\n18\r\nsion_type\":\"external\"}}\n\r\n0\r\n\r\n",
        Ok(Some((true, WRITES, true))),
    ),
    (
        b"POST /_bulk HTTP/1.1\r\nHost: 127.0.0.1:9200\r\nAccept-Encoding: identity\r\nContent-Length: 74\r\nConnection: close\r\nContent-Type: application/x-ndjson\r\n\r\n{\"delete\":{\"_id\":\"1\",\"_index\":\"a\",\"version\":7,\"version_type\":\"external\"}}\n",
        Ok(Some((true, WRITES, false))),
    ),
    (
        b"POST /_bulk HTTP/1.1\r\nHost: 127.0.0.1:9200\r\nAccept-Encoding: identity\r\nContent-Length: 0\r\n\r\n",
        Ok(Some((true, b"", true))),
    ),
];

#[test]
fn requests_of_python(rt: HostRuntime) {
    assert!(rt; reads_requests(&rt, rt.alloc(), REQUESTS));
}

const REPLIES: &[(&[u8], Reply)] = &[
    (
        b"HTTP/1.1 200 OK\r\nServer: BaseHTTP/0.6 Python/3.11\r\nDate: Mon, 02 Nov 2026 10:00:00 GMT\r\nContent-Type: application/json\r\nContent-Length: 27\r\n\r\n{\"errors\":false,\"items\":[]}",
        Ok((200, ITEMS, true)),
    ),
    (
        b"HTTP/1.1 200 OK\r\nServer: BaseHTTP/0.6 Python/3.11\r\nDate: Mon, 02 Nov 2026 10:00:00 GMT\r\nTransfer-Encoding: chunked\r\n\r\na\r\n{\"errors\":\r\n11\r\nfalse,\"items\":[]}\r\n0\r\n\r\n",
        Ok((200, ITEMS, true)),
    ),
    (
        b"HTTP/1.0 503 Service Unavailable\r\nServer: BaseHTTP/0.6 Python/3.11\r\nDate: Mon, 02 Nov 2026 10:00:00 GMT\r\n\r\n{\"errors\":false,\"items\":[]}",
        Ok((503, ITEMS, false)),
    ),
    (
        b"HTTP/1.1 429 Too Many Requests\r\nServer: BaseHTTP/0.6 Python/3.11\r\nDate: Mon, 02 Nov 2026 10:00:00 GMT\r\nConnection: close\r\nContent-Type: text/html;charset=utf-8\r\nContent-Length: 388\r\n\r\n<!DOCTYPE HTML>\n<html lang=\"en\">\n    <head>\n        <meta charset=\"utf-8\">\n        <title>Error response</title>\n    </head>\n    <body>\n        <h1>Error response</h1>\n        <p>Error code: 429</p>\n        <p>Message: Too Many Requests.</p>\n        <p>Error code explanation: 429 - The user has sent too many requests in a given amount of time (\"rate limiting\").</p>\n    </body>\n</html>\n",
        Ok((429, PAGE, false)),
    ),
];

#[test]
fn replies_of_python(rt: HostRuntime) {
    assert!(rt; reads_replies(&rt, rt.alloc(), REPLIES));
}
