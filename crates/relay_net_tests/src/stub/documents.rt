//! Documents that are stored one at a time, with the versions that the index gives them, and writes
//! with external versions between them.
use crate::stub::desk::{Visit, script_of, serves};
use relay_index::Index;
use relay_stub::listing::listing;

// A request, and its answer.
const ROWS: &[(&[u8], &[u8])] = &[
    (
        b"PUT /r/_doc/e HTTP/1.1\r\nHost: h\r\nContent-Length: 7\r\n\r\n{\"a\":1}",
        b"HTTP/1.1 201 \r\nContent-Type: application/json\r\nContent-Length: 68\r\nConnection: close\r\n\r\n{\"_id\":\"e\",\"_index\":\"r\",\"_seq_no\":0,\"_version\":1,\"result\":\"created\"}",
    ),
    (
        b"PUT /r/_doc/e HTTP/1.1\r\nHost: h\r\nContent-Length: 7\r\n\r\n{\"a\":2}",
        b"HTTP/1.1 200 OK\r\nContent-Type: application/json\r\nContent-Length: 68\r\nConnection: close\r\n\r\n{\"_id\":\"e\",\"_index\":\"r\",\"_seq_no\":1,\"_version\":2,\"result\":\"updated\"}",
    ),
    (
        b"POST /_bulk HTTP/1.1\r\nHost: h\r\nContent-Length: 76\r\n\r\n{\"index\":{\"_id\":\"e\",\"_index\":\"r\",\"version\":2,\"version_type\":\"external\"}}\n{}\n",
        b"HTTP/1.1 200 OK\r\nContent-Type: application/json\r\nContent-Length: 135\r\nConnection: close\r\n\r\n{\"errors\":true,\"items\":[{\"index\":{\"_id\":\"e\",\"_index\":\"r\",\"error\":{\"type\":\"version_conflict_engine_exception\"},\"status\":409}}],\"took\":0}",
    ),
    (
        b"POST /_bulk HTTP/1.1\r\nHost: h\r\nContent-Length: 76\r\n\r\n{\"index\":{\"_id\":\"e\",\"_index\":\"r\",\"version\":9,\"version_type\":\"external\"}}\n{}\n",
        b"HTTP/1.1 200 OK\r\nContent-Type: application/json\r\nContent-Length: 127\r\nConnection: close\r\n\r\n{\"errors\":false,\"items\":[{\"index\":{\"_id\":\"e\",\"_index\":\"r\",\"_seq_no\":2,\"_version\":9,\"result\":\"updated\",\"status\":200}}],\"took\":0}",
    ),
    (
        b"PUT /%72/_doc/%65 HTTP/1.1\r\nHost: h\r\nContent-Length: 1\r\n\r\nx",
        b"HTTP/1.1 200 OK\r\nContent-Type: application/json\r\nContent-Length: 69\r\nConnection: close\r\n\r\n{\"_id\":\"e\",\"_index\":\"r\",\"_seq_no\":3,\"_version\":10,\"result\":\"updated\"}",
    ),
    (
        b"PUT /r/_doc/e?refresh HTTP/1.1\r\nHost: h\r\nContent-Length: 2\r\n\r\n{}",
        b"HTTP/1.1 400 Bad Request\r\nContent-Type: application/json\r\nContent-Length: 41\r\nConnection: close\r\n\r\n{\"error\":{\"type\":\"NotBulk\"},\"status\":400}",
    ),
    (
        b"PUT /r/_doc/e HTTP/1.1\r\nHost: h\r\nContent-Length: 0\r\n\r\n",
        b"HTTP/1.1 400 Bad Request\r\nContent-Type: application/json\r\nContent-Length: 41\r\nConnection: close\r\n\r\n{\"error\":{\"type\":\"NotBulk\"},\"status\":400}",
    ),
];

const LINES: &[u8] =
    b"applied r/e 1 index\napplied r/e 2 index\napplied r/e 9 index\napplied r/e 10 index\n";

// Each row is served on a connection of its own.
#[test]
fn documents(rt: HostRuntime) {
    let alloc = rt.alloc();
    let mut index = Index::new(alloc);
    let mut script = script_of(&rt, alloc, &[]);
    for (input, wanted) in ROWS {
        let visits = [Visit {
            input: *input,
            room: 1_000,
            fail_at: 0,
            wanted: *wanted,
        }];
        assert!(rt; serves(&rt, alloc, &visits, 100, 1, &mut index, &mut script) == Ok(()));
    }
    let lines = listing(alloc, &index).expect(&rt, "memory");
    assert!(rt; lines.as_slice() == LINES);
}
