//! Connections that are served one after another.
use crate::stub::desk::{Visit, script_of, serves};
use relay_index::Index;
use relay_stub::ServeError;
use relay_stub::listing::listing;
use std::alloc::Global;
use std::mem;
use std::process::Abort;

// A delete of document 1 with version 5.
const DELETE: &[u8] =
    b"POST /_bulk HTTP/1.1\r\nHost: h\r\nContent-Length: 74\r\n\r\n{\"delete\":{\"_id\":\"1\",\"_index\":\"b\",\"version\":5,\"version_type\":\"external\"}}\n";

// The answer if there was no such document.
const NOT_FOUND: &[u8] =
    b"HTTP/1.1 200 OK\r\nContent-Type: application/json\r\nContent-Length: 130\r\nConnection: close\r\n\r\n{\"errors\":false,\"items\":[{\"delete\":{\"_id\":\"1\",\"_index\":\"b\",\"_seq_no\":0,\"_version\":5,\"result\":\"not_found\",\"status\":404}}],\"took\":0}";

// The answer if the same delete came before.
const CONFLICT: &[u8] =
    b"HTTP/1.1 200 OK\r\nContent-Type: application/json\r\nContent-Length: 136\r\nConnection: close\r\n\r\n{\"errors\":true,\"items\":[{\"delete\":{\"_id\":\"1\",\"_index\":\"b\",\"error\":{\"type\":\"version_conflict_engine_exception\"},\"status\":409}}],\"took\":0}";

// The answer if the delete is refused with 429.
const REFUSED: &[u8] =
    b"HTTP/1.1 200 OK\r\nContent-Type: application/json\r\nContent-Length: 119\r\nConnection: close\r\n\r\n{\"errors\":true,\"items\":[{\"delete\":{\"_id\":\"1\",\"_index\":\"b\",\"error\":{\"type\":\"scripted_refusal\"},\"status\":429}}],\"took\":0}";

// A delete of document 1 with version 6 and an index action of document 0.
const LATER: &[u8] =
    b"POST /_bulk HTTP/1.1\r\nHost: h\r\nContent-Length: 150\r\n\r\n{\"delete\":{\"_id\":\"1\",\"_index\":\"b\",\"version\":6,\"version_type\":\"external\"}}\n{\"index\":{\"_id\":\"0\",\"_index\":\"b\",\"version\":1,\"version_type\":\"external\"}}\n{}\n";

// The answer after the delete with version 5.
const LATER_ANSWER: &[u8] =
    b"HTTP/1.1 200 OK\r\nContent-Type: application/json\r\nContent-Length: 222\r\nConnection: close\r\n\r\n{\"errors\":false,\"items\":[{\"delete\":{\"_id\":\"1\",\"_index\":\"b\",\"_seq_no\":1,\"_version\":6,\"result\":\"not_found\",\"status\":404}},{\"index\":{\"_id\":\"0\",\"_index\":\"b\",\"_seq_no\":2,\"_version\":1,\"result\":\"created\",\"status\":201}}],\"took\":0}";

// The same answer if the index action is refused with 503.
const LATER_REFUSED: &[u8] =
    b"HTTP/1.1 200 OK\r\nContent-Type: application/json\r\nContent-Length: 213\r\nConnection: close\r\n\r\n{\"errors\":true,\"items\":[{\"delete\":{\"_id\":\"1\",\"_index\":\"b\",\"_seq_no\":1,\"_version\":6,\"result\":\"not_found\",\"status\":404}},{\"index\":{\"_id\":\"0\",\"_index\":\"b\",\"error\":{\"type\":\"scripted_refusal\"},\"status\":503}}],\"took\":0}";

// The answer to a request that is not a POST to /_bulk.
const NOT_BULK: &[u8] =
    b"HTTP/1.1 400 Bad Request\r\nContent-Type: application/json\r\nContent-Length: 41\r\nConnection: close\r\n\r\n{\"error\":{\"type\":\"NotBulk\"},\"status\":400}";

// The answer to a body whose first line is not JSON.
const NOT_JSON: &[u8] =
    b"HTTP/1.1 400 Bad Request\r\nContent-Type: application/json\r\nContent-Length: 50\r\nConnection: close\r\n\r\n{\"error\":{\"line\":1,\"type\":\"NotJson\"},\"status\":400}";

// A bulk request whose body is not bulk text.
const BROKEN_BODY: &[u8] = b"POST /_bulk HTTP/1.1\r\nHost: h\r\nContent-Length: 2\r\n\r\n{\n";

// A request that is not a POST to /_bulk.
const GET: &[u8] = b"GET /_bulk HTTP/1.1\r\nHost: h\r\n\r\n";

// Such a request with a body that is bulk text.
const ELSEWHERE: &[u8] =
    b"POST /books HTTP/1.1\r\nHost: h\r\nContent-Length: 74\r\n\r\n{\"delete\":{\"_id\":\"1\",\"_index\":\"b\",\"version\":5,\"version_type\":\"external\"}}\n";

// The delete in HTTP/1.0.
const OLD: &[u8] =
    b"POST /_bulk HTTP/1.0\r\nHost: h\r\nContent-Length: 74\r\n\r\n{\"delete\":{\"_id\":\"1\",\"_index\":\"b\",\"version\":5,\"version_type\":\"external\"}}\n";

// The delete on a connection that closes.
const CLOSING: &[u8] =
    b"POST /_bulk HTTP/1.1\r\nConnection: close\r\nContent-Length: 74\r\n\r\n{\"delete\":{\"_id\":\"1\",\"_index\":\"b\",\"version\":5,\"version_type\":\"external\"}}\n";

// The delete in a form that is not read.
const GZIP: &[u8] =
    b"POST /_bulk HTTP/1.1\r\nContent-Encoding: gzip\r\nContent-Length: 74\r\n\r\n{\"delete\":{\"_id\":\"1\",\"_index\":\"b\",\"version\":5,\"version_type\":\"external\"}}\n";

// The delete and then the later ones on one connection.
const TWICE: &[u8] =
    b"POST /_bulk HTTP/1.1\r\nHost: h\r\nContent-Length: 74\r\n\r\n{\"delete\":{\"_id\":\"1\",\"_index\":\"b\",\"version\":5,\"version_type\":\"external\"}}\nPOST /_bulk HTTP/1.1\r\nHost: h\r\nContent-Length: 74\r\n\r\n{\"delete\":{\"_id\":\"1\",\"_index\":\"b\",\"version\":6,\"version_type\":\"external\"}}\n";

// A connection with room for its answer, none of whose calls fails.
const fn visit<'a>(input: &'a [u8], wanted: &'a [u8]) -> Visit<'a> {
    Visit {
        input,
        room: 1000,
        fail_at: 0,
        wanted,
    }
}

// Whether this many connections are served with this result, and these are the lines of the index
// then.
fn leaves(
    rt: &impl Abort,
    alloc: Global,
    visits: &[Visit<'_>],
    requests: u64,
    refusals: &[(u64, u16)],
    answer: Result<(), ServeError>,
    lines: &str,
) -> bool {
    leaves_by(rt, alloc, visits, 7, requests, refusals, answer, lines)
        && leaves_by(rt, alloc, visits, 4096, requests, refusals, answer, lines)
}

// The same, over streams that move a few bytes per call.
fn leaves_by(
    rt: &impl Abort,
    alloc: Global,
    visits: &[Visit<'_>],
    piece: usize,
    requests: u64,
    refusals: &[(u64, u16)],
    answer: Result<(), ServeError>,
    lines: &str,
) -> bool {
    let mut index = Index::new(alloc);
    let mut script = script_of(rt, alloc, refusals);
    let served = serves(rt, alloc, visits, piece, requests, &mut index, &mut script);
    let listed = listing(alloc, &index).expect(rt, "memory");
    let good = served == answer && listed.as_slice() == lines.as_bytes();
    mem::forget((index, script, listed));
    good
}

const ONE: &str = "applied b/1 5 delete\n";

// What arrives on a connection, what is written to it, and the lines of the index then.
const SINGLE: &[(&[u8], &[u8], &str)] = &[
    (DELETE, NOT_FOUND, ONE),
    (OLD, NOT_FOUND, ONE),
    (CLOSING, NOT_FOUND, ONE),
    // The second request of a connection is not read.
    (TWICE, NOT_FOUND, ONE),
    // Not bulk text, and not a bulk request.
    (BROKEN_BODY, NOT_JSON, ""),
    (GET, NOT_BULK, ""),
    (ELSEWHERE, NOT_BULK, ""),
    // No request.
    (b"", b"", ""),
    (b"garbage\r\n\r\n", b"", ""),
    (
        b"POST /_bulk HTTP/1.1\r\nContent-Length: 5\r\n\r\n{}\n",
        b"",
        "",
    ),
    (GZIP, b"", ""),
];

#[test]
fn single_requests(rt: HostRuntime) {
    for (input, wanted, lines) in SINGLE {
        assert!(rt;
            leaves(
                &rt,
                rt.alloc(),
                &[visit(*input, *wanted)],
                1,
                &[],
                Ok(()),
                *lines
            ),
            "{lines}"
        );
    }
}

#[test]
fn one_after_another(rt: HostRuntime) {
    let visits = [
        visit(DELETE, NOT_FOUND),
        visit(b"garbage\r\n\r\n", b""),
        visit(DELETE, CONFLICT),
        visit(GET, NOT_BULK),
        visit(LATER, LATER_ANSWER),
    ];
    let lines = "applied b/0 1 index\napplied b/1 5 delete\napplied b/1 6 delete\n";
    assert!(rt; leaves(&rt, rt.alloc(), &visits, 5, &[], Ok(()), lines));
}

// Positions are counted over all requests; a request that is not bulk has none.
#[test]
fn refusals(rt: HostRuntime) {
    let visits = [
        visit(DELETE, REFUSED),
        visit(GET, NOT_BULK),
        visit(DELETE, NOT_FOUND),
        visit(DELETE, CONFLICT),
        visit(LATER, LATER_REFUSED),
    ];
    let lines = "applied b/1 5 delete\napplied b/1 6 delete\n";
    assert!(rt;
        leaves(
            &rt,
            rt.alloc(),
            &visits,
            5,
            &[(1, 429), (5, 503)],
            Ok(()),
            lines
        )
    );
}

// No more are accepted than requested; if there are fewer, the last call of the listener fails.
#[test]
fn as_many_as_asked_for(rt: HostRuntime) {
    let alloc = rt.alloc();
    let none: [Visit<'_>; 0] = [];
    assert!(rt; leaves(&rt, alloc, &none, 0, &[], Ok(()), ""));
    assert!(rt; leaves(&rt, alloc, &none, 1, &[], Err(ServeError::Accept), ""));
    let one = [visit(DELETE, NOT_FOUND)];
    assert!(rt; leaves(&rt, alloc, &one, 1, &[], Ok(()), ONE));
    assert!(rt;
        leaves(
            &rt,
            alloc,
            &one,
            u64::MAX,
            &[],
            Err(ServeError::Accept),
            ONE
        )
    );
}

// Whether a writer that takes this many bytes of an answer has a prefix of it, the run is kept, and
// the next connection is served.
fn stays_cut_at(rt: &impl Abort, alloc: Global, room: usize) -> bool {
    let wanted = NOT_FOUND.get(..room).expect(rt, "that many bytes");
    let cut = Visit {
        input: DELETE,
        room,
        fail_at: 0,
        wanted,
    };
    let visits = [cut, visit(DELETE, CONFLICT)];
    leaves(rt, alloc, &visits, 2, &[], Ok(()), ONE)
}

// The answer has 221 bytes.
#[test]
fn answers_cut_short(rt: HostRuntime) {
    for room in [0usize, 1, 100, 220] {
        assert!(rt; stays_cut_at(&rt, rt.alloc(), room), "{room}");
    }
}

// One call of the first connection fails: a read, and nothing is run, or the write of the answer,
// and the run is kept. With 4096 bytes per call there is one of each.
fn fails_at(rt: &impl Abort, alloc: Global, fail_at: u64) -> bool {
    let failing = Visit {
        input: DELETE,
        room: 1000,
        fail_at,
        wanted: b"",
    };
    let lines = if fail_at == 1 { "" } else { ONE };
    leaves_by(rt, alloc, &[failing], 4096, 1, &[], Ok(()), lines)
}

#[test]
fn each_call_fails_in_turn(rt: HostRuntime) {
    for fail_at in 1..=2u64 {
        assert!(rt; fails_at(&rt, rt.alloc(), fail_at), "{fail_at}");
    }
}
