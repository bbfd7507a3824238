//! What an answer is read as, and the printed line of each fault.
use relay_epoch::{EpochFault, epoch_of, fault_text};
use std::alloc::Global;

// Whether an answer gives this epoch.
fn gives(alloc: Global, status: u16, body: &[u8], epoch: u32) -> bool {
    match epoch_of(alloc, status, body) {
        Ok(found) => found == epoch,
        Err(_) => false,
    }
}

// Whether an answer gives no epoch, and this line is printed.
fn says(alloc: Global, status: u16, body: &[u8], line: &[u8]) -> bool {
    match epoch_of(alloc, status, body) {
        Ok(_) => false,
        Err(fault) => is_line(alloc, &fault, line),
    }
}

fn is_line(alloc: Global, fault: &EpochFault, line: &[u8]) -> bool {
    match fault_text(alloc, fault) {
        Ok(text) => text.as_slice() == line,
        Err(_) => false,
    }
}

// Answers that give an epoch; the first two are those of OpenSearch to a new document and to one
// that exists.
const EPOCHS: &[(u16, &[u8], u32)] = &[
    (
        201,
        b"{\"_index\":\"relay\",\"_id\":\"epoch\",\"_version\":1,\"result\":\"created\",\"_shards\":{\"total\":2,\"successful\":1,\"failed\":0},\"_seq_no\":0,\"_primary_term\":1}",
        1,
    ),
    (
        200,
        b"{\"_index\":\"relay\",\"_id\":\"epoch\",\"_version\":17,\"result\":\"updated\",\"_shards\":{\"total\":2,\"successful\":1,\"failed\":0},\"_seq_no\":16,\"_primary_term\":1}",
        17,
    ),
    (200, b" {\n \"_version\" : 4194303 }\n", 4_194_303),
    (200, b"{\"_version\":1,\"_version\":2}", 2),
    (201, b"{\"_ver\\u0073ion\":5}", 5),
];

#[test]
fn epochs(rt: HostRuntime) {
    for (status, body, epoch) in EPOCHS {
        assert!(rt; gives(rt.alloc(), *status, body, *epoch), "{epoch}");
    }
}

const NO_VERSION: &[u8] = b"epoch: no version in the answer\n";

// Bodies of an answer with status 200 or 201 that state no version.
const NONE: &[&[u8]] = &[
    b"",
    b"{}",
    b"null",
    b"7",
    b"[{\"_version\":7}]",
    b"garbage",
    b"<html>200</html>",
    b"{\"_version\":7",
    b"{\"_version\":7}}",
    b"{\"_version\":\"7\"}",
    b"{\"_version\":1.5}",
    b"{\"_version\":7.0}",
    b"{\"_version\":1e3}",
    b"{\"_version\":-1}",
    b"{\"_version\":0}",
    b"{\"_version\":null}",
    b"{\"_version\":true}",
    b"{\"_version\":[7]}",
    b"{\"version\":7}",
    b"{\"_source\":{\"_version\":7}}",
    b"{\"_version\":99999999999999999999}",
    b"{\"_version\":7,\"_id\":\"\xff\"}",
];

#[test]
fn no_versions(rt: HostRuntime) {
    for body in NONE {
        for status in [200u16, 201] {
            assert!(rt; says(rt.alloc(), status, body, NO_VERSION), "{status}");
        }
    }
}

// Other answers without an epoch, and the line that is printed.
const FAULTS: &[(u16, &[u8], &[u8])] = &[
    (200, b"{\"_version\":4194304}", b"epoch: spent\n"),
    (
        201,
        b"{\"_version\":18446744073709551615}",
        b"epoch: spent\n",
    ),
    (
        403,
        b"{\"error\":{\"root_cause\":[{\"type\":\"security_exception\",\"reason\":\"no permissions for [indices:data/write/index]\"}],\"type\":\"security_exception\",\"reason\":\"no permissions for [indices:data/write/index]\"},\"status\":403}",
        b"epoch: status 403 security_exception\n",
    ),
    (401, b"Unauthorized", b"epoch: status 401\n"),
    (
        404,
        b"{\"error\":{\"root_cause\":[{\"type\":\"index_not_found_exception\"}],\"type\":\"index_not_found_exception\"},\"status\":404}",
        b"epoch: status 404 index_not_found_exception\n",
    ),
    (
        409,
        b"{\"error\":{\"type\":\"version_conflict_engine_exception\"},\"status\":409}",
        b"epoch: status 409 version_conflict_engine_exception\n",
    ),
    (
        400,
        b"{\"error\":\"no handler found for uri\"}",
        b"epoch: status 400\n",
    ),
    (400, b"{\"error\":{\"type\":7}}", b"epoch: status 400\n"),
    (400, b"{\"error\":{\"type\":\"\"}}", b"epoch: status 400\n"),
    (429, b"", b"epoch: status 429\n"),
    (500, b"{\"_version\":7}", b"epoch: status 500\n"),
    (502, b"<html>Bad Gateway</html>", b"epoch: status 502\n"),
    (202, b"{\"_version\":7}", b"epoch: status 202\n"),
    (204, b"", b"epoch: status 204\n"),
    (301, b"", b"epoch: status 301\n"),
];

#[test]
fn faults(rt: HostRuntime) {
    for (status, body, line) in FAULTS {
        assert!(rt; says(rt.alloc(), *status, body, line), "{status}");
    }
}

#[test]
fn other_lines(rt: HostRuntime) {
    assert!(rt;
        is_line(
            rt.alloc(),
            &EpochFault::Unreachable,
            b"epoch: unreachable\n"
        )
    );
    assert!(rt; is_line(rt.alloc(), &EpochFault::Memory, b"epoch: out of memory\n"));
}
