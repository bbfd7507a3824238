//! Tables of bulk bodies, lines at their limit, and reading back what was written.
use crate::writes::{has_source, is_of};
use relay_action::{ActionFault, Write};
use relay_ndjson::{BulkFault, LineKind, bulk_text, read_bulk};
use std::alloc::Global;
use std::mem;
use std::process::Abort;

const DELETE: &[u8] =
    b"{\"delete\":{\"_id\":\"1\",\"_index\":\"b\",\"version\":1,\"version_type\":\"external\"}}\n";

const EXTERNAL: &[u8] = b"\"external\"";

const INDEX: &[u8] =
    b"{\"index\":{\"_id\":\"1\",\"_index\":\"b\",\"version\":1,\"version_type\":\"external\"}}\n";

fn at(line: u64, kind: LineKind) -> Option<BulkFault> {
    Some(BulkFault { line, kind })
}

// Several pieces, joined.
fn joined(rt: &impl Abort, alloc: Global, pieces: &[&[u8]]) -> Vec<u8> {
    let mut bytes = Vec::new(alloc);
    for piece in pieces {
        bytes.extend_from_slice(*piece).expect(rt, "memory");
    }
    bytes
}

// The number of writes in a body without a fault.
fn count(alloc: Global, body: &[u8]) -> Option<usize> {
    match read_bulk(alloc, body) {
        Ok(writes) => Some(writes.len()),
        Err(_) => None,
    }
}

// The fault of a body in pieces.
fn fault_of(rt: &impl Abort, alloc: Global, pieces: &[&[u8]]) -> Option<BulkFault> {
    let body = joined(rt, alloc, pieces);
    read_bulk(alloc, body.as_slice()).err()
}

// What is before a line and after it, and the number of that line.
const AROUND: &[([&[u8]; 2], &[u8], u64)] = &[
    ([b"", b""], b"", 1),
    ([b"", b""], b"[1]\n", 1),
    ([b"", b""], b"\n", 1),
    ([DELETE, b""], b"", 2),
    ([INDEX, b"{}\n"], b"", 3),
];

// Whether a line has this fault, by itself and after writes and before other bad lines.
fn is_anywhere(rt: &impl Abort, alloc: Global, line: &[u8], kind: LineKind) -> bool {
    for (before, after, number) in AROUND {
        let pieces = [before[0], before[1], line, *after];
        if fault_of(rt, alloc, &pieces) != at(*number, kind) {
            return false;
        }
    }
    true
}

const NO_ACTION: &[(&[u8], LineKind)] = &[
    (b"{\n", LineKind::NotJson),
    (b"\n", LineKind::NotJson),
    (b"\r\n", LineKind::NotJson),
    (b"\xff\n", LineKind::NotJson),
    (b"[1]\n", LineKind::NotOneAction),
    (b"{\"create\":1}\n", LineKind::NotOneAction),
    (b"{\"create\":{}}\r\n", LineKind::UnsupportedAction),
];

#[test]
fn lines_that_are_no_action(rt: HostRuntime) {
    for (line, kind) in NO_ACTION {
        assert!(rt; is_anywhere(&rt, rt.alloc(), *line, *kind));
    }
}

// Whether a delete with this metadata has this fault.
fn is_of_metadata(rt: &impl Abort, alloc: Global, metadata: &[u8], kind: LineKind) -> bool {
    let line = joined(rt, alloc, &[b"{\"delete\":{", metadata, b"}}\n"]);
    is_anywhere(rt, alloc, line.as_slice(), kind)
}

const METADATA_IN_ORDER: &[(&[u8], LineKind)] = &[
    (b"\"routing\":\"x\"", LineKind::UnsupportedField),
    (b"\"_id\":true", LineKind::VersionMissing),
    (
        b"\"_id\":true,\"version\":1,\"version_type\":\"external\"",
        LineKind::MissingIndex,
    ),
    (
        b"\"_id\":true,\"_index\":\"\",\"version\":1,\"version_type\":\"external\"",
        LineKind::MissingId,
    ),
    (
        b"\"_id\":\"\",\"_index\":\"\",\"version\":1,\"version_type\":\"external\"",
        LineKind::Action(ActionFault::IndexEmpty),
    ),
];

#[test]
fn order_of_metadata(rt: HostRuntime) {
    for (metadata, kind) in METADATA_IN_ORDER {
        assert!(rt; is_of_metadata(&rt, rt.alloc(), *metadata, *kind));
    }
}

#[test]
fn first_and_last_version(rt: HostRuntime) {
    for version in [b"0".as_slice(), b"9000000000000000000"] {
        let body = joined(
            &rt,
            rt.alloc(),
            &[
                b"{\"delete\":{\"_id\":7,\"_index\":\"b\",\"version\":",
                version,
                b",\"version_type\":\"external\"}}\n",
            ],
        );
        assert!(rt; count(rt.alloc(), body.as_slice()) == Some(1));
    }
}

const BAD_VERSIONS: &[(&[u8], &[u8])] = &[
    (b"9000000000000000001", EXTERNAL),
    (b"18446744073709551616", EXTERNAL),
    (b"-0", EXTERNAL),
    (b"1.0", EXTERNAL),
    (b"\"1\"", EXTERNAL),
    (b"null", EXTERNAL),
    (b"1", b"\"external_gte\""),
    (b"1", b"3"),
];

#[test]
fn versions(rt: HostRuntime) {
    for (version, version_type) in BAD_VERSIONS {
        let metadata = joined(
            &rt,
            rt.alloc(),
            &[
                b"\"_id\":\"1\",\"_index\":\"b\",\"version\":",
                *version,
                b",\"version_type\":",
                *version_type,
            ],
        );
        let missing = LineKind::VersionMissing;
        assert!(rt; is_of_metadata(&rt, rt.alloc(), metadata.as_slice(), missing));
    }
}

const BAD_SOURCES: &[(&[u8], LineKind)] = &[
    (b"\n", LineKind::Action(ActionFault::SourceEmpty)),
    (b"\r\n", LineKind::Action(ActionFault::SourceEmpty)),
    (b"a\rb\n", LineKind::Action(ActionFault::SourceNewline)),
    (b"\xff\n", LineKind::NotJson),
    (b"\xff", LineKind::NoFinalNewline),
];

// A source after its action line, and the same after another write.
#[test]
fn sources(rt: HostRuntime) {
    for (source, kind) in BAD_SOURCES {
        let later = [INDEX, b"[\n", INDEX, *source];
        assert!(rt; fault_of(&rt, rt.alloc(), &[INDEX, *source]) == at(2, *kind));
        assert!(rt; fault_of(&rt, rt.alloc(), &later) == at(4, *kind));
    }
}

const OPEN: &[u8] =
    b"{\"delete\":{\"_id\":\"2\",\"_index\":\"books\",\"version\":2,\"version_type\":\"external\"}}";

// Pieces of a body, and the line and the kind of its fault.
const LAST_LINES: &[([&[u8]; 3], u64, LineKind)] = &[
    // Without the source.
    ([INDEX, b"", b""], 1, LineKind::SourceMissing),
    ([DELETE, INDEX, b""], 2, LineKind::SourceMissing),
    (
        [INDEX, b"\n", b"[1]\n"],
        2,
        LineKind::Action(ActionFault::SourceEmpty),
    ),
    // A last line without its end.
    ([OPEN, b"", b""], 1, LineKind::NoFinalNewline),
    ([OPEN, b"\r", b""], 1, LineKind::NoFinalNewline),
    ([DELETE, OPEN, b""], 2, LineKind::NoFinalNewline),
    ([INDEX, b"{}\n", b"\xff"], 3, LineKind::NoFinalNewline),
    ([b"[1]\n", OPEN, b""], 1, LineKind::NotOneAction),
];

#[test]
fn last_lines(rt: HostRuntime) {
    for (pieces, line, kind) in LAST_LINES {
        assert!(rt; fault_of(&rt, rt.alloc(), pieces) == at(*line, *kind));
    }
    // The same line with its end.
    assert!(rt; fault_of(&rt, rt.alloc(), &[OPEN, b"\r\n"]).is_none());
}

// The fault of a body of a front, 1,114,112 bytes after it, and an end.
fn fault_at_limit(rt: &impl Abort, alloc: Global, front: &[u8], end: &[u8]) -> Option<BulkFault> {
    let long = Vec::from_elem(alloc, b'x', 1_114_112).expect(rt, "memory");
    fault_of(rt, alloc, &[front, &long, end])
}

const SOURCE_LONG: LineKind = LineKind::Action(ActionFault::SourceLong);

// The ends, with the faults of an action line and of a source.
const AT_THEIR_LIMIT: &[(&[u8], LineKind, LineKind)] = &[
    (b"", LineKind::NoFinalNewline, LineKind::NoFinalNewline),
    (b"\n", LineKind::NotJson, SOURCE_LONG),
    (b"\r\n", LineKind::NotJson, SOURCE_LONG),
    (b"\r", LineKind::LineLong, LineKind::LineLong),
    (b"\rx\n", LineKind::LineLong, LineKind::LineLong),
    (b"x", LineKind::LineLong, LineKind::LineLong),
    (b"x\n", LineKind::LineLong, LineKind::LineLong),
];

// Lines of 1,114,112 bytes and of one more, with each end, as an action line and as a source.
#[test]
fn lines_at_their_limit(rt: HostRuntime) {
    for (end, action, source) in AT_THEIR_LIMIT {
        assert!(rt; fault_at_limit(&rt, rt.alloc(), b"", *end) == at(1, *action));
        assert!(rt; fault_at_limit(&rt, rt.alloc(), INDEX, *end) == at(2, *source));
    }
}

// Whether a write is of this document, with this version and this source.
fn is_write(write: &Write, index: &str, id: &str, version: u64, source: Option<&str>) -> bool {
    is_of(&write.key, index, id) && write.version == version && has_source(&write.action, source)
}

const TWO_LINES: &[u8] =
    b"{\"index\":{\"_id\":\"1\",\"_index\":\"books\",\"version\":1,\"version_type\":\"external\"}}\n{\"title\": \"Emma\"}\n{\"delete\":{\"_id\":\"2\",\"_index\":\"books\",\"version\":2,\"version_type\":\"external\"}}\n";

// Whether these are the writes of the two lines.
fn are_two(writes: &[Write]) -> bool {
    match writes {
        [one, other] => {
            is_write(one, "books", "1", 1, Some("{\"title\": \"Emma\"}"))
                && is_write(other, "books", "2", 2, None)
        }
        _ => false,
    }
}

// What was written for two writes reads back as them, and they are written as that text.
#[test]
fn there_and_back(rt: HostRuntime) {
    let writes = read_bulk(rt.alloc(), TWO_LINES).expect(&rt, "two writes");
    let text = bulk_text(rt.alloc(), &writes).expect(&rt, "memory");
    assert!(rt; are_two(&writes) && text.as_slice() == TWO_LINES);
    mem::forget((writes, text));
}

#[test]
fn no_line_is_no_write(rt: HostRuntime) {
    assert!(rt; count(rt.alloc(), b"") == Some(0));
}

// Line ends with a carriage return, members in another order, and an id that is an integer.
#[test]
fn another_form(rt: HostRuntime) {
    let text =
        b"{\"index\":{\"version_type\":\"external\",\"version\":3,\"_index\":\"b\",\"_id\":-9}}\r\n{}\r\n";
    let writes = read_bulk(rt.alloc(), text).expect(&rt, "a write");
    assert!(rt; writes.len() == 1);
    assert!(rt; is_write(&writes[0], "b", "-9", 3, Some("{}")));
    mem::forget(writes);
}

// A failed allocation has its own fault.
#[test]
fn refusals(rt: HostRuntime) {
    match read_bulk(rt.alloc(), DELETE) {
        Ok(writes) => assert!(rt; writes.len() == 1),
        Err(fault) => assert!(rt; Some(fault) == at(1, LineKind::Memory)),
    }
}

const NAMES: &[(LineKind, &str)] = &[
    (LineKind::NotJson, "NotJson"),
    (LineKind::NotOneAction, "NotOneAction"),
    (LineKind::UnsupportedAction, "UnsupportedAction"),
    (LineKind::UnsupportedField, "UnsupportedField"),
    (LineKind::MissingIndex, "MissingIndex"),
    (LineKind::MissingId, "MissingId"),
    (LineKind::VersionGiven, "VersionGiven"),
    (LineKind::VersionMissing, "VersionMissing"),
    (LineKind::SourceMissing, "SourceMissing"),
    (LineKind::Action(ActionFault::IdLong), "IdLong"),
    (
        LineKind::Action(ActionFault::SourceNewline),
        "SourceNewline",
    ),
    (LineKind::NoFinalNewline, "NoFinalNewline"),
    (LineKind::LineLong, "LineLong"),
    (LineKind::Read, "Read"),
    (LineKind::Memory, "Memory"),
    (LineKind::Failed, "Failed"),
];

// A kind is printed as its name.
#[test]
fn names(rt: HostRuntime) {
    for (kind, name) in NAMES {
        let printed = format!(in rt.alloc(); "{kind}").expect(&rt, "memory");
        assert!(rt; (kind.name(), printed.as_str()) == (*name, *name));
    }
}
