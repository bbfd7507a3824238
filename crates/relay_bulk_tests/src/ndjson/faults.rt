//! A table of the producer grammar: the first fault of an input, and lines at their limit.
ghost use Rattle.std.specs.Prelude.{◌<◌};

use relay_action::{ActionFault, MemStream};
use relay_ndjson::{Input, InputFault, LineKind};
use std::alloc::Global;
use std::process::Abort;

/// A fault of a kind on a line.
pub fn at(line: u64, kind: LineKind) -> Option<InputFault> {
    Some(InputFault { line, kind })
}

/// A stream of these bytes that returns a few of them per read. One of its reads fails, unless
/// that is 0.
pub fn stream_of(
    rt: &impl Abort,
    alloc: Global,
    bytes: &[u8],
    piece: usize,
    fail_at: u64,
) -> MemStream
    requires { 0 < piece }
{
    let input = bytes.to_vec(alloc).expect(rt, "memory");
    MemStream::new(alloc, input, 0, piece, fail_at).expect(rt, "memory")
}

/// Whether the next result is an operation, and not the end.
pub fn gives_next(input: &mut Input<MemStream>) -> Result<bool, InputFault> {
    match input.next() {
        Ok(next) => Ok(next.is_some()),
        Err(fault) => Err(fault),
    }
}

/// The fault, if the next result is Failed on its line.
pub fn settled(input: &mut Input<MemStream>, fault: InputFault) -> Option<InputFault> {
    if gives_next(input).err() == at(fault.line, LineKind::Failed) {
        Some(fault)
    } else {
        at(0, LineKind::Failed)
    }
}

// The first fault of an input, or the result after it if that is not Failed.
fn first_fault(input: &mut Input<MemStream>) -> Option<InputFault> {
    for _ in 0..100_000u64 {
        match gives_next(input) {
            Ok(true) => {}
            Ok(false) => return gives_next(input).err(),
            Err(fault) => return settled(input, fault),
        }
    }
    at(0, LineKind::Failed)
}

// The first fault of an input in pieces, or the result after it if that is not Failed.
fn fault_of(
    rt: &impl Abort,
    alloc: Global,
    text: &[u8],
    default_index: Option<&str>,
) -> Option<InputFault> {
    let stream = stream_of(rt, alloc, text, 3, 0);
    first_fault(&mut Input::new(alloc, stream, default_index))
}

// An input, the default index, and the line and the kind of its first fault, if it has one.
type First = (&'static [u8], Option<&'static str>, Option<(u64, LineKind)>);

const FIRST: &[First] = &[
    // No fault.
    (b"", None, None),
    (b"\n\r\n", None, None),
    (
        b"{\"delete\":{\"_id\":\"1\",\"_id\":\"2\",\"_index\":\"b\"}}\r\n",
        None,
        None,
    ),
    // Lines that are no action.
    (b"{\n", None, Some((1, LineKind::NotJson))),
    (b"\xff\n", None, Some((1, LineKind::NotJson))),
    (b"\r", None, Some((1, LineKind::NotJson))),
    (
        b"{\"delete\":{\"_id\":\"1\",\"_index\":\"b\",\"x\":1e999}}\n",
        None,
        Some((1, LineKind::NotJson)),
    ),
    (b"[1]\n", None, Some((1, LineKind::NotOneAction))),
    (b"{\"create\":1}\n", None, Some((1, LineKind::NotOneAction))),
    (
        b"{\"index\":{},\"delete\":{}}\n",
        None,
        Some((1, LineKind::NotOneAction)),
    ),
    (
        b"{\"create\":{\"_index\":\"b\",\"_id\":\"1\"}}\n",
        None,
        Some((1, LineKind::UnsupportedAction)),
    ),
    (b"\n\n[1]\n", None, Some((3, LineKind::NotOneAction))),
    // Metadata and documents.
    (
        b"{\"index\":{\"_index\":\"b\",\"_id\":\"1\",\"routing\":\"x\",\"version\":3}}\n",
        None,
        Some((1, LineKind::UnsupportedField)),
    ),
    (
        b"{\"index\":{\"_index\":\"b\",\"_id\":\"1\",\"version\":3}}\n",
        None,
        Some((1, LineKind::VersionGiven)),
    ),
    (
        b"{\"delete\":{\"_id\":\"1\"}}\n",
        None,
        Some((1, LineKind::MissingIndex)),
    ),
    (
        b"{\"delete\":{\"_id\":\"1\",\"_index\":3}}\n",
        None,
        Some((1, LineKind::MissingIndex)),
    ),
    (
        b"{\"index\":{\"_index\":\"b\"}}\n",
        None,
        Some((1, LineKind::MissingId)),
    ),
    (
        b"{\"delete\":{\"_id\":-0,\"_index\":\"b\"}}\n",
        None,
        Some((1, LineKind::MissingId)),
    ),
    (
        b"{\"delete\":{\"_id\":1.0,\"_index\":\"b\"}}\n",
        None,
        Some((1, LineKind::MissingId)),
    ),
    (
        b"{\"delete\":{\"_id\":\"1\",\"_index\":\"\"}}\n",
        None,
        Some((1, LineKind::Action(ActionFault::IndexEmpty))),
    ),
    (
        b"{\"delete\":{\"_id\":\"\",\"_index\":\"b\"}}\n",
        None,
        Some((1, LineKind::Action(ActionFault::IdEmpty))),
    ),
    // Sources.
    (
        b"{\"index\":{\"_index\":\"b\",\"_id\":\"1\"}}\n",
        None,
        Some((1, LineKind::SourceMissing)),
    ),
    (
        b"{\"index\":{\"_index\":\"b\",\"_id\":\"1\"}}",
        None,
        Some((1, LineKind::SourceMissing)),
    ),
    (
        b"\n{\"delete\":{\"_id\":-7,\"_index\":\"b\"}}\n\n{\"index\":{\"_id\":1,\"_index\":\"b\"}}\n\n",
        None,
        Some((5, LineKind::Action(ActionFault::SourceEmpty))),
    ),
    (
        b"{\"index\":{\"_id\":1,\"_index\":\"b\"}}\na\rb",
        None,
        Some((2, LineKind::Action(ActionFault::SourceNewline))),
    ),
    (
        b"{\"index\":{\"_id\":1,\"_index\":\"b\"}}\na\r",
        None,
        Some((2, LineKind::Action(ActionFault::SourceNewline))),
    ),
    (
        b"{\"index\":{\"_id\":1,\"_index\":\"b\"}}\n\xff",
        None,
        Some((2, LineKind::NotJson)),
    ),
    // The default index.
    (b"{\"delete\":{\"_id\":\"1\"}}\n", Some("b"), None),
    (
        b"{\"delete\":{\"_id\":\"1\"}}\n",
        Some(""),
        Some((1, LineKind::Action(ActionFault::IndexEmpty))),
    ),
];

#[test]
fn first_faults(rt: HostRuntime) {
    for (text, default_index, fault) in FIRST {
        let wanted = match fault {
            Some((line, kind)) => at(*line, *kind),
            None => None,
        };
        assert!(rt; fault_of(&rt, rt.alloc(), *text, *default_index) == wanted);
    }
}

// The first fault of an input of 65,536 blank lines and an end.
fn fault_after_blank_lines(rt: &impl Abort, alloc: Global, end: &[u8]) -> Option<InputFault> {
    let mut text = Vec::from_elem(alloc, b'\n', 65_536).expect(rt, "memory");
    text.extend_from_slice(end).expect(rt, "memory");
    fault_of(rt, alloc, &text, None)
}

const AFTER_BLANK_LINES: &[(&[u8], LineKind)] = &[
    (b"[]", LineKind::NotOneAction),
    (b"\n", LineKind::LineLong),
];

#[test]
fn blank_lines_at_their_limit(rt: HostRuntime) {
    assert!(rt; fault_after_blank_lines(&rt, rt.alloc(), b"").is_none());
    for (end, kind) in AFTER_BLANK_LINES {
        assert!(rt; fault_after_blank_lines(&rt, rt.alloc(), *end) == at(65_537, *kind));
    }
}

// The first fault of an input of 1,114,112 bytes and an end.
fn fault_at_limit(rt: &impl Abort, alloc: Global, end: &[u8]) -> Option<InputFault> {
    let mut text = Vec::from_elem(alloc, b'x', 1_114_112).expect(rt, "memory");
    text.extend_from_slice(end).expect(rt, "memory");
    let stream = MemStream::new(alloc, text, 0, 50_000, 0).expect(rt, "memory");
    gives_next(&mut Input::new(alloc, stream, None)).err()
}

// Lines of 1,114,112 bytes and of one more, with each end. Their text is not JSON, which is found
// for a line that is not too long.
const AT_THEIR_LIMIT: &[(&[u8], LineKind)] = &[
    (b"", LineKind::NotJson),
    (b"\n", LineKind::NotJson),
    (b"\r\n", LineKind::NotJson),
    (b"\r", LineKind::LineLong),
    (b"\rx\n", LineKind::LineLong),
    (b"x", LineKind::LineLong),
    (b"x\n", LineKind::LineLong),
];

#[test]
fn lines_at_their_limit(rt: HostRuntime) {
    for (end, kind) in AT_THEIR_LIMIT {
        assert!(rt; fault_at_limit(&rt, rt.alloc(), *end) == at(1, *kind));
    }
}
