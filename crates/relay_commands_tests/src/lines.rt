//! `lines` over streams in memory: the worked rows, failures in the middle, and what is written
//! before them.
use crate::apply::stream_of;
use relay_action::{ActionFault, MemStream};
use relay_commands::lines::{LinesFault, lines};
use relay_ndjson::{InputFault, LineKind};
use std::process::Abort;

pub const TWO: &[u8] =
    b"{\"index\":{\"_index\":\"books\",\"_id\":\"1\"}}\n{\"title\": \"Emma\"}\n{\"delete\":{\"_id\":\"2\",\"_index\":\"books\"}}\n";

pub const TWO_LINES: &[u8] =
    b"{\"index\":{\"_id\":\"1\",\"_index\":\"books\",\"version\":1,\"version_type\":\"external\"}}\n{\"title\": \"Emma\"}\n{\"delete\":{\"_id\":\"2\",\"_index\":\"books\",\"version\":2,\"version_type\":\"external\"}}\n";

fn at(line: u64, kind: LineKind) -> Result<u64, LinesFault> {
    Err(LinesFault::Input(InputFault { line, kind }))
}

// The result of `lines` for an input in pieces, with a default index and from a first version on, and
// what it writes to. That has this much room, and is written to in pieces too; one call of the reader
// fails, and one of the writer (0: none).
fn ran(
    rt: &(impl Abort + AllocGlobal),
    input: (&[u8], u64, u64),
    output: (usize, u64, u64),
    default_index: Option<&str>,
    first: u64,
) -> (Result<u64, LinesFault>, MemStream) {
    let (text, piece, fails) = input;
    let mut reader = stream_of(rt, text, 0, piece as usize, fails);
    let (room, piece, fails) = output;
    let mut writer = stream_of(rt, b"", room, piece as usize, fails);
    let first = first.min(9_000_000_000_000_000_000);
    let found = lines(rt.alloc(), &mut reader, &mut writer, default_index, first);
    (found, writer)
}

// Whether `lines` has this result for an input in pieces, and writes this.
fn gives(
    rt: &(impl Abort + AllocGlobal),
    input: &[u8],
    settings: (Option<&str>, u64, u64),
    answer: Result<u64, LinesFault>,
    written: &[u8],
) -> bool {
    let (default_index, first, piece) = settings;
    let (found, writer) = ran(
        rt,
        (input, piece, 0),
        (1_000_000, piece, 0),
        default_index,
        first,
    );
    found == answer && writer.written() == written
}

#[test]
fn two_operations(rt: HostRuntime) {
    assert!(rt; TWO_LINES.len() == 173);
    for piece in [1u64, 7, 100_000] {
        assert!(rt; gives(&rt, TWO, (None, 1, piece), Ok(2), TWO_LINES));
    }
}

const WORKED: &[(&[u8], Option<&str>, Result<u64, LinesFault>, &[u8])] = &[
    (b"", None, Ok(0), b""),
    (
        b"{\"index\":{\"_index\":\"books\",\"_id\":\"1\"}}\n{\"a\":1}",
        None,
        Ok(1),
        b"{\"index\":{\"_id\":\"1\",\"_index\":\"books\",\"version\":1,\"version_type\":\"external\"}}\n{\"a\":1}\n",
    ),
    (
        b"{\"delete\":{\"_id\":7}}\n{\"delete\":{\"_id\":\"a\\\"\\u0001\\n\"}}\n",
        Some("b"),
        Ok(2),
        b"{\"delete\":{\"_id\":\"7\",\"_index\":\"b\",\"version\":1,\"version_type\":\"external\"}}\n{\"delete\":{\"_id\":\"a\\\"\\u0001\\n\",\"_index\":\"b\",\"version\":2,\"version_type\":\"external\"}}\n",
    ),
    (
        b"{\"delete\":{\"_id\":\"1\"}}\n",
        None,
        Err(LinesFault::Input(InputFault {
            line: 1,
            kind: LineKind::MissingIndex,
        })),
        b"",
    ),
    (
        b"{\"delete\":{\"_id\":\"1\"}}\n",
        Some(""),
        Err(LinesFault::Input(InputFault {
            line: 1,
            kind: LineKind::Action(ActionFault::IndexEmpty),
        })),
        b"",
    ),
    (
        b"{\"delete\":{\"_id\":\"1\",\"_index\":\"b\"}}\n{",
        None,
        Err(LinesFault::Input(InputFault {
            line: 2,
            kind: LineKind::NotJson,
        })),
        b"{\"delete\":{\"_id\":\"1\",\"_index\":\"b\",\"version\":1,\"version_type\":\"external\"}}\n",
    ),
];

#[test]
fn worked_rows(rt: HostRuntime) {
    for (input, index, answer, written) in WORKED {
        assert!(rt; gives(&rt, *input, (*index, 1, 5), *answer, *written));
    }
}

#[test]
fn versions_end(rt: HostRuntime) {
    let last = 9_000_000_000_000_000_000;
    let input =
        b"{\"delete\":{\"_id\":\"1\",\"_index\":\"b\"}}\n{\"delete\":{\"_id\":\"2\",\"_index\":\"b\"}}\n";
    let written =
        b"{\"delete\":{\"_id\":\"1\",\"_index\":\"b\",\"version\":9000000000000000000,\"version_type\":\"external\"}}\n";
    let spent = Err(LinesFault::VersionsSpent { line: 2 });
    assert!(rt; gives(&rt, input, (None, last, 9), spent, written));
}

// The line that is being read after this many bytes of TWO, and the length of the text of the
// operations that are complete by then.
fn reached(read: u64) -> (u64, u64) {
    match read {
        0..39 => (1, 0),
        39..57 => (2, 0),
        57..97 => (3, 95),
        _ => (4, 173),
    }
}

// The result of `lines` for TWO, and the length of what it writes, if that is a prefix of
// TWO_LINES. Both are in pieces, with one failing call each (0: none).
fn of_two(
    rt: &(impl Abort + AllocGlobal),
    reads: (u64, u64),
    writes: (u64, u64),
) -> (Result<u64, LinesFault>, Option<u64>) {
    let (found, writer) = ran(
        rt,
        (TWO, reads.0, reads.1),
        (200, writes.0, writes.1),
        None,
        1,
    );
    let written = writer.written();
    let length = TWO_LINES
        .starts_with(written)
        .then_some(written.len() as u64);
    (found, length)
}

// Whether `lines` is right for TWO in pieces, if this call of the reader fails: it names the line
// that was being read, after the text of the operations that were complete by then was written; or,
// if the call is not made, both are written.
fn is_right_at_read(rt: &(impl Abort + AllocGlobal), piece: u64, fail_at: u64) -> bool {
    let piece = piece.max(1);
    let reads = 97u64.div_ceil(piece);
    let (line, length) = reached(piece.saturating_mul(fail_at.saturating_sub(1)));
    let answer = if fail_at > reads + 1 {
        Ok(2)
    } else {
        at(line, LineKind::Read)
    };
    of_two(rt, (piece, fail_at), (50, 0)) == (answer, Some(length))
}

// Each call of the reader fails in turn, also byte by byte.
#[test]
fn each_read_fails_in_turn(rt: HostRuntime) {
    assert!(rt; TWO.len() == 97);
    for (piece, fail_at) in (1..120u64).flat_map(|fail_at| [(1u64, fail_at), (9, fail_at)]) {
        assert!(rt; is_right_at_read(&rt, piece, fail_at), "{piece} {fail_at}");
    }
}

// How many bytes are written in this many calls of a writer in pieces: first only the first text,
// since a delete at the end of what was read may have to wait, and then the second.
fn sent_in(calls: u64, piece: u64) -> u64 {
    let first = 95u64.div_ceil(piece.max(1));
    if calls < first {
        calls.saturating_mul(piece)
    } else {
        (calls - first).saturating_mul(piece).min(78) + 95
    }
}

// Whether `lines` is right for TWO, if this call of the writer fails: exactly the bytes before it
// were written; or, if the call is not made, all.
fn is_right_at_write(rt: &(impl Abort + AllocGlobal), piece: u64, fail_at: u64) -> bool {
    let piece = piece.max(1);
    let sent = sent_in(fail_at.saturating_sub(1), piece);
    let answer = if sent < 173 {
        Err(LinesFault::Write { sent })
    } else {
        Ok(2)
    };
    of_two(rt, (1000, 0), (piece, fail_at)) == (answer, Some(sent))
}

// Each call of the writer fails in turn, also byte by byte.
#[test]
fn each_write_fails_in_turn(rt: HostRuntime) {
    for (piece, fail_at) in (1..180u64).flat_map(|fail_at| [(1u64, fail_at), (20, fail_at)]) {
        assert!(rt; is_right_at_write(&rt, piece, fail_at), "{piece} {fail_at}");
    }
}
