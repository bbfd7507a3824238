//! Which faults are listed, and what they are about.
use crate::sift::sifted::{PIECES, input_of, output};
use relay_action::MemStream;
use relay_ndjson::{InputFault, LineKind};
use relay_sift::{Kept, check, subject_kept};
use std::alloc::{AllocError, Global};

/// An input, how many faults it has, and what is listed.
pub struct Row {
    input: &'static str,
    count: u64,
    listed: &'static str,
}

/// Inputs.
pub const ROWS: &[Row] = &[
    Row {
        input: "",
        count: 0,
        listed: "",
    },
    Row {
        input: "{\"index\":{\"_id\":\"1\"}}\r\n{}\n\n{\"delete\":{\"_id\":\"2\"}}",
        count: 0,
        listed: "",
    },
    Row {
        input: "{\"create\":{\"_id\":\"1\"}}\n{}\n{\"delete\":{\"_id\":\"2\",\"routing\":1}}\n{\"index\":{\"_id\":\"1\"}}\n\n{\"delete\":{}}\n",
        count: 4,
        listed: "line 1: UnsupportedAction\n  the action create is not supported: index and delete are\nline 3: UnsupportedField\n  the member routing is not supported\nline 5: SourceEmpty\nline 6: MissingId\n",
    },
    Row {
        input: "{\"delete\":{}}\n[]\n{\"delete\":{}}\n",
        count: 2,
        listed: "line 1: MissingId\nline 2: NotOneAction\n",
    },
];

// Whether this is listed of what is read from this stream.
fn lists(alloc: Global, row: &Row, reader: &mut MemStream, out: &mut MemStream) -> bool {
    match check(alloc, reader, Some("books"), out) {
        Ok(count) => count == row.count && out.written() == row.listed.as_bytes(),
        Err(_) => false,
    }
}

fn lists_in(alloc: Global, row: &Row, piece: usize) -> Result<bool, AllocError> {
    let mut reader = input_of(alloc, row.input, piece)?;
    Ok(lists(alloc, row, &mut reader, &mut output(alloc)?))
}

/// Whether this is listed, if the input is read in pieces of this size.
pub fn agrees(alloc: Global, row: &Row, piece: usize) -> bool {
    lists_in(alloc, row, piece) == Ok(true)
}

#[test]
fn listed_in_pieces(rt: HostRuntime) {
    for row in ROWS {
        for piece in PIECES {
            assert!(rt; agrees(rt.alloc(), row, *piece));
        }
    }
}

const LINE: &[u8] = b"{\"delete\":{\"_id\":\"1\",\"routing\":1}}\n";

/// Whether this is said beneath a fault of the line with this number, after as many lines were read.
pub fn says(alloc: Global, lines: u64, line: u64, wanted: &[u8]) -> bool {
    let mut kept = Kept::new(alloc);
    for _ in 0..lines {
        kept.add(LINE);
    }
    let fault = InputFault {
        line,
        kind: LineKind::UnsupportedField,
    };
    match subject_kept(alloc, fault, &kept) {
        Ok(text) => text.as_slice() == wanted,
        Err(_) => false,
    }
}

/// What is said beneath it.
pub const SAID: &[u8] = b"  the member routing is not supported\n";

// How many lines were read, the number of the line with the fault, and what is said beneath it.
const KEPT: &[(u64, u64, &[u8])] = &[
    (1, 1, SAID),
    (1, 0, b""),
    (3, 2, SAID),
    (10_000, 10_000, SAID),
    (10_000, 9_000, SAID),
    (10_000, 1, b""),
];

#[test]
fn lines_that_are_kept(rt: HostRuntime) {
    for row in KEPT {
        assert!(rt; says(rt.alloc(), row.0, row.1, row.2));
    }
}
