//! What a sifted reader passes on, and what it leaves out.
use relay_action::{ByteIn, MemStream};
use relay_sift::{SiftNotes, Sifted};
use std::alloc::{AllocError, Global};

type Sifting = Sifted<MemStream, MemStream>;

/// An input, what is passed on of it, and what is written.
pub struct Row {
    input: &'static str,
    passed: &'static str,
    left_out: &'static str,
}

/// Inputs.
pub const ROWS: &[Row] = &[
    Row {
        input: "",
        passed: "",
        left_out: "",
    },
    Row {
        input: "{\"index\":{\"_id\":\"1\"}}\r\n{}\n\n{\"delete\":{\"_id\":\"2\"}}",
        passed: "{\"index\":{\"_id\":\"1\"}}\r\n{}\n\n{\"delete\":{\"_id\":\"2\"}}",
        left_out: "",
    },
    Row {
        input: "{\"create\":{\"_id\":\"1\"}}\n{}\n{\"delete\":{\"_id\":\"2\"}}\n",
        passed: "\n\n{\"delete\":{\"_id\":\"2\"}}\n",
        left_out: "{\"invalid\":{\"kind\":\"UnsupportedAction\",\"line\":1,\"producer\":3}}\n{\"create\":{\"_id\":\"1\"}}\n{}\n",
    },
    Row {
        input: "{\"delete\":{\"_id\":\"2\",\"routing\":1}}\r\n{\"index\":{\"_id\":\"1\"}}\n\n{\"index\":{\"_id\":\"3\"}}",
        passed: "\n\n\n",
        left_out: "{\"invalid\":{\"kind\":\"UnsupportedField\",\"line\":1,\"producer\":3}}\n{\"delete\":{\"_id\":\"2\",\"routing\":1}}\r\n{\"invalid\":{\"kind\":\"SourceEmpty\",\"line\":3,\"producer\":3}}\n{\"index\":{\"_id\":\"1\"}}\n\n{\"invalid\":{\"kind\":\"SourceMissing\",\"line\":4,\"producer\":3}}\n{\"index\":{\"_id\":\"3\"}}\n",
    },
    Row {
        input: "{\"index\":{}}\n{}\n{\"upsert\":{\"_id\":\"1\"}}\n{\"index\":{}}\n{}\n",
        passed: "\n\n{\"upsert\":{\"_id\":\"1\"}}\n{\"index\":{}}\n{}\n",
        left_out: "{\"invalid\":{\"kind\":\"MissingId\",\"line\":1,\"producer\":3}}\n{\"index\":{}}\n{}\n",
    },
];

/// The sizes of the pieces in which an input is read.
pub const PIECES: &[usize] = &[1, 7, 1_000];

/// A stream with this input, which is read in pieces of this size.
pub fn input_of(alloc: Global, input: &str, piece: usize) -> Result<MemStream, AllocError> {
    MemStream::new(alloc, input.as_bytes().to_vec(alloc)?, 0, piece.max(1), 0)
}

/// A stream with room for all that is written.
pub fn output(alloc: Global) -> Result<MemStream, AllocError> {
    MemStream::new(alloc, Vec::new(alloc), 65_536, 65_536, 0)
}

// A sifted reader of this stream that writes to this file.
fn over(alloc: Global, reader: MemStream, file: MemStream) -> Result<Sifting, AllocError> {
    let index = Some(String::from_str(alloc, "books")?);
    let notes = Some(SiftNotes::shared(alloc)?);
    Sifted::new(alloc, reader, file, 3, index, notes)
}

// A sifted reader of this input, read in pieces of this size.
fn sifted(alloc: Global, input: &str, piece: usize) -> Result<Sifting, AllocError> {
    let reader = input_of(alloc, input, piece)?;
    over(alloc, reader, output(alloc)?)
}

// Whether this is what it passes on.
fn passes(sifted: &mut Sifting, wanted: &str) -> bool {
    let mut rest = wanted.as_bytes();
    let mut buffer = [0u8; 16];
    for _ in 0..1_000 {
        match sifted.read(&mut buffer) {
            Ok(0) => return rest.is_empty(),
            Ok(count) => match rest.strip_prefix(&buffer[..count]) {
                Some(left) => rest = left,
                None => return false,
            },
            Err(_) => return false,
        }
    }
    false
}

/// Whether this is passed on and written, if the input is read in pieces of this size.
pub fn agrees(alloc: Global, row: &Row, piece: usize) -> bool {
    match sifted(alloc, row.input, piece) {
        Ok(mut sifted) => {
            passes(&mut sifted, row.passed) && sifted.file().written() == row.left_out.as_bytes()
        }
        Err(_) => false,
    }
}

#[test]
fn rows_in_pieces(rt: HostRuntime) {
    for row in ROWS {
        for piece in PIECES {
            assert!(rt; agrees(rt.alloc(), row, *piece));
        }
    }
}
