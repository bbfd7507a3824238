//! States that are written, and read back.
use crate::resume::desk::{AFTER, BEFORE, DIGEST, input_of, is_state_of, state_of};
use relay_action::{List, Text};
use relay_resume::{InputState, Mark, State, fits, read_state, write_state};
use std::alloc::Global;
use std::mem;
use std::process::Abort;

// Whether a text is that of one input whose path has this JSON string.
fn has_path(text: &[u8], string: &[u8]) -> bool {
    match text.strip_prefix(BEFORE) {
        Some(rest) => rest.strip_suffix(AFTER) == Some(string),
        None => false,
    }
}

// Whether the state of one input has this path as its JSON string, and reads back.
fn is_text_of(rt: &impl Abort, alloc: Global, path: &str, string: &[u8]) -> bool {
    let state = state_of(alloc, path).expect(rt, "a state");
    let text = write_state(alloc, &state).expect(rt, "memory");
    let read = read_state(alloc, &text).expect(rt, "a state");
    let good = has_path(&text, string) && is_state_of(&read, path);
    mem::forget((state, text, read));
    good
}

// Paths and their JSON strings (RFC 8259, section 7).
const PATHS: &[(&str, &[u8])] = &[
    ("/var/ops.ndjson", b"\"/var/ops.ndjson\""),
    ("a b", b"\"a b\""),
    ("a\"b\\c/d", b"\"a\\\"b\\\\c/d\""),
    ("\n\r\t", b"\"\\n\\r\\t\""),
    (
        "\u{8}\u{c}\u{0}\u{1f}\u{7f}",
        b"\"\\b\\f\\u0000\\u001f\x7f\"",
    ),
    (
        "\u{e9}\u{20ac}\u{1f600}",
        b"\"\xc3\xa9\xe2\x82\xac\xf0\x9f\x98\x80\"",
    ),
    ("[]{},:", b"\"[]{},:\""),
];

#[test]
fn each_path(rt: HostRuntime) {
    for (path, string) in PATHS {
        assert!(rt; is_text_of(&rt, rt.alloc(), *path, *string), "{path}");
    }
}

#[test]
fn no_inputs(rt: HostRuntime) {
    let state = State {
        epoch: 4_194_303,
        inputs: List::of(Vec::new(rt.alloc())),
    };
    let text = write_state(rt.alloc(), &state).expect(&rt, "memory");
    assert!(rt; text.as_slice() == b"{\"epoch\":4194303,\"inputs\":[]}\n".as_slice());
    let read = read_state(rt.alloc(), &text).expect(&rt, "a state");
    assert!(rt; read.epoch == 4_194_303);
    mem::forget((state, text, read));
}

// An input with the greatest numbers, whose digest is of this many bytes, and a path of this length.
fn greatest(rt: &impl Abort, alloc: Global, length: usize, checked: u64) -> InputState {
    let path = "p".repeat(alloc, length).expect(rt, "memory");
    InputState {
        path: Text::new(alloc, path.as_str()).expect(rt, "memory"),
        device: u64::MAX,
        inode: u64::MAX,
        checked,
        digest: DIGEST,
        mark: Mark {
            offset: u64::MAX,
            line: u64::MAX,
            count: u64::MAX,
        },
    }
}

// A state with this input and some more.
fn state_with(rt: &impl Abort, alloc: Global, epoch: u32, first: InputState, more: usize) -> State {
    let mut inputs = Vec::from_array(alloc, [first]).ok().expect(rt, "memory");
    for _ in 0..more {
        let input = input_of(alloc, "p").expect(rt, "an input");
        inputs.push(input).expect(rt, "memory");
    }
    State {
        epoch,
        inputs: List::of(inputs),
    }
}

// Whether a text is read, and written again as it was.
fn is_read_back(rt: &impl Abort, alloc: Global, text: &[u8]) -> bool {
    match read_state(alloc, text) {
        Ok(read) => write_state(alloc, &read).expect(rt, "memory").as_slice() == text,
        Err(_) => false,
    }
}

// An epoch, the length of a path, how many bytes a digest is of, how many inputs there are besides,
// and whether the state is within its limits.
type Row = (u32, usize, u64, usize, bool);

// Whether a state is read back, if it is within its limits, and is not otherwise.
fn is_within(rt: &impl Abort, alloc: Global, row: &Row) -> bool {
    let (epoch, length, checked, more, within) = *row;
    let first = greatest(rt, alloc, length, checked);
    let state = state_with(rt, alloc, epoch, first, more);
    let text = write_state(alloc, &state).expect(rt, "memory");
    let good = fits(&state) == within && is_read_back(rt, alloc, &text) == within;
    mem::forget((state, text));
    good
}

// The greatest numbers, the longest path, and 16 inputs; and states beyond one limit each.
const ROWS: &[Row] = &[
    (0, 4_096, 1_024, 0, true),
    (0, 4_096, 1_024, 15, true),
    (0, 4_096, 1_024, 16, false),
    (4_194_303, 4_096, 1_024, 0, true),
    (4_194_304, 4_096, 1_024, 0, false),
    (0, 4_096, 1_025, 0, false),
    (0, 0, 1_024, 0, false),
    (0, 4_097, 1_024, 0, false),
];

#[test]
fn limits(rt: HostRuntime) {
    for row in ROWS {
        assert!(rt; is_within(&rt, rt.alloc(), row), "{row:?}");
    }
}
