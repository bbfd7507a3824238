//! Lines one after another, for readers of other formats, and the lines of operations.
use crate::ndjson::faults::{at, stream_of};
use crate::writes::has_source;
use relay_action::{ActionKind, MemStream};
use relay_ndjson::{InputFault, LineEnd, LineKind, LineReader};
use std::alloc::Global;
use std::mem;
use std::process::Abort;

const INPUT: &[u8] = b"a b\r\n\nc\rd\n\re\r";

const TEXTS: &[(&[u8], LineEnd)] = &[
    (b"a b", LineEnd::ReturnFeed),
    (b"", LineEnd::Feed),
    (b"c\rd", LineEnd::Feed),
    (b"\re\r", LineEnd::Open),
];

/// Whether the last line taken has this text, this end and this number.
fn is_line(lines: &LineReader, text: &[u8], end: LineEnd, number: u64) -> bool {
    lines.text() == text && lines.end() == end && lines.count() == number
}

// Whether the lines of the input are taken. If the first read returns all of it, a line is ready
// after the first two.
fn takes_each(lines: &mut LineReader, stream: &mut MemStream, at_once: bool) -> bool {
    let mut number: u64 = 0;
    for (text, end) in TEXTS {
        number = number.saturating_add(1);
        let taken = lines.next(stream) == Ok(true) && is_line(lines, *text, *end, number);
        if !taken || at_once && lines.is_ready() != (number < 3) {
            return false;
        }
    }
    lines.next(stream) == Ok(false) && lines.count() == 4
}

// The lines of the input, with their numbers, from pieces of several sizes.
#[test]
fn lines_one_after_another(rt: HostRuntime) {
    for piece in [1usize, 3, 100] {
        let mut stream = stream_of(&rt, rt.alloc(), INPUT, piece.max(1), 0);
        let mut lines = LineReader::new(rt.alloc());
        let at_once = piece >= INPUT.len();
        assert!(rt; !lines.is_ready() && takes_each(&mut lines, &mut stream, at_once));
        mem::forget((stream, lines));
    }
}

// The second read fails after two lines.
#[test]
fn a_line_that_is_not_whole_is_not_counted(rt: HostRuntime) {
    let mut stream = stream_of(&rt, rt.alloc(), INPUT, 6, 2);
    let mut lines = LineReader::new(rt.alloc());
    assert!(rt; lines.next(&mut stream) == Ok(true));
    assert!(rt; lines.next(&mut stream) == Ok(true));
    let fault = lines.next(&mut stream).expect_err(&rt, "a read fails");
    assert!(rt; fault.line == 3 && lines.count() == 2);
    mem::forget((stream, lines));
}

const ENDS: &[(LineEnd, &[u8])] = &[
    (LineEnd::Feed, b"\n"),
    (LineEnd::ReturnFeed, b"\r\n"),
    (LineEnd::Open, b""),
];

#[test]
fn bytes_of_line_ends(rt: HostRuntime) {
    for (end, bytes) in ENDS {
        assert!(rt; end.bytes() == *bytes);
    }
}

/// The lines of a delete and of an index action, and the input that consists of them.
const DELETE: &[u8] = b"{\"delete\":{\"_id\":\"1\",\"_index\":\"c\"}}";

const INDEX: &[u8] = b"{\"index\":{\"_id\":\"2\"}}";

const OPERATIONS: &[u8] =
    b"\r\n{\"delete\":{\"_id\":\"1\",\"_index\":\"c\"}}\r\n\n{\"index\":{\"_id\":\"2\"}}\n {\"a\":1}";

/// What an action line asks for, and the index and the id of its document.
type Asked<'a> = (ActionKind, &'a str, &'a str);

/// Whether the next action line asks for this, or there is none if `wanted` is none.
fn asks(
    lines: &mut LineReader,
    alloc: Global,
    stream: &mut MemStream,
    wanted: Option<Asked>,
) -> bool {
    match lines.next_action(alloc, stream, Some("b")) {
        Ok(Some((kind, key))) => wanted == Some((kind, key.index(), key.id())),
        Ok(None) => wanted.is_none(),
        Err(_) => false,
    }
}

/// Whether the next line is this source.
fn stores(lines: &mut LineReader, alloc: Global, stream: &mut MemStream, text: &str) -> bool {
    match lines.next_source(alloc, stream) {
        Ok(action) => has_source(&action, Some(text)),
        Err(_) => false,
    }
}

// Whether exactly the two operations are taken, with their lines.
fn takes_operations(lines: &mut LineReader, alloc: Global, stream: &mut MemStream) -> bool {
    asks(lines, alloc, stream, Some((ActionKind::Delete, "c", "1")))
        && is_line(lines, DELETE, LineEnd::ReturnFeed, 2)
        && asks(lines, alloc, stream, Some((ActionKind::Index, "b", "2")))
        && is_line(lines, INDEX, LineEnd::Feed, 4)
        && stores(lines, alloc, stream, " {\"a\":1}")
        && is_line(lines, b" {\"a\":1}", LineEnd::Open, 5)
        && asks(lines, alloc, stream, None)
        && lines.count() == 5
}

#[test]
fn lines_of_operations(rt: HostRuntime) {
    let alloc = rt.alloc();
    for piece in [1usize, 7, 100] {
        let mut stream = stream_of(&rt, alloc, OPERATIONS, piece.max(1), 0);
        let mut lines = LineReader::new(alloc);
        assert!(rt; takes_operations(&mut lines, alloc, &mut stream));
        mem::forget((stream, lines));
    }
}

/// The fault of the source after the action line of an input.
fn source_fault(rt: &impl Abort, alloc: Global, input: &[u8]) -> Option<InputFault> {
    let mut stream = stream_of(rt, alloc, input, 100, 0);
    let mut lines = LineReader::new(alloc);
    let index = Some((ActionKind::Index, "b", "2"));
    assert!(rt; asks(&mut lines, alloc, &mut stream, index));
    let fault = lines.next_source(alloc, &mut stream).err();
    mem::forget((stream, lines));
    fault
}

const SOURCES: &[(&[u8], u64, LineKind)] = &[
    (b"\n{\"index\":{\"_id\":\"2\"}}", 2, LineKind::SourceMissing),
    (
        b"\n{\"index\":{\"_id\":\"2\"}}\r\n",
        2,
        LineKind::SourceMissing,
    ),
    (
        b"\n{\"index\":{\"_id\":\"2\"}}\n\xff\n",
        3,
        LineKind::NotJson,
    ),
];

#[test]
fn faults_of_a_source_line(rt: HostRuntime) {
    for (input, line, kind) in SOURCES {
        assert!(rt; source_fault(&rt, rt.alloc(), *input) == at(*line, *kind));
    }
}
