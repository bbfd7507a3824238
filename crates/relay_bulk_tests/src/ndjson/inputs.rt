//! The operations of an input and their lines, and failures in the middle.
use crate::ndjson::faults::{at, gives_next, settled, stream_of};
use crate::writes::{has_source, is_of};
use relay_action::MemStream;
use relay_ndjson::{Input, InputFault, LineKind, Parser};
use std::alloc::{AllocError, Global};
use std::mem;
use std::process::Abort;

// Whether the next operation is of this document, with this source.
fn gives(input: &mut Input<MemStream>, id: &str, index: &str, source: Option<&str>) -> bool {
    match input.next() {
        Ok(Some((key, action))) => is_of(&key, index, id) && has_source(&action, source),
        _ => false,
    }
}

// An input in pieces of five bytes, with the default index `b`.
fn input_of(rt: &impl Abort, alloc: Global, text: &[u8]) -> Input<'static, MemStream> {
    let stream = stream_of(rt, alloc, text, 5, 0);
    Input::new(alloc, stream, Some("b"))
}

fn has_operations(input: &mut Input<MemStream>) -> bool {
    input.line() == 0
        && gives(input, "7", "b", None)
        && input.line() == 1
        && gives(input, "-9", "c", Some("{\"a\":1}"))
        && input.line() == 3
        && gives_next(input) == Ok(false)
        && gives_next(input) == Ok(false)
}

// The input has a delete and a write, on the lines 1 and 3, and then no more, however often it is
// asked.
#[test]
fn operations_and_their_lines(rt: HostRuntime) {
    let text = b"{\"delete\":{\"_id\":7}}\n\n{\"index\":{\"_id\":-9,\"_index\":\"c\"}}\n{\"a\":1}";
    let mut input = input_of(&rt, rt.alloc(), text);
    assert!(rt; has_operations(&mut input));
    mem::forget(input);
}

fn uses_bytes(input: &mut Input<MemStream>) -> bool {
    input.used() == 0
        && gives(input, "7", "b", None)
        && input.used() == 24
        && gives(input, "1", "b", Some("{}"))
        && input.used() == 49
}

// What is used up to the end of each operation, blank lines and line ends with it.
#[test]
fn operations_and_their_bytes(rt: HostRuntime) {
    let text = b"\r\n{\"delete\":{\"_id\":7}}\r\n{\"index\":{\"_id\":1}}\r\n{}\r\n\n";
    let mut input = input_of(&rt, rt.alloc(), text);
    assert!(rt; uses_bytes(&mut input));
    mem::forget(input);
}

// Lines in the usual form and in others, and their meaning.
const FORMS: &[(&[u8], &str, &str, Option<&str>)] = &[
    (
        b"{\"index\":{\"_index\":\"c\",\"_id\":\"1\"}}\n{}",
        "1",
        "c",
        Some("{}"),
    ),
    (b"{\"index\":{\"_id\":\"1\"}}\n{}", "1", "b", Some("{}")),
    (
        b"{\"delete\":{\"_index\":\"c\",\"_id\":\"1\"}}\n",
        "1",
        "c",
        None,
    ),
    (b"{\"delete\":{\"_id\":\"1\"}}", "1", "b", None),
    (
        b"{\"delete\":{\"_id\":\"1\",\"_index\":\"c\"}}",
        "1",
        "c",
        None,
    ),
    (
        b" { \"delete\" : {\"_index\":\"c\",\"_id\":\"1\"}}",
        "1",
        "c",
        None,
    ),
    (
        b"{\"delete\":{\"_index\":\"c\",\"_id\":\"1\"}} ",
        "1",
        "c",
        None,
    ),
    (
        b"{\"delete\":{\"_index\":\"c\",\"_id\":\"}}\"}}",
        "}}",
        "c",
        None,
    ),
    (
        b"{\"delete\":{\"_index\":\"c\",\"_id\":\"\\\"\\u0031\"}}",
        "\"1",
        "c",
        None,
    ),
    (
        b"{\"delete\":{\"_index\":\"\\\\\",\"_id\":\"1\"}}",
        "1",
        "\\",
        None,
    ),
    (
        b"{\"delete\":{\"_index\":\"c\",\"_id\":\"\xc3\xa4\"}}",
        "ä",
        "c",
        None,
    ),
    (
        b"{\"delete\":{\"_index\":\"\xc3\xa4\",\"_id\":\"1\"}}",
        "1",
        "ä",
        None,
    ),
];

// The same is read from a line in the usual form and from one in another form. Each text is one
// operation.
#[test]
fn forms_of_action_lines(rt: HostRuntime) {
    for (text, id, index, source) in FORMS {
        let mut input = input_of(&rt, rt.alloc(), *text);
        assert!(rt; gives(&mut input, *id, *index, *source));
        assert!(rt; gives_next(&mut input) == Ok(false));
        mem::forget(input);
    }
}

// How many operations an input has, and its first fault, if the result after it is Failed on the
// same line.
fn given_until(input: &mut Input<MemStream>) -> (u64, Option<InputFault>) {
    let mut given = 0u64;
    for _ in 0..4u8 {
        match gives_next(input) {
            Ok(true) => given = given.saturating_add(1),
            Ok(false) => return (given, None),
            Err(fault) => return (given, settled(input, fault)),
        }
    }
    (given, None)
}

const TWO_DELETES: &[u8] =
    b"{\"delete\":{\"_id\":\"1\",\"_index\":\"b\"}}\n\n{\"delete\":{\"_id\":\"2\",\"_index\":\"b\"}}\n";

// The operations and the first fault of two deletes with a blank line between them, if this read
// fails. Nine bytes arrive at a time.
fn failed_read(rt: &impl Abort, alloc: Global, fail_at: u64) -> (u64, Option<InputFault>) {
    let stream = stream_of(rt, alloc, TWO_DELETES, 9, fail_at);
    given_until(&mut Input::new(alloc, stream, None))
}

// How many operations precede each failed read, and which line was being read.
const BEFORE_READS: &[(u64, u64)] = &[
    (0, 1),
    (0, 1),
    (0, 1),
    (0, 1),
    (1, 2),
    (1, 3),
    (1, 3),
    (1, 3),
    (1, 3),
    (2, 4),
];

// With 36, 1 and 36 bytes, each read fails in turn: all operations before it are returned, the
// fault names the line that was being read, and nothing more is read.
#[test]
fn each_read_fails_in_turn(rt: HostRuntime) {
    let mut fail_at = 0u64;
    for (given, line) in BEFORE_READS {
        fail_at = fail_at.saturating_add(1);
        assert!(rt; failed_read(&rt, rt.alloc(), fail_at) == (*given, at(*line, LineKind::Read)));
    }
    for fail_at in 11..20u64 {
        assert!(rt; failed_read(&rt, rt.alloc(), fail_at) == (2, None));
    }
}

// Whether a parser needs no read for each result, and whether the result is an operation.
const STEPS: &[(bool, bool)] = &[(false, true), (true, true), (false, false)];

// Whether the next result of a parser is an operation. `None`: it is a fault.
fn has_more(parser: &mut Parser, stream: &mut MemStream) -> Option<bool> {
    match parser.next(stream) {
        Ok(next) => Some(next.is_some()),
        Err(_) => None,
    }
}

// Whether the next call of a parser needs no read. The text is read in one piece.
#[test]
fn readiness_of_a_parser(rt: HostRuntime) {
    let text =
        b"{\"delete\":{\"_id\":\"1\",\"_index\":\"b\"}}\n\r\n{\"delete\":{\"_id\":\"2\",\"_index\":\"b\"}}\n\n";
    let mut stream = stream_of(&rt, rt.alloc(), text, 1000, 0);
    let mut parser = Parser::new(rt.alloc(), None);
    for (ready, more) in STEPS {
        assert!(rt;
            parser.is_ready() == *ready && has_more(&mut parser, &mut stream) == Some(*more)
        );
    }
    mem::forget((stream, parser));
}

// Whether the next call of an input needs no read. It says twice that it may need one, and ends.
#[test]
fn readiness_of_an_input(rt: HostRuntime) {
    let mut input = input_of(&rt, rt.alloc(), b"\n\n\n\n");
    for _ in 0..2u8 {
        assert!(rt; !input.is_ready() && gives_next(&mut input) == Ok(false));
    }
    mem::forget(input);
}

// The faults of the first and the second call, for an input of one delete.
fn faults_of_delete(alloc: Global) -> Result<(Option<InputFault>, Option<InputFault>), AllocError> {
    let text = b"{\"delete\":{\"_id\":\"1\",\"_index\":\"b\"}}\n";
    let stream = MemStream::new(alloc, text.to_vec(alloc)?, 0, 1000, 0)?;
    let mut input = Input::new(alloc, stream, None);
    let first = gives_next(&mut input).err();
    Ok((first, gives_next(&mut input).err()))
}

// A failed allocation has its own fault, and nothing is tried again afterwards.
#[test]
fn refusals(rt: HostRuntime) {
    if let Ok((Some(fault), second)) = faults_of_delete(rt.alloc()) {
        assert!(rt; Some(fault) == at(1, LineKind::Memory) && second == at(1, LineKind::Failed));
    }
}
