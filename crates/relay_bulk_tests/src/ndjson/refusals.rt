//! Calls over bulk text, with any one of their allocations refused (`make refusals`): the refusal
//! is reported, and says what it leaves.
use crate::writes::{has_source, is_of, write_again};
use relay_action::{Action, ActionKind, DocKey, MemStream, Write};
use relay_json::Scratch;
use relay_ndjson::action_line::action_of;
use relay_ndjson::{
    Input, InputFault, LineKind, LineReader, Parser, TextFault, append_action_line, append_bulk,
    append_write, bulk_text, read_action, read_bulk, read_source, write_write,
};
use std::alloc::{AllocError, Global};
use std::mem;
use std::process::Abort;

const ID: &str = "an id with a \"quote\", of more than thirty-eight bytes";

const SOURCE: &str = "{\"title\":\"a source of more than thirty-eight bytes\"}";

/// An index action on that document with version 7, and a delete with version 8.
const INDEXED: &[u8] =
    b"x{\"index\":{\"_id\":\"an id with a \\\"quote\\\", of more than thirty-eight bytes\",\"_index\":\"books\",\"version\":7,\"version_type\":\"external\"}}\n{\"title\":\"a source of more than thirty-eight bytes\"}\n";

const BOTH: &[u8] =
    b"x{\"index\":{\"_id\":\"an id with a \\\"quote\\\", of more than thirty-eight bytes\",\"_index\":\"books\",\"version\":7,\"version_type\":\"external\"}}\n{\"title\":\"a source of more than thirty-eight bytes\"}\n{\"delete\":{\"_id\":\"an id with a \\\"quote\\\", of more than thirty-eight bytes\",\"_index\":\"books\",\"version\":8,\"version_type\":\"external\"}}\n";

// The write of the index action, and the delete.
fn indexing(rt: &impl Abort, alloc: Global) -> Write {
    write_again(rt, alloc, ID, 7, Some(SOURCE))
}

fn deletion(rt: &impl Abort, alloc: Global) -> Write {
    write_again(rt, alloc, ID, 8, None)
}

/// A text of one byte.
const BEGUN: &[u8] = b"x";

fn begun(rt: &impl Abort, alloc: Global) -> Vec<u8> {
    match BEGUN.to_vec(alloc) {
        Ok(text) => text,
        Err(_) => BEGUN.to_vec(alloc).expect(rt, "a text"),
    }
}

// Appends the lines of a write, or only its action line.
fn append(alloc: Global, text: &mut Vec<u8>, write: &Write, whole: bool) -> Result<(), AllocError> {
    if whole {
        append_write(alloc, text, write)
    } else {
        append_action_line(alloc, text, write)
    }
}

// Whether they are appended, by a second call if the first was refused and left the text as it was.
fn appends(alloc: Global, text: &mut Vec<u8>, write: &Write, whole: bool) -> bool {
    match append(alloc, text, write, whole) {
        Ok(()) => true,
        Err(AllocError) => text.as_slice() == BEGUN && append(alloc, text, write, whole).is_ok(),
    }
}

// The text with the lines of the index action, or with its action line.
fn appended(rt: &impl Abort, whole: bool) -> &'static [u8] {
    let line = INDEXED.len().saturating_sub(SOURCE.len()).saturating_sub(1);
    INDEXED
        .get(..(if whole { INDEXED.len() } else { line }))
        .expect(rt, "a line")
}

// Whether the lines of a write, or its action line, are added to the end of a text.
fn has_lines(rt: &impl Abort, alloc: Global, write: &Write, whole: bool) -> bool {
    let mut text = begun(rt, alloc);
    appends(alloc, &mut text, write, whole) & (text.as_slice() == appended(rt, whole))
}

#[test]
fn refused_lines(rt: HostRuntime) {
    let write = indexing(&rt, rt.alloc());
    for whole in [true, false] {
        assert!(rt; has_lines(&rt, rt.alloc(), &write, whole));
    }
    mem::forget(write);
}

// Whether the lines of two writes are appended, by a second call if the first was refused and left
// the lines of some of the first writes, fewer than all.
fn appends_all(text: &mut Vec<u8>, writes: &[Write]) -> bool {
    match append_bulk(text, writes) {
        Ok(()) => true,
        Err(AllocError) => {
            let front = text.as_slice() == BEGUN || text.as_slice() == INDEXED;
            text.truncate(BEGUN.len());
            front && append_bulk(text, writes).is_ok()
        }
    }
}

fn has_all(rt: &impl Abort, alloc: Global, writes: &[Write]) -> bool {
    let mut text = begun(rt, alloc);
    appends_all(&mut text, writes) & (text.as_slice() == BOTH)
}

// Whether the text of two writes is made, by a second call if the first was refused.
fn has_text(rt: &impl Abort, alloc: Global, writes: &[Write]) -> bool {
    let text = match bulk_text(alloc, writes) {
        Ok(text) => text,
        Err(AllocError) => bulk_text(alloc, writes).expect(rt, "a text"),
    };
    BOTH.get(BEGUN.len()..) == Some(text.as_slice())
}

#[test]
fn refused_bulk_text(rt: HostRuntime) {
    let alloc = rt.alloc();
    let writes = [indexing(&rt, alloc), deletion(&rt, alloc)];
    assert!(rt; has_all(&rt, alloc, writes.as_slice()) && has_text(&rt, alloc, writes.as_slice()));
    mem::forget(writes);
}

fn stream_once(alloc: Global, input: &[u8]) -> Option<MemStream> {
    MemStream::new(alloc, input.to_vec(alloc).ok()?, 1_000, 7, 0).ok()
}

fn stream_of(rt: &impl Abort, alloc: Global, input: &[u8]) -> MemStream {
    match stream_once(alloc, input) {
        Some(stream) => stream,
        None => stream_once(alloc, input).expect(rt, "a stream"),
    }
}

// Whether the lines of a write are written, by a second call if the first was refused before
// anything was written.
fn goes_out(alloc: Global, out: &mut MemStream, write: &Write) -> bool {
    match write_write(alloc, out, write) {
        Ok(()) => true,
        Err(fault) => {
            let refused = fault == TextFault::Memory && out.written().is_empty();
            refused && write_write(alloc, out, write).is_ok()
        }
    }
}

fn has_gone_out(rt: &impl Abort, alloc: Global, write: &Write) -> bool {
    let mut out = stream_of(rt, alloc, b"");
    let good = goes_out(alloc, &mut out, write)
        & (INDEXED.get(BEGUN.len()..) == Some(out.written()));
    mem::forget(out);
    good
}

#[test]
fn refused_writes_to_a_stream(rt: HostRuntime) {
    let write = indexing(&rt, rt.alloc());
    assert!(rt; has_gone_out(&rt, rt.alloc(), &write));
    mem::forget(write);
}

fn is_write(write: &Write, version: u64, source: Option<&str>) -> bool {
    is_of(&write.key, "books", ID) && write.version == version && has_source(&write.action, source)
}

fn are_writes(writes: &[Write]) -> bool {
    match writes {
        [one, other] => is_write(one, 7, Some(SOURCE)) && is_write(other, 8, None),
        _ => false,
    }
}

// Whether a body is read as the two writes.
fn read_writes(alloc: Global, body: &[u8]) -> Result<bool, LineKind> {
    match read_bulk(alloc, body) {
        Ok(writes) => Ok(are_writes(writes.as_slice())),
        Err(fault) => Err(fault.kind),
    }
}

// The same, by a second call if the first was refused.
fn reads_writes(alloc: Global, body: &[u8]) -> bool {
    match read_writes(alloc, body) {
        Err(LineKind::Memory) => read_writes(alloc, body) == Ok(true),
        read => read == Ok(true),
    }
}

#[test]
fn refused_bodies(rt: HostRuntime) {
    let body = BOTH.get(BEGUN.len()..).unwrap_or(b"");
    assert!(rt; reads_writes(rt.alloc(), body));
}

const PLAIN_ID: &str = "an id of no quote, but of more than thirty-eight bytes";

/// Action lines in the usual form, and in another one, with their ids.
const ACTIONS: &[(&[u8], &str)] = &[
    (
        b"{\"index\":{\"_index\":\"books\",\"_id\":\"an id of no quote, but of more than thirty-eight bytes\"}}",
        PLAIN_ID,
    ),
    (
        b"{\"index\":{\"_id\":\"an id with a \\\"quote\\\", of more than thirty-eight bytes\",\"_index\":\"books\"}}",
        ID,
    ),
];

// Whether an action line is read as the index action on the document of this id.
fn read_key(alloc: Global, line: &[u8], scratch: &mut Scratch, id: &str) -> Result<bool, LineKind> {
    match read_action(alloc, None, line, scratch) {
        Ok((kind, key)) => Ok(kind == ActionKind::Index && is_of(&key, "books", id)),
        Err(kind) => Err(kind),
    }
}

// The same, by a second call with the same scratch if the first was refused.
fn reads_key(alloc: Global, line: &[u8], id: &str) -> bool {
    let mut scratch = Scratch::new(alloc);
    match read_key(alloc, line, &mut scratch, id) {
        Err(LineKind::Memory) => read_key(alloc, line, &mut scratch, id) == Ok(true),
        read => read == Ok(true),
    }
}

// Whether an action line is an index action with an index, an id and no other member.
fn read_members(line: &[u8], scratch: &mut Scratch) -> Result<bool, LineKind> {
    let (kind, metadata) = action_of(line, scratch)?;
    let document = metadata.index.is_some() && metadata.id.is_some();
    Ok(kind == ActionKind::Index && document && !metadata.has_other)
}

// The same, by a second call with the same scratch if the first was refused.
fn reads_members(alloc: Global, line: &[u8]) -> bool {
    let mut scratch = Scratch::new(alloc);
    match read_members(line, &mut scratch) {
        Err(LineKind::Memory) => read_members(line, &mut scratch) == Ok(true),
        read => read == Ok(true),
    }
}

fn read_text(alloc: Global) -> Result<bool, LineKind> {
    let action = read_source(alloc, SOURCE.as_bytes())?;
    Ok(has_source(&action, Some(SOURCE)))
}

fn reads_text(alloc: Global) -> bool {
    match read_text(alloc) {
        Err(LineKind::Memory) => read_text(alloc) == Ok(true),
        read => read == Ok(true),
    }
}

#[test]
fn refused_action_lines(rt: HostRuntime) {
    for (line, id) in ACTIONS {
        assert!(rt; reads_key(rt.alloc(), line, id) && reads_members(rt.alloc(), line));
    }
    assert!(rt; reads_text(rt.alloc()));
}

/// Two operations, the second on the lines 3 and 4.
const INPUT: &[u8] =
    b"{\"delete\":{\"_index\":\"books\",\"_id\":\"an id with a \\\"quote\\\", of more than thirty-eight bytes\"}}\n\n{\"index\":{\"_index\":\"books\",\"_id\":\"an id with a \\\"quote\\\", of more than thirty-eight bytes\"}}\n{\"title\":\"a source of more than thirty-eight bytes\"}\n";

/// The result of a step through an input.
#[derive(Clone, Copy, PartialEq)]
enum Step {
    Deletes,
    Indexes,
    Ends,
    Breaks(InputFault),
    Other,
}

fn step_to(key: &DocKey, action: &Action) -> Step {
    if !is_of(key, "books", ID) {
        Step::Other
    } else if has_source(action, Some(SOURCE)) {
        Step::Indexes
    } else if has_source(action, None) {
        Step::Deletes
    } else {
        Step::Other
    }
}

fn step_of(found: Result<Option<(DocKey, Action)>, InputFault>) -> Step {
    match found {
        Ok(Some((key, action))) => step_to(&key, &action),
        Ok(None) => Step::Ends,
        Err(fault) => Step::Breaks(fault),
    }
}

/// An input that is read step by step, and the line of the operation that it returned last.
trait Steps {
    fn step(&mut self) -> Step;

    fn line(&self) -> u64;
}

impl Steps for Input<'static, MemStream> {
    fn step(&mut self) -> Step {
        step_of(self.next())
    }

    fn line(&self) -> u64 {
        Input::line(self)
    }
}

/// A parser, and the stream that it does not own.
#[derive(Drop)]
struct Parsing {
    parser: Parser<'static>,
    stream: MemStream,
}

impl Steps for Parsing {
    fn step(&mut self) -> Step {
        step_of(self.parser.next(&mut self.stream))
    }

    fn line(&self) -> u64 {
        self.parser.line()
    }
}

/// How an input was read.
#[derive(Clone, Copy, PartialEq)]
enum Reading {
    Whole,
    /// Up to a line of the next operation for which an allocation failed; after that it returned
    /// Failed.
    Refused,
    Wrong,
}

// How an input continues after a step that did not return the operation after this line. Its next
// operation is on the lines `from` to `to`.
fn stopped<S: Steps>(input: &mut S, step: Step, line: u64, from: u64, to: u64) -> Reading {
    let Step::Breaks(fault) = step else {
        return Reading::Wrong;
    };
    let failed = Step::Breaks(InputFault {
        line: fault.line,
        kind: LineKind::Failed,
    });
    let refused = fault.kind == LineKind::Memory && from <= fault.line && fault.line <= to;
    if refused && input.line() == line && input.step() == failed && input.line() == line {
        Reading::Refused
    } else {
        Reading::Wrong
    }
}

// How the two operations are read.
fn read_all<S: Steps>(input: &mut S) -> Reading {
    let step = input.step();
    if step != Step::Deletes {
        return stopped(input, step, 0, 1, 1);
    }
    if input.line() != 1 {
        return Reading::Wrong;
    }
    let step = input.step();
    if step != Step::Indexes {
        return stopped(input, step, 1, 2, 4);
    }
    if input.line() == 3 && input.step() == Step::Ends {
        Reading::Whole
    } else {
        Reading::Wrong
    }
}

fn read_input(rt: &impl Abort, alloc: Global) -> Reading {
    let mut input = Input::new(alloc, stream_of(rt, alloc, INPUT), None);
    read_all(&mut input)
}

#[test]
fn refused_input(rt: HostRuntime) {
    let first = read_input(&rt, rt.alloc());
    assert!(rt;
        first == Reading::Whole
            || first == Reading::Refused && read_input(&rt, rt.alloc()) == Reading::Whole
    );
}

fn parse_input(rt: &impl Abort, alloc: Global) -> Reading {
    let mut parsing = Parsing {
        parser: Parser::new(alloc, None),
        stream: stream_of(rt, alloc, INPUT),
    };
    read_all(&mut parsing)
}

#[test]
fn refused_parser(rt: HostRuntime) {
    let first = parse_input(&rt, rt.alloc());
    assert!(rt;
        first == Reading::Whole
            || first == Reading::Refused && parse_input(&rt, rt.alloc()) == Reading::Whole
    );
}

// Whether the next action line of the input asks for an action of this kind.
fn asks(
    lines: &mut LineReader,
    alloc: Global,
    stream: &mut MemStream,
    wanted: ActionKind,
) -> Result<bool, LineKind> {
    match lines.next_action(alloc, stream, None) {
        Ok(Some((kind, key))) => Ok(kind == wanted && is_of(&key, "books", ID)),
        Ok(None) => Ok(false),
        Err(fault) => Err(fault.kind),
    }
}

fn stores(lines: &mut LineReader, alloc: Global, stream: &mut MemStream) -> Result<bool, LineKind> {
    match lines.next_source(alloc, stream) {
        Ok(action) => Ok(has_source(&action, Some(SOURCE))),
        Err(fault) => Err(fault.kind),
    }
}

fn takes_operations(
    lines: &mut LineReader,
    alloc: Global,
    stream: &mut MemStream,
) -> Result<bool, LineKind> {
    let deletes = asks(lines, alloc, stream, ActionKind::Delete)?;
    let indexes = asks(lines, alloc, stream, ActionKind::Index)?;
    Ok(stores(lines, alloc, stream)? && deletes && indexes)
}

// Whether the lines of the two operations are taken, or why not.
fn take_operations(rt: &impl Abort, alloc: Global) -> Result<bool, LineKind> {
    let mut stream = stream_of(rt, alloc, INPUT);
    let mut lines = LineReader::new(alloc);
    let taken = takes_operations(&mut lines, alloc, &mut stream);
    mem::forget((stream, lines));
    taken
}

#[test]
fn refused_lines_of_operations(rt: HostRuntime) {
    let first = take_operations(&rt, rt.alloc());
    assert!(rt;
        first == Ok(true)
            || first == Err(LineKind::Memory) && take_operations(&rt, rt.alloc()) == Ok(true)
    );
}

/// Lines, each with a different end, and the input that consists of them.
const LINES: [&[u8]; 3] = [
    b"the first line, of more than thirty-eight bytes, and it ends in 1",
    b"",
    b"the third line, of more than thirty-eight bytes, and it ends in 3",
];

const TEXT: &[u8] =
    b"the first line, of more than thirty-eight bytes, and it ends in 1\n\nthe third line, of more than thirty-eight bytes, and it ends in 3\n";

// Whether the next line is this one. If an allocation is refused, the line is not counted, and a
// second call returns the rest of it.
fn takes_line(lines: &mut LineReader, stream: &mut MemStream, line: &[u8]) -> bool {
    let count = lines.count();
    match lines.next(stream) {
        Ok(found) => found && lines.text() == line && lines.count() == count.saturating_add(1),
        Err(fault) => {
            fault.kind == LineKind::Memory
                && fault.line == count.saturating_add(1)
                && lines.count() == count
                && lines.next(stream) == Ok(true)
                && line.ends_with(lines.text())
        }
    }
}

// Whether the lines are the next ones, and the last.
fn takes_each(lines: &mut LineReader, stream: &mut MemStream) -> bool {
    for line in LINES {
        if !takes_line(lines, stream, line) {
            return false;
        }
    }
    lines.next(stream) == Ok(false)
}

fn takes_lines(rt: &impl Abort, alloc: Global) -> bool {
    let mut stream = stream_of(rt, alloc, TEXT);
    let mut lines = LineReader::new(alloc);
    let good = takes_each(&mut lines, &mut stream);
    mem::forget((stream, lines));
    good
}

#[test]
fn refused_line_reader(rt: HostRuntime) {
    assert!(rt; takes_lines(&rt, rt.alloc()));
}
