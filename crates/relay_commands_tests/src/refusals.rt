//! Commands over streams in memory, with any one of their allocations refused (`make refusals`):
//! what was written is a prefix of what is written without the refusal.
use crate::{apply, lines};
use relay_action::{Action, DocKey, MemStream, Write};
use relay_commands::apply::{ApplyFault, apply};
use relay_commands::body::read_body;
use relay_commands::lines::{LinesFault, lines};
use relay_commands::outgoing::Outgoing;
use relay_commands::refuse_list::{ListFault, refuse_list};
use relay_index::{Index, Script};
use std::alloc::{AllocError, Global};
use std::mem;
use std::process::Abort;

fn stream_once(alloc: Global, input: &[u8]) -> Option<MemStream> {
    MemStream::new(alloc, input.to_vec(alloc).ok()?, 1_000, 20, 0).ok()
}

fn stream_of(alloc: Global, input: &[u8]) -> Option<MemStream> {
    match stream_once(alloc, input) {
        None => stream_once(alloc, input),
        made => made,
    }
}

// Whether `lines` writes two operations. `Err`: it was refused, with whether it wrote a prefix of them.
fn run_lines(alloc: Global, reader: &mut MemStream, writer: &mut MemStream) -> Result<bool, bool> {
    match lines(alloc, reader, writer, None, 1) {
        Ok(count) => Ok(count == 2 && writer.written() == lines::TWO_LINES),
        Err(fault) => {
            Err(fault == LinesFault::Memory && lines::TWO_LINES.starts_with(writer.written()))
        }
    }
}

fn lines_once(alloc: Global) -> Option<Result<bool, bool>> {
    let mut reader = stream_of(alloc, lines::TWO)?;
    let Some(mut writer) = stream_of(alloc, b"") else {
        mem::forget(reader);
        return None;
    };
    let found = run_lines(alloc, &mut reader, &mut writer);
    mem::forget((reader, writer));
    Some(found)
}

// Whether two operations are written, by a second run if the first was refused after it had written
// a prefix of them.
fn writes_lines(alloc: Global) -> bool {
    match lines_once(alloc) {
        Some(Err(front)) => front && lines_once(alloc) == Some(Ok(true)),
        found => found == Some(Ok(true)),
    }
}

#[test]
fn refused_lines(rt: HostRuntime) {
    assert!(rt; writes_lines(rt.alloc()));
}

fn script_of(alloc: Global) -> Option<Script> {
    match refuse_list(alloc, "2:429,7:500") {
        Err(ListFault::Memory) => refuse_list(alloc, "2:429,7:500").ok(),
        made => made.ok(),
    }
}

// Whether `apply` serves a body whose second item is refused. `Err`: it was refused, with whether it
// wrote nothing.
fn run_apply(
    alloc: Global,
    reader: &mut MemStream,
    writer: &mut MemStream,
    script: Script,
) -> Result<bool, bool> {
    match apply(alloc, reader, writer, Index::new(alloc), script) {
        Ok(()) => Ok(writer.written() == apply::SECOND_REFUSED),
        Err(fault) => Err(fault == ApplyFault::Memory && writer.written().is_empty()),
    }
}

fn apply_once(rt: &impl Abort, alloc: Global) -> Result<bool, bool> {
    let script = script_of(alloc).expect(rt, "a script");
    let mut reader = stream_of(alloc, apply::TWO).expect(rt, "a stream");
    let mut writer = stream_of(alloc, b"").expect(rt, "a stream");
    let found = run_apply(alloc, &mut reader, &mut writer, script);
    mem::forget((reader, writer));
    found
}

// Whether a body is served, by a second run if the first was refused before anything was written.
fn applies(rt: &impl Abort, alloc: Global) -> bool {
    match apply_once(rt, alloc) {
        Err(silent) => silent && apply_once(rt, alloc) == Ok(true),
        found => found == Ok(true),
    }
}

#[test]
fn refused_bodies(rt: HostRuntime) {
    assert!(rt; applies(&rt, rt.alloc()));
}

// Whether a body is read as it is, or why it is not.
fn body_once(alloc: Global) -> Option<Result<bool, ApplyFault>> {
    let mut reader = stream_of(alloc, apply::TWO)?;
    match read_body(alloc, &mut reader) {
        Ok(body) => Some(Ok(body.as_slice() == apply::TWO)),
        Err(fault) => Some(Err(fault)),
    }
}

// Whether it is, by a second call if the first was refused.
fn reads_body(alloc: Global) -> Option<bool> {
    match body_once(alloc)? {
        Err(ApplyFault::Memory) => Some(body_once(alloc)? == Ok(true)),
        found => Some(found == Ok(true)),
    }
}

#[test]
fn refused_body(rt: HostRuntime) {
    assert!(rt; reads_body(rt.alloc()) == Some(true));
}

fn write_once(alloc: Global) -> Option<Write> {
    Some(Write {
        key: DocKey::new(alloc, "b", "a document of more than thirty-eight bytes").ok()?,
        version: 1,
        action: Action::delete(),
    })
}

fn adds(outgoing: &mut Outgoing, alloc: Global, write: &Write) -> bool {
    match outgoing.add(alloc, write) {
        Ok(()) => true,
        Err(AllocError) => outgoing.add(alloc, write).is_ok(),
    }
}

fn adds_line(outgoing: &mut Outgoing, line: &[u8]) -> bool {
    match outgoing.add_line(line) {
        Ok(()) => true,
        Err(AllocError) => outgoing.add_line(line).is_ok(),
    }
}

const LINE: &[u8] =
    b"a line of more bytes than the buffer had room for after the first write was added\n";

const GATHERED: &[u8] =
    b"{\"delete\":{\"_id\":\"a document of more than thirty-eight bytes\",\"_index\":\"b\",\"version\":1,\"version_type\":\"external\"}}\na line of more bytes than the buffer had room for after the first write was added\n";

fn write_of(rt: &impl Abort, alloc: Global) -> Write {
    match write_once(alloc) {
        Some(write) => write,
        None => write_once(alloc).expect(rt, "a write"),
    }
}

// Whether lines are gathered, each once, and written.
fn gathers(alloc: Global, outgoing: &mut Outgoing, write: &Write, writer: &mut MemStream) -> bool {
    adds(outgoing, alloc, write)
        && adds_line(outgoing, LINE)
        && outgoing.flush(writer).is_ok()
        && writer.written() == GATHERED
}

#[test]
fn refused_outgoing(rt: HostRuntime) {
    let write = write_of(&rt, rt.alloc());
    let mut writer = stream_of(rt.alloc(), b"").expect(&rt, "a stream");
    let mut outgoing = Outgoing::new(rt.alloc());
    assert!(rt; gathers(rt.alloc(), &mut outgoing, &write, &mut writer));
    mem::forget((write, writer, outgoing));
}
