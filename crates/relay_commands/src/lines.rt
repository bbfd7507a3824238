//! A producer's NDJSON as bulk lines with versions: the function behind `relay lines`.
ghost use Rattle.std.specs.Prelude.{◌≡◌, ◌≤◌, [], length};
ghost use Rattle.relay_action.specs.Limits.{last_version};
ghost use Rattle.relay_ndjson.specs.Lines.{piece_limit};
ghost use Rattle.relay_ndjson.specs.Metadata.{bytes_given};
ghost use Rattle.relay_ndjson.specs.Reading.{fresh, reading};
ghost use Rattle.relay_ndjson.specs.declared.parser.Phase.TheVariants as phase;
ghost use Rattle.relay_commands.specs.Calls.{FailsOnce};
ghost use Rattle.relay_commands.specs.Lines.{Streams, failed_by};
ghost use Rattle.relay_commands.specs.Sending.{Closes};
ghost use Rattle.relay_commands.specs.Passing.{AddsNext, IsNext, IsNumbered, fault_of};
ghost use Rattle.relay_commands.specs.Passing.{FailsInPass, Passes};

use crate::outgoing::Outgoing;
use relay_action::{Action, ByteIn, ByteOut, DocKey, Write};
use relay_ndjson::{InputFault, LAST_VERSION, LineKind, Parser};
use std::alloc::Global;
use thiserror::Error;

/// Why not all of a producer's lines were written. The text is what the program prints, except that
/// it prints `read failed` if the kind is `Read`.
#[derive(Clone, Copy, Debug, PartialEq, Eq, Error)]
pub enum LinesFault {
    /// A line breaks the producer grammar, or a read failed. The lines of all operations before it
    /// were written. The kind is neither `Memory` nor `Failed`.
    #[error("{0}")]
    Input(InputFault),
    /// There is no version left for the action line with this number: 9,000,000,000,000,000,000 was
    /// the last. The lines of all operations before it were written.
    #[error("line {line}: VersionsSpent")]
    VersionsSpent {
        /// The line, from 1.
        line: u64,
    },
    /// A write failed after exactly the first `sent` bytes of the bulk text.
    #[error("write failed")]
    Write {
        /// The number of bytes written in all; it saturates at 2^64 - 1.
        sent: u64,
    },
    /// An allocation failed. A prefix of the bulk text was written.
    #[error("out of memory")]
    Memory,
}

/// Writes the bulk text of the reader's operations, with the versions `first`, `first + 1` and so
/// on, and returns their number. Operations without an index name get the default index, if one is
/// given. A fault says how much was written. If there are several, the first is returned, except
/// that a failed allocation takes precedence over a failed write, and a failed write over a fault
/// of the input. A failed call of a stream is not retried.
///
/// What is ready is written before a read that may wait, and whenever it has 256 KiB. Memory does
/// not grow with the input.
pub fn lines<R: ByteIn, W: ByteOut>(
    alloc: Global,
    reader: &mut R,
    writer: &mut W,
    default_index: Option<&str>,
    first: u64,
) -> Result<u64, LinesFault>
    requires { first ≤ last_version }
    ensures lines { Streams first
        (fresh (R.left reader.old) (R.failed reader.old) (bytes_given default_index.entry))
        (R.left reader.new) (R.failed reader.new)
        (W.written writer.old) (W.written writer.new) result }
    ensures calls { FailsOnce (R.failed reader.old) (R.failed reader.new)
        (W.failed writer.old) (W.failed writer.new) result }
{
    let mut parser = Parser::new(alloc, default_index);
    let mut outgoing = Outgoing::new(alloc);
    let answer = pass_on(alloc, reader, &mut parser, writer, &mut outgoing, first);
    close(&mut outgoing, writer, answer)
}

// Passes the operations on until there are no more or there is a fault. Everything but what was
// gathered last was written.
fn pass_on<R: ByteIn, W: ByteOut>(
    alloc: Global,
    reader: &mut R,
    parser: &mut Parser<'_>,
    writer: &mut W,
    outgoing: &mut Outgoing,
    first: u64,
) -> Result<u64, LinesFault>
    requires first { first ≤ last_version }
    requires open { parser.old.phase ≡ phase.Open }
    requires held { length parser.old.held ≤ piece_limit }
    requires text { outgoing.old.text.items ≡ [] }
    requires sent { outgoing.old.sent ≡ 0 }
    ensures lines { Passes first (reading (R.left reader.old) (R.failed reader.old) parser.old)
        (R.left reader.new) (R.failed reader.new) (W.written writer.old) (W.written writer.new)
        outgoing.new.text.items outgoing.new.sent result }
    ensures calls { FailsInPass (R.failed reader.old) (R.failed reader.new)
        (W.failed writer.old) (W.failed writer.new) result }
{
    let mut version = first;
    'operations: loop {
        if let Err(sent) = outgoing.make_way(writer, !parser.is_ready()) {
            return Err(LinesFault::Write { sent });
        }
        match add_next(alloc, reader, parser, outgoing, version)? {
            Next::Added => version += 1,
            Next::Ended => return Ok(version - first),
        }
    }
}

// What the next line was.
#[derive(Clone, Copy, Debug, PartialEq, Eq)]
enum Next {
    // An operation, whose lines were added.
    Added,
    // The end of the input.
    Ended,
}

// Adds the lines of the next operation, with this version.
fn add_next<R: ByteIn>(
    alloc: Global,
    reader: &mut R,
    parser: &mut Parser<'_>,
    outgoing: &mut Outgoing,
    version: u64,
) -> Result<Next, LinesFault>
    requires { parser.old.phase ≡ phase.Open }
    ensures next { AddsNext version (reading (R.left reader.old) (R.failed reader.old) parser.old)
        (reading (R.left reader.new) (R.failed reader.new) parser.new)
        outgoing.old.text.items outgoing.new.text.items result }
    ensures sent { outgoing.new.sent ≡ outgoing.old.sent }
    ensures failed { R.failed reader.new ≡ failed_by result (R.failed reader.old) }
    ensures held { length parser.new.held ≤ piece_limit }
{
    match next_write(reader, parser, version)? {
        Some(write) => match outgoing.add(alloc, &write) {
            Ok(()) => Ok(Next::Added),
            Err(_) => Err(LinesFault::Memory),
        },
        None => Ok(Next::Ended),
    }
}

// The write of the next operation, with this version.
fn next_write<R: ByteIn>(
    reader: &mut R,
    parser: &mut Parser<'_>,
    version: u64,
) -> Result<Option<Write>, LinesFault>
    requires { parser.old.phase ≡ phase.Open }
    ensures next { IsNext version (reading (R.left reader.old) (R.failed reader.old) parser.old)
        (reading (R.left reader.new) (R.failed reader.new) parser.new) result }
    ensures failed { R.failed reader.new ≡ failed_by result (R.failed reader.old) }
    ensures held { length parser.new.held ≤ piece_limit }
{
    match parser.next(reader) {
        Ok(Some((key, action))) => {
            let write = numbered(key, action, version, parser.line())?;
            Ok(Some(write))
        }
        Ok(None) => Ok(None),
        Err(fault) => Err(fault_of(fault)),
    }
}

// The write of an operation whose action line has this number, unless its version would be above
// the last one.
fn numbered(key: DocKey, action: Action, version: u64, line: u64) -> Result<Write, LinesFault>
    ensures { IsNumbered (key, action) version line result }
{
    if version > LAST_VERSION {
        return Err(LinesFault::VersionsSpent { line });
    }
    Ok(Write {
        key,
        version,
        action,
    })
}

fn fault_of(fault: InputFault) -> LinesFault
    ensures { result ≡ fault_of fault }
{
    match fault.kind {
        LineKind::Memory => LinesFault::Memory,
        _ => LinesFault::Input(fault),
    }
}

// Writes what was gathered, and returns the result. After a failed write nothing more is written.
// If this write fails, that is the result, unless an allocation failed before.
fn close<W: ByteOut>(
    outgoing: &mut Outgoing,
    writer: &mut W,
    answer: Result<u64, LinesFault>,
) -> Result<u64, LinesFault>
    ensures { Closes answer outgoing.old.text.items outgoing.old.sent
        (W.written writer.old) (W.failed writer.old)
        (W.written writer.new) (W.failed writer.new) result }
{
    if let Err(LinesFault::Write { .. }) = answer {
        return answer;
    }
    match outgoing.flush(writer) {
        Ok(()) => answer,
        Err(sent) => match answer {
            Err(LinesFault::Memory) => answer,
            _ => Err(LinesFault::Write { sent }),
        },
    }
}
