//! A script of the world: the function behind `relay world`.
ghost use Rattle.std.specs.Prelude.{◌≡◌, ◌≤◌, [], length};
ghost use Rattle.relay_ndjson.specs.Lines.{piece_limit};
ghost use Rattle.std.specs.Io.KnownBytes.{prepend_known};
ghost use Rattle.relay_scenario.specs.Flows.{fresh_sink, sink};
ghost use Rattle.relay_scenario.specs.Scripts.{Closes, FailsOnce, Halts, IsScript, PlaysScript};
ghost use Rattle.relay_scenario.specs.Scripts.{cut_short, failed_by, failed_writes_by};
ghost use Rattle.relay_scenario.specs.Scripts.{is_failed_write};

use crate::ending::write_ending;
use crate::playing::{play_events, take_config};
use relay_action::{ByteIn, ByteOut};
use relay_commands::outgoing::Outgoing;
use relay_core::RelayConfig;
use relay_index::Index;
use relay_ndjson::LineReader;
use relay_world::World;
use std::alloc::Global;
use thiserror::Error;

/// The maximum number of lines of a script.
pub const LINE_COUNT: u64 = 1_000_000;

/// Why a script was not played to its end. The text is what the program prints.
#[derive(Clone, Copy, Debug, PartialEq, Eq, Error)]
pub enum ScriptFault {
    /// This line, from 1, is not a line of a script, or the script has no line. The answers to all
    /// lines before it were written.
    #[error("line {line}: BadLine")]
    BadLine {
        /// The line, from 1.
        line: u64,
    },
    /// A read failed. It is not retried. The answers to all lines before it were written.
    #[error("read failed")]
    Read,
    /// A write failed. It is not retried; exactly the first `sent` bytes of the output were
    /// written.
    #[error("write failed")]
    Write {
        /// The number of bytes written in all; it saturates at 2^64 - 1.
        sent: u64,
    },
    /// An allocation failed. A prefix of the output was written.
    #[error("out of memory")]
    Memory,
}

/// Plays a script on a fresh world over this index, which may have any versions: the first line is
/// the world's config, each further line an event. Each event is answered by a line, and the
/// lines at the end say how the world ended. A fault says how much was written. If there are
/// several, the first is returned, except that a failed allocation takes precedence over a failed
/// write, and a failed write over a bad line or a failed read. A failed call of a stream is not
/// retried.
///
/// What is ready is written before a read that may wait, and whenever it has 256 KiB.
pub fn world_script<R: ByteIn, W: ByteOut>(
    alloc: Global,
    reader: &mut R,
    writer: &mut W,
    index: Index,
) -> Result<(), ScriptFault>
    ensures script { IsScript index (R.left reader.old) (R.left reader.new)
        (W.written writer.old) (W.written writer.new) result }
    ensures calls { FailsOnce (R.failed reader.old) (R.failed reader.new)
        (W.failed writer.old) (W.failed writer.new) result }
{
    let mut lines = LineReader::new(alloc);
    let mut outgoing = Outgoing::new(alloc);
    let answer = play(alloc, reader, &mut lines, &mut outgoing, writer, index);
    close(&mut outgoing, writer, answer)
}

// Plays a script. Everything but what was gathered last was written.
fn play<R: ByteIn, W: ByteOut>(
    alloc: Global,
    reader: &mut R,
    lines: &mut LineReader,
    outgoing: &mut Outgoing,
    writer: &mut W,
    index: Index,
) -> Result<(), ScriptFault>
    requires first { lines.old.count ≡ 0 }
    requires none { outgoing.old.text.items ≡ [] }
    requires sent { outgoing.old.sent ≡ 0 }
    ensures held { length lines.new.held ≤ piece_limit }
    ensures script { PlaysScript index (prepend_known lines.old.held (R.left reader.old))
        (prepend_known lines.new.held (R.left reader.new)) (fresh_sink (W.written writer.old))
        outgoing.new.text.items (sink (W.written writer.new) outgoing.new.sent) result }
    ensures reads { R.failed reader.new ≡ failed_by result (R.failed reader.old) }
    ensures writes { W.failed writer.new ≡ failed_writes_by result (W.failed writer.old) }
{
    let config = take_config(alloc, reader, lines)?;
    let mut world = match World::new(alloc, config, index) {
        Ok(world) => world,
        Err(_) => return Err(ScriptFault::Memory),
    };
    play_world(alloc, reader, lines, &mut world, config, outgoing, writer)
}

// Plays the events of a script on a world, and writes how it ended.
fn play_world<R: ByteIn, W: ByteOut>(
    alloc: Global,
    reader: &mut R,
    lines: &mut LineReader,
    world: &mut World,
    config: RelayConfig,
    outgoing: &mut Outgoing,
    writer: &mut W,
) -> Result<(), ScriptFault>
    requires first { lines.old.count ≡ 1 }
    requires none { outgoing.old.text.items ≡ [] }
    requires sent { outgoing.old.sent ≡ 0 }
    requires held { length lines.old.held ≤ piece_limit }
    ensures held { length lines.new.held ≤ piece_limit }
    ensures halts { Halts (prepend_known lines.old.held (R.left reader.old))
        (prepend_known lines.new.held (R.left reader.new))
        world.old (fresh_sink (W.written writer.old))
        outgoing.new.text.items (sink (W.written writer.new) outgoing.new.sent) result }
    ensures reads { R.failed reader.new ≡ failed_by result (R.failed reader.old) }
    ensures writes { W.failed writer.new ≡ failed_writes_by result (W.failed writer.old) }
{
    let mut line = Vec::new(alloc);
    play_events(alloc, reader, lines, world, &mut line, outgoing, writer)?;
    write_ending(world, config, &mut line, outgoing, writer)
}

// Writes what was gathered, and returns the result. After a failed write nothing more is written.
// If this write fails, that is the result, unless an allocation failed before.
fn close<W: ByteOut>(
    outgoing: &mut Outgoing,
    writer: &mut W,
    answer: Result<(), ScriptFault>,
) -> Result<(), ScriptFault>
    ensures { Closes answer outgoing.old.text.items
        (sink (W.written writer.old) outgoing.old.sent) (W.failed writer.old)
        (W.written writer.new) (W.failed writer.new) result }
{
    if is_failed_write(answer) {
        return answer;
    }
    match outgoing.flush(writer) {
        Ok(()) => answer,
        Err(sent) => cut_short(answer, sent),
    }
}

fn is_failed_write(answer: Result<(), ScriptFault>) -> bool
    ensures { result ≡ is_failed_write answer }
{
    match answer {
        Err(ScriptFault::Write { .. }) => true,
        _ => false,
    }
}

// The result if a write fails after this one, with this many bytes written in all.
fn cut_short(answer: Result<(), ScriptFault>, sent: u64) -> Result<(), ScriptFault>
    ensures { result ≡ cut_short answer sent }
{
    match answer {
        Err(ScriptFault::Memory) => answer,
        _ => Err(ScriptFault::Write { sent }),
    }
}
