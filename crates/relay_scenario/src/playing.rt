//! Taking the lines of a script and playing them.
ghost use Rattle.std.specs.Prelude.{◌≡◌, ◌≤◌, [], length, Err, IfErr, OnOk};
ghost use Rattle.std.specs.Io.KnownBytes.{prepend_known, IsAtEnd};
ghost use Rattle.relay_ndjson.specs.Lines.{piece_limit};
ghost use Rattle.relay_scenario.specs.Flows.{fresh_sink, sink};
ghost use Rattle.relay_scenario.specs.Scripts.{Halts, PlaysEvent, PlaysNext, Underway};
ghost use Rattle.relay_scenario.specs.Scripts.{TakesConfig, TakesEvent, TakesLine, UsesOneLine};
ghost use Rattle.relay_scenario.specs.Scripts.{failed_by, failed_writes_by};
ghost use Rattle.relay_scenario.specs.Scripts.{fault_at, line_count, line_fault};

use crate::answer::write_answer;
use crate::config_line::read_config;
use crate::event_line::{LineFault, read_event};
use crate::script::{LINE_COUNT, ScriptFault};
use relay_action::{ByteIn, ByteOut};
use relay_commands::outgoing::Outgoing;
use relay_core::RelayConfig;
use relay_ndjson::{InputFault, LineKind, LineReader};
use relay_world::{Event, World};
use std::alloc::Global;

fn line_fault(fault: InputFault) -> ScriptFault
    ensures { result ≡ line_fault fault }
{
    match fault.kind {
        LineKind::Read => ScriptFault::Read,
        LineKind::Memory => ScriptFault::Memory,
        _ => ScriptFault::BadLine { line: fault.line },
    }
}

// Takes the next line of a script, and returns whether there was one.
fn take_line<R: ByteIn>(reader: &mut R, lines: &mut LineReader) -> Result<bool, ScriptFault>
    requires { lines.old.count ≤ line_count }
    ensures line { TakesLine (prepend_known lines.old.held (R.left reader.old))
        (prepend_known lines.new.held (R.left reader.new))
        lines.old.count lines.new.count lines.new.text result }
    ensures uses { UsesOneLine (prepend_known lines.old.held (R.left reader.old))
        (prepend_known lines.new.held (R.left reader.new)) }
    ensures held { length lines.new.held ≤ piece_limit }
    ensures failed { R.failed reader.new ≡ failed_by result (R.failed reader.old) }
{
    match lines.next(reader) {
        Ok(true) => {
            if lines.count() > LINE_COUNT {
                return Err(ScriptFault::BadLine {
                    line: lines.count(),
                });
            }
            Ok(true)
        }
        Ok(false) => Ok(false),
        Err(fault) => Err(line_fault(fault)),
    }
}

// The fault of the line with this number.
fn fault_at(fault: LineFault, line: u64) -> ScriptFault
    ensures { result ≡ fault_at fault line }
{
    match fault {
        LineFault::Bad => ScriptFault::BadLine { line },
        LineFault::Memory => ScriptFault::Memory,
    }
}

/// The config in the first line.
pub fn take_config<R: ByteIn>(
    alloc: Global,
    reader: &mut R,
    lines: &mut LineReader,
) -> Result<RelayConfig, ScriptFault>
    requires { lines.old.count ≡ 0 }
    ensures config { TakesConfig (prepend_known lines.old.held (R.left reader.old))
        (prepend_known lines.new.held (R.left reader.new)) lines.new.count result }
    ensures uses { UsesOneLine (prepend_known lines.old.held (R.left reader.old))
        (prepend_known lines.new.held (R.left reader.new)) }
    ensures held { length lines.new.held ≤ piece_limit }
    ensures failed { R.failed reader.new ≡ failed_by result (R.failed reader.old) }
{
    if !take_line(reader, lines)? {
        return Err(ScriptFault::BadLine { line: 1 });
    }
    match read_config(alloc, lines.text()) {
        Ok(config) => Ok(config),
        Err(fault) => Err(fault_at(fault, lines.count())),
    }
}

// The event of the next line, if there is one.
fn take_event<R: ByteIn>(
    alloc: Global,
    reader: &mut R,
    lines: &mut LineReader,
) -> Result<Option<Event>, ScriptFault>
    requires { lines.old.count ≤ line_count }
    ensures event { TakesEvent (prepend_known lines.old.held (R.left reader.old))
        (prepend_known lines.new.held (R.left reader.new))
        lines.old.count lines.new.count result }
    ensures uses { UsesOneLine (prepend_known lines.old.held (R.left reader.old))
        (prepend_known lines.new.held (R.left reader.new)) }
    ensures held { length lines.new.held ≤ piece_limit }
    ensures failed { R.failed reader.new ≡ failed_by result (R.failed reader.old) }
{
    if !take_line(reader, lines)? {
        return Ok(None);
    }
    match read_event(alloc, lines.text()) {
        Ok(event) => Ok(Some(event)),
        Err(fault) => Err(fault_at(fault, lines.count())),
    }
}

// Plays an event, and gathers its answer. The fault is `Memory`.
fn play_event(
    world: &mut World,
    event: &Event,
    line: &mut Vec<u8>,
    outgoing: &mut Outgoing,
) -> Result<(), ScriptFault>
    ensures plays { PlaysEvent world.old event.now world.new
        outgoing.old.text.items outgoing.new.text.items result }
    ensures sent { outgoing.new.sent ≡ outgoing.old.sent }
{
    let answer = world.step(event).map_err(|_| ScriptFault::Memory)?;
    write_answer(world, answer, line).map_err(|_| ScriptFault::Memory)?;
    outgoing
        .add_line(line.as_slice())
        .map_err(|_| ScriptFault::Memory)
}

// What the next line was.
#[derive(Clone, Copy, Debug, PartialEq, Eq)]
enum Next {
    // An event, which was played.
    Played,
    // The end of the script.
    Ended,
}

// Plays the event of the next line, if there is one.
fn play_next<R: ByteIn>(
    alloc: Global,
    reader: &mut R,
    lines: &mut LineReader,
    world: &mut World,
    line: &mut Vec<u8>,
    outgoing: &mut Outgoing,
) -> Result<Next, ScriptFault>
    requires { lines.old.count ≤ line_count }
    ensures next { PlaysNext (prepend_known lines.old.held (R.left reader.old))
        (prepend_known lines.new.held (R.left reader.new))
        lines.old.count lines.new.count world.old world.new
        outgoing.old.text.items outgoing.new.text.items result }
    ensures sent { outgoing.new.sent ≡ outgoing.old.sent }
    ensures uses { UsesOneLine (prepend_known lines.old.held (R.left reader.old))
        (prepend_known lines.new.held (R.left reader.new)) }
    ensures held { length lines.new.held ≤ piece_limit }
    ensures failed { R.failed reader.new ≡ failed_by result (R.failed reader.old) }
{
    let Some(event) = take_event(alloc, reader, lines)? else {
        return Ok(Next::Ended);
    };
    play_event(world, &event, line, outgoing)?;
    Ok(Next::Played)
}

/// Plays the events of all remaining lines. What is gathered is written before a read that may
/// wait.
pub fn play_events<R: ByteIn, W: ByteOut>(
    alloc: Global,
    reader: &mut R,
    lines: &mut LineReader,
    world: &mut World,
    line: &mut Vec<u8>,
    outgoing: &mut Outgoing,
    writer: &mut W,
) -> Result<(), ScriptFault>
    requires first { lines.old.count ≡ 1 }
    requires none { outgoing.old.text.items ≡ [] }
    requires sent { outgoing.old.sent ≡ 0 }
    requires held { length lines.old.held ≤ piece_limit }
    ensures ended { OnOk result (IsAtEnd (prepend_known lines.new.held (R.left reader.new))) }
    ensures ok { OnOk result (Underway (prepend_known lines.old.held (R.left reader.old))
        (prepend_known lines.new.held (R.left reader.new))
        world.old world.new lines.new.count (fresh_sink (W.written writer.old))
        outgoing.new.text.items (sink (W.written writer.new) outgoing.new.sent)) }
    ensures held { length lines.new.held ≤ piece_limit }
    ensures err { IfErr result (λ e. Halts (prepend_known lines.old.held (R.left reader.old))
        (prepend_known lines.new.held (R.left reader.new))
        world.old (fresh_sink (W.written writer.old))
        outgoing.new.text.items (sink (W.written writer.new) outgoing.new.sent) (Err e)) }
    ensures reads { R.failed reader.new ≡ failed_by result (R.failed reader.old) }
    ensures writes { W.failed writer.new ≡ failed_writes_by result (W.failed writer.old) }
{
    'events: loop {
        if let Err(sent) = outgoing.make_way(writer, !lines.is_ready()) {
            return Err(ScriptFault::Write { sent });
        }
        match play_next(alloc, reader, lines, world, line, outgoing)? {
            Next::Played => {}
            Next::Ended => return Ok(()),
        }
    }
}
