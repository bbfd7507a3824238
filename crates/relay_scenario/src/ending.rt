//! The lines at the end of a script.
ghost use Rattle.relay_scenario.specs.Scripts.{Passes};

use crate::script::ScriptFault;
use relay_action::{ByteOut, DocKey, OpName, Write};
use relay_commands::outgoing::Outgoing;
use relay_core::{RelayConfig, Report};
use relay_words::{add_cause, add_document, add_name, add_number, add_spaced};
use relay_world::World;
use std::alloc::AllocError;

/// Gathers the lines at the end of a script, and writes what was gathered whenever it is enough:
/// what was accepted from each producer, the writes that were applied, the reports, and whether
/// everything is finished.
pub fn write_ending<W: ByteOut>(
    world: &World,
    config: RelayConfig,
    line: &mut Vec<u8>,
    outgoing: &mut Outgoing,
    writer: &mut W,
) -> Result<(), ScriptFault>
    ensures { Passes outgoing.old (W.written writer.old) (W.failed writer.old)
        outgoing.new (W.written writer.new) (W.failed writer.new) result }
{
    write_all_accepted(world, config.producers, line, outgoing, writer)?;
    write_all_applied(world, line, outgoing, writer)?;
    write_all_reports(world, config.lanes, line, outgoing, writer)?;
    let made = make_finished(line, world.finished());
    pass_on(made, line, outgoing, writer)
}

// Passes a line on, unless an allocation for it failed.
fn pass_on<W: ByteOut>(
    made: Result<(), AllocError>,
    line: &Vec<u8>,
    outgoing: &mut Outgoing,
    writer: &mut W,
) -> Result<(), ScriptFault>
    ensures { Passes outgoing.old (W.written writer.old) (W.failed writer.old)
        outgoing.new (W.written writer.new) (W.failed writer.new) result }
{
    made.map_err(|_| ScriptFault::Memory)?;
    outgoing
        .add_line(line.as_slice())
        .map_err(|_| ScriptFault::Memory)?;
    match outgoing.make_way(writer, false) {
        Ok(()) => Ok(()),
        Err(sent) => Err(ScriptFault::Write { sent }),
    }
}

fn write_all_accepted<W: ByteOut>(
    world: &World,
    producers: u32,
    line: &mut Vec<u8>,
    outgoing: &mut Outgoing,
    writer: &mut W,
) -> Result<(), ScriptFault>
    ensures { Passes outgoing.old (W.written writer.old) (W.failed writer.old)
        outgoing.new (W.written writer.new) (W.failed writer.new) result }
{
    'producers: for producer in 0..producers {
        let made = make_accepted(line, producer, world.accepted(producer).len() as u64);
        pass_on(made, line, outgoing, writer)?;
    }
    Ok(())
}

fn write_all_applied<W: ByteOut>(
    world: &World,
    line: &mut Vec<u8>,
    outgoing: &mut Outgoing,
    writer: &mut W,
) -> Result<(), ScriptFault>
    ensures { Passes outgoing.old (W.written writer.old) (W.failed writer.old)
        outgoing.new (W.written writer.new) (W.failed writer.new) result }
{
    let keys = world.keys().map_err(|_| ScriptFault::Memory)?;
    write_of_all(world, keys.as_slice(), line, outgoing, writer)
}

// The lines of the writes that were applied to these documents.
fn write_of_all<W: ByteOut>(
    world: &World,
    keys: &[DocKey],
    line: &mut Vec<u8>,
    outgoing: &mut Outgoing,
    writer: &mut W,
) -> Result<(), ScriptFault>
    ensures { Passes outgoing.old (W.written writer.old) (W.failed writer.old)
        outgoing.new (W.written writer.new) (W.failed writer.new) result }
{
    'keys: for key in keys {
        let applied = world.applied(key);
        let names = world.names(key);
        write_applied(applied, names, line, outgoing, writer)?;
    }
    Ok(())
}

// The lines of the writes that were applied to a document.
fn write_applied<W: ByteOut>(
    applied: &[Write],
    names: &[OpName],
    line: &mut Vec<u8>,
    outgoing: &mut Outgoing,
    writer: &mut W,
) -> Result<(), ScriptFault>
    ensures { Passes outgoing.old (W.written writer.old) (W.failed writer.old)
        outgoing.new (W.written writer.new) (W.failed writer.new) result }
{
    'writes: for (write, name) in applied.iter().zip(names) {
        let made = make_applied(line, write, *name);
        pass_on(made, line, outgoing, writer)?;
    }
    Ok(())
}

fn write_all_reports<W: ByteOut>(
    world: &World,
    lanes: u32,
    line: &mut Vec<u8>,
    outgoing: &mut Outgoing,
    writer: &mut W,
) -> Result<(), ScriptFault>
    ensures { Passes outgoing.old (W.written writer.old) (W.failed writer.old)
        outgoing.new (W.written writer.new) (W.failed writer.new) result }
{
    'lanes: for lane in 0..lanes {
        let reports = world.reports(lane);
        write_reports(lane, reports, line, outgoing, writer)?;
    }
    Ok(())
}

// The lines of a lane's reports.
fn write_reports<W: ByteOut>(
    lane: u32,
    reports: &[Report],
    line: &mut Vec<u8>,
    outgoing: &mut Outgoing,
    writer: &mut W,
) -> Result<(), ScriptFault>
    ensures { Passes outgoing.old (W.written writer.old) (W.failed writer.old)
        outgoing.new (W.written writer.new) (W.failed writer.new) result }
{
    'reports: for report in reports {
        let made = make_report(line, lane, report);
        pass_on(made, line, outgoing, writer)?;
    }
    Ok(())
}

// Makes the line with the number of operations accepted from a producer.
fn make_accepted(line: &mut Vec<u8>, producer: u32, count: u64) -> Result<(), AllocError> {
    line.clear();
    line.extend_from_slice(b"accepted")?;
    add_spaced(line, producer as u64)?;
    add_spaced(line, count)?;
    line.extend_from_slice(b"\n")
}

// Makes the line of an applied write, with the name of its operation.
fn make_applied(line: &mut Vec<u8>, write: &Write, name: OpName) -> Result<(), AllocError> {
    line.clear();
    line.extend_from_slice(b"applied ")?;
    add_document(line, &write.key)?;
    add_spaced(line, write.version)?;
    line.extend_from_slice(b" ")?;
    add_name(line, name)?;
    line.extend_from_slice(b"\n")
}

// Makes the line of a lane's report.
fn make_report(line: &mut Vec<u8>, lane: u32, report: &Report) -> Result<(), AllocError> {
    line.clear();
    line.extend_from_slice(b"report ")?;
    add_number(line, lane as u64)?;
    line.extend_from_slice(b" ")?;
    add_name(line, report.name)?;
    line.extend_from_slice(b" ")?;
    add_document(line, &report.key)?;
    line.extend_from_slice(b" ")?;
    add_cause(line, &report.cause)?;
    line.extend_from_slice(b"\n")
}

// Makes the line that says whether everything is finished.
fn make_finished(line: &mut Vec<u8>, finished: bool) -> Result<(), AllocError> {
    line.clear();
    if finished {
        line.extend_from_slice(b"finished yes\n")
    } else {
        line.extend_from_slice(b"finished no\n")
    }
}
