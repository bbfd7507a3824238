//! What is written at the end of a run, and its exit status.
ghost use Rattle.std.specs.Prelude.{◌≡◌, ◌++◌, ℕ, List, IfOk, OnOk, IsTrue, false};
ghost use Rattle.std.specs.Prelude.{is_some, length, map, string_bytes, vec_len};
ghost use Rattle.std.specs.Io.KnownBytes.{append_known};
ghost use Rattle.relay_action.specs.Streams.{FailedSince};
ghost use Rattle.relay_common.specs.Counts.{total};
ghost use Rattle.relay_run.specs.Faults.{worse, file_fault, said_of, worse_by, faults_text};
ghost use Rattle.relay_run.specs.Faults.{exit_of_files};
ghost use Rattle.relay_run.specs.Resuming.{told_fault};
ghost use Rattle.relay_run.specs.Saying.{IsSaid, exit_of_finish, SaysSummary, Concludes};
ghost use Rattle.relay_run.specs.Outcomes.{start_fault_text, kind_name, finish_fault_text};
ghost use Rattle.relay_run.specs.Outcomes.{reports_of, exit_of_reports, TellsOf};

use crate::faults::{FileFault, add_file_fault, exit_of_file, worse};
use crate::feed::FeedFault;
use crate::hint::say_hint;
use crate::noting::SharedNote;
use crate::numbering::Numbering;
use crate::options::RunOptions;
use crate::outcome::outcome_text;
use crate::run::Ran;
use crate::saving::say_saved;
use crate::skipping::say_left_out;
use crate::stopping::{SharedStop, reason_of_stop, reason_said, say_stopped, were_cut};
use relay_action::{ByteOut, write_all};
use relay_core::Report;
use relay_ndjson::{InputFault, LineKind};
use relay_resume::Mark;
use relay_sift::SharedNotes;
use relay_threads::{FinishFault, FinishFaultKind, LaneSummary, StartFault, Summary};
use relay_words::{Exit, add_number};
use std::alloc::{AllocError, Global};

/// For each file, whether it has a reader, that is, could be opened.
pub(crate) fn are_opened<S>(alloc: Global, readers: &[Option<S>]) -> Result<Vec<bool>, AllocError>
    ensures { IfOk result (λ v. v.items ≡ map is_some readers.now) }
{
    let mut opened = Vec::new(alloc);
    for reader in readers {
        opened.push(reader.is_some())?;
    }
    Ok(opened)
}

// Why a file was not put in full.
fn file_fault(opened: bool, stop: Option<FeedFault>) -> Option<FileFault>
    ensures { result ≡ file_fault opened stop }
{
    if !opened {
        return Some(FileFault::Open);
    }
    stop.map(FileFault::Feed)
}

// Adds the message for a file, and what is said beneath it, if there is a fault.
fn add_said(
    text: &mut Vec<u8>,
    file: &str,
    fault: Option<FileFault>,
    beneath: &[u8],
) -> Result<(), AllocError>
    ensures { OnOk result
        (text.new.items ≡ text.old.items ++ said_of file.now fault beneath.now) }
{
    match fault {
        Some(fault) => {
            add_file_fault(text, file, fault)?;
            text.extend_from_slice(beneath)
        }
        None => Ok(()),
    }
}

// What is said beneath the fault of each file; empty if there is none.
fn beneath_of(
    alloc: Global,
    notes: &[SharedNote],
    opened: &[bool],
    stops: &[Option<FeedFault>],
) -> Result<Vec<Vec<u8>>, AllocError>
    requires opened { length opened.now ≡ length notes.now }
    requires stops { length stops.now ≡ length notes.now }
    ensures { IfOk result (λ v. vec_len v ≡ length notes.now) }
{
    let mut beneath = Vec::new(alloc);
    for place in 0..notes.len() {
        let line = match file_fault(opened[place], stops[place]) {
            Some(fault) => notes[place].line(alloc, fault)?,
            None => Vec::new(alloc),
        };
        beneath.push(line)?;
    }
    Ok(beneath)
}

// The exit status after the fault of a file, if there is one.
fn worse_by(exit: Exit, fault: Option<FileFault>) -> Exit
    ensures { result ≡ worse_by exit fault }
{
    match fault {
        Some(fault) => worse(exit, exit_of_file(fault)),
        None => exit,
    }
}

// The messages for the files that were not put in full, and the exit status after them.
fn faults_text(
    alloc: Global,
    files: &[String],
    opened: &[bool],
    stops: &[Option<FeedFault>],
    beneath: &[Vec<u8>],
) -> Result<(Vec<u8>, Exit), AllocError>
    requires opened { length opened.now ≡ length files.now }
    requires stops { length stops.now ≡ length files.now }
    requires beneath { length beneath.now ≡ length files.now }
    ensures text { IfOk result
        (λ r. r.0.items ≡ faults_text (map string_bytes files.now) opened.now stops.now
        (map (λ v. v.items) beneath.now)) }
    ensures exit { IfOk result (λ r. r.1 ≡ exit_of_files Exit.Done opened.now stops.now) }
{
    let mut text = Vec::new(alloc);
    let mut exit = Exit::Done;
    for place in 0..files.len() {
        let fault = file_fault(opened[place], stops[place]);
        add_said(
            &mut text,
            files[place].as_str(),
            fault,
            beneath[place].as_slice(),
        )?;
        exit = worse_by(exit, fault);
    }
    Ok((text, exit))
}

// The message if the lanes did not finish well.
fn finish_fault_text(alloc: Global, fault: FinishFault) -> Result<Vec<u8>, AllocError>
    ensures { IfOk result (λ text. text.items ≡ finish_fault_text fault) }
{
    let mut text = Vec::new(alloc);
    text.extend_from_slice(b"lane ")?;
    add_number(&mut text, fault.lane as u64)?;
    text.extend_from_slice(b": ")?;
    text.extend_from_slice(kind_name(fault.kind))?;
    text.extend_from_slice(b"\n")?;
    Ok(text)
}

fn kind_name(kind: FinishFaultKind) -> &'static [u8]
    ensures { result.now ≡ kind_name kind }
{
    match kind {
        FinishFaultKind::LaneMemory => b"LaneMemory",
        FinishFaultKind::LaneGone => b"LaneGone",
        FinishFaultKind::Memory => b"Memory",
    }
}

// The message if the relay did not start.
fn start_fault_text(fault: StartFault) -> &'static [u8]
    ensures { result.now ≡ start_fault_text fault }
{
    match fault {
        StartFault::BadConfig => b"start: BadConfig\n",
        StartFault::WireCount => b"start: WireCount\n",
        StartFault::Memory => b"start: Memory\n",
        StartFault::Thread => b"start: Thread\n",
    }
}

// The reports and the counts of all lanes.
#[derive(Drop)]
struct Counts {
    reports: Vec<Report>,
    applied: u64,
    already: u64,
}

fn count_all<W: Drop>(alloc: Global, lanes: Vec<LaneSummary<W>>) -> Result<Counts, AllocError>
    ensures reports { IfOk result (λ c. c.reports.items ≡ reports_of lanes.items) }
    ensures applied { IfOk result (λ c. c.applied ≡ total (λ s. s.applied) 0 lanes.items) }
    ensures already { IfOk result (λ c. c.already ≡ total (λ s. s.already) 0 lanes.items) }
{
    let mut reports = Vec::new(alloc);
    let mut applied = 0u64;
    let mut already = 0u64;
    for lane in lanes {
        applied = applied.saturating_add(lane.applied);
        already = already.saturating_add(lane.already);
        let mut more = lane.reports;
        reports.append(&mut more)?;
    }
    Ok(Counts {
        reports,
        applied,
        already,
    })
}

// The exit status for these reports.
fn exit_of_reports(reports: &[Report]) -> Exit
    ensures { result ≡ exit_of_reports reports.now }
{
    match reports {
        [] => Exit::Done,
        [_, ..] => Exit::Reported,
    }
}

// The reports of all lanes and the counts, as text; the exit status after them; and the reports in
// the order of the text.
#[derive(Drop)]
struct Told {
    text: Vec<u8>,
    exit: Exit,
    reports: Vec<Report>,
}

// The text for a run that finished well.
fn summary_text<W: Drop>(
    alloc: Global,
    summary: Summary<W>,
    numbering: Numbering,
) -> Result<Told, AllocError>
    ensures { IfOk result (λ t. TellsOf numbering.before summary.lanes.items t.reports.items t.text.items t.exit) }
{
    let Counts {
        reports,
        applied,
        already,
    } = count_all(alloc, summary.lanes)?;
    let exit = exit_of_reports(&reports);
    let mut reports = numbering.rename(alloc, reports)?;
    let text = outcome_text(alloc, &mut reports, applied, already)?;
    Ok(Told {
        text,
        exit,
        reports,
    })
}

/// Writes a text, and returns whether all of it was written.
pub(crate) fn say<W: ByteOut>(out: &mut W, text: &[u8]) -> bool
    ensures all { IsTrue result → (W.written out.new ≡ append_known (W.written out.old) text.now)
        × (W.failed out.new ≡ W.failed out.old) }
    ensures failed { result ≡ false → FailedSince (W.failed out.old) (W.failed out.new) }
    ensures front { (sent : List ℕ) × (W.written out.new ≡ append_known (W.written out.old) sent) }
{
    match write_all(out, text) {
        Ok(()) => true,
        Err(_) => false,
    }
}

// The exit status after a relay that did not finish well.
fn exit_of_finish(kind: FinishFaultKind) -> Exit
    ensures { result ≡ exit_of_finish kind }
{
    match kind {
        FinishFaultKind::LaneMemory => Exit::Memory,
        FinishFaultKind::LaneGone => Exit::Device,
        FinishFaultKind::Memory => Exit::Memory,
    }
}

// Writes that a relay did not finish well.
fn say_fault<E: ByteOut>(
    alloc: Global,
    exit: Exit,
    fault: FinishFault,
    err: &mut E,
) -> Result<Exit, AllocError>
    ensures said { OnOk result (IsSaid (finish_fault_text fault)
        (E.written err.old, E.failed err.old) (E.written err.new, E.failed err.new)) }
    ensures exit { IfOk result (λ end. end ≡ worse exit (exit_of_finish fault.kind)) }
{
    let text = finish_fault_text(alloc, fault)?;
    let _ = say(err, &text);
    Ok(worse(exit, exit_of_finish(fault.kind)))
}

// Writes the summary of a run, or that a write of it failed, and returns the exit status and the
// reports.
fn say_summary<W: Drop, O: ByteOut, E: ByteOut>(
    alloc: Global,
    exit: Exit,
    summary: Summary<W>,
    numbering: Numbering,
    out: &mut O,
    err: &mut E,
) -> Result<(Exit, Vec<Report>), AllocError>
    ensures { IfOk result (λ r. SaysSummary numbering.before summary.lanes.items r.1.items exit
        (O.written out.old, O.failed out.old) (O.written out.new, O.failed out.new)
        (E.written err.old, E.failed err.old) (E.written err.new, E.failed err.new) r.0) }
{
    let told = summary_text(alloc, summary, numbering)?;
    if say(out, &told.text) {
        return Ok((worse(exit, told.exit), told.reports));
    }
    let _ = say(err, b"write failed\n");
    Ok((worse(exit, Exit::Device), told.reports))
}

// Writes the outcome of a run, and returns the exit status and the reports, of which there are none
// if a lane did not finish.
fn conclude<W: Drop, F: ByteOut + Drop, O: ByteOut, E: ByteOut>(
    alloc: Global,
    files: &[String],
    opened: &[bool],
    beneath: &[Vec<u8>],
    ran: Ran<W, F>,
    numbering: Numbering,
    out: &mut O,
    err: &mut E,
) -> Result<(Exit, Vec<Report>), AllocError>
    requires opened { length opened.now ≡ length files.now }
    requires stops { vec_len ran.faults ≡ length files.now }
    requires beneath { length beneath.now ≡ length files.now }
    ensures { IfOk result
        (λ r. Concludes numbering.before (faults_text (map string_bytes files.now) opened.now ran.faults.items
        (map (λ v. v.items) beneath.now))
        (exit_of_files Exit.Done opened.now ran.faults.items) ran.end r.1.items
        (O.written out.old, O.failed out.old) (O.written out.new, O.failed out.new)
        (E.written err.old, E.failed err.old) (E.written err.new, E.failed err.new) r.0) }
{
    let Ran {
        faults,
        end,
        tells: _,
        unsaved: _,
        inputs: _,
    } = ran;
    let (text, exit) = faults_text(alloc, files, opened, &faults, beneath)?;
    let _ = say(err, &text);
    match end {
        Ok(summary) => say_summary(alloc, exit, summary, numbering, out, err),
        Err(fault) => {
            let exit = say_fault(alloc, exit, fault, err)?;
            Ok((exit, Vec::new(alloc)))
        }
    }
}

/// Says how many operations were left out, and whether their lines could not be written.
pub(crate) fn say_notes<E: ByteOut>(
    alloc: Global,
    options: &RunOptions,
    exit: Exit,
    notes: &SharedNotes,
    err: &mut E,
) -> Result<Exit, AllocError> {
    let name = options.skip_invalid.as_deref().unwrap_or("");
    let exit = say_left_out(alloc, exit, name, notes.left_out(), err)?;
    let exit = say_saved(alloc, exit, name, notes.is_unwritten(), err)?;
    if notes.is_refused() {
        return Err(AllocError);
    }
    Ok(exit)
}

// Whether a lane of a relay that has ended like this has applied an operation.
fn has_applied<W: Drop>(end: &Result<Summary<W>, FinishFault>) -> bool {
    let Ok(summary) = end else {
        return false;
    };
    let mut applied = false;
    for lane in &summary.lanes {
        applied = applied || lane.applied > 0 || lane.already > 0;
    }
    applied
}

// Tells the faults by the lines of the whole files, and as a stop where a read was ended by one.
fn tell_faults(
    faults: &mut [Option<FeedFault>],
    is_stopped: bool,
    notes: &[SharedNote],
    starts: &[Mark],
)
    ensures { length faults.new ≡ length faults.old }
{
    for place in 0..faults.len().min(notes.len()).min(starts.len()) {
        let was_ended = is_stopped && !notes[place].has_failed();
        faults[place] = told_fault(faults[place], was_ended, starts[place]);
    }
}

// A fault as it is told, given whether a read that failed was ended by a stop.
fn told_fault(fault: Option<FeedFault>, was_ended: bool, start: Mark) -> Option<FeedFault>
    ensures { result ≡ told_fault fault was_ended start }
{
    match fault {
        Some(FeedFault::Input(fault)) if fault.kind == LineKind::Read && was_ended => {
            Some(FeedFault::Stopped)
        }
        Some(FeedFault::Input(fault)) => Some(FeedFault::Input(InputFault {
            line: fault.line.saturating_add(start.line),
            kind: fault.kind,
        })),
        fault => fault,
    }
}

/// Writes that a run was left that did not end in time after it was told to stop, and returns the exit
/// status.
pub(crate) fn say_left<E: ByteOut>(err: &mut E) -> Exit {
    let _ = say(err, b"stopped: --until; not all was settled\n");
    Exit::Device
}

/// Writes the outcome of a run that was started: that of its lanes, why it has stopped, if it has, what
/// its conflicts come from, and whether its reports could not be saved.
pub(crate) fn say_ran<W: Drop, F: ByteOut + Drop, O: ByteOut, E: ByteOut>(
    alloc: Global,
    options: &RunOptions,
    epoch: u32,
    opened: &[bool],
    notes: &[SharedNote],
    starts: &[Mark],
    ran: Ran<W, F>,
    stop: &Option<SharedStop>,
    out: &mut O,
    err: &mut E,
) -> Result<Exit, AllocError>
    requires opened { length opened.now ≡ vec_len options.now.files }
    requires notes { length notes.now ≡ vec_len options.now.files }
    requires stops { vec_len ran.faults ≡ vec_len options.now.files }
{
    let unsaved = ran.unsaved;
    let mut ran = ran;
    let is_stopped = reason_of_stop(stop).is_some();
    tell_faults(&mut ran.faults, is_stopped, notes, starts);
    let reason = reason_said(
        reason_of_stop(stop),
        were_cut(&ran.faults),
        has_applied(&ran.end),
    );
    let beneath = beneath_of(alloc, notes, opened, &ran.faults)?;
    let (exit, reports) = conclude(
        alloc,
        &options.files,
        opened,
        &beneath,
        ran,
        Numbering::of(starts),
        out,
        err,
    )?;
    let exit = match reason {
        Some(reason) => say_stopped(alloc, exit, options.max_reports as u64, reason, err)?,
        None => exit,
    };
    // A hint for which there is no memory is left out.
    let _ = say_hint(alloc, &reports, epoch, err);
    match &options.report {
        Some(name) => say_saved(alloc, exit, name.as_str(), unsaved, err),
        None => Ok(exit),
    }
}

/// Writes that nothing was started, and returns the exit status.
pub(crate) fn say_start<E: ByteOut>(fault: StartFault, err: &mut E) -> Exit {
    let _ = write_all(err, start_fault_text(fault));
    if fault == StartFault::Memory {
        Exit::Memory
    } else {
        Exit::Device
    }
}
