//! Runs and their output, with any one of their allocations refused (`make refusals`): they
//! succeed, or they report the refusal and the next one succeeds.
ghost use Rattle.std.specs.Prelude.{◌≡◌, ◌∷◌, [], IfSome};
ghost use Rattle.relay_run.specs.Saving.{AreNew};
ghost use Rattle.relay_wires.specs.Numbers.{numbers};

use crate::loopback::CONFIG;
use relay_action::{DocKey, MemStream, OpName, Text};
use relay_common::counts::add_counts;
use relay_core::{Cause, Report};
use relay_index::{Index, Script};
use relay_loop::{LoopEnd, LoopWire, Wire, wire_to};
use relay_ndjson::{Input, InputFault, LineKind};
use relay_pace::SleepPace;
use relay_producer::Producer;
use relay_queue::{LaneTake, lane_queue};
use relay_run::faults::{FileFault, add_file_fault};
use relay_run::feed::{FeedFault, feed};
use relay_run::hint::say_hint;
use relay_run::numbering::Numbering;
use relay_run::outcome::outcome_text;
use relay_run::run::{Ran, run};
use relay_run::saving::say_saved;
use relay_run::settling::{Telling, silent_inputs, silent_lanes};
use relay_run::skipping::say_left_out;
use relay_run::stopping::{StopReason, say_stopped};
use relay_run::telling::{SavingTell, make_tells};
use relay_threads::{FinishFaultKind, StartFault, Tell};
use relay_words::Exit;
use std::alloc::{AllocError, Global};
use std::sync::Wait;
use std::thread::Threads;
use std::time::Clock;

const FAULT: FileFault = FileFault::Feed(FeedFault::Input(InputFault {
    line: 17,
    kind: LineKind::NotJson,
}));

const FAULT_LINE: &[u8] =
    b"a-file-whose-name-has-more-than-thirty-eight-bytes.ndjson: line 17: NotJson\n";

const FILE: &str = "a-file-whose-name-has-more-than-thirty-eight-bytes.ndjson";

// Whether the line of a fault is added to an empty text, by a second call if the first was refused and left it empty.
fn adds_fault(text: &mut Vec<u8>) -> bool {
    match add_file_fault(text, FILE, FAULT) {
        Ok(()) => true,
        Err(AllocError) => text.is_empty() && add_file_fault(text, FILE, FAULT).is_ok(),
    }
}

fn has_fault(alloc: Global) -> bool {
    let mut text = Vec::new(alloc);
    adds_fault(&mut text) && text.as_slice() == FAULT_LINE
}

#[test]
fn refused_fault_line(rt: HostRuntime) {
    assert!(rt; has_fault(rt.alloc()));
}

fn report_once(alloc: Global) -> Option<Vec<Report>> {
    let report = Report {
        name: OpName {
            epoch: 0,
            producer: 1,
            number: 3,
        },
        key: DocKey::new(alloc, "books", "a document of more than thirty-eight bytes").ok()?,
        cause: Cause::Refused {
            status: 400,
            kind: Text::new(alloc, "mapper_parsing_exception").ok()?,
            reason: None,
        },
    };
    let mut reports = Vec::new(alloc);
    reports.push(report).ok()?;
    Some(reports)
}

fn report_of(alloc: Global) -> Option<Vec<Report>> {
    report_once(alloc).or_else(|| report_once(alloc))
}

const OUTCOME: &[u8] =
    b"report 1:3 books/a document of more than thirty-eight bytes Refused 400 mapper_parsing_exception\napplied 7 already 2 reported 1\n";

// Whether an outcome is printed, by a second call if the first was refused.
fn tells(alloc: Global) -> Option<bool> {
    let mut reports = report_of(alloc)?;
    let text = match outcome_text(alloc, &mut reports, 7, 2) {
        Ok(text) => text,
        Err(AllocError) => outcome_text(alloc, &mut reports, 7, 2).ok()?,
    };
    Some(text.as_slice() == OUTCOME)
}

#[test]
fn refused_outcome(rt: HostRuntime) {
    assert!(rt; tells(rt.alloc()) == Some(true));
}

const COUNTS: &[u8] = b"applied 7 already 2 reported 1\n";

// Whether the line of the counts is added to an empty text, by a second call if the first was refused.
fn adds_counts(text: &mut Vec<u8>) -> bool {
    match add_counts(text, 7, 2, 1) {
        Ok(()) => true,
        Err(AllocError) => {
            text.clear();
            add_counts(text, 7, 2, 1).is_ok()
        }
    }
}

fn has_counts(alloc: Global) -> bool {
    let mut text = Vec::new(alloc);
    adds_counts(&mut text) && text.as_slice() == COUNTS
}

#[test]
fn refused_counts(rt: HostRuntime) {
    assert!(rt; has_counts(rt.alloc()));
}

fn stream_once(alloc: Global, input: &[u8], room: usize) -> Option<MemStream>
    ensures { IfSome result (λ s. (s.written ≡ []) × (s.failed ≡ 0)) }
{
    MemStream::new(alloc, input.to_vec(alloc).ok()?, room, 100, 0).ok()
}

fn stream_of(alloc: Global, input: &[u8], room: usize) -> Option<MemStream>
    ensures { IfSome result (λ s. (s.written ≡ []) × (s.failed ≡ 0)) }
{
    stream_once(alloc, input, room).or_else(|| stream_once(alloc, input, room))
}

// A report of a conflict with a version of epoch 2.
fn conflict_once(alloc: Global) -> Option<Vec<Report>> {
    let report = Report {
        name: OpName {
            epoch: 0,
            producer: 1,
            number: 3,
        },
        key: DocKey::new(alloc, "books", "a document of more than thirty-eight bytes").ok()?,
        cause: Cause::Conflict {
            stored: Some(2_199_023_255_553),
            reason: None,
        },
    };
    let mut reports = Vec::new(alloc);
    reports.push(report).ok()?;
    Some(reports)
}

const HINT: &[u8] = b"the index has versions of epoch 2: run again with --epoch 3 or higher\n";

// Whether the hint is said, by a second call if the first was refused and said nothing.
fn hints(alloc: Global) -> Option<bool> {
    let reports = conflict_once(alloc).or_else(|| conflict_once(alloc))?;
    let mut err = stream_of(alloc, b"", 1_000)?;
    if say_hint(alloc, &reports, 0, &mut err).is_err() {
        if !err.written().is_empty() {
            return Some(false);
        }
        say_hint(alloc, &reports, 0, &mut err).ok()?;
    }
    Some(err.written() == HINT)
}

#[test]
fn refused_hint(rt: HostRuntime) {
    assert!(rt; hints(rt.alloc()) == Some(true));
}

const SAVED: &[u8] =
    b"{\"cause\":\"Refused\",\"id\":\"a document of more than thirty-eight bytes\",\"index\":\"books\",\"kind\":\"mapper_parsing_exception\",\"number\":3,\"producer\":1,\"status\":400}\n";

const NOT_SAVED: &[u8] =
    b"a-file-whose-name-has-more-than-thirty-eight-bytes.ndjson: write failed\n";

fn tells_once(alloc: Global, room: usize) -> Option<Vec<SavingTell<MemStream>>>
    ensures { IfSome result (λ v. AreNew v.items) }
{
    let file = stream_of(alloc, b"", room)?;
    let files = one(alloc, file)?;
    let lanes = silent_lanes(alloc, 1).ok()?;
    make_tells(alloc, files, Numbering::NEW, &None, lanes).ok()
}

// What one lane tells by that saves in a file which takes this many bytes.
fn tells_of(alloc: Global, room: usize) -> Option<Vec<SavingTell<MemStream>>>
    ensures { IfSome result (λ v. AreNew v.items) }
{
    tells_once(alloc, room).or_else(|| tells_once(alloc, room))
}

// Whether a report is saved, or a write of it fails, by a second call if the first was refused and
// wrote nothing.
fn saves_one<R: Wait>(
    rt: &R,
    tell: &mut SavingTell<MemStream>,
    report: &Report,
    room: usize,
) -> bool {
    if tell.reported(rt, report).is_err()
        && (!tell.file().written().is_empty() || tell.reported(rt, report).is_err())
    {
        return false;
    }
    let written = tell.file().written();
    let is_whole = written.len() == room.min(SAVED.len()) && SAVED.starts_with(written);
    is_whole && tell.has_failed() == (room < SAVED.len())
}

fn saves<R: Wait>(rt: &R, alloc: Global, room: usize) -> Option<bool> {
    let mut reports = report_of(alloc)?;
    let mut tells = tells_of(alloc, room)?;
    let report = reports.pop()?;
    let mut tell = tells.pop()?;
    Some(saves_one(rt, &mut tell, &report, room))
}

#[test]
fn refused_saving(rt: HostRuntime) {
    for room in [1_000, 100] {
        assert!(rt; saves(&rt, rt.alloc(), room) == Some(true));
    }
}

// Whether it is said that reports could not be saved, by a second call if the first was refused and
// said nothing.
fn says_unsaved(alloc: Global) -> Option<bool> {
    let mut err = stream_of(alloc, b"", 1_000)?;
    let exit = match say_saved(alloc, Exit::Reported, FILE, true, &mut err) {
        Ok(exit) => exit,
        Err(AllocError) => {
            if !err.written().is_empty() {
                return Some(false);
            }
            say_saved(alloc, Exit::Reported, FILE, true, &mut err).ok()?
        }
    };
    Some(exit == Exit::Device && err.written() == NOT_SAVED)
}

#[test]
fn refused_unsaved(rt: HostRuntime) {
    assert!(rt; says_unsaved(rt.alloc()) == Some(true));
}

const STOPPED: &[u8] =
    b"stopped: the index answered a whole request with 401 before it had applied anything\n";

// Whether it is said why a run has stopped, by a second call if the first was refused and said
// nothing.
fn says_stop(alloc: Global) -> Option<bool> {
    let reason = StopReason::Hopeless { status: 401 };
    let mut err = stream_of(alloc, b"", 1_000)?;
    let exit = match say_stopped(alloc, Exit::Reported, 7, reason, &mut err) {
        Ok(exit) => exit,
        Err(AllocError) => {
            if !err.written().is_empty() {
                return Some(false);
            }
            say_stopped(alloc, Exit::Reported, 7, reason, &mut err).ok()?
        }
    };
    Some(exit == Exit::Device && err.written() == STOPPED)
}

#[test]
fn refused_stop_line(rt: HostRuntime) {
    assert!(rt; says_stop(rt.alloc()) == Some(true));
}

const LEFT_OUT: &[u8] =
    b"a file of more than thirty-eight bytes, or so: invalid operations left out: 7\n";

// Says how many operations were left out.
fn says_left_out(alloc: Global) -> Option<bool> {
    let name = "a file of more than thirty-eight bytes, or so";
    let mut err = MemStream::new(alloc, Vec::new(alloc), 1000, 1000, 0).ok()?;
    let exit = match say_left_out(alloc, Exit::Done, name, 7, &mut err) {
        Ok(exit) => exit,
        Err(AllocError) => {
            if !err.written().is_empty() {
                return Some(false);
            }
            say_left_out(alloc, Exit::Done, name, 7, &mut err).ok()?
        }
    };
    Some(exit == Exit::Reported && err.written() == LEFT_OUT)
}

#[test]
fn refused_left_out(rt: HostRuntime) {
    let first = says_left_out(rt.alloc());
    assert!(rt; first == Some(true) || says_left_out(rt.alloc()) == Some(true));
}

const INPUT: &[u8] =
    b"{\"delete\":{\"_id\":\"1\",\"_index\":\"books\"}}\n{\"index\":{\"_id\":\"a document of more than thirty-eight bytes\",\"_index\":\"books\"}}\n{\"a\":\"a source of more than thirty-eight bytes\"}\n{\"delete\":{\"_id\":\"\\u0031\",\"_index\":\"books\"}}\n";

// A producer of one lane, and its taker.
fn producer_once(alloc: Global) -> Option<(LaneTake, Producer)> {
    let (take, puts) = lane_queue(alloc, 16, 1).ok()?;
    Some((take, Producer::new(alloc, 0, 0, puts).ok()?))
}

/// How a producer was fed: how it ended, and the line of the last operation that was put.
type Fed = (Result<(), FeedFault>, u64);

// Feeds a producer, and then drops its ends.
fn feed_all<R: Wait>(rt: &R, alloc: Global, mut producer: Producer) -> Option<Fed> {
    let mut input = Input::new(alloc, stream_of(alloc, INPUT, 0)?, None);
    let mut telling = Telling::silent(alloc);
    let end = feed(rt, &mut input, &mut producer, &None, &mut telling);
    Some((end, input.line()))
}

// How many messages are in the queue of a lane whose senders are all gone.
fn count<R: Wait>(rt: &R, take: &mut LaneTake) -> u64 {
    let mut taken = 0u64;
    for _ in 0..4u64 {
        if take.take(rt).is_ok() {
            taken = taken.saturating_add(1);
        }
    }
    taken
}

// How a producer is fed, and how many operations went to its lane.
fn feed_once<R: Wait>(rt: &R, alloc: Global) -> Option<(Fed, u64)> {
    let (mut take, producer) = producer_once(alloc).or_else(|| producer_once(alloc))?;
    let fed = feed_all(rt, alloc, producer)?;
    Some((fed, count(rt, &mut take)))
}

// Whether a feed was refused at a line after this one, and the operations up to it had been put.
fn is_cut(end: Result<(), FeedFault>, line: u64, put: u64) -> bool {
    let before = match line {
        0 => put == 0,
        1 => put == 1,
        2 => put == 2,
        _ => put == 3,
    };
    match end {
        Err(FeedFault::Input(fault)) => {
            before && fault.kind == LineKind::Memory && fault.line > line
        }
        _ => false,
    }
}

// Whether a producer is fed three operations, by a second call if the first was refused.
fn feeds<R: Wait>(rt: &R, alloc: Global) -> bool {
    let whole = Some(((Ok(()), 4), 3));
    match feed_once(rt, alloc) {
        Some(((end, line), put)) if end.is_err() => {
            is_cut(end, line, put) && feed_once(rt, alloc) == whole
        }
        fed => fed == whole,
    }
}

#[test]
fn refused_feeding(rt: HostRuntime) {
    assert!(rt; feeds(&rt, rt.alloc()));
}

// A list of one.
fn one<T: Drop>(alloc: Global, x: T) -> Option<Vec<T>>
    ensures { IfSome result (λ v. v.items ≡ x ∷ []) }
{
    let Ok(mut all) = Vec::with_capacity(alloc, 1) else {
        return None;
    };
    all.push_reserved(x);
    Some(all)
}

fn wire_of(alloc: Global) -> Option<LoopWire>
    ensures { IfSome result (λ w. numbers w.out ≡ []) }
{
    wire_to(
        alloc,
        LoopEnd::new(alloc, Index::new(alloc), Script::new(alloc)),
        16,
    )
    .ok()
}

// Both producers' inputs.
fn readers_of(alloc: Global) -> Option<Vec<Option<MemStream>>> {
    let mut readers = Vec::new(alloc);
    readers.push(Some(stream_of(alloc, INPUT, 0)?)).ok()?;
    readers.push(Some(stream_of(alloc, INPUT, 0)?)).ok()?;
    Some(readers)
}

// A run of two producers over a wire. `None`: an allocation of the test was refused.
fn run_over<R, W>(rt: R, alloc: Global, wire: W) -> Option<Result<Ran<W, MemStream>, StartFault>>
where
    R: Threads + Wait + Clock + Copy + Send + 'static,
    W: Wire + Drop + Send + 'static,
    requires { W.out wire ≡ [] }
{
    let wires = one(alloc, wire)?;
    let paces = one(alloc, SleepPace::new(rt))?;
    let tells = tells_of(alloc, 1_000)?;
    let readers = readers_of(alloc)?;
    let Ok(inputs) = silent_inputs(alloc, CONFIG.producers as usize) else {
        return None;
    };
    Some(run(
        rt, alloc, CONFIG, wires, paces, tells, readers, None, &None, inputs,
    ))
}

// The same over a wire in memory.
fn run_once<R>(rt: R, alloc: Global) -> Option<Result<Ran<LoopWire, MemStream>, StartFault>>
where
    R: Threads + Wait + Clock + Copy + Send + 'static,
{
    run_over(rt, alloc, wire_of(alloc)?)
}

// How many lines of reports the lanes of a run have saved.
fn saved_lines(ran: &Ran<LoopWire, MemStream>) -> usize {
    let mut lines = 0usize;
    for tell in &ran.tells {
        let ends = tell.file().written().iter().filter(|byte| **byte == b'\n');
        lines = lines.saturating_add(ends.count());
    }
    lines
}

// Whether a run was complete: each producer was fed its three operations, and each is applied, or
// reported as a conflict with the write of its document by the other producer, which is saved.
fn is_whole(ran: &Ran<LoopWire, MemStream>) -> bool {
    let fed = ran.faults.iter().all(|fault| fault.is_none());
    let taken = match &ran.end {
        Ok(summary) => match summary.lanes.as_slice() {
            [lane] => {
                let settled = lane.applied.saturating_add(lane.already);
                let reported = lane.reports.len();
                lane.taken == 6
                    && settled.saturating_add(reported as u64) == 6
                    && saved_lines(ran) == reported
            }
            _ => false,
        },
        Err(_) => false,
    };
    fed && taken
}

// Whether a fault of a producer, or of the end of a relay, can be due to a refusal.
fn is_refused(fault: &Option<FeedFault>) -> bool {
    match fault {
        Some(FeedFault::Input(fault)) => fault.kind == LineKind::Memory,
        Some(FeedFault::LaneGone) => true,
        Some(FeedFault::NumbersSpent | FeedFault::Stopped) => false,
        None => true,
    }
}

// Whether a run reports a refusal, by a fault of a producer or at its end, and nothing else.
fn tells_refusal(ran: &Ran<LoopWire, MemStream>) -> bool {
    let (told, right) = match &ran.end {
        Ok(_) => (false, true),
        Err(fault) => {
            let lane = fault.kind == FinishFaultKind::LaneMemory;
            (true, lane || fault.kind == FinishFaultKind::Memory)
        }
    };
    let faults = ran.faults.iter().any(|fault| fault.is_some());
    (told || faults) && right && ran.faults.iter().all(is_refused)
}

/// The outcome of a run.
#[derive(Clone, Copy, PartialEq)]
enum Came {
    Whole,
    /// It reports a refusal, or an allocation of the test was refused.
    Refused,
    Wrong,
}

fn came_of(ran: &Result<Ran<LoopWire, MemStream>, StartFault>) -> Came {
    let refused = match ran {
        Ok(ran) if is_whole(ran) => return Came::Whole,
        Ok(ran) => tells_refusal(ran),
        Err(fault) => *fault == StartFault::Memory || *fault == StartFault::Thread,
    };
    if refused { Came::Refused } else { Came::Wrong }
}

fn come<R>(rt: R, alloc: Global) -> Came
where
    R: Threads + Wait + Clock + Copy + Send + 'static,
{
    match run_once(rt, alloc) {
        Some(ran) => came_of(&ran),
        None => Came::Refused,
    }
}

// Whether a run delivers, by a second one if the first was refused.
fn delivers<R>(rt: R, alloc: Global) -> bool
where
    R: Threads + Wait + Clock + Copy + Send + 'static,
{
    match come(rt, alloc) {
        Came::Whole => true,
        Came::Refused => come(rt, alloc) == Came::Whole,
        Came::Wrong => false,
    }
}

#[test]
fn refused_run(rt: HostRuntime) {
    assert!(rt; delivers(rt, rt.alloc()));
}
