//! Lanes and relays with senders in threads, with any one of their allocations refused (`make
//! refusals`): they succeed, or they report the refusal and the next run succeeds.
use crate::operations::{is_whole, losing_wire};
use crate::relays::{CONFIG, RunFault, run_one, run_summing};
use crate::tests::run;
use relay_fixtures::index_wire::IndexWire;
use relay_index::Index;
use relay_lane::Lane;
use relay_threads::{FinishFaultKind, LaneEndKind, LaneSummary, StartFault, Summary};
use std::alloc::Global;
use std::mem;
use std::sync::Wait;
use std::sync::atomic::AtomicU32;
use std::thread::Threads;

// Whether a lane took 200 operations, and applied all of them.
fn all_settled<W>(lane: &LaneSummary<W>) -> bool {
    let settled = lane.applied.saturating_add(lane.already);
    lane.taken == 200 && settled == 200 && lane.reports.is_empty()
}

// Whether an index is whole, by a second look if an allocation of the first was refused.
fn is_whole_again(alloc: Global, index: &Index) -> Option<bool> {
    match is_whole(alloc, index) {
        None => is_whole(alloc, index),
        whole => whole,
    }
}

fn is_delivered(alloc: Global, summary: &Summary<IndexWire>) -> Option<bool> {
    match summary.lanes.as_slice() {
        [lane] if all_settled(lane) => is_whole_again(alloc, &lane.wire.index),
        _ => Some(false),
    }
}

// Whether a fault can be due to a refusal, at the start, in the run or at its end. A put that the
// test could not make, or that found its lane gone, is one of these.
fn may_be(fault: RunFault) -> bool {
    match fault {
        RunFault::Memory | RunFault::NotPut => true,
        RunFault::Start(fault) => fault == StartFault::Memory || fault == StartFault::Thread,
        RunFault::Finish(fault) => {
            fault.kind == FinishFaultKind::LaneMemory || fault.kind == FinishFaultKind::Memory
        }
    }
}

// The end of a relay to which two producers put a hundred operations each: whether it delivers
// them, or the fault.
fn run_once<R: Threads + Wait + Copy + Send + 'static>(
    rt: R,
    alloc: Global,
) -> Result<Option<bool>, RunFault> {
    let summary = run_one(
        rt,
        alloc,
        CONFIG,
        losing_wire(alloc),
        100,
        &AtomicU32::new(0),
    )?;
    Ok(is_delivered(alloc, &summary))
}

// Whether a relay delivers what its producers put, by a second run if the first was refused.
fn delivers<R: Threads + Wait + Copy + Send + 'static>(rt: R, alloc: Global) -> bool {
    match run_once(rt, alloc) {
        Ok(delivered) => delivered == Some(true),
        Err(fault) => may_be(fault) && run_once(rt, alloc) == Ok(Some(true)),
    }
}

// The same for a relay that passes on how operations ended.
fn told_once<R: Threads + Wait + Copy + Send + 'static>(
    rt: R,
    alloc: Global,
) -> Result<Option<bool>, RunFault> {
    let (summary, _) = run_summing(rt, alloc, losing_wire(alloc), 100)?;
    Ok(is_delivered(alloc, &summary))
}

fn delivers_telling<R: Threads + Wait + Copy + Send + 'static>(rt: R, alloc: Global) -> bool {
    match told_once(rt, alloc) {
        Ok(delivered) => delivered == Some(true),
        Err(fault) => may_be(fault) && told_once(rt, alloc) == Ok(Some(true)),
    }
}

#[test]
fn refused_relay(rt: HostRuntime) {
    assert!(rt; delivers(rt, rt.alloc()));
}

#[test]
fn refused_telling(rt: HostRuntime) {
    assert!(rt; delivers_telling(rt, rt.alloc()));
}

// Whether each operation that a lane took is applied, reported or still held.
fn is_accounted_for(lane: &Lane) -> bool {
    let totals = lane.totals();
    let settled = totals.applied.saturating_add(totals.already);
    let reported = lane.reports().len() as u64;
    settled
        .saturating_add(reported)
        .saturating_add(lane.held() as u64)
        == totals.taken
}

/// How a lane ended.
#[derive(Clone, Copy, PartialEq)]
enum Ended {
    /// Each of its operations is applied.
    Finished,
    /// An allocation failed, or a sender ended that could not make its operation.
    Refused,
    Wrong,
}

fn end_of(lane: &Lane, kind: LaneEndKind) -> Ended {
    let settled = lane.held() == 0 && lane.reports().is_empty();
    match kind {
        LaneEndKind::Finished if lane.totals().taken == 20 && settled => Ended::Finished,
        LaneEndKind::Memory | LaneEndKind::Gone => Ended::Refused,
        LaneEndKind::Finished => Ended::Wrong,
    }
}

// How a lane ends to which two producers put ten operations each. `None`: it was not started.
fn end_once<R: Threads + Wait + Copy + Send + 'static>(rt: R, alloc: Global) -> Option<Ended> {
    let end = run(rt, alloc, 10, true).ok()?;
    let ended = if is_accounted_for(&end.lane) {
        end_of(&end.lane, end.kind)
    } else {
        Ended::Wrong
    };
    mem::forget(end);
    Some(ended)
}

// Whether a lane finishes, by a second run if the first was refused.
fn finishes<R: Threads + Wait + Copy + Send + 'static>(rt: R, alloc: Global) -> bool {
    match end_once(rt, alloc) {
        Some(Ended::Finished) => true,
        Some(Ended::Wrong) => false,
        Some(Ended::Refused) | None => end_once(rt, alloc) == Some(Ended::Finished),
    }
}

#[test]
fn refused_lane(rt: HostRuntime) {
    assert!(rt; finishes(rt, rt.alloc()));
}
