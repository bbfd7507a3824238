//! The fault of lanes that have ended, and the lane that it names.
use relay_fixtures::config;
use relay_lane::{Lane, RelayConfig};
use relay_producer::ClosedEnd;
use relay_queue::lane_queue;
use relay_threads::{FinishFaultKind, LaneEnd, LaneEndKind, fault_of};
use std::mem;
use std::process::Abort;

const CONFIG: RelayConfig = RelayConfig {
    lanes: 2,
    ..config::CONFIG
};

// The end of a lane that took nothing, without a wire.
fn end_of(rt: &(impl Abort + AllocGlobal), kind: LaneEndKind) -> LaneEnd<u8> {
    let (take, _puts) = lane_queue(rt.alloc(), 1, 1).expect(rt, "memory");
    assert!(rt; CONFIG.valid());
    LaneEnd {
        kind,
        taken: take.end(),
        lane: Lane::new(rt.alloc(), CONFIG).expect(rt, "memory"),
        wire: 0,
    }
}

// The row of a handle that has found the first lane gone.
fn marked(rt: &(impl Abort + AllocGlobal)) -> Vec<ClosedEnd> {
    let (_take, mut puts) = lane_queue(rt.alloc(), 1, 1).expect(rt, "memory");
    let put = puts.pop().expect(rt, "a sender");
    let mut row = Vec::new(rt.alloc());
    row.push(ClosedEnd::Gone(put)).expect(rt, "memory");
    row
}

// The fault of two lanes that ended like this, if a handle has marked the first one, or none.
fn told(
    rt: &(impl Abort + AllocGlobal),
    first: LaneEndKind,
    second: LaneEndKind,
    is_marked: bool,
) -> Option<(FinishFaultKind, u32)> {
    let mut rows = Vec::new(rt.alloc());
    if is_marked {
        rows.push(marked(rt)).expect(rt, "memory");
    }
    let mut ends = Vec::new(rt.alloc());
    ends.push(end_of(rt, first)).expect(rt, "memory");
    ends.push(end_of(rt, second)).expect(rt, "memory");
    assert!(rt; ends.len() == 2);
    let fault = fault_of(&ends, &rows);
    mem::forget((ends, rows));
    let fault = fault?;
    Some((fault.kind, fault.lane))
}

const FINISHED: LaneEndKind = LaneEndKind::Finished;

const MEMORY: LaneEndKind = LaneEndKind::Memory;

const GONE: LaneEndKind = LaneEndKind::Gone;

// How two lanes ended, whether a handle has marked the first, and the fault.
const ROWS: &[(
    LaneEndKind,
    LaneEndKind,
    bool,
    Option<(FinishFaultKind, u32)>,
)] = &[
    (FINISHED, FINISHED, false, None),
    (
        FINISHED,
        MEMORY,
        false,
        Some((FinishFaultKind::LaneMemory, 1)),
    ),
    (FINISHED, GONE, false, Some((FinishFaultKind::LaneGone, 1))),
    (GONE, MEMORY, true, Some((FinishFaultKind::LaneMemory, 1))),
    (FINISHED, GONE, true, Some((FinishFaultKind::LaneGone, 0))),
    (
        FINISHED,
        FINISHED,
        true,
        Some((FinishFaultKind::LaneGone, 0)),
    ),
];

#[test]
fn faults_of_ends(rt: HostRuntime) {
    for (first, second, is_marked, wanted) in ROWS {
        assert!(rt; told(&rt, *first, *second, *is_marked) == *wanted);
    }
}
