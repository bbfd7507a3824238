//! Lanes that are drained over wires.
ghost use Rattle.std.specs.Prelude.{◌≡◌};
ghost use Rattle.relay_lane.specs.Out.{out_of};
ghost use Rattle.relay_wires.specs.Numbers.{numbers};

use crate::wires::desk::numbered;
use crate::wires::loops::looped;
use crate::wires::streams::wired;
use relay_fixtures::applied::count_applied;
use relay_fixtures::desk::Desk;
use relay_fixtures::notes::NO_PAUSES;
use relay_lane::{Wire, drain};
use relay_loop::LoopWire;
use std::alloc::Global;
use std::mem;
use std::process::Abort;

/// The outcome of a drain.
#[derive(Clone, Copy, Debug, PartialEq, Eq)]
pub struct Came {
    pub requests: u64,
    pub pauses: u64,
    pub ticks: u64,
    pub applied: u64,
    pub already: u64,
    pub reports: usize,
}

/// Drains a closed lane over a wire.
pub fn drained<W: Wire>(rt: &impl Abort, desk: &mut Desk, wire: &mut W) -> Came
    requires { W.out wire.old ≡ out_of desk.old.lane.state }
{
    let mut pace = NO_PAUSES;
    assert!(rt; desk.lane.closed());
    drain(&mut desk.lane, wire, &mut pace).expect(rt, "memory");
    let totals = desk.lane.totals();
    Came {
        requests: totals.requests,
        pauses: pace.pauses,
        ticks: pace.ticks,
        applied: totals.applied,
        already: totals.already,
        reports: desk.lane.reports().len(),
    }
}

/// The outcome of a drain in memory, and how many writes the index applied.
pub fn came_to(
    rt: &impl Abort,
    alloc: Global,
    desk: &mut Desk,
    wire: &mut LoopWire,
) -> (Came, usize)
    requires { numbers wire.old.out ≡ out_of desk.old.lane.state }
{
    let came = drained(rt, desk, wire);
    let applied = count_applied(alloc, wire.peer().index()).expect(rt, "memory");
    (came, applied)
}

// The same for deletes of this many documents, if the reply to one number is lost.
fn in_memory(rt: &impl Abort, alloc: Global, count: u64, lost: u64) -> (Came, usize) {
    let mut desk = numbered(alloc, count).expect(rt, "a lane");
    let mut wire = looped(rt, alloc, lost);
    let came = came_to(rt, alloc, &mut desk, &mut wire);
    mem::forget(wire);
    came
}

// Three deletes of three documents, whose first request's reply is lost: all three were applied by
// it.
const LOST_ONCE: Came = Came {
    requests: 2,
    pauses: 1,
    ticks: 1,
    applied: 0,
    already: 3,
    reports: 0,
};

// Two thousand items in one request, whose bytes and whose reply's are many pieces of a stream.
const ALL_AT_ONCE: Came = Came {
    requests: 1,
    pauses: 0,
    ticks: 0,
    applied: 2000,
    already: 0,
    reports: 0,
};

#[test]
fn a_lost_reply_in_memory(rt: HostRuntime) {
    assert!(rt; in_memory(&rt, rt.alloc(), 3, 1) == (LOST_ONCE, 3));
}

// The highest version in the index, and how many documents it has.
#[test]
fn three_deletes(rt: HostRuntime) {
    let mut desk = numbered(rt.alloc(), 3).expect(&rt, "a lane");
    let mut wire = looped(&rt, rt.alloc(), 0);
    let _ = drained(&rt, &mut desk, &mut wire);
    let index = wire.peer().index();
    assert!(rt; index.highest() == Some(3));
    assert!(rt; index.keys(rt.alloc()).expect(&rt, "memory").len() == 3);
    mem::forget(wire);
}

#[test]
fn two_thousand_items(rt: HostRuntime) {
    assert!(rt; in_memory(&rt, rt.alloc(), 2000, 0) == (ALL_AT_ONCE, 2000));
}

const CONFLICTS: &[u8] =
    b"HTTP/1.1 200 OK\r\nContent-Type: application/json\r\nContent-Length: 250\r\n\r\n{\"errors\":true,\"items\":[{\"delete\":{\"_id\":\"1\",\"error\":{\"type\":\"version_conflict\"},\"status\":409}},{\"delete\":{\"_id\":\"2\",\"error\":{\"type\":\"version_conflict\"},\"status\":409}},{\"delete\":{\"_id\":\"3\",\"error\":{\"type\":\"version_conflict\"},\"status\":409}}],\"took\":0}";

#[test]
fn a_lost_reply_over_http(rt: HostRuntime) {
    let mut wire = wired(rt.alloc(), &[b"", CONFLICTS], 1000, 0, 1).expect(&rt, "memory");
    let mut desk = numbered(rt.alloc(), 3).expect(&rt, "a lane");
    assert!(rt; drained(&rt, &mut desk, &mut wire) == LOST_ONCE);
    mem::forget(wire);
}
