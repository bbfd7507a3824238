//! Requests that are too large for the index in memory.
ghost use Rattle.std.specs.Prelude.{◌≡◌, []};

use crate::wires::desk::numbered;
use crate::wires::drains::{Came, came_to};
use relay_index::{Index, Script};
use relay_loop::{LoopEnd, LoopWire, wire_to};
use std::alloc::Global;
use std::mem;
use std::process::Abort;

// A wire to an empty index that accepts bodies up to this size.
fn limited(rt: &impl Abort, alloc: Global, most: u64) -> LoopWire
    ensures { result.out ≡ [] }
{
    let mut script = Script::new(alloc);
    script.too_large(most);
    let end = LoopEnd::new(alloc, Index::new(alloc), script);
    wire_to(alloc, end, 16).expect(rt, "memory")
}

// The outcome of five deletes of 74 bytes each, and how many of them the index applied.
fn five(rt: &impl Abort, alloc: Global, most: u64) -> (Came, usize) {
    let mut desk = numbered(alloc, 5).expect(rt, "a lane");
    let mut wire = limited(rt, alloc, most);
    let came = came_to(rt, alloc, &mut desk, &mut wire);
    mem::forget(wire);
    came
}

const fn came(requests: u64, applied: u64, reports: usize) -> Came {
    Came {
        requests,
        pauses: 0,
        ticks: 0,
        applied,
        already: 0,
        reports,
    }
}

#[test]
fn halves_that_fit(rt: HostRuntime) {
    // All five; then two, two and one.
    assert!(rt; five(&rt, rt.alloc(), 160) == (came(4, 5, 0), 5));
}

#[test]
fn each_too_large_alone(rt: HostRuntime) {
    // All five; two, and each of them; two, and each of them; and the last.
    assert!(rt; five(&rt, rt.alloc(), 73) == (came(8, 0, 5), 0));
}
