//! Wires that wait: each lane's first reply comes once all eight lanes have sent, or once a producer
//! has put more.
ghost use Rattle.std.specs.Prelude.{◌≡◌, None};

use crate::operations::losing_wire;
use relay_fixtures::index_wire::IndexWire;
use relay_fixtures::watched::{Watch, Watched};
use std::alloc::Global;
use std::sync::Arc;
use std::sync::atomic::{AtomicU32, Ordering};
use std::thread;
use std::time::{Clock, Duration};

/// The number of lanes.
pub const LANES: u32 = 8;

/// Before the first answer is received it raises its flag, and waits until it sees all flags. The
/// flags are a count, to which each gate adds one, once.
#[derive(Drop)]
pub struct Gate<C> {
    clock: C,
    flags: Arc<AtomicU32>,
    raised: bool,
    /// Whether it saw all flags.
    pub passed: bool,
}

// Waits until this many flags are raised, for at most 10,000 turns of a millisecond.
fn wait_for<C: Clock>(clock: &C, flags: &AtomicU32, count: u32) -> bool {
    for _ in 0..10_000 {
        if flags.load(Ordering::SeqCst) >= count {
            return true;
        }
        thread::sleep(clock, Duration::from_millis(1));
    }
    false
}

impl<C: Clock> Watch for Gate<C> {
    fn before_send(&mut self, _number: u64) {}

    fn before_receive(&mut self, _number: u64) {
        if !self.raised {
            self.raised = true;
            let _ = self.flags.fetch_add(1, Ordering::SeqCst);
            self.passed = wait_for(&self.clock, &self.flags, LANES);
        }
    }
}

// A wire in memory with this done before its calls.
fn watched<V>(alloc: Global, watch: V) -> Watched<IndexWire, V>
    ensures { result.wire.flying ≡ None }
{
    Watched {
        wire: losing_wire(alloc),
        watch,
    }
}

/// A wire in memory with a gate.
pub type GateWire<C> = Watched<IndexWire, Gate<C>>;

/// A wire whose flag is not raised.
pub fn gate_of<C>(alloc: Global, clock: C, flags: Arc<AtomicU32>) -> GateWire<C>
    ensures { result.wire.flying ≡ None }
{
    let gate = Gate {
        clock,
        flags,
        raised: false,
        passed: false,
    };
    watched(alloc, gate)
}

/// Before the first request is sent it waits until three operations were put, and before the first
/// answer is received until four were.
#[derive(Drop)]
pub struct Ahead<C> {
    clock: C,
    puts: Arc<AtomicU32>,
    sent: bool,
    /// Whether the fourth was put before the first reply.
    pub passed: bool,
}

impl<C: Clock> Watch for Ahead<C> {
    fn before_send(&mut self, _number: u64) {
        if !self.sent {
            self.sent = true;
            let _ = wait_for(&self.clock, &self.puts, 3);
        }
    }

    fn before_receive(&mut self, _number: u64) {
        if !self.passed {
            self.passed = wait_for(&self.clock, &self.puts, 4);
        }
    }
}

/// A wire in memory that waits for what is put.
pub type AheadWire<C> = Watched<IndexWire, Ahead<C>>;

/// A wire that has sent nothing, and sees how many operations were put.
pub fn ahead_of<C>(alloc: Global, clock: C, puts: Arc<AtomicU32>) -> AheadWire<C>
    ensures { result.wire.flying ≡ None }
{
    let ahead = Ahead {
        clock,
        puts,
        sent: false,
        passed: false,
    };
    watched(alloc, ahead)
}
