//! What a lane tells while it works until nothing is held.
ghost use Rattle.std.specs.Prelude.{◌≡◌, ◌≢◌, ◌+◌, [], None};

use crate::operations::{AtOnce, action_of, key_of};
use crate::relays::CONFIG;
use crate::told::{Sums, new_sums};
use relay_action::{Body, Op};
use relay_fixtures::index_wire::{IndexWire, Way, wire_of};
use relay_fixtures::watched::{Watch, Watched};
use relay_lane::{Lane, RelayConfig};
use relay_queue::{LanePut, LaneTake, lane_queue};
use relay_threads::{LaneEndKind, run_lane};
use std::alloc::Global;
use std::mem;
use std::process::Abort;
use std::sync::atomic::Ordering;
use std::sync::{Arc, Wait};

// A queue with room for all that is put before the lane starts.
const ALL_AT_ONCE: RelayConfig = RelayConfig {
    capacity: 16,
    ..CONFIG
};

/// Before an answer is waited for it compares what was told until then: each request carries one
/// operation, so all before this one.
#[derive(Drop)]
struct Comparing {
    sums: Arc<Sums>,
    /// How many answers were waited for.
    answers: u64,
    /// Whether less was told before one of them.
    late: bool,
}

impl Watch for Comparing {
    fn before_send(&mut self, _number: u64) {}

    fn before_receive(&mut self, number: u64) {
        self.answers = self.answers.saturating_add(1);
        let told = self.sums.successes.load(Ordering::SeqCst);
        if told.saturating_add(1) != number {
            self.late = true;
        }
    }
}

// An index that runs each request, whose answers are compared with what was told.
fn comparing_wire(alloc: Global, sums: Arc<Sums>) -> Watched<IndexWire, Comparing>
    ensures { result.wire.flying ≡ None }
{
    Watched {
        wire: wire_of(alloc, Way::Runs),
        watch: Comparing {
            sums,
            answers: 0,
            late: false,
        },
    }
}

// An operation on the only document.
fn body_of(rt: &(impl Abort + AllocGlobal), number: u64) -> Body
    ensures { result ≢ Body.Done }
{
    Body::Put(Op {
        epoch: 0,
        producer: 0,
        number,
        key: key_of(rt.alloc(), 0, 1).expect(rt, "a key"),
        action: action_of(rt.alloc(), number).expect(rt, "an action"),
    })
}

// Puts three operations.
fn put_three<R: Wait + Abort + AllocGlobal>(rt: &R, put: &mut LanePut) {
    for number in 1..4u64 {
        put.put(rt, body_of(rt, number)).expect(rt, "a put");
    }
}

// The first sender puts three operations, and all close.
fn put_and_close<R: Wait + Abort + AllocGlobal>(rt: &R, mut puts: Vec<LanePut>) {
    while let Some(mut put) = puts.pop() {
        if puts.is_empty() {
            put_three(rt, &mut put);
        }
        assert!(rt; put.close(rt).is_ok());
    }
}

// How many answers a lane waited for that heard everything before it sent anything, and whether it
// told late of what had ended before one of them.
fn drained<R: Wait + Abort + AllocGlobal>(rt: &R, take: LaneTake) -> (u64, bool)
    requires senders { take.senders ≡ ALL_AT_ONCE.producers + 1 }
    requires none_taken { take.taken ≡ [] }
{
    let (sums, mut tell) = new_sums(rt.alloc()).expect(rt, "memory");
    let lane = Lane::new(rt.alloc(), ALL_AT_ONCE).expect(rt, "memory");
    let wire = comparing_wire(rt.alloc(), sums);
    let end = run_lane(rt, take, lane, wire, AtOnce, &mut tell);
    assert!(rt; end.kind == LaneEndKind::Finished);
    let told = (end.wire.watch.answers, end.wire.watch.late);
    mem::forget(end);
    told
}

// Three operations of one document are sent one after another. The lane has heard that all have
// closed before it waits for the first answer, so it drains from then on.
#[test]
fn each_turn_is_told(rt: HostRuntime) {
    let (take, puts) = lane_queue(
        rt.alloc(),
        ALL_AT_ONCE.capacity,
        ALL_AT_ONCE.producers + 1,
    ).expect(&rt, "memory");
    put_and_close(&rt, puts);
    let told = drained(&rt, take);
    assert!(rt; told == (3, false), "{told:?}");
}
