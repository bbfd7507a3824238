//! A lane's thread, and the threads of its senders.
ghost use Rattle.std.specs.Prelude.{◌≢◌, IfSome};

use crate::operations::{AtOnce, action_of, is_whole, key_of, losing_wire};
use crate::relays::CONFIG;
use relay_action::{Body, Op};
use relay_fixtures::index_wire::IndexWire;
use relay_lane::Lane;
use relay_queue::{LanePut, lane_queue};
use relay_threads::{LaneEnd, LaneEndKind, TellNobody, run_lane};
use std::alloc::{AllocError, Global};
use std::sync::Wait;
use std::thread::Threads;
use std::{mem, thread};

// An operation as a message.
fn body_of(alloc: Global, producer: u32, number: u64) -> Option<Body>
    ensures { IfSome result (λ b. b ≢ Body.Done) }
{
    Some(Body::Put(Op {
        epoch: 0,
        producer,
        number,
        key: key_of(alloc, producer, number)?,
        action: action_of(alloc, number)?,
    }))
}

// Puts operations, and returns whether all were put.
fn put_all<R: Wait>(rt: &R, alloc: Global, put: &mut LanePut, sender: u32, count: u64) -> bool {
    for sent in 0..count {
        let Some(body) = body_of(alloc, sender, sent.saturating_add(1)) else {
            return false;
        };
        if put.put(rt, body).is_err() {
            return false;
        }
    }
    true
}

// Puts operations, closes if wanted, and returns whether all went well.
fn send_all<R: Wait>(
    rt: &R,
    alloc: Global,
    mut put: LanePut,
    sender: u32,
    count: u64,
    closes: bool,
) -> bool {
    let all = put_all(rt, alloc, &mut put, sender, count);
    if !all || !closes {
        return all;
    }
    put.close(rt).is_ok()
}

// A thread for each sender: the producers put operations, and the control none.
fn start_senders<R: Threads + Wait + Copy + Send + 'static>(
    rt: R,
    alloc: Global,
    mut puts: Vec<LanePut>,
    count: u64,
    close: bool,
) -> Result<(), AllocError> {
    while let Some(put) = puts.pop() {
        let sender = u32::try_from(puts.len()).unwrap_or(0);
        let own = if sender < CONFIG.producers { count } else { 0 };
        let _ = thread::spawn(&rt, move || send_all(&rt, alloc, put, sender, own, close))?;
    }
    Ok(())
}

/// Runs a lane, with its senders in threads.
pub fn run<R: Threads + Wait + Copy + Send + 'static>(
    rt: R,
    alloc: Global,
    count: u64,
    close: bool,
) -> Result<LaneEnd<IndexWire>, AllocError> {
    let (take, puts) = lane_queue(alloc, CONFIG.capacity, CONFIG.producers + 1)?;
    let lane = Lane::new(alloc, CONFIG)?;
    if start_senders(rt, alloc, puts, count, close).is_err() {
        mem::forget(lane);
        return Err(AllocError);
    }
    Ok(run_lane(&rt, take, lane, losing_wire(alloc), AtOnce, &mut TellNobody))
}

// Whether a lane took 200 operations, applied them all, lost a reply, and knows how many requests its wire sent.
fn all_applied(end: &LaneEnd<IndexWire>) -> bool {
    let totals = end.lane.totals();
    totals.taken == 200
        && totals.already > 0
        && totals.applied.saturating_add(totals.already) == 200
        && totals.requests == end.wire.sends
        && end.lane.reports().is_empty()
}

#[test]
fn all_are_delivered(rt: HostRuntime) {
    let end = run(rt, rt.alloc(), 100, true).expect(&rt, "a run");
    let totals = end.lane.totals();
    assert!(rt;
        end.kind == LaneEndKind::Finished && all_applied(&end),
        "{totals:?}"
    );
    assert!(rt; is_whole(rt.alloc(), &end.wire.index) == Some(true));
    mem::forget(end);
}

#[test]
fn senders_that_do_not_close(rt: HostRuntime) {
    let end = run(rt, rt.alloc(), 3, false).expect(&rt, "a run");
    assert!(rt; end.kind == LaneEndKind::Gone && end.lane.totals().taken == 6);
    mem::forget(end);
}
