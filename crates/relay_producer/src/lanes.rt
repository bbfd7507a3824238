//! A sender's ends of all lanes' queues.
ghost use Rattle.std.specs.Prelude.{◌≡◌, ◌≢◌, ◌+◌, ◌<◌, ◌≤◌, ◌^◌, []};
ghost use Rattle.std.specs.Prelude.{false, length, map, Some, IfOk, IfErr};
ghost use Rattle.std.specs.Prelude.{OnOk, OnErr, vec_len, vec_capacity};
ghost use Rattle.std.specs.List.{All, count_by, slice_get};
ghost use Rattle.relay_producer.specs.Ends.{open_end, with_mark, with_sent, change_at};
ghost use Rattle.relay_producer.specs.Ends.{open_puts, identities, is_gone};
ghost use Rattle.relay_producer.specs.Ends.{count_sent, IsSentToAll, ClosesAll};
ghost use Rattle.relay_producer.specs.Signals.{body_of};

use crate::ends::{ClosedEnd, OpenEnd};
use relay_action::{Body, Op};
use relay_queue::{LanePut, PutRefusal};
use std::alloc::{AllocError, Global};
use std::sync::Wait;

/// What the control sends to all lanes.
#[derive(Clone, Copy, Drop)]
pub(crate) enum Signal {
    /// A tick of the clock has passed.
    Tick,
    /// What is held is to be sent, whether or not the batch is full.
    Flush,
}

fn signal_body(signal: Signal) -> Body
    ensures value { result ≡ body_of signal }
    ensures not_done { result ≢ Body.Done }
{
    match signal {
        Signal::Tick => Body::Tick,
        Signal::Flush => Body::Flush,
    }
}

// The ends of lanes, none of which was found gone.
pub(crate) fn open_all(alloc: Global, puts: Vec<LanePut>) -> Result<Vec<OpenEnd>, AllocError>
    ensures { IfOk result (λ ends. ends.items ≡ map open_end puts.items) }
{
    let mut ends = Vec::with_capacity(alloc, puts.len())?;
    for put in puts {
        ends.push(OpenEnd { put, gone: false })?;
    }
    Ok(ends)
}

// Sends an operation to a lane that was not found gone, and marks the lane if it is found gone now.
// It waits while the queue is full. An error returns the operation.
pub(crate) fn send_op<R: Wait>(
    rt: &R,
    ends: &mut Vec<OpenEnd>,
    lane: usize,
    op: Op,
) -> Result<(), Op>
    requires lane { lane < vec_len ends.old }
    requires room { All (λ e. length e.put.sent < 2 ^ 40) ends.old.items }
    ensures sent { OnOk result
        (ends.new.items ≡ change_at lane (with_sent (Body.Put op)) ends.old.items) }
    ensures reached { OnOk result
        ((e : OpenEnd) → slice_get ends.old.items lane ≡ Some e → e.gone ≡ false) }
    ensures back { IfErr result (λ o. o ≡ op) }
    ensures gone { OnErr result (ends.new.items ≡ change_at lane with_mark ends.old.items) }
{
    match ends[lane].send(rt, Body::Put(op)) {
        Ok(()) => Ok(()),
        Err((PutRefusal::Gone, Body::Put(op))) => Err(op),
        Err(_) => unreachable!(),
    }
}

// Sends a signal to each lane that was not found gone and whose queue takes it without a wait, and
// returns the number of queues that took it.
pub(crate) fn send_to_all<R: Wait>(rt: &R, ends: &mut Vec<OpenEnd>, signal: Signal) -> u32
    requires { vec_len ends.old ≤ 8 }
    ensures sent { IsSentToAll (body_of signal) ends.old.items ends.new.items }
    ensures count { count_sent ends.old.items + result ≡ count_sent ends.new.items }
    ensures same { identities (open_puts ends.new.items) ≡ identities (open_puts ends.old.items) }
{
    let mut taken = 0u32;
    for lane in 0..ends.len() {
        if ends[lane].signal(rt, signal_body(signal)) {
            taken += 1;
        }
    }
    taken
}

// Sends Done to each lane that was not found gone, in order. There is room for all closed ends.
pub(crate) fn close_all<R: Wait>(
    rt: &R,
    ends: Vec<OpenEnd>,
    mut closed: Vec<ClosedEnd>,
) -> Vec<ClosedEnd>
    requires none { closed.items ≡ [] }
    requires room { vec_len ends ≤ vec_capacity closed }
    ensures { ClosesAll ends.items result.items }
{
    for end in ends {
        closed.push_reserved(end.close(rt));
    }
    closed
}

pub(crate) fn count_gone(ends: &[OpenEnd]) -> u32
    requires { length ends.now ≤ 8 }
    ensures { result ≡ count_by (λ e. e.gone) ends.now }
{
    let mut gone = 0u32;
    for end in ends {
        if end.gone {
            gone += 1;
        }
    }
    gone
}

pub(crate) fn count_closed_gone(ends: &[ClosedEnd]) -> u32
    requires { length ends.now ≤ 8 }
    ensures { result ≡ count_by is_gone ends.now }
{
    let mut gone = 0u32;
    for end in ends {
        match end {
            ClosedEnd::Closed(_) => {}
            ClosedEnd::Gone(_) => gone += 1,
        }
    }
    gone
}
