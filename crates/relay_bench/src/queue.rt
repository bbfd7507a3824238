//! Messages through one queue, from several threads to one.
ghost use Rattle.std.specs.Prelude.{◌≡◌, ◌*◌, ◌<◌, ◌≤◌, ◌^◌, IfOk, IfSome, All};
ghost use Rattle.relay_queue.specs.Ends.{Queue};

use crate::fault::BenchFault;
use crate::rate::nanoseconds_since;
use relay_action::Body;
use relay_queue::{ClosedPut, LanePut, LaneTake, Taken, lane_queue};
use std::alloc::{AllocError, Global};
use std::snapshot::Snapshot;
use std::sync::Wait;
use std::thread;
use std::thread::{Promise, PromisedHandle, Threads};
use std::time::{Clock, Instant};

// A sender's thread promises that the closed end which it returns belongs to the queue of its end.
#[derive(Drop)]
struct SendPromise {
    put: Snapshot<LanePut>,
}

impl Promise<Option<ClosedPut>> for SendPromise {
    ghost kept_by = { λ p r. IfSome r (λ c. c.queue ≡ p.put.value.queue) };
}

type SendThread = PromisedHandle<Option<ClosedPut>, SendPromise>;

// Puts `count` messages, and closes.
fn send_all<R: Wait>(rt: &R, mut put: LanePut, count: u64) -> Option<ClosedPut>
    ensures { IfSome result (λ c. c.queue ≡ put.queue) }
{
    for sent in 0..count {
        if put.put(rt, Body::Tick).is_err() {
            return None;
        }
    }
    match put.close(rt) {
        Ok(closed) => Some(closed),
        Err(_) => None,
    }
}

// Starts a thread for each sender.
fn start_all<R: Threads + Wait + Copy + Send + 'static>(
    rt: R,
    alloc: Global,
    mut puts: Vec<LanePut>,
    count: u64,
) -> Result<Vec<SendThread>, AllocError>
    ensures { IfOk result (λ threads. (queue : Queue) → All (λ p. p.queue ≡ queue) puts.items
        → All (λ t. t.promise.put.value.queue ≡ queue) threads.items) }
{
    let mut threads = Vec::new(alloc);
    while let Some(put) = puts.pop() {
        let promise = SendPromise {
            put: Snapshot::of(&put),
        };
        let thread = thread::spawn_with(&rt, promise, move || send_all(&rt, put, count))?;
        threads.push(thread)?;
    }
    Ok(threads)
}

// Takes until each sender has closed, and returns whether each message was the next one of its
// sender.
fn take_all<R: Wait>(rt: &R, take: &mut LaneTake, next: &mut Vec<u64>) -> bool
    ensures { take.new.queue ≡ take.old.queue }
{
    let mut open = next.len();
    for _ in rt.forever() {
        if open == 0 {
            return true;
        }
        let Ok(mail) = take.take(rt) else {
            return false;
        };
        let Some(number) = next.get_mut(mail.sender as usize) else {
            return false;
        };
        if mail.number != *number {
            return false;
        }
        if matches!(&mail.body, Body::Done) {
            open = open.saturating_sub(1);
        }
        *number = number.saturating_add(1);
    }
    unreachable!()
}

// Joins each thread and meets its closed end, and returns whether all were met.
fn meet_all<R: Threads>(rt: &R, mut taken: Taken, mut threads: Vec<SendThread>) -> bool
    requires { All (λ t. t.promise.put.value.queue ≡ taken.queue) threads.items }
{
    while let Some(thread) = threads.pop() {
        let Some(closed) = thread.join(rt) else {
            return false;
        };
        taken = taken.meet(closed);
    }
    true
}

/// Puts `count` ticks from each sender's thread on one queue of `capacity` places, takes them and
/// each Done, and meets each closed end. Returns the time from the start of the first thread to the
/// last Done in nanoseconds, at most 10^18.
pub fn measure<R: Threads + Wait + Clock + Copy + Send + 'static>(
    rt: R,
    alloc: Global,
    senders: u32,
    capacity: u32,
    count: u64,
) -> Result<u64, BenchFault>
    requires senders { (0 < senders) × (senders ≤ 16) }
    requires capacity { (0 < capacity) × (capacity ≤ 65536) }
    ensures { IfOk result (λ n. n ≤ 10 ^ 18) }
{
    let (mut take, puts) = lane_queue(alloc, capacity, senders)?;
    let mut next = Vec::from_elem(alloc, 1u64, senders as usize)?;
    let start = Instant::now(&rt)?;
    let threads = start_all(rt, alloc, puts, count)?;
    let is_in_order = take_all(&rt, &mut take, &mut next);
    let nanoseconds = nanoseconds_since(&rt, start)?;
    let is_met = meet_all(&rt, take.end(), threads);
    if !is_in_order || !is_met {
        return Err(BenchFault::Disorder);
    }
    Ok(nanoseconds)
}
