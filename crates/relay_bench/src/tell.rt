//! Endings told to one producer by several lanes.
ghost use Rattle.std.specs.Prelude.{◌<◌, ◌≤◌, ◌^◌, IfOk};

use crate::fault::BenchFault;
use crate::rate::nanoseconds_since;
use relay_receipts::{LaneTell, Notice, ReceiptTake, receipts};
use std::alloc::{AllocError, Global};
use std::sync::Wait;
use std::thread;
use std::thread::{JoinHandle, Threads};
use std::time::{Clock, Instant};

// Tells `count` endings, and closes. Returns whether the producer was there.
fn tell_all<R: Wait>(rt: &R, mut tell: LaneTell<u64>, count: u64) -> bool {
    for number in 0..count {
        if tell.tell(rt, number).is_err() {
            return false;
        }
    }
    tell.close(rt).is_ok()
}

// Starts a thread for each lane.
fn start_all<R: Threads + Wait + Copy + Send + 'static>(
    rt: R,
    alloc: Global,
    tells: Vec<LaneTell<u64>>,
    count: u64,
) -> Result<Vec<JoinHandle<bool>>, AllocError> {
    let mut threads = Vec::new(alloc);
    for tell in tells {
        threads.reserve(1)?;
        threads.push_reserved(thread::spawn(&rt, move || tell_all(&rt, tell, count))?);
    }
    Ok(threads)
}

// Takes until each lane has closed, and returns whether each ending was the next one of its lane.
fn take_all<R: Wait>(rt: &R, take: &mut ReceiptTake<u64>, next: &mut Vec<u64>) -> bool {
    let mut open = next.len();
    for _ in rt.forever() {
        if open == 0 {
            return true;
        }
        let Ok(Notice { lane, told }) = take.take(rt) else {
            return false;
        };
        let Some(number) = next.get_mut(lane as usize) else {
            return false;
        };
        match told {
            Some(ending) if ending == *number => *number = number.saturating_add(1),
            Some(_) => return false,
            None => open = open.saturating_sub(1),
        }
    }
    unreachable!()
}

/// Tells `count` endings from each lane's thread to one producer, on a channel of `places` places,
/// and takes them. Returns the time from the start of the first thread to the last notice in
/// nanoseconds, at most 10^18.
pub fn measure<R: Threads + Wait + Clock + Copy + Send + 'static>(
    rt: R,
    alloc: Global,
    lanes: u32,
    places: u32,
    count: u64,
) -> Result<u64, BenchFault>
    requires { 0 < places }
    ensures { IfOk result (λ n. n ≤ 10 ^ 18) }
{
    let (mut take, tells) = receipts(alloc, places, lanes)?;
    let mut next = Vec::from_elem(alloc, 0u64, lanes as usize)?;
    let start = Instant::now(&rt)?;
    let threads = start_all(rt, alloc, tells, count)?;
    let is_in_order = take_all(&rt, &mut take, &mut next);
    let nanoseconds = nanoseconds_since(&rt, start)?;
    let mut all_told = is_in_order;
    for thread in threads {
        all_told = thread.join(&rt) && all_told;
    }
    if !all_told {
        return Err(BenchFault::Disorder);
    }
    Ok(nanoseconds)
}
