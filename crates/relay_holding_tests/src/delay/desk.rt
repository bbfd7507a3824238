//! A delay queue whose versions increase one by one, and one operation that was taken out of it.
ghost use Rattle.std.specs.Prelude.{◌≡◌, ◌<◌, true, length};
ghost use Rattle.relay_holding_tests.specs.DelayDesk.{AllUnder, AllUnder-prop, IsApart, IsApart-prop};

use relay_delay::{DelayQueue, Entry};
use std::alloc::Global;

/// The waiting operations, all below the next version, and the one that was taken out.
#[derive(Drop)]
pub struct Desk {
    pub queue: DelayQueue,
    pub next: u64,
    pub out: Option<Entry>,
    ghost under: { AllUnder next queue.entries } by { AllUnder-prop next queue.entries },
    ghost apart: { IsApart next out queue.entries } by { IsApart-prop next out queue.entries },
}

/// No operation waits, and none is out.
pub fn empty_desk(alloc: Global) -> Desk {
    Desk {
        queue: DelayQueue::new(alloc),
        next: 1,
        out: None,
    }
}

// Makes room for one more. If an allocation fails, what waits is unchanged, and it tries once more.
fn reserve_one(queue: &mut DelayQueue) -> bool
    ensures room { result ≡ true → length queue.new.entries < queue.new.room }
    ensures entries { queue.new.entries ≡ queue.old.entries }
{
    let len = queue.len();
    if len > 1_000 {
        return false;
    }
    let due_in = queue.due_in();
    if queue.reserve(len + 1).is_ok() {
        return true;
    }
    queue.len() == len && queue.due_in() == due_in && queue.reserve(len + 1).is_ok()
}

/// Adds an operation with the next version. `None`: it was not added.
pub fn push(desk: &mut Desk, due: u64, slot: usize) -> Option<Entry> {
    if desk.next == u64::MAX || !reserve_one(&mut desk.queue) {
        return None;
    }
    let one = Entry {
        version: desk.next,
        due,
        slot,
    };
    desk.next += 1;
    desk.queue.insert(one);
    Some(one)
}

/// Takes out the first operation that is due, unless one is already out. Returns whether none was.
pub fn take(desk: &mut Desk) -> bool {
    if desk.out.is_some() {
        return false;
    }
    desk.out = desk.queue.take_due();
    true
}

/// Puts back the operation that is out. `None`: none is.
pub fn put_back(desk: &mut Desk, due: u64) -> Option<Entry> {
    let Some(one) = desk.out else {
        return None;
    };
    if !reserve_one(&mut desk.queue) {
        return None;
    }
    let one = Entry { due, ..one };
    desk.out = None;
    desk.queue.insert(one);
    Some(one)
}

/// Advances the clock by this many ticks.
pub fn wait(desk: &mut Desk, ticks: u64) {
    let clock = desk.queue.clock().saturating_add(ticks);
    desk.queue.tick(clock);
}

/// The version of an operation, or 0 if there is none.
pub fn version_of(one: Option<Entry>) -> u64 {
    match one {
        Some(one) => one.version,
        None => 0,
    }
}

/// The version of the operation that is due at a place, or 0 if there is none.
pub fn due_at(desk: &mut Desk, at: usize) -> u64 {
    version_of(desk.queue.due_at(at))
}
