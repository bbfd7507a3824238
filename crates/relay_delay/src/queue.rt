//! The delay queue.
ghost use Rattle.std.specs.Prelude.{◌≡◌, ◌+◌, ◌<◌, ◌≤◌, ◌++◌, [], false, length, slice_get};
ghost use Rattle.std.specs.Prelude.{OnOk, OnErr, MatchOption};
ghost use Rattle.std.specs.VecDeque.{deque_capacity};
ghost use Rattle.relay_delay.specs.Waiting.{insert, without, has_version, due_entries, due_in};
ghost use Rattle.relay_delay.specs.Waiting.{Rises};
ghost use Rattle.relay_delay.specs.Heaps.{insert_all, AllDue, NoneDue, IsMoving};

use crate::entry::Entry;
use crate::later::Later;
use crate::line::reaches;
use crate::ready::Ready;
use std::alloc::{AllocError, Global};
use std::collections::VecDeque;
use std::marker::Model;

/// Waiting operations, each with its own version, and the clock. Contracts see them in ascending
/// order of version.
#[derive(Debug, Drop)]
pub struct DelayQueue {
    clock: u64,
    room: usize,
    /// The first due operations, in ascending order of version, all below those in `ready`. It has
    /// room for all that wait.
    front: VecDeque<Entry>,
    /// The other due operations.
    ready: Ready,
    /// The operations that are not due.
    later: Later,
}

impl Model for DelayQueue {
    ghost use Rattle.std.specs.Prelude.{◌++◌, ◌≤◌};
    ghost use Rattle.std.specs.VecDeque.{deque_capacity};
    ghost use Rattle.relay_delay.specs.Waiting.{Delays};
    ghost use Rattle.relay_delay.specs.Heaps.{insert_all, IsDelayed};

    ghost Value = { Delays };

    ghost view = { λ d. record {
      clock = d.clock;
      room = d.room;
      entries = insert_all d.later.entries
          (d.front.items ++ d.ready.entries);
    } };

    ghost invariant = { λ d. record {
      delayed : IsDelayed d.clock d.room d.front.items d.ready d.later;
      front_room : d.room ≤ deque_capacity d.front;
    } };
}

// Moves the last operation in front back to the other due ones.
fn give_back(front: &mut VecDeque<Entry>, ready: &mut Ready)
    requires some { 0 < length front.old.items }
    requires rises { Rises (front.old.items ++ ready.old.entries) }
    requires room { length front.old.items + length ready.old.entries ≤ ready.old.room }
    ensures kept { front.new.items ++ ready.new.entries ≡ front.old.items ++ ready.old.entries }
    ensures shorter { length front.new.items + 1 ≡ length front.old.items }
    ensures capacity { deque_capacity front.new ≡ deque_capacity front.old }
    ensures room { ready.old.room ≤ ready.new.room }
{
    if let Some(last) = front.pop_back() {
        ready.push(last);
    }
}

// Adds a due operation. Those in front with higher versions go back first.
fn add(front: &mut VecDeque<Entry>, ready: &mut Ready, one: Entry)
    requires rises { Rises (front.old.items ++ ready.old.entries) }
    requires fresh { has_version one.version (front.old.items ++ ready.old.entries) ≡ false }
    requires room { length front.old.items + length ready.old.entries < ready.old.room }
    ensures added { front.new.items ++ ready.new.entries
        ≡ insert one (front.old.items ++ ready.old.entries) }
    ensures capacity { deque_capacity front.new ≡ deque_capacity front.old }
    ensures room { ready.old.room ≤ ready.new.room }
{
    'back: while reaches(front, one.version) {
        give_back(front, ready);
    }
    ready.push(one);
}

// Moves the first of the other due operations to the front, which has room for it.
fn bring(front: &mut VecDeque<Entry>, ready: &mut Ready)
    requires some { 0 < length ready.old.entries }
    requires room { length front.old.items < deque_capacity front.old }
    ensures kept { front.new.items ++ ready.new.entries ≡ front.old.items ++ ready.old.entries }
    ensures longer { length front.new.items ≡ length front.old.items + 1 }
    ensures capacity { deque_capacity front.new ≡ deque_capacity front.old }
    ensures room { ready.new.room ≡ ready.old.room }
{
    if let Some(first) = ready.pop() {
        front.push_back_reserved(first);
    }
}

// Moves due operations to the front, which has room for them, until it has `count`.
fn bring_all(front: &mut VecDeque<Entry>, ready: &mut Ready, count: usize)
    requires enough { count ≤ length front.old.items + length ready.old.entries }
    requires room { count ≤ deque_capacity front.old }
    ensures count { count ≤ length front.new.items }
    ensures kept { front.new.items ++ ready.new.entries ≡ front.old.items ++ ready.old.entries }
    ensures capacity { deque_capacity front.new ≡ deque_capacity front.old }
    ensures room { ready.new.room ≡ ready.old.room }
{
    'front: while front.len() < count {
        bring(front, ready);
    }
}

// The operation at a place in front.
fn place(front: &VecDeque<Entry>, at: usize) -> Option<Entry>
    ensures { result ≡ slice_get front.now.items at }
{
    front.get(at).copied()
}

// Moves the operations that are due at this tick to the other due ones.
fn come_due(front: &mut VecDeque<Entry>, ready: &mut Ready, later: &mut Later, clock: u64)
    requires { IsMoving clock front.old.items ready.old later.old }
    ensures same { insert_all later.new.entries (front.new.items ++ ready.new.entries)
        ≡ insert_all later.old.entries (front.old.items ++ ready.old.entries) }
    ensures due { AllDue clock (front.new.items ++ ready.new.entries) }
    ensures none { NoneDue clock later.new.entries }
    ensures capacity { deque_capacity front.new ≡ deque_capacity front.old }
    ensures ready_room { ready.old.room ≤ ready.new.room }
    ensures later_room { later.new.room ≡ later.old.room }
{
    'due: while let Some(one) = later.pop_due(clock) {
        add(front, ready, one);
    }
}

impl DelayQueue {
    /// An empty queue, with the clock at 0. It does not allocate.
    pub fn new(alloc: Global) -> DelayQueue
        ensures { result ≡ record { clock = 0; room = 0; entries = [] } }
    {
        DelayQueue {
            clock: 0,
            room: 0,
            front: VecDeque::new(alloc),
            ready: Ready::new(alloc),
            later: Later::new(alloc),
        }
    }

    /// The clock, in ticks.
    pub fn clock(&self) -> u64
        ensures { result ≡ self.now.clock }
    {
        self.clock
    }

    /// The number of waiting operations: no more than there is room for, and no two with the same
    /// version.
    pub fn len(&self) -> usize
        ensures len { result ≡ length self.now.entries }
        ensures room { length self.now.entries ≤ self.now.room }
        ensures rises { Rises self.now.entries }
    {
        self.front.len() + self.ready.len() + self.later.len()
    }

    fn count_due(&self) -> usize
        ensures { result ≡ length (due_entries self.now) }
    {
        self.front.len() + self.ready.len()
    }

    /// Makes room for `count` operations in all. The room at least doubles, so growing by one at a
    /// time is cheap. `AllocError`: an allocation failed, and the waiting operations are unchanged.
    pub fn reserve(&mut self, count: usize) -> Result<(), AllocError>
        ensures ok { OnOk result (count ≤ self.new.room) }
        ensures err { OnErr result (self.old.room < count) }
        ensures grows { self.old.room ≤ self.new.room }
        ensures clock { self.new.clock ≡ self.old.clock }
        ensures entries { self.new.entries ≡ self.old.entries }
    {
        if count <= self.room {
            return Ok(());
        }
        self.ready.reserve(count)?;
        self.later.reserve(count)?;
        let room = self.ready.room().min(self.later.room());
        self.front.reserve(room.saturating_sub(self.front.len()))?;
        self.room = room;
        Ok(())
    }

    /// Adds an operation. There must be room for it, and no other may have its version. It does not
    /// allocate.
    pub fn insert(&mut self, one: Entry)
        requires room { length self.old.entries < self.old.room }
        requires fresh { has_version one.version self.old.entries ≡ false }
        ensures { self.new ≡ record self.old { entries = insert one self.old.entries } }
    {
        if self.clock < one.due {
            self.later.push(one);
        } else {
            add(&mut self.front, &mut self.ready, one);
        }
    }

    /// The due operation at a place, where 0 is the lowest version, or `None` if fewer are due. It
    /// brings all up to that place to the front, so ask for 0, 1, 2, .. in turn: each place then
    /// costs O(log n) once and O(1) after that. It does not allocate.
    pub fn due_at(&mut self, at: usize) -> Option<Entry>
        ensures found { result ≡ slice_get (due_entries self.old) at }
        ensures unchanged { self.new ≡ self.old }
    {
        if at >= self.count_due() {
            return None;
        }
        bring_all(&mut self.front, &mut self.ready, at + 1);
        place(&self.front, at)
    }

    /// Removes the due operation with the lowest version, if one is due. It does not allocate.
    pub fn take_due(&mut self) -> Option<Entry>
        ensures first { result ≡ slice_get (due_entries self.old) 0 }
        ensures left { MatchOption result (self.new ≡ self.old)
            (λ e. self.new ≡ record self.old { entries = without e.version self.old.entries }) }
    {
        match self.front.pop_front() {
            Some(one) => Some(one),
            None => self.ready.pop(),
        }
    }

    /// Sets the clock, which must not go back. It does not allocate.
    pub fn tick(&mut self, clock: u64)
        requires { self.old.clock ≤ clock }
        ensures { self.new ≡ record self.old { clock = clock } }
    {
        self.clock = clock;
        come_due(&mut self.front, &mut self.ready, &mut self.later, clock);
    }

    /// The number of ticks until an operation is due: 0 if one is due now, `None` if none waits.
    pub fn due_in(&self) -> Option<u64>
        ensures { result ≡ due_in self.now }
    {
        if self.count_due() > 0 {
            return Some(0);
        }
        let due = self.later.first_due()?;
        Some(due - self.clock)
    }
}
