//! The queue of one document.
ghost use Rattle.std.specs.Prelude.{◌≡◌, ◌++◌, ◌∷◌, [], ◌<◌, Some, None, drop, slice_get, OnOk};
ghost use Rattle.std.specs.Prelude.{OnErr, IfErr, IfSome, IfNone, length, option_map};
ghost use Rattle.relay_held.specs.Operations.{launch_one, back_at, halved_at};
ghost use Rattle.relay_held.specs.Queues.{on_first, first_name};
ghost use Rattle.relay_held.specs.Shelf.{entry_at};

use crate::held::NotHeld;
use crate::kept::{Kept, Spot};
use relay_action::{OpName, Write};
use relay_delay::Entry;
use std::alloc::Global;
use std::collections::VecDeque;
use std::marker::Model;

/// The held operations of one document, at least one, in ascending order of version.
#[derive(Debug, Drop)]
pub struct Queue {
    head: Kept,
    behind: VecDeque<Kept>,
}

impl Model for Queue {
    ghost use Rattle.std.specs.Prelude.{List, ◌∷◌};
    ghost use Rattle.relay_held.specs.declared.kept.Kept.{Kept};

    ghost Value = { List Kept };

    ghost view = { λ q. q.head ∷ q.behind.items };
}

fn send_one(one: &mut Kept, clock: u64, number: u64, place: u64) -> Option<Write>
    ensures sent { one.new ≡ launch_one clock number place one.old }
    ensures write { result ≡ one.old.write }
{
    if one.sends == 0 {
        one.since = clock;
    }
    one.sends = one.sends.saturating_add(1);
    one.attempts = one.attempts.saturating_add(1);
    one.flies = Some(Spot {
        request: number,
        place,
    });
    one.write.take()
}

fn land_one(one: &mut Kept, due: u64, write: Write)
    ensures { one.new ≡ back_at due write one.old }
{
    one.flies = None;
    one.due = due;
    one.write = Some(write);
}

fn halve_one(one: &mut Kept, due: u64, cap: u32, write: Write)
    ensures { one.new ≡ halved_at due cap write one.old }
{
    one.flies = None;
    one.attempts = one.attempts.saturating_sub(1);
    one.cap = cap;
    one.due = due;
    one.write = Some(write);
}

impl Queue {
    /// A queue of one operation. It does not allocate.
    #[inline(always)]
    pub(crate) fn of(alloc: Global, one: Kept) -> Queue
        ensures { result ≡ one ∷ [] }
    {
        Queue {
            head: one,
            behind: VecDeque::new(alloc),
        }
    }

    /// Adds one operation at the end.
    #[inline(always)]
    pub(crate) fn push(&mut self, one: Kept) -> Result<(), NotHeld>
        ensures ok { OnOk result (self.new ≡ self.old ++ one ∷ []) }
        ensures err { OnErr result (self.new ≡ self.old) }
        ensures back { IfErr result (λ e. e.one ≡ one) }
    {
        match self.behind.push_back(one) {
            Ok(()) => Ok(()),
            Err(failed) => Err(NotHeld { one: failed.value }),
        }
    }

    /// The first operation.
    pub(crate) fn head(&self) -> &Kept
        ensures { self.now ≡ result.now ∷ drop 1 self.now }
    {
        &self.head
    }

    /// The entry of the first operation in the delay queue, if this queue has that slot.
    pub(crate) fn entry(&self, slot: usize) -> Entry
        ensures { Some result ≡ option_map (entry_at slot) (slice_get self.now 0) }
    {
        Entry {
            version: self.head.version,
            due: self.head.due,
            slot,
        }
    }

    /// Sends the first operation at this clock, and takes its write out.
    pub(crate) fn launch(&mut self, clock: u64, number: u64, place: u64) -> Option<Write>
        ensures sent { self.new ≡ on_first (launch_one clock number place) self.old }
        ensures write { IfSome (slice_get self.old 0) (λ h. result ≡ h.write) }
    {
        send_one(&mut self.head, clock, number, place)
    }

    /// Lets the first operation wait again.
    pub(crate) fn land(&mut self, due: u64, write: Write)
        ensures { self.new ≡ on_first (back_at due write) self.old }
    {
        land_one(&mut self.head, due, write);
    }

    /// Lets the first operation wait again under this cap, and gives its attempt back.
    pub(crate) fn halve(&mut self, due: u64, cap: u32, write: Write)
        ensures { self.new ≡ on_first (halved_at due cap write) self.old }
    {
        halve_one(&mut self.head, due, cap, write);
    }

    /// Drops the first operation, unless it is the only one, and returns its name.
    pub(crate) fn next(&mut self) -> Option<OpName>
        ensures name { IfSome result (λ name. Some name ≡ first_name self.old) }
        ensures rest { IfSome result (λ _. self.new ≡ drop 1 self.old) }
        ensures left { 0 < length self.new }
        ensures none { IfNone result (drop 1 self.old ≡ []) }
        ensures unchanged { IfNone result (self.new ≡ self.old) }
    {
        let second = self.behind.pop_front()?;
        let name = self.head.name;
        self.head = second;
        Some(name)
    }
}
