//! What a lane holds.
ghost use Rattle.std.specs.Prelude.{◌≡◌, ◌-◌, ◌<◌, ◌≤◌, ◌^◌, ◌++◌, ◌∷◌, [], Some, None, false};
ghost use Rattle.std.specs.Prelude.{filter, length, slice_get, option_map, OnOk, OnErr, IfErr};
ghost use Rattle.std.specs.Prelude.{IfSome};
ghost use Rattle.std.specs.Option.{option_copied};
ghost use Rattle.relay_action.specs.declared.key.DocKey.{DocKey};
ghost use Rattle.relay_delay.specs.Waiting.{has_version};
ghost use Rattle.relay_held.specs.declared.kept.Kept.{Kept};
ghost use Rattle.relay_held.specs.Shelf.{with_entry};
ghost use Rattle.relay_held.specs.Operations.{waits_here, launch_one, back_at, halved_at};
ghost use Rattle.relay_held.specs.Operations.{candidate_of};
ghost use Rattle.relay_held.specs.Queues.{AllUnder, first_of, name_in, with_first, without_first};
ghost use Rattle.relay_held.specs.Queues.{candidates_kept, first_due_kept, is_eligible_kept, Rises};
ghost use Rattle.relay_held.specs.Queues.{OnlyFirstsFly, documents, distinct, later, looked};

use crate::documents::{Documents, Taken};
use crate::kept::{Candidate, Kept};
use relay_action::{DocKey, OpName, Write};
use relay_delay::{DelayQueue, Entry};
use std::alloc::Global;
use std::marker::Model;

/// An allocation failed; the operation is returned.
#[derive(Debug, Drop)]
pub struct NotHeld {
    /// The operation.
    pub one: Kept,
}

/// What is held, and the clock. Contracts see what is held as a list in ascending order of version.
#[derive(Debug, Drop)]
pub struct Held {
    documents: Documents,
    /// The first operation of each document, if it waits.
    waiting: DelayQueue,
    count: usize,
    /// How many operations `candidate` has returned.
    looks: u64,
}

impl Model for Held {
    ghost use Rattle.relay_held.specs.Queues.{Holding, merge_of};
    ghost use Rattle.relay_held.specs.Shelf.{IsHeld};

    ghost Value = { Holding };

    ghost view = { λ h. record
        { list = merge_of h.documents.queues; clock = h.waiting.clock; looks = h.looks } };

    ghost invariant = { λ h. IsHeld h.documents h.count h.waiting };
}

// Lets the first operation of a document wait, if there is one. There is room for it.
fn wait(waiting: &mut DelayQueue, entry: Option<Entry>)
    requires { IfSome entry (λ e. (length waiting.old.entries < waiting.old.room)
        × (has_version e.version waiting.old.entries ≡ false)) }
    ensures { waiting.new ≡ record waiting.old { entries = with_entry entry waiting.old.entries } }
{
    if let Some(one) = entry {
        waiting.insert(one);
    }
}

impl Held {
    /// Nothing held, with the clock and the looks at 0. It does not allocate.
    pub fn new(alloc: Global) -> Held
        ensures { result ≡ record { list = []; clock = 0; looks = 0 } }
    {
        Held {
            documents: Documents::new(alloc),
            waiting: DelayQueue::new(alloc),
            count: 0,
            looks: 0,
        }
    }

    /// The clock, in ticks.
    pub fn clock(&self) -> u64
        ensures { result ≡ self.now.clock }
    {
        self.waiting.clock()
    }

    /// A tick of the clock passes. The clock saturates at `u64::MAX`.
    pub fn tick(&mut self)
        ensures { self.new ≡ record self.old { clock = later self.old.clock } }
    {
        self.waiting.tick(self.waiting.clock().saturating_add(1));
    }

    /// How many operations were looked at, to see whether they may be sent: each time that
    /// [`Held::candidate`] returned one. The count saturates at `u64::MAX`.
    pub fn looks(&self) -> u64
        ensures { result ≡ self.now.looks }
    {
        self.looks
    }

    /// The number of operations held.
    pub fn len(&self) -> usize
        ensures len { result ≡ length self.now.list }
        ensures behind { OnlyFirstsFly self.now.list }
    {
        self.count
    }

    /// The number of documents with held operations.
    pub fn documents(&self) -> usize
        ensures documents { result ≡ distinct (documents self.now.list) }
        ensures few { length (candidates_kept self.now.list self.now.clock) ≤ result }
    {
        self.documents.len()
    }

    /// The first operation of a document, if one is held.
    pub fn first(&self, key: &DocKey) -> Option<&Kept>
        ensures first { option_copied result ≡ first_of key.now self.now.list }
        ensures rises { Rises self.now.list }
        ensures behind { OnlyFirstsFly self.now.list }
    {
        self.documents.first(key)
    }

    /// Holds one more operation, whose version must be above all others. If an allocation fails,
    /// the operation is returned and nothing has changed.
    // Not inlined, this and what it calls would move an operation several times.
    #[inline(always)]
    pub fn push(&mut self, one: Kept) -> Result<(), NotHeld>
        requires above { AllUnder one.version self.old.list }
        requires waits { one.flies ≡ None }
        requires few { length self.old.list < 2 ^ 32 }
        ensures ok { OnOk result (self.new.list ≡ self.old.list ++ one ∷ []) }
        ensures clock { self.new.clock ≡ self.old.clock }
        ensures looks { self.new.looks ≡ self.old.looks }
        ensures unchanged { OnErr result (self.new ≡ self.old) }
        ensures back { IfErr result (λ e. e.one ≡ one) }
    {
        if self.waiting.reserve(self.documents.len() + 1).is_err() {
            return Err(NotHeld { one });
        }
        let entry = self.documents.push(one)?;
        wait(&mut self.waiting, entry);
        self.count += 1;
        Ok(())
    }

    /// The operation at a place of those that may be sent, in ascending order of version: each is
    /// the first of its document, waits and is due. If there is one, this is one more look; nothing
    /// else that contracts see changes. Ask for 0, 1, 2, .. in turn. It does not allocate.
    pub fn candidate(&mut self, at: usize) -> Option<Candidate>
        ensures found { result ≡ option_map candidate_of
            (slice_get (candidates_kept self.old.list self.old.clock) at) }
        ensures rises { Rises self.old.list }
        ensures same { self.new ≡ record self.old { looks = looked result self.old.looks } }
    {
        let entry = self.waiting.due_at(at)?;
        self.looks = self.looks.saturating_add(1);
        self.documents.candidate(entry.slot)
    }

    /// Sends the first operation that may be sent, and takes its write out. If it is sent for the first
    /// time, the clock is noted with it.
    pub fn launch(&mut self, number: u64, place: u64) -> Option<Write>
        requires some { 0 < length (candidates_kept self.old.list self.old.clock) }
        ensures list { (h : Kept)
            → slice_get (candidates_kept self.old.list self.old.clock) 0 ≡ Some h
            → self.new.list ≡ with_first h.key (launch_one self.old.clock number place) self.old.list }
        ensures write { (h : Kept)
            → slice_get (candidates_kept self.old.list self.old.clock) 0 ≡ Some h
            → result ≡ h.write }
        ensures clock { self.new.clock ≡ self.old.clock }
        ensures looks { self.new.looks ≡ self.old.looks }
    {
        let now = self.waiting.clock();
        match self.waiting.take_due() {
            Some(entry) => self.documents.launch(entry.slot, now, number, place),
            None => unreachable!(),
        }
    }

    /// Lets the first operation of a write's document wait again; it must be in flight if one is
    /// held. It does not allocate.
    pub fn land(&mut self, due: u64, write: Write)
        requires flies { (h : Kept) → first_of write.key self.old.list ≡ Some h
            → waits_here h.flies ≡ false }
        ensures list { self.new.list ≡ with_first write.key (back_at due write) self.old.list }
        ensures clock { self.new.clock ≡ self.old.clock }
        ensures looks { self.new.looks ≡ self.old.looks }
    {
        let entry = self.documents.land(due, write);
        wait(&mut self.waiting, entry);
    }

    /// Lets the first operation of a write's document wait again under this cap, and gives its
    /// attempt back; it must be in flight if one is held. It does not allocate.
    pub fn halve(&mut self, due: u64, cap: u32, write: Write)
        requires flies { (h : Kept) → first_of write.key self.old.list ≡ Some h
            → waits_here h.flies ≡ false }
        ensures list { self.new.list
            ≡ with_first write.key (halved_at due cap write) self.old.list }
        ensures clock { self.new.clock ≡ self.old.clock }
        ensures looks { self.new.looks ≡ self.old.looks }
    {
        let entry = self.documents.halve(due, cap, write);
        wait(&mut self.waiting, entry);
    }

    /// Takes out the first operation of a document, which must be in flight if one is held, and
    /// returns its name. It does not allocate.
    pub fn take(&mut self, key: &DocKey) -> Option<OpName>
        requires flies { (h : Kept) → first_of key.now self.old.list ≡ Some h
            → waits_here h.flies ≡ false }
        ensures list { self.new.list ≡ without_first key.now self.old.list }
        ensures name { result ≡ name_in (first_of key.now self.old.list) }
        ensures clock { self.new.clock ≡ self.old.clock }
        ensures looks { self.new.looks ≡ self.old.looks }
    {
        let Taken { name, next } = self.documents.take(key)?;
        wait(&mut self.waiting, next);
        self.count -= 1;
        Some(name)
    }

    /// The number of ticks until an operation is due, among those that wait and are the first of
    /// their document: 0 if one is due now, `None` if there are none.
    pub fn due_in(&self) -> Option<u64>
        ensures { result ≡ option_map (λ due. due - self.now.clock)
            (first_due_kept (filter (is_eligible_kept self.now.list) self.now.list)) }
    {
        self.waiting.due_in()
    }
}
