//! Operations that are not due yet, the soonest first.
ghost use Rattle.std.specs.Prelude.{◌≡◌, ◌<◌, ◌≤◌, [], true, false, Some, length, nat_eq, refl};
ghost use Rattle.std.specs.Prelude.{OnOk, OnErr, MatchOption};
ghost use Rattle.std.proofs.Common.{rules};
ghost use Rattle.std.specs.Cmp.{partial_order_from_own_ties};
ghost use Rattle.std.specs.Cmp.Rules.{comparing};
ghost use Rattle.std.specs.Ordering.{nat_cmp, on, flip_args, as_partial_cmp};

use crate::entry::Entry;
use std::alloc::{AllocError, Global};
use std::cmp::Ordering;
use std::collections::BinaryHeap;
use std::marker::Model;

/// An operation, ordered so that the soonest is on top of the heap.
#[derive(Clone, Copy, Debug)]
pub struct ByDue(Entry);

impl PartialEq for ByDue {
    ghost eq = { on (λ b. b.0.due) nat_eq };

    ghost laws = { Prim.search (comparing, rules) };

    fn eq(&self, other: &ByDue) -> bool {
        self.0.due == other.0.due
    }
}

impl Eq for ByDue {
    ghost laws = { Prim.search (comparing, rules) };
}

impl PartialOrd for ByDue {
    ghost partial_cmp = { as_partial_cmp (flip_args (on (λ b. b.0.due) nat_cmp)) };

    ghost laws = { partial_order_from_own_ties (Prim.search (comparing, rules))
        (Prim.search (comparing, rules)) };

    fn partial_cmp(&self, other: &ByDue) -> Option<Ordering> {
        Some(self.cmp(other))
    }
}

impl Ord for ByDue {
    ghost cmp = { flip_args (on (λ b. b.0.due) nat_cmp) };

    ghost total = { Prim.search (comparing, rules) };

    ghost matches_partial_cmp = { λ x y. refl };

    ghost matches_eq = { Prim.search (comparing, rules) };

    fn cmp(&self, other: &ByDue) -> Ordering {
        other.0.due.cmp(&self.0.due)
    }
}

/// A heap of operations with the soonest on top. Contracts see them in ascending order of version.
#[derive(Debug, Drop)]
pub struct Later {
    heap: BinaryHeap<ByDue>,
}

impl Model for Later {
    ghost use Rattle.std.specs.BinaryHeap.{heap_items, heap_capacity};
    ghost use Rattle.relay_delay.specs.Heaps.{Heap, sort, later_items, IsLater};

    ghost Value = { Heap };

    ghost view = { λ l. record
        { room = heap_capacity l.heap; entries = sort (later_items (heap_items l.heap)) } };

    ghost invariant = { λ l. IsLater (heap_items l.heap) };
}

impl Later {
    ghost use Rattle.relay_delay.specs.Waiting.{insert, has_version, is_due, first_due};
    ghost use Rattle.relay_delay.specs.Heaps.{NoneDue};

    /// An empty heap. It does not allocate.
    pub(crate) fn new(alloc: Global) -> Later
        ensures { result.entries ≡ [] }
    {
        Later {
            heap: BinaryHeap::new(alloc),
        }
    }

    /// The number of operations.
    pub(crate) fn len(&self) -> usize
        ensures { result ≡ length self.now.entries }
    {
        self.heap.len()
    }

    /// The number of operations that it has room for.
    pub(crate) fn room(&self) -> usize
        ensures { result ≡ self.now.room }
    {
        self.heap.capacity()
    }

    /// Makes room for `count`, growing as a `Vec` does.
    pub(crate) fn reserve(&mut self, count: usize) -> Result<(), AllocError>
        ensures ok { OnOk result (count ≤ self.new.room) }
        ensures err { OnErr result (self.old.room < count) }
        ensures grows { self.old.room ≤ self.new.room }
        ensures entries { self.new.entries ≡ self.old.entries }
    {
        let more = count.saturating_sub(self.heap.len());
        self.heap.reserve(more)
    }

    /// Adds an operation. There must be room for it, and no other may have its version.
    pub(crate) fn push(&mut self, one: Entry)
        requires room { length self.old.entries < self.old.room }
        requires fresh { has_version one.version self.old.entries ≡ false }
        ensures room { self.old.room ≤ self.new.room }
        ensures entries { self.new.entries ≡ insert one self.old.entries }
    {
        let _ = self.heap.push(ByDue(one));
    }

    /// The first tick at which an operation is due.
    pub(crate) fn first_due(&self) -> Option<u64>
        ensures { result ≡ first_due self.now.entries }
    {
        let top = self.heap.peek()?;
        Some(top.0.due)
    }

    fn pop(&mut self) -> Option<Entry>
        ensures { MatchOption result
            ((self.new ≡ self.old) × (self.old.entries ≡ []))
            (λ e. (first_due self.old.entries ≡ Some e.due) × (self.new.room ≡ self.old.room)
            × (self.old.entries ≡ insert e self.new.entries)) }
    {
        let top = self.heap.pop()?;
        Some(top.0)
    }

    /// Removes an operation that is due at this tick, if there is one.
    pub(crate) fn pop_due(&mut self, clock: u64) -> Option<Entry>
        ensures { MatchOption result
            ((self.new ≡ self.old) × NoneDue clock self.old.entries)
            (λ e. (is_due clock e ≡ true) × (self.new.room ≡ self.old.room)
            × (self.old.entries ≡ insert e self.new.entries)) }
    {
        let Some(due) = self.first_due() else {
            return None;
        };
        if clock < due {
            return None;
        }
        self.pop()
    }
}
