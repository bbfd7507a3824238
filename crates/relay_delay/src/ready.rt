//! Due operations, the lowest version first.
ghost use Rattle.std.specs.Prelude.{◌≡◌, ◌<◌, ◌≤◌, [], true, false, length, drop, slice_get};
ghost use Rattle.std.specs.Prelude.{nat_eq, refl, OnOk, OnErr};
ghost use Rattle.std.proofs.Common.{rules};
ghost use Rattle.std.specs.Cmp.{partial_order_from_own_ties};
ghost use Rattle.std.specs.Cmp.Rules.{comparing};
ghost use Rattle.std.specs.Ordering.{nat_cmp, on, flip_args, as_partial_cmp};
ghost use Rattle.std.specs.BinaryHeap.{heap_items, IsHeap};
ghost use Rattle.relay_delay.specs.Waiting.{Rises};
ghost use Rattle.relay_delay.specs.Heaps.{by_version, ready_items, Leads};

use crate::entry::Entry;
use crate::line::{reaches, starts_above};
use std::alloc::{AllocError, Global};
use std::cmp::Ordering;
use std::collections::{BinaryHeap, VecDeque};
use std::marker::Model;

/// An operation, ordered so that the lowest version is on top of the heap.
#[derive(Clone, Copy, Debug)]
pub struct ByVersion(Entry);

impl PartialEq for ByVersion {
    ghost eq = { on (λ b. b.0.version) nat_eq };

    ghost laws = { Prim.search (comparing, rules) };

    fn eq(&self, other: &ByVersion) -> bool {
        self.0.version == other.0.version
    }
}

impl Eq for ByVersion {
    ghost laws = { Prim.search (comparing, rules) };
}

impl PartialOrd for ByVersion {
    ghost partial_cmp = { as_partial_cmp (flip_args (on (λ b. b.0.version) nat_cmp)) };

    ghost laws = { partial_order_from_own_ties (Prim.search (comparing, rules))
        (Prim.search (comparing, rules)) };

    fn partial_cmp(&self, other: &ByVersion) -> Option<Ordering> {
        Some(self.cmp(other))
    }
}

impl Ord for ByVersion {
    ghost cmp = { flip_args (on (λ b. b.0.version) nat_cmp) };

    ghost total = { Prim.search (comparing, rules) };

    ghost matches_partial_cmp = { λ x y. refl };

    ghost matches_eq = { Prim.search (comparing, rules) };

    fn cmp(&self, other: &ByVersion) -> Ordering {
        other.0.version.cmp(&self.0.version)
    }
}

/// Due operations. Contracts see them in ascending order of version. The lowest version is the
/// first in line or the top of the heap.
#[derive(Debug, Drop)]
pub struct Ready {
    /// Those that were added in ascending order of version. Each goes in and comes out in O(1).
    line: VecDeque<Entry>,
    /// The others, the lowest version on top.
    heap: BinaryHeap<ByVersion>,
}

impl Model for Ready {
    ghost use Rattle.std.specs.Prelude.{◌++◌, min};
    ghost use Rattle.std.specs.VecDeque.{deque_capacity};
    ghost use Rattle.std.specs.BinaryHeap.{heap_items, heap_capacity};
    ghost use Rattle.relay_delay.specs.Heaps.{Heap, sort, ready_items, IsReady};

    ghost Value = { Heap };

    ghost view = { λ r. record {
      room = min (deque_capacity r.line) (heap_capacity r.heap);
      entries = sort
          (ready_items (heap_items r.heap) ++ r.line.items);
    } };

    ghost invariant = { λ r. IsReady (heap_items r.heap) r.line.items };
}

// Whether the top of the heap has a lower version than all in the line.
fn top_is_first(heap: &BinaryHeap<ByVersion>, line: &VecDeque<Entry>) -> bool
    ensures top { result ≡ true → Rises line.now.items
        → Leads (ready_items (heap_items heap.now)) line.now.items }
    ensures line { result ≡ false → IsHeap by_version (heap_items heap.now)
        → Leads line.now.items (ready_items (heap_items heap.now)) }
{
    match heap.peek() {
        Some(top) => starts_above(line, top.0.version),
        None => false,
    }
}

impl Ready {
    ghost use Rattle.relay_delay.specs.Waiting.{insert, has_version};

    /// Empty. It does not allocate.
    pub(crate) fn new(alloc: Global) -> Ready
        ensures { result.entries ≡ [] }
    {
        Ready {
            line: VecDeque::new(alloc),
            heap: BinaryHeap::new(alloc),
        }
    }

    /// The number of operations.
    pub(crate) fn len(&self) -> usize
        ensures { result ≡ length self.now.entries }
    {
        self.line.len() + self.heap.len()
    }

    /// The number of operations that it has room for, in whatever order they are added.
    pub(crate) fn room(&self) -> usize
        ensures { result ≡ self.now.room }
    {
        self.line.capacity().min(self.heap.capacity())
    }

    /// Makes room for `count`. The heap grows as a `Vec` does, and the line with it.
    pub(crate) fn reserve(&mut self, count: usize) -> Result<(), AllocError>
        ensures ok { OnOk result (count ≤ self.new.room) }
        ensures err { OnErr result (self.old.room < count) }
        ensures grows { self.old.room ≤ self.new.room }
        ensures entries { self.new.entries ≡ self.old.entries }
    {
        if count <= self.room() {
            return Ok(());
        }
        self.heap.reserve(count.saturating_sub(self.heap.len()))?;
        let more = self.heap.capacity().saturating_sub(self.line.len());
        self.line.reserve(more)
    }

    /// Adds an operation: to the line if its version is above all there, otherwise to the heap.
    /// There must be room for it, and no other may have its version.
    pub(crate) fn push(&mut self, one: Entry)
        requires room { length self.old.entries < self.old.room }
        requires fresh { has_version one.version self.old.entries ≡ false }
        ensures room { self.old.room ≤ self.new.room }
        ensures entries { self.new.entries ≡ insert one self.old.entries }
    {
        if reaches(&self.line, one.version) {
            let _ = self.heap.push(ByVersion(one));
        } else {
            self.line.push_back_reserved(one);
        }
    }

    /// Removes the operation with the lowest version.
    pub(crate) fn pop(&mut self) -> Option<Entry>
        ensures room { self.new.room ≡ self.old.room }
        ensures one { result ≡ slice_get self.old.entries 0 }
        ensures entries { self.new.entries ≡ drop 1 self.old.entries }
    {
        if !top_is_first(&self.heap, &self.line) {
            return self.line.pop_front();
        }
        let top = self.heap.pop()?;
        Some(top.0)
    }
}
