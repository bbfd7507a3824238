//! The writes of a request that were put, and how each has ended.
ghost use Rattle.std.specs.Prelude.{◌≡◌, ◌⊎◌, ℕ, [], ◌∷◌, ◌+◌, ◌++◌, ◌<◌, ◌≤◌, IfOk, List, map, Some};
ghost use Rattle.std.specs.Prelude.{length, vec_capacity, vec_len};
ghost use Rattle.relay_action.specs.Lanes.{lane_of_document};
ghost use Rattle.relay_front.specs.Operations.{Write};
ghost use Rattle.relay_front.specs.declared.ending.End.{End};
ghost use Rattle.relay_serve.specs.Batches.{KeepsPlaces, FitsFrom, noted, each_noted, only_of, all_in};
ghost use Rattle.relay_serve.specs.Batches.{lost, end_in};
ghost use Rattle.relay_serve.specs.Heard.{number_and_end};
ghost use Rattle.relay_serve.specs.Settling.{Event, WasPut, AreAll};

use relay_front::End;
use relay_telling::Ending;
use std::alloc::{AllocError, Global};

/// A write that was put: its lane, and how it ended.
#[derive(Drop)]
pub(crate) struct Pending {
    lane: u32,
    end: Option<End>,
}

/// The writes of a request that were put: they have consecutive numbers.
#[derive(Drop)]
pub(crate) struct Batch {
    items: Vec<Pending>,
    // The number of the first one.
    first: u64,
    // How many have not ended.
    open: u64,
}

// Notes how a write ended, if it is open. Returns whether it was.
fn note_one(item: &mut Pending, end: End) -> bool
    ensures { item.new ≡ noted item.old (Some end) }
{
    if item.end.is_some() {
        return false;
    }
    item.end = Some(end);
    true
}

// Notes how the write at this place ended, if it is open. Returns whether it was.
fn note_at(items: &mut [Pending], place: usize, end: End) -> bool
    ensures { (first : ℕ) → items.new ≡ each_noted (only_of (first + place) end) first items.old }
{
    if place >= items.len() {
        return false;
    }
    note_one(&mut items[place], end)
}

// Ends a write of this lane, if it is open. Returns whether it was.
fn lose_one(item: &mut Pending, lane: u32) -> bool
    ensures { item.new ≡ lost lane item.old }
{
    if item.lane == lane && item.end.is_none() {
        item.end = Some(End::Gone);
        true
    } else {
        false
    }
}

// Ends the open writes of this lane, and returns how many of all are still open.
fn lose_in(items: &mut [Pending], lane: u32, open: u64) -> u64
    ensures { (first : ℕ) → items.new ≡ each_noted (all_in lane) first items.old }
{
    let mut left = open;
    'items: for item in items {
        if lose_one(item, lane) {
            left = left.saturating_sub(1);
        }
    }
    left
}

// The number of the first write, after so many, once this one is added.
fn first_with(first: u64, len: usize, number: u64) -> u64
    ensures none { len ≡ 0 → result ≡ number }
    ensures some { 0 < len → result ≡ first }
{
    if len == 0 { number } else { first }
}

impl Batch {
    /// No write, with places for this many.
    pub(crate) fn new(alloc: Global, places: usize) -> Result<Batch, AllocError>
        ensures len { IfOk result (λ b. vec_len b.items ≡ 0) }
        ensures none { IfOk result (λ b. b.items.items ≡ []) }
        ensures room { IfOk result (λ b. places ≤ vec_capacity b.items) }
    {
        let items = Vec::with_capacity(alloc, places)?;
        Ok(Batch {
            items,
            first: 0,
            open: 0,
        })
    }

    /// How many of them are open.
    pub(crate) fn open(&self) -> u64 {
        self.open
    }

    /// One more write was put, with this number, in this lane.
    pub(crate) fn add(&mut self, number: u64, lane: u32)
        requires { vec_len self.old.items < vec_capacity self.old.items }
        ensures len { vec_len self.new.items ≡ vec_len self.old.items + 1 }
        ensures room { vec_capacity self.new.items ≡ vec_capacity self.old.items }
        ensures added { (lanes n : ℕ) → (events : List Event) → (w : Write)
            → FitsFrom lanes n events self.old → number ≡ n + vec_len self.old.items
            → lane ≡ lane_of_document w.0 lanes
            → FitsFrom lanes n (events ++ WasPut w ∷ []) self.new }
    {
        self.first = first_with(self.first, self.items.len(), number);
        self.items.push_reserved(Pending { lane, end: None });
        self.open = self.open.saturating_add(1);
    }

    /// Notes how the write with this number ended, if it is one of these and open.
    pub(crate) fn note(&mut self, number: u64, end: End)
        ensures keeps { KeepsPlaces self.old self.new }
        ensures noted { self.new.items.items
            ≡ each_noted (only_of number end) self.old.first self.old.items.items }
    {
        let Some(place) = number.checked_sub(self.first) else {
            return;
        };
        let Ok(place) = usize::try_from(place) else {
            return;
        };
        if note_at(self.items.as_mut_slice(), place, end) {
            self.open = self.open.saturating_sub(1);
        }
    }

    /// This lane tells no more: what it has not told of is left open for good.
    pub(crate) fn lose(&mut self, lane: u32)
        ensures keeps { KeepsPlaces self.old self.new }
        ensures noted { self.new.items.items
            ≡ each_noted (all_in lane) self.old.first self.old.items.items }
    {
        self.open = lose_in(self.items.as_mut_slice(), lane, self.open);
    }

    /// Whether each write has ended.
    pub(crate) fn is_over(&self) -> bool {
        self.open == 0
    }
}

/// The number of the operation that ended, and how it did.
pub(crate) fn end_of(ending: Ending) -> (u64, End)
    ensures { result ≡ number_and_end ending }
{
    match ending {
        Ending::Applied(success) => (
            success.name.number,
            End::Applied {
                version: success.version,
                status: success.status,
            },
        ),
        Ending::Reported(report) => (report.name.number, End::Reported(report.cause)),
    }
}

// A copy of the end of a write that was not put.
fn copy_end(end: &End) -> End
    ensures { (end.now ≡ End.Unput) ⊎ (end.now ≡ End.Gone) → result ≡ end.now }
{
    match end {
        End::Gone => End::Gone,
        _ => End::Unput,
    }
}

// Adds the ends of the writes that were put. One that has none is late.
fn add_ends(ends: &mut Vec<End>, items: Vec<Pending>)
    requires { vec_len ends.old + vec_len items ≤ vec_capacity ends.old }
    ensures len { vec_len ends.new ≡ vec_len ends.old + vec_len items }
    ensures room { vec_capacity ends.new ≡ vec_capacity ends.old }
    ensures items { ends.new.items ≡ ends.old.items ++ map end_in items.items }
{
    'items: for item in items {
        let Pending { lane: _, end } = item;
        ends.push_reserved(end.unwrap_or(End::Late));
    }
}

// Adds the same end until there are so many.
fn fill_ends(ends: &mut Vec<End>, end: &End, count: usize)
    requires len { vec_len ends.old ≤ count }
    requires room { count ≤ vec_capacity ends.old }
    requires unput { (end.now ≡ End.Unput) ⊎ (end.now ≡ End.Gone) }
    ensures len { vec_len ends.new ≡ count }
    ensures filled { (rest : List End) × (ends.new.items ≡ ends.old.items ++ rest)
        × AreAll end.now rest }
{
    'places: for place in ends.len()..count {
        ends.push_reserved(copy_end(end));
    }
}

/// The ends of so many writes: of those that were put, and this one for the others.
pub(crate) fn finish_ends(ends: Vec<End>, batch: Batch, others: &End, count: usize) -> Vec<End>
    requires none { (vec_len ends ≡ 0) × (ends.items ≡ []) }
    requires len { vec_len batch.items ≤ count }
    requires room { count ≤ vec_capacity ends }
    requires unput { (others.now ≡ End.Unput) ⊎ (others.now ≡ End.Gone) }
    ensures len { vec_len result ≡ count }
    ensures filled { (rest : List End) × (result.items ≡ map end_in batch.items.items ++ rest)
        × AreAll others.now rest }
{
    let mut ends = ends;
    let Batch {
        items,
        first: _,
        open: _,
    } = batch;
    add_ends(&mut ends, items);
    fill_ends(&mut ends, others, count);
    ends
}
