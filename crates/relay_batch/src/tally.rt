//! A batch that is counted without its items.
ghost use Rattle.std.specs.Prelude.{◌≡◌, ◌+◌, ◌&&◌, [], false, None, Some, Ok, min};
ghost use Rattle.std.specs.Prelude.{nat_lt, nat_le, if◌then◌else◌};
ghost use Rattle.relay_batch.specs.Gathering.{Gathering, answer_to, after_offer, holds_document};
ghost use Rattle.relay_batch.specs.Gathering.{is_ready};
ghost use Rattle.relay_batch.specs.Tallies.{tally_of, is_closed_to, tally_answer, after_tally};
ghost use Rattle.relay_batch.specs.Tallies.{bytes_with, with_tallied, is_tally_ready, tally_room};

use crate::item::{BatchItem, Limits, Room};
use crate::offer::Offer;

/// What a batch within limits holds, counted without its items, so that it never allocates.
#[derive(Clone, Copy, Debug)]
pub struct Tally {
    limits: Limits,
    count: usize,
    bytes: u64,
    // The lowest of the limit's count and the caps of the items.
    most: u32,
    first: Option<BatchItem>,
}

impl Tally {
    /// Nothing counted, within any limits.
    pub fn new(limits: Limits) -> Tally
        ensures { result ≡ tally_of (record { limits = limits; items = [] }) }
    {
        Tally {
            limits,
            count: 0,
            bytes: 0,
            most: limits.count,
            first: None,
        }
    }

    /// The first item.
    pub fn first(&self) -> Option<BatchItem>
        ensures { result ≡ self.now.first }
    {
        self.first
    }

    // Whether the limit's count or the cap of an item is reached.
    fn is_full(&self) -> bool
        ensures { result ≡ nat_le self.now.most self.now.count }
    {
        self.count >= self.most as usize
    }

    // Whether there is an item, and no room for another one with this cap.
    fn is_full_for(&self, cap: u32) -> bool
        ensures { result ≡ (nat_lt 0 self.now.count && nat_le (min self.now.most cap) self.now.count) }
    {
        self.count > 0 && self.count >= self.most.min(cap) as usize
    }

    // The bytes with these in addition, unless there is an item and they exceed the limit.
    fn total_with(&self, bytes: u64) -> Option<u64>
        ensures { result ≡ (if nat_lt 0 self.now.count
            && nat_lt self.now.limits.bytes (self.now.bytes + bytes) then None
            else Some (bytes_with bytes self.now)) }
    {
        let limit = self.limits.bytes;
        if self.count == 0 {
            return Some(bytes);
        }
        match self.bytes.checked_add(bytes) {
            Some(total) if total <= limit => Some(total),
            _ => None,
        }
    }

    /// The bytes with this item in addition, or `None` if it does not fit.
    pub(crate) fn fits(&self, item: &BatchItem) -> Option<u64>
        ensures { result ≡ (if is_closed_to item.now self.now then None
            else Some (bytes_with item.now.bytes self.now)) }
    {
        if self.is_full_for(item.cap) {
            return None;
        }
        self.total_with(item.bytes)
    }

    /// Counts an item that fits, and has this many bytes with the others.
    pub(crate) fn add(&mut self, item: BatchItem, total: u64)
        requires fits { is_closed_to item self.old ≡ false }
        requires total { total ≡ bytes_with item.bytes self.old }
        ensures { self.new ≡ with_tallied item self.old }
    {
        self.count += 1;
        self.bytes = total;
        self.most = self.most.min(item.cap);
        if self.first.is_none() {
            self.first = Some(item);
        }
    }

    /// Offers an item, whose document none of those counted may have. Returns the first of
    /// [`Offer`] that applies, which is never `Busy`; `Added` counts it, and `Closed` changes
    /// nothing. The answer is that of the batch of the items counted.
    pub fn offer(&mut self, item: BatchItem) -> Offer
        ensures answer { result ≡ tally_answer item self.old }
        ensures after { self.new ≡ after_tally item self.old }
        ensures as_batch { (g : Gathering) → self.old ≡ tally_of g
            → holds_document item.doc g.items ≡ false
            → (result ≡ answer_to item g)
            × (self.new ≡ tally_of (after_offer {E = Unit {0}} item g (Ok result))) }
    {
        let Some(total) = self.fits(&item) else {
            return Offer::Closed;
        };
        self.add(item, total);
        Offer::Added
    }

    /// Whether the batch of the items counted is to be sent at the clock `now`, in ticks, as
    /// [`Batcher::ready`](crate::Batcher::ready) says.
    pub fn ready(&self, now: u64) -> bool
        ensures ready { result ≡ is_tally_ready now self.now }
        ensures as_batch { (g : Gathering) → self.now ≡ tally_of g → result ≡ is_ready now g }
    {
        match &self.first {
            None => false,
            Some(first) => {
                self.is_full()
                    || self.bytes >= self.limits.bytes
                    || now
                        .checked_sub(first.taken_at)
                        .is_some_and(|age| age >= self.limits.linger as u64)
            }
        }
    }

    /// How many items and bytes may still be counted before the limits and the caps are reached; 0
    /// if they are.
    pub(crate) fn room(&self) -> Room
        ensures { result ≡ tally_room self.now }
    {
        Room {
            items: (self.most as usize).saturating_sub(self.count) as u32,
            bytes: self.limits.bytes.saturating_sub(self.bytes),
        }
    }
}
