//! A batch while it is gathered.
ghost use Rattle.std.specs.Prelude.{◌≡◌, ◌≤◌, [], MatchOption, OnErr, IfOk, nat_eq};
ghost use Rattle.indexmap.specs.IndexSet.{insert_key, spare};
ghost use Rattle.relay_batch.specs.Batches.{IsBatch};
ghost use Rattle.relay_batch.specs.Gathering.{holds_document, answer_to, after_offer, is_ready};
ghost use Rattle.relay_batch.specs.Gathering.{room_of};
ghost use Rattle.relay_batch.specs.Tallies.{tally_of};

use crate::batch::Batch;
use crate::item::{BatchItem, Limits, Room};
use crate::offer::Offer;
use crate::tally::Tally;
use indexmap::IndexSet;
use std::alloc::{AllocError, Global};
use std::marker::Model;

/// A batch that is being gathered within limits. Contracts see it as those limits and the items so
/// far.
#[derive(Debug, Drop)]
pub struct Batcher {
    // What the items count.
    tally: Tally,
    held: Vec<BatchItem>,
    // The documents of the items.
    documents: IndexSet<u64>,
}

impl Model for Batcher {
    ghost use Rattle.std.specs.Prelude.{◌≡◌, map};
    ghost use Rattle.relay_batch.specs.Batches.{IsBatch};
    ghost use Rattle.relay_batch.specs.Gathering.{Gathering};
    ghost use Rattle.relay_batch.specs.Tallies.{tally_of};

    ghost Value = { Gathering };

    ghost view = { λ b. record { limits = b.tally.limits; items = b.held.items } };

    ghost invariant = { λ b. record {
      batch : IsBatch b.tally.limits b.held.items;
      tally : b.tally ≡ tally_of (record { limits = b.tally.limits; items = b.held.items });
      documents : b.documents.keys ≡ map (λ i. i.doc) b.held.items;
    } };
}

// Adds a document to the set, which has room for it.
fn note(documents: &mut IndexSet<u64>, doc: u64)
    requires { 1 ≤ spare documents.old }
    ensures { documents.new.keys ≡ insert_key nat_eq documents.old.keys doc }
{
    let _ = documents.insert(doc);
}

impl Batcher {
    /// An empty batch, within any limits. It does not allocate.
    pub fn new(alloc: Global, limits: Limits) -> Batcher
        ensures { result ≡ record { limits = limits; items = [] } }
    {
        Batcher {
            tally: Tally::new(limits),
            held: Vec::new(alloc),
            documents: IndexSet::new(alloc),
        }
    }

    fn holds(&self, doc: u64) -> bool
        ensures { result ≡ holds_document doc self.now.items }
    {
        self.documents.contains(&doc)
    }

    /// Offers an item. Returns the first of [`Offer`] that applies; only `Added` changes the batch.
    /// `AllocError`: the allocation for an item that was to be added failed, and the batch is
    /// unchanged.
    pub fn offer(&mut self, item: BatchItem) -> Result<Offer, AllocError>
        ensures answer { IfOk result (λ o. o ≡ answer_to item self.old) }
        ensures refused { OnErr result (answer_to item self.old ≡ Offer.Added) }
        ensures after { self.new ≡ after_offer item self.old result }
    {
        if self.holds(item.doc) {
            return Ok(Offer::Busy);
        }
        let Some(total) = self.tally.fits(&item) else {
            return Ok(Offer::Closed);
        };
        self.documents.reserve(1)?;
        self.held.push(item)?;
        note(&mut self.documents, item.doc);
        self.tally.add(item, total);
        Ok(Offer::Added)
    }

    /// What is counted of the batch. It does not allocate.
    pub fn tally(&self) -> Tally
        ensures { result ≡ tally_of self.now }
    {
        self.tally
    }

    /// Whether the batch is to be sent at the clock `now`, in ticks: it is not empty, and it has
    /// reached the limit's count or the lowest cap of its items, or the limit's bytes, or its first
    /// item was taken at least the linger time before `now`. The sum does not overflow, so any
    /// clock is valid, even one before the item was taken. It does not allocate.
    pub fn ready(&self, now: u64) -> bool
        ensures { result ≡ is_ready now self.now }
    {
        self.tally.ready(now)
    }

    /// How many items and bytes may still be added before the batch reaches its limits and the caps
    /// of its items; 0 if it has reached them. It does not allocate.
    pub fn room(&self) -> Room
        ensures { result ≡ room_of self.now }
    {
        self.tally.room()
    }

    /// The finished batch, which is within its limits, or `None` if there is no item. It does not
    /// allocate.
    pub fn close(self) -> Option<Batch>
        ensures items { MatchOption result (self.items ≡ []) (λ b. b ≡ self.items) }
        ensures kept { IsBatch self.limits self.items }
    {
        let Batcher { held, .. } = self;
        if held.is_empty() {
            return None;
        }
        Some(Batch::of(held))
    }
}
