//! A batch.
ghost use Rattle.std.specs.Prelude.{◌≡◌, ◌<◌, length};
ghost use Rattle.relay_batch.specs.Batches.{HasDistinctDocuments};

use crate::item::BatchItem;
use std::marker::Model;

/// A batch: one or more items, of distinct documents, in the order in which they were added.
/// Contracts see it as the list of its items.
#[derive(Debug, Drop)]
pub struct Batch {
    held: Vec<BatchItem>,
}

impl Model for Batch {
    ghost use Rattle.std.specs.Prelude.{List, ◌<◌, length};
    ghost use Rattle.relay_batch.specs.declared.item.BatchItem.{BatchItem};
    ghost use Rattle.relay_batch.specs.Batches.{HasDistinctDocuments};

    ghost Value = { List BatchItem };

    ghost view = { λ b. b.held.items };

    ghost invariant = { λ b. (0 < length b.held.items) × HasDistinctDocuments b.held.items };
}

impl Batch {
    pub(crate) fn of(held: Vec<BatchItem>) -> Batch
        requires filled { 0 < length held.items }
        requires distinct { HasDistinctDocuments held.items }
        ensures { result ≡ held.items }
    {
        Batch { held }
    }

    /// The items, in the order in which they were added.
    pub fn items(&self) -> &[BatchItem]
        ensures items { result.now ≡ self.now }
        ensures filled { 0 < length self.now }
        ensures distinct { HasDistinctDocuments self.now }
    {
        self.held.as_slice()
    }
}
