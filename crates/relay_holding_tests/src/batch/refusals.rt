//! Offers, with any one of their allocations refused (`make refusals`).
use crate::batch::tests::item;
use relay_batch::{BatchItem, Batcher, Limits, Offer};
use std::alloc::AllocError;

const LIMITS: Limits = Limits {
    count: 100,
    bytes: 1_000_000,
    linger: 0,
};

// Whether an item is added. If an allocation is refused, nothing was added, and the second offer
// adds it.
fn adds(batcher: &mut Batcher, doc: u64) -> bool {
    let room = batcher.room();
    match batcher.offer(item(doc, 10, 0)) {
        Ok(answer) => answer == Offer::Added,
        Err(AllocError) => {
            batcher.room() == room && batcher.offer(item(doc, 10, 0)) == Ok(Offer::Added)
        }
    }
}

// Whether the documents of the items are those from 0 to this one, in order.
fn are_documents(items: &[BatchItem], count: u64) -> bool {
    let mut doc = 0u64;
    for item in items {
        if item.doc != doc {
            return false;
        }
        doc = doc.saturating_add(1);
    }
    doc == count
}

#[test]
fn refused_offers(rt: HostRuntime) {
    let mut batcher = Batcher::new(rt.alloc(), LIMITS);
    for doc in 0..40u64 {
        assert!(rt; adds(&mut batcher, doc));
    }
    let batch = batcher.close().expect(&rt, "a batch");
    assert!(rt; are_documents(batch.items(), 40));
}
