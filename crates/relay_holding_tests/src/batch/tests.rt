//! Offers and readiness at the limits, and the items of a closed batch.
use relay_action::OpName;
use relay_batch::{BatchItem, Batcher, Limits, Offer, Room, Tally};
use std::alloc::{AllocError, Global};
use std::process::Abort;

/// An item of a document, with this many bytes.
pub fn item(doc: u64, bytes: u64, taken_at: u64) -> BatchItem {
    BatchItem {
        name: OpName {
            epoch: 0,
            producer: 0,
            number: doc,
        },
        doc,
        version: doc,
        bytes,
        cap: 10_000,
        taken_at,
    }
}

// The limits of the first table.
const LIMITS: Limits = Limits {
    count: 3,
    bytes: 1024,
    linger: 5,
};

// Whether items taken at tick 10, offered by document and bytes, get these answers.
fn answers(rt: &impl Abort, batcher: &mut Batcher, offers: &[(u64, u64, Offer)]) -> bool {
    let mut same = true;
    for (doc, bytes, answer) in offers {
        same &= batcher.offer(item(*doc, *bytes, 10)).expect(rt, "memory") == *answer;
    }
    same
}

// Whether a batch is ready at a tick after offers, which get these answers.
fn ready_after(
    rt: &impl Abort,
    alloc: Global,
    limits: Limits,
    offers: &[(u64, u64, Offer)],
    now: u64,
) -> bool {
    let mut batcher = Batcher::new(alloc, limits);
    assert!(rt; answers(rt, &mut batcher, offers));
    batcher.ready(now)
}

const OFFERS: &[(&[(u64, u64, Offer)], bool)] = &[
    // Exactly the limits, in bytes and in items.
    (
        &[
            (1, 400, Offer::Added),
            (2, 400, Offer::Added),
            (3, 224, Offer::Added),
            (4, 0, Offer::Closed),
        ],
        true,
    ),
    // One byte too many; the batch still takes a smaller item.
    (
        &[
            (1, 400, Offer::Added),
            (2, 400, Offer::Added),
            (3, 225, Offer::Closed),
            (4, 223, Offer::Added),
        ],
        true,
    ),
    // A single item may have more bytes than the limit.
    (
        &[
            (1, 5000, Offer::Added),
            (2, 0, Offer::Closed),
            (3, 1, Offer::Closed),
            (1, 1, Offer::Busy),
        ],
        true,
    ),
    // Busy comes before Closed.
    (
        &[
            (1, 400, Offer::Added),
            (1, 400, Offer::Busy),
            (1, 5000, Offer::Busy),
            (2, 623, Offer::Added),
        ],
        false,
    ),
    // Busy comes before Closed even if the count is reached.
    (
        &[
            (1, 0, Offer::Added),
            (2, 0, Offer::Added),
            (3, 0, Offer::Added),
            (2, 0, Offer::Busy),
        ],
        true,
    ),
];

#[test]
fn offers_and_readiness(rt: HostRuntime) {
    for (offers, ready) in OFFERS {
        assert!(rt; ready_after(&rt, rt.alloc(), LIMITS, offers, 10) == *ready);
    }
}

// Whether a tally gets the answers of the batch, is ready when it is, and has the same first item.
// A tally has no documents, so it is not offered what is Busy.
fn tallies(rt: &impl Abort, alloc: Global, offers: &[(u64, u64, Offer)]) -> bool {
    let mut batcher = Batcher::new(alloc, LIMITS);
    let mut tally = Tally::new(LIMITS);
    let mut same = !tally.ready(10);
    for (doc, bytes, answer) in offers {
        let one = item(*doc, *bytes, 10);
        same &= batcher.offer(one).expect(rt, "memory") == *answer;
        if *answer != Offer::Busy {
            same &= tally.offer(one) == *answer;
        }
        same &= tally.ready(10) == batcher.ready(10);
        same &= tally.first() == batcher.tally().first();
    }
    same
}

#[test]
fn a_tally_counts_as_the_batch(rt: HostRuntime) {
    for (offers, _) in OFFERS {
        assert!(rt; tallies(&rt, rt.alloc(), offers));
    }
}

const BYTES: &[(u64, Offer, Offer)] = &[
    (1024, Offer::Closed, Offer::Closed),
    (u64::MAX, Offer::Added, Offer::Closed),
    (u64::MAX - 1, Offer::Closed, Offer::Closed),
    (0, Offer::Closed, Offer::Closed),
];

// The highest number of bytes, then none, then one.
#[test]
fn bytes_have_no_end(rt: HostRuntime) {
    for (bytes, none, one) in BYTES {
        let limits = Limits {
            count: 10,
            bytes: *bytes,
            linger: 5,
        };
        let offers = [(1, u64::MAX, Offer::Added), (2, 0, *none), (3, 1, *one)];
        assert!(rt; ready_after(&rt, rt.alloc(), limits, &offers, 10));
    }
}

const LINGERING: &[(u32, u64, u64, bool)] = &[
    (5, 10, 15, true),
    (5, 10, 14, false),
    (5, 10, 9, false),
    (0, 10, 10, true),
    (0, 10, 9, false),
    (0, u64::MAX, 0, false),
    (65_535, u64::MAX, u64::MAX, false),
    (65_535, u64::MAX - 65_534, u64::MAX, false),
    (65_535, u64::MAX - 65_535, u64::MAX, true),
    (u32::MAX, 0, 4_294_967_295, true),
    (u32::MAX, 0, 4_294_967_294, false),
];

// Whether a batch of an item taken at a tick, and one taken at 0, is ready; the empty batch is not.
fn ready_of_two(rt: &impl Abort, alloc: Global, linger: u32, taken_at: u64, now: u64) -> bool {
    let limits = Limits {
        count: 3,
        bytes: 1024,
        linger,
    };
    let mut batcher = Batcher::new(alloc, limits);
    assert!(rt;
        !batcher.ready(now)
            && batcher.offer(item(1, 400, taken_at)) == Ok(Offer::Added)
            && batcher.offer(item(2, 400, 0)) == Ok(Offer::Added)
    );
    batcher.ready(now)
}

// Items that are only ready because of the tick.
#[test]
fn lingering(rt: HostRuntime) {
    for (linger, taken_at, now, ready) in LINGERING {
        let told = ready_of_two(&rt, rt.alloc(), *linger, *taken_at, *now);
        assert!(rt; told == *ready);
    }
}

#[test]
fn a_count_of_none_takes_one(rt: HostRuntime) {
    let limits = Limits {
        count: 0,
        bytes: 1024,
        linger: 0,
    };
    let mut batcher = Batcher::new(rt.alloc(), limits);
    let offers = [(1, 5000, Offer::Added), (2, 0, Offer::Closed)];
    assert!(rt; answers(&rt, &mut batcher, &offers) && batcher.ready(0));
    assert!(rt; batcher.close().is_some());
}

// Whether a closed batch has exactly these items.
fn holds(batcher: Batcher, items: &[BatchItem]) -> bool {
    match batcher.close() {
        Some(batch) => batch.items() == items,
        None => false,
    }
}

#[test]
fn a_closed_batch_holds_what_was_added(rt: HostRuntime) {
    let offers = [
        (7, 400, Offer::Added),
        (7, 1, Offer::Busy),
        (2, 625, Offer::Closed),
        (5, 624, Offer::Added),
    ];
    let mut batcher = Batcher::new(rt.alloc(), LIMITS);
    assert!(rt; answers(&rt, &mut batcher, &offers));
    assert!(rt; holds(batcher, &[item(7, 400, 10), item(5, 624, 10)]));
}

#[test]
fn an_empty_batch_is_not_closed(rt: HostRuntime) {
    assert!(rt; Batcher::new(rt.alloc(), LIMITS).close().is_none());
}

// Whether a batch takes ten thousand items, of the documents from 0 on, and is ready only with the
// last of them.
fn takes_ten_thousand(batcher: &mut Batcher) -> bool {
    let mut same = true;
    for doc in 0..10_000u64 {
        same &= !batcher.ready(0);
        same &= batcher.offer(item(doc, 1_677, 0)) == Ok(Offer::Added);
    }
    same && batcher.ready(0)
}

// Whether a closed batch has ten thousand items, from the first document to the last.
fn holds_ten_thousand(batcher: Batcher) -> bool {
    match batcher.close() {
        Some(batch) => {
            let items = batch.items();
            items.len() == 10_000
                && items.first() == Some(&item(0, 1_677, 0))
                && items.last() == Some(&item(9_999, 1_677, 0))
        }
        None => false,
    }
}

#[test]
fn ten_thousand_items(rt: HostRuntime) {
    let limits = Limits {
        count: 10_000,
        bytes: 16_777_216,
        linger: 65_535,
    };
    let mut batcher = Batcher::new(rt.alloc(), limits);
    assert!(rt; takes_ten_thousand(&mut batcher));
    let offers = [(10_000, 0, Offer::Closed), (9_999, 0, Offer::Busy)];
    assert!(rt; answers(&rt, &mut batcher, &offers));
    assert!(rt; holds_ten_thousand(batcher));
}

const ROOMS: &[(&[(u64, u64, Offer)], u32, u64)] = &[
    (&[], 3, 1024),
    (&[(1, 400, Offer::Added)], 2, 624),
    (&[(1, 1024, Offer::Added)], 2, 0),
    (&[(1, 5000, Offer::Added)], 2, 0),
    (
        &[
            (1, 1, Offer::Added),
            (2, 1, Offer::Added),
            (3, 1, Offer::Added),
        ],
        0,
        1021,
    ),
];

// What is left of the limits after offers, which get these answers.
fn room_after(rt: &impl Abort, alloc: Global, offers: &[(u64, u64, Offer)]) -> Room {
    let mut batcher = Batcher::new(alloc, LIMITS);
    assert!(rt; answers(rt, &mut batcher, offers));
    batcher.room()
}

// What is left of the limits.
#[test]
fn room_of_a_batch(rt: HostRuntime) {
    for (offers, items, bytes) in ROOMS {
        let room = Room {
            items: *items,
            bytes: *bytes,
        };
        assert!(rt; room_after(&rt, rt.alloc(), offers) == room);
    }
}

// Whether an item is added, by a second offer if the first one's allocation failed, and the batch
// was unchanged then.
fn is_added(batcher: &mut Batcher) -> bool {
    match batcher.offer(item(1, 1024, 10)) {
        Ok(answer) => answer == Offer::Added,
        Err(AllocError) => {
            !batcher.ready(u64::MAX) && batcher.offer(item(1, 1024, 10)) == Ok(Offer::Added)
        }
    }
}

// A failed allocation is reported as out of memory, and the batch is unchanged.
#[test]
fn refusals(rt: HostRuntime) {
    let mut batcher = Batcher::new(rt.alloc(), LIMITS);
    assert!(rt; is_added(&mut batcher) && batcher.ready(10));
}

// An item with a cap.
fn capped(doc: u64, cap: u32) -> BatchItem {
    BatchItem {
        cap,
        ..item(doc, 100, 10)
    }
}

// Items with a cap that are offered to a batch, with the answer, and whether the batch is ready then: two that
// fill it by the cap of the first, and one that is alone under its cap.
const CAPPED: &[&[(u64, u32, Offer, bool)]] = &[
    &[
        (1, 2, Offer::Added, false),
        (2, 1, Offer::Closed, false),
        (3, 3, Offer::Added, true),
        (4, 3, Offer::Closed, true),
    ],
    &[(1, 0, Offer::Added, true), (2, 3, Offer::Closed, true)],
];

// Whether a batch gives these answers, and has no room for an item at the end.
fn fills(rt: &impl Abort, batcher: &mut Batcher, offers: &[(u64, u32, Offer, bool)]) -> bool {
    let mut same = true;
    for (doc, cap, answer, ready) in offers {
        same &= batcher.offer(capped(*doc, *cap)).expect(rt, "memory") == *answer;
        same &= batcher.ready(10) == *ready;
    }
    same && batcher.room().items == 0
}

#[test]
fn caps_close_a_batch(rt: HostRuntime) {
    for offers in CAPPED {
        let mut batcher = Batcher::new(rt.alloc(), LIMITS);
        assert!(rt; fills(&rt, &mut batcher, *offers));
    }
}

#[test]
fn caps_close_a_tally(rt: HostRuntime) {
    let mut tally = Tally::new(LIMITS);
    assert!(rt;
        tally.offer(capped(1, 2)) == Offer::Added
            && !tally.ready(10)
            && tally.offer(capped(2, 1)) == Offer::Closed
            && !tally.ready(10)
    );
    assert!(rt;
        tally.offer(capped(3, 3)) == Offer::Added
            && tally.ready(10)
            && tally.offer(capped(4, 3)) == Offer::Closed
            && tally.ready(10)
    );
}
