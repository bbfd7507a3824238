//! Numbers, room and settling.
use crate::flight::refusals::{batch_again, flight_of};
use relay_action::{Action, DocKey, OpName, Write};
use relay_batch::{Batch, BatchItem, Batcher, Limits};
use relay_flight::{Flight, Request};
use std::alloc::{AllocError, Global};
use std::process::Abort;

// An item of a document.
fn item(doc: u64) -> BatchItem {
    BatchItem {
        name: OpName {
            epoch: 0,
            producer: 0,
            number: doc,
        },
        doc,
        version: doc,
        bytes: 100,
        cap: 10,
        taken_at: 0,
    }
}

/// Two items that are gathered, the first one of this document.
pub fn gathered(alloc: Global, doc: u64) -> Result<Batcher, AllocError> {
    let limits = Limits {
        count: 10,
        bytes: 1024,
        linger: 0,
    };
    let mut batcher = Batcher::new(alloc, limits);
    batcher.offer(item(doc))?;
    batcher.offer(item(1_000))?;
    Ok(batcher)
}

fn batch(rt: &impl Abort, alloc: Global, doc: u64) -> Batch {
    let batcher = gathered(alloc, doc).expect(rt, "memory");
    batcher.close().expect(rt, "a batch")
}

// The one write for it: a delete whose version is the document. `None`: allocation failed.
fn deletes(alloc: Global, doc: u64) -> Option<Vec<Write>> {
    let mut writes = Vec::with_capacity(alloc, 1).ok()?;
    let key = DocKey::new(alloc, "b", "d").ok()?;
    writes.push_reserved(Write {
        key,
        version: doc,
        action: Action::delete(),
    });
    Some(writes)
}

// The document of a batch's first item.
fn document(batch: &Batch) -> Option<u64> {
    Some(batch.items().first()?.doc)
}

// The version of the first write.
fn version(writes: &[Write]) -> Option<u64> {
    Some(writes.first()?.version)
}

// Whether a batch has the item of this document and the other one.
fn is_batch(batch: &Batch, doc: u64) -> bool {
    batch.items() == [item(doc), item(1_000)].as_slice()
}

// Whether these are the writes for that batch.
fn are_writes(writes: &[Write], doc: u64) -> bool {
    writes.len() == 1 && version(writes) == Some(doc)
}

// Whether a request has this number, that batch and those writes.
fn is_whole(request: &Request, number: u64, doc: u64) -> bool {
    request.number == number
        && is_batch(&request.batch, doc)
        && are_writes(request.writes.as_slice(), doc)
}

// The last number that is used here.
const LAST: u64 = 1_000;

// The number of a request; `None`: there is no room, or no number is left.
fn enter(flight: &mut Flight, batch: Batch, writes: Vec<Write>) -> Option<u64> {
    if flight.next() > LAST {
        return None;
    }
    flight.enter(batch, writes).ok()
}

// The number of a request with this document.
fn number_of(rt: &impl Abort, flight: &mut Flight, alloc: Global, doc: u64) -> Option<u64> {
    let writes = deletes(alloc, doc).expect(rt, "memory");
    enter(flight, batch(rt, alloc, doc), writes)
}

// Whether there is no room for a request with this document, and the fault says so and returns all
// of it.
fn comes_back(rt: &impl Abort, flight: &mut Flight, alloc: Global, doc: u64) -> bool {
    let writes = deletes(alloc, doc).expect(rt, "memory");
    assert!(rt; flight.next() <= LAST);
    let full = flight
        .enter(batch(rt, alloc, doc), writes)
        .expect_err(rt, "no room");
    let said = format!(in alloc; "{full}").expect(rt, "memory");
    said.as_str() == "Full" && is_batch(&full.batch, doc) && are_writes(full.writes.as_slice(), doc)
}

// Whether the request with a number can be taken out just once, and entered again under another
// one.
fn goes_round(rt: &impl Abort, flight: &mut Flight, number: u64, doc: u64, again: u64) -> bool {
    let request = flight.settle(number).expect(rt, "a request");
    assert!(rt; is_whole(&request, number, doc));
    assert!(rt; flight.settle(number).is_none());
    enter(flight, request.batch, request.writes) == Some(again)
}

#[test]
fn a_flight_of_one(rt: HostRuntime) {
    let mut flight = Flight::new(rt.alloc(), 1).expect(&rt, "memory");
    assert!(rt;
        flight.next() == 1
            && flight.oldest().is_none()
            && number_of(&rt, &mut flight, rt.alloc(), 7) == Some(1)
    );
    assert!(rt;
        comes_back(&rt, &mut flight, rt.alloc(), 8)
            && flight.flying() == 1
            && goes_round(&rt, &mut flight, 1, 7, 2)
    );
    assert!(rt; flight.next() == 3 && flight.oldest() == Some(2));
}

#[test]
fn a_flight_of_none(rt: HostRuntime) {
    let mut flight = Flight::new(rt.alloc(), 0).expect(&rt, "memory");
    assert!(rt;
        comes_back(&rt, &mut flight, rt.alloc(), 7)
            && flight.next() == 1
            && flight.oldest().is_none()
            && flight.flying() == 0
    );
    assert!(rt; flight.batch(1).is_none() && flight.writes(1).is_none());
    assert!(rt; flight.settle(1).is_none());
}

// A number to settle, the document of what is returned, and then the lowest number in flight and
// how many are.
const SETTLED: &[(u64, Option<u64>, Option<u64>, u32)] = &[
    (0, None, Some(1), 3),
    (4, None, Some(1), 3),
    (u64::MAX, None, Some(1), 3),
    (2, Some(8), Some(1), 2),
    (2, None, Some(1), 2),
    (1, Some(7), Some(3), 1),
    (1, None, Some(3), 1),
    (3, Some(9), None, 0),
    (3, None, None, 0),
];

// Whether a number has a request with this document, or none.
fn stands(flight: &Flight, number: u64, doc: Option<u64>) -> bool {
    let found = match flight.batch(number) {
        Some(batch) => document(batch),
        None => None,
    };
    let written = match flight.writes(number) {
        Some(writes) => version(writes),
        None => None,
    };
    found == doc && written == doc
}

// Whether this is the request with a number and a document, or none if there is no document.
fn is_settled(request: Option<Request>, number: u64, doc: Option<u64>) -> bool {
    match request {
        Some(request) => {
            request.number == number
                && doc.is_some()
                && document(&request.batch) == doc
                && version(request.writes.as_slice()) == doc
        }
        None => doc.is_none(),
    }
}

// Whether a number has that request until it is settled, and none afterwards.
fn settles(flight: &mut Flight, number: u64, doc: Option<u64>) -> bool {
    stands(flight, number, doc)
        && is_settled(flight.settle(number), number, doc)
        && stands(flight, number, None)
}

// Three requests, with the documents 7, 8 and 9.
#[test]
fn settling_out_of_order(rt: HostRuntime) {
    let mut flight = Flight::new(rt.alloc(), 3).expect(&rt, "memory");
    for (doc, number) in [(7, 1), (8, 2), (9, 3)] {
        assert!(rt; number_of(&rt, &mut flight, rt.alloc(), doc) == Some(number));
    }
    for (number, doc, oldest, flying) in SETTLED {
        assert!(rt;
            settles(&mut flight, *number, *doc)
                && flight.oldest() == *oldest
                && flight.flying() == *flying
                && flight.next() == 4
        );
    }
}

// The place of a settled request is free again, and its number is not used again.
#[test]
fn numbers_are_not_used_again(rt: HostRuntime) {
    let mut flight = Flight::new(rt.alloc(), 2).expect(&rt, "memory");
    assert!(rt; number_of(&rt, &mut flight, rt.alloc(), 7) == Some(1));
    for wanted in 2..100u64 {
        assert!(rt;
            flight.next() == wanted
                && number_of(&rt, &mut flight, rt.alloc(), wanted) == Some(wanted)
        );
        assert!(rt; settles(&mut flight, wanted, Some(wanted)) && flight.oldest() == Some(1));
    }
    assert!(rt; stands(&flight, 1, Some(7)));
}

// Writes, made by a second call if the first one's allocation failed.
fn writes_again(alloc: Global) -> Option<Vec<Write>> {
    match deletes(alloc, 7) {
        None => deletes(alloc, 7),
        made => made,
    }
}

// A failed allocation is reported as out of memory; once the table is made, no call allocates.
#[test]
fn refusals(rt: HostRuntime) {
    let mut flight = flight_of(rt.alloc(), 2).expect(&rt, "a table");
    let batch = batch_again(rt.alloc(), 7).expect(&rt, "a batch");
    let writes = writes_again(rt.alloc()).expect(&rt, "writes");
    assert!(rt; enter(&mut flight, batch, writes) == Some(1) && flight.flying() == 1);
}
