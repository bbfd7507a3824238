//! A table of requests, with any one of its allocations refused (`make refusals`).
use crate::flight::tests::gathered;
use relay_batch::Batch;
use relay_flight::Flight;
use std::alloc::{AllocError, Global};

/// A table for this many requests, made again if an allocation is refused.
pub fn flight_of(alloc: Global, room: u32) -> Option<Flight> {
    match Flight::new(alloc, room) {
        Ok(flight) => Some(flight),
        Err(AllocError) => Flight::new(alloc, room).ok(),
    }
}

/// A batch, gathered again if an allocation is refused.
pub fn batch_again(alloc: Global, doc: u64) -> Option<Batch> {
    match gathered(alloc, doc) {
        Ok(batcher) => batcher.close(),
        Err(AllocError) => gathered(alloc, doc).ok()?.close(),
    }
}

// Whether the next batch enters under this number.
fn enters(alloc: Global, flight: &mut Flight, number: u64) -> Option<bool> {
    let batch = batch_again(alloc, number)?;
    if flight.next() != number || number > 40 {
        return None;
    }
    Some(flight.enter(batch, Vec::new(alloc)).ok()? == number)
}

// A table that was made has its room, so no later call is refused.
#[test]
fn refused_tables(rt: HostRuntime) {
    let mut flight = flight_of(rt.alloc(), 40).expect(&rt, "a table");
    for number in 1..=40u64 {
        assert!(rt; enters(rt.alloc(), &mut flight, number) == Some(true));
    }
    assert!(rt; flight.flying() == 40);
}
