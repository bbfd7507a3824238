//! A request in flight.
use relay_action::Write;
use relay_batch::Batch;

/// A request in flight: its batch, and the writes of the operations in it.
#[derive(Debug, Drop)]
pub struct Request {
    /// Its number: 1 for the first request of a lane, then 2 and so on.
    pub number: u64,
    /// Its batch.
    pub batch: Batch,
    /// Its writes, in the order of the batch.
    pub writes: Vec<Write>,
}
