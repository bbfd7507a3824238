//! The refusal of a request.
use relay_action::Write;
use relay_batch::Batch;
use thiserror::Error;

/// The maximum number of requests is in flight. It hands back what was to be added.
#[derive(Debug, Drop, Error)]
#[error("Full")]
pub struct Full {
    /// The batch.
    pub batch: Batch,
    /// The writes.
    pub writes: Vec<Write>,
}
