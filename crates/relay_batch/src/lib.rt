//! One batch of a lane, gathered within limits: items are offered one by one, and the answer to
//! each offer is the first that applies in a fixed order. It depends on `relay_action`, for the
//! names of operations.
//!
//! What is proved: a batch has distinct documents and is within its limits and the caps of its
//! items, except that a single item may exceed any of them; each offer gets exactly the answer that
//! the limits demand; and a tally, which counts items without storing them, answers as the batch of
//! them would.
#![tactic(auto)]

pub mod batch;
pub mod batcher;
pub mod item;
pub mod offer;
pub mod tally;

pub use batch::Batch;
pub use batcher::Batcher;
pub use item::{BatchItem, Limits, Room};
pub use offer::Offer;
pub use tally::Tally;
