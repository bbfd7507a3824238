//! What a lane holds: its operations in a queue per document, oldest first. Only the first
//! operation of a queue may be sent. Contracts see one plain list, in the order in which the
//! operations were taken. It depends on `relay_action`, `relay_results` and `relay_delay`.
//!
//! What is proved: each call changes that list exactly as it says, and `looks` counts how often an
//! operation was looked at, to see whether it may be sent. Only `candidate` does that: each time it
//! returns an operation, the count is one more. `first` looks up the operation of a document that
//! the caller names, whether or not it may be sent, and `due_in` reads the earliest due tick and no
//! operation, so neither counts.
#![tactic(auto)]

mod documents;
pub mod held;
pub mod kept;
mod queue;

pub use held::{Held, NotHeld};
pub use kept::{Candidate, Kept, Spot};
