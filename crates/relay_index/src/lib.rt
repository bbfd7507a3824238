//! The stand-in index: a bulk endpoint with external versions, in memory. It runs one write, or the
//! body of a bulk request under a script of refusals, and keeps every write that it applied to each
//! document. It depends on `relay_action`, `relay_ndjson` and `relay_results`.
//!
//! What is proved: each run of a write is a run of the outside to which all promises of delivery
//! refer, and its result says what was applied.
#![tactic(auto)]

pub mod choice;
mod history;
pub mod index;
pub mod laws;
pub mod refusal;
pub mod script;
pub mod serving;

pub use choice::Choice;
pub use index::Index;
pub use refusal::may_refuse;
pub use script::Script;
pub use serving::ServeFault;
