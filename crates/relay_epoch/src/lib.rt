//! Epochs from a counter that the index keeps: the version of a document that is written with
//! OpenSearch's own versions rises by one with each write, wherever the writer runs. `take_epoch`
//! writes that document, and its version is the epoch. It depends on `relay_http` for replies and
//! on `serde_json` for their bodies.
//!
//! What is proved: the epoch is exactly the number of `_version` in the answer, if and only if the
//! status says that the document was written and the number is an epoch; otherwise a named fault
//! has its cause in the answer.
#![tactic(auto)]

pub mod answer;
pub mod asking;
pub mod fault;
pub mod leasing;
pub mod message;

pub use answer::{LAST_EPOCH, epoch_of};
pub use fault::{EpochFault, fault_text};
pub use leasing::{Patience, take_epoch};
pub use relay_http::{Dial, DialFault};
