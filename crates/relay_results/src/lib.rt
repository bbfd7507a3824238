//! The reply to a bulk request, and what it means for the operations that the request carried:
//! reading and writing replies, whether a reply matches a request, and the verdict on each item. It
//! depends on `relay_action` and `relay_json`.
//!
//! Its `specs/` define what is outside a lane, to which all promises of delivery refer: the sent
//! requests, what the index does with them, the answers, and what an answer means for an operation.
#![tactic(auto)]

pub mod cause;
pub mod decide;
pub mod done;
pub mod laws;
pub mod numeral;
pub mod outcome;
pub mod pairing;
pub mod reading;
pub mod refusal;
mod stating;
mod usual;
pub mod writing;

pub use cause::{Cause, LastTry, Loss};
pub use decide::{ItemVerdict, verdict};
pub use done::{DoneResult, ItemDone, VersionConflict};
pub use numeral::number_of;
pub use outcome::{ErrorDetail, ItemError, Outcome};
pub use pairing::matches;
pub use reading::{ERROR_LIMIT, REASON_LIMIT, ReplyFault, read_reply};
pub use refusal::read_refusal;
pub use writing::write_reply;
