//! Reading JSON texts (RFC 8259) from front to back, keeping only what is needed. It uses the
//! reader of `json` and the definitions of `serde_json`: a text has the same value here as there.
//!
//! Numbers stay text until they are asked for. A text with a number that is too large for a float
//! is refused even if that number is never asked for.
#![tactic(auto)]

mod decimal;
mod fault;
mod leaf;
mod number;
mod plain;
mod reading;
mod sole;
mod walk;

pub use decimal::take_decimal;
pub use fault::ReadFault;
pub use json::Scratch;
pub use leaf::Leaf;
pub use plain::{after, plain_text, take_plain};
pub use reading::{read_object, read_sole_object};
pub use sole::Fields;
pub use walk::{Collect, Gather, Walk};
