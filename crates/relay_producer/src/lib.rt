//! The producers' side of the running relay: the handle with which a producer puts its operations,
//! each to the lane of its document, and the handle with which the control sends ticks and flushes
//! to all lanes. It depends on `relay_queue`, which carries the messages between threads, and
//! starts no thread.
//!
//! What is proved: a put that is not refused adds exactly its operation to what the producer put,
//! under the name in the receipt, as one message to the lane of its document; a refusal returns the
//! key and the action, and uses no number. What a producer put can be read from its ends of all
//! lanes' queues, even after its close, and nothing is put after the close.
#![tactic(auto)]

pub mod control;
pub mod ends;
pub mod fault;
mod lanes;
pub mod law;
pub mod producer;

pub use control::{ClosedControl, Control};
pub use ends::{ClosedEnd, OpenEnd};
pub use fault::{PutFault, PutFaultKind};
pub use law::law_of_puts;
pub use producer::{ClosedProducer, Producer, Receipt};
