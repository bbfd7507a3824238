//! What is promised about the operations that a lane takes, and about all that are accepted if
//! several lanes write to one index: definitions, and laws about them that are proved for every
//! sequence of steps of a lane and the outside. It has no other code; it depends on `relay_action`
//! and `relay_results`.
//!
//! To read the promise: `specs/Attribution.antt`, `Causes.antt`, `Machine.antt`, `Delivery.antt`,
//! in this order.
#![tactic(auto)]

pub mod laws;
pub mod promises;
