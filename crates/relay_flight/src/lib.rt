//! The requests of a lane that are in flight: sent, and not yet settled. It depends on
//! `relay_action` and `relay_batch`.
//!
//! What is proved: the table is a map from numbers to requests, each with its batch and its writes;
//! numbers increase from 1 and none is used again, and settling a number returns what was added
//! under it. Once the table is made, no call allocates.
#![tactic(auto)]

pub mod flight;
pub mod full;
pub mod request;

pub use flight::Flight;
pub use full::Full;
pub use request::Request;
