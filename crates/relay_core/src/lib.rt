//! The core of a lane: without a clock, a thread or a socket it decides which of the operations
//! that it holds go into the next request, and settles each when the answer arrives. `relay_held`
//! keeps what is held, `relay_batch` gathers batches, `relay_flight` keeps the requests in flight;
//! what is promised of delivery is in `relay_delivery`.
//!
//! What is proved: each call changes the lane exactly as its rule says and is a step of delivery,
//! so a lane and an outside that came about by the same sends and answers are sound and complete.
#![tactic(auto)]

pub mod config;
mod count;
mod fates;
mod gather;
pub mod lane;
mod launch;
pub mod laws;
pub mod report;
mod settle;
pub mod settled;
pub mod success;
mod taking;

pub use config::RelayConfig;
pub use lane::Lane;
pub use relay_results::Cause;
pub use report::Report;
pub use settled::{NotFlying, Settled, TakeFault, Totals};
pub use success::Success;
