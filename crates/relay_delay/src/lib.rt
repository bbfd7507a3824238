//! A delay queue: waiting operations, each with its own version, and the clock. Those that are due
//! come out in ascending order of version. Adding and removing an operation takes O(log n), or O(1)
//! for operations that are added when due and in ascending order of version, and does not allocate
//! once room is reserved. It depends on `std` alone.
//!
//! What is proved: each call changes the list of waiting operations exactly as it says, and returns
//! what that list and the clock say.
#![tactic(auto)]

pub mod entry;
mod later;
mod line;
pub mod queue;
mod ready;

pub use entry::Entry;
pub use queue::DelayQueue;
