//! A clock that shows what it slept. What waits for a time to pass sleeps by a `Timer`, and so its
//! contract can say for how long. It depends on `std` alone.
//!
//! What is proved: by how much each call moves the time and the count of what was slept. No
//! contract can say what the system's clock reads, or that a sleep lasts as long as it is asked to.
#![tactic(auto)]

pub mod timer;

pub use timer::Timer;
