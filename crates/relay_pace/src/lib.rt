//! The pace of a lane by a clock: `SleepPace` counts the ticks that pass, and sleeps for the pauses
//! of the lane. It sleeps by a `Timer` of `relay_clock`, which shows for how long.
//!
//! What is proved: how long each pause lasts, and that each tick is counted once, when it has ended.
#![tactic(auto)]

pub mod pace;

pub use pace::{SleepPace, TICK};
