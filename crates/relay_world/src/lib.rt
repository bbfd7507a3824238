//! A simulator of all interleavings: lanes with their queues over one index, on which any list of
//! events is played. It depends on `relay_core`, which decides, and `relay_index`, which does the
//! writes.
//!
//! What is proved: each event is refused exactly if one of its causes applies, and changes nothing
//! then; an accepted event changes what its rule says and nothing else; and after every list of
//! events, including restarts, all that was accepted is exactly accounted for (`Delivered`), since
//! each event keeps the world tied to the machines of delivery (`laws`).
#![tactic(auto)]

mod accepted;
mod desk;
mod ended;
mod epoch;
pub mod event;
pub mod laws;
mod names;
mod parts;
mod request;
mod sender;
pub mod world;

pub use event::{Event, Refusal, RunEnd, StepAnswer};
pub use world::World;
