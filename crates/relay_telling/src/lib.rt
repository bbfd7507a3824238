//! Receipts of a running relay: each lane tells each producer, on the producer's channel of
//! `relay_receipts`, how its operations ended. It depends on `relay_threads` for the lanes that
//! tell, and starts no thread.
//!
//! What is proved: a lane tells a producer exactly of the producer's own operations, in the order
//! in which they ended, each with what the lane's thread says of it, and always by the ends of the
//! channels that it was given. With `run_lane` or `Relay::finish_telling` of `relay_threads`, and
//! with `TakenReceipts::meet` of `relay_receipts`, that is what the producer took, or the front of
//! it.
#![tactic(auto)]

pub mod ending;
pub mod lane_tells;

pub use ending::Ending;
pub use lane_tells::{LaneTells, ProducerTell, telling};
