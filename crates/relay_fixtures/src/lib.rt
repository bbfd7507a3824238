//! What several test crates need: a config, keys, a lane into which operations are put, a pace that
//! records its pauses, wires that lose and refuse, and deletes that are sent over any wire. Only
//! test crates depend on it.
//!
//! Its contracts say what the proofs of the tests need: which requests are outstanding on a wire,
//! and which are in flight in a lane.
#![tactic(auto)]

pub mod applied;
pub mod asking;
pub mod config;
pub mod desk;
pub mod index_wire;
pub mod keys;
pub mod notes;
pub mod runs;
pub mod watched;
