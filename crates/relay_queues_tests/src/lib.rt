//! The tests of `relay_queue`, `relay_producer`.
#![tactic(auto)]

#[cfg(test)]
mod producer;
#[cfg(test)]
mod queue;
