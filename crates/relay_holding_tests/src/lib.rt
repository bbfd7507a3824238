//! The tests of `relay_batch`, `relay_flight`, `relay_delay`, `relay_held`.
#![tactic(auto)]

#[cfg(test)]
mod batch;
#[cfg(test)]
mod delay;
#[cfg(test)]
mod flight;
#[cfg(test)]
mod held;
