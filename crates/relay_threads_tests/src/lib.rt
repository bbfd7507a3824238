//! The tests of `relay_threads`: lanes whose senders are in threads, over a wire in memory that
//! loses its first reply.
#![tactic(auto)]

#[cfg(test)]
mod draining;
#[cfg(test)]
mod faults;
#[cfg(test)]
mod gates;
#[cfg(test)]
mod operations;
#[cfg(test)]
mod refusals;
#[cfg(test)]
mod relays;
#[cfg(test)]
mod tests;
#[cfg(test)]
mod told;
