//! The tests of `relay_front`.
#![tactic(auto)]

#[cfg(test)]
mod bodies;
#[cfg(test)]
mod routes;
