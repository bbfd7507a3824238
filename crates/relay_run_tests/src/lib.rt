//! Tests of `relay_run`: files of operations to a server in the same process, over the
//! loopback, and what is said of conflicts.
#![tactic(auto)]

#[cfg(test)]
mod hint;
#[cfg(test)]
mod loopback;
#[cfg(test)]
mod refusals;
