//! The tests of `relay_commands`, and in folders those of `relay_report`, `relay_scenario`, `relay_sift`.
#![tactic(auto)]

#[cfg(test)]
mod apply;
#[cfg(test)]
mod lines;
#[cfg(test)]
mod refusals;
#[cfg(test)]
mod refuse_lists;
#[cfg(test)]
mod report;
#[cfg(test)]
mod scenario;
#[cfg(test)]
mod sift;
#[cfg(test)]
mod statuses;
