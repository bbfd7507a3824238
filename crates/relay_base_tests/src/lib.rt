//! The tests of `relay_action`, `relay_target`, `relay_json`.
#![tactic(auto)]

#[cfg(test)]
mod action;
#[cfg(test)]
mod json;
#[cfg(test)]
mod target;
