//! Sending files of operations through a relay: the function behind `relay run`.
#![tactic(auto)]

pub mod faults;
pub mod feed;
pub mod files;
pub mod hint;
mod keeping;
pub mod laws;
pub mod leasing;
pub mod marking;
mod noting;
pub mod numbering;
mod opening;
pub mod options;
pub mod outcome;
pub mod producing;
mod pumping;
pub mod report_file;
mod resolving;
mod resuming;
pub mod run;
pub mod saving;
pub mod saying;
pub mod settling;
pub mod skipping;
pub mod source;
mod starting;
mod state_file;
pub mod stopping;
pub mod telling;
mod waiting;
mod watching;
pub mod wiring;
