//! The tests of `relay_report`: the lines of reports, and extracting operations.

mod current;
mod durations;
mod lines;
mod mending;
mod picks;
mod refusals;
