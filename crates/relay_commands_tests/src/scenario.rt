//! The tests of `relay_scenario`.

mod lines;
mod refusals;
mod scripts;
