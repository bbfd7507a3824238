//! The tests of `relay_json`: reading texts, and what is kept of them.

mod refusals;
mod tests;
