//! The tests of `relay_producer`: producers and the control over several lanes, lanes that are
//! gone, and a producer that waits.

mod lanes;
mod refusals;
mod tests;
