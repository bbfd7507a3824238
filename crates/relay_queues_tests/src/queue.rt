//! The tests of `relay_queue`: the queue between threads, its waiting ends, and its refusals.

mod refusals;
mod tests;
