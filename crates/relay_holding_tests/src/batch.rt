//! The tests of `relay_batch`: what batches hold, and when they take an item, are closed and are
//! ready.

mod refusals;
mod tests;
