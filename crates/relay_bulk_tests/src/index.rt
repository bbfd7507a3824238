//! The tests of `relay_index`: runs of writes, look-ups, and bodies of bulk requests.

mod refusals;
mod tests;
