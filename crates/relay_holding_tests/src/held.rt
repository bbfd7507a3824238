//! The tests of `relay_held`.

mod calls;
mod desk;
mod refusals;
