//! The tests of `relay_delay`.

mod calls;
mod desk;
mod refusals;
