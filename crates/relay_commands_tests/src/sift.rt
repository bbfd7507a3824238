//! The tests of `relay_sift`.

mod checks;
mod refusals;
mod sifted;
