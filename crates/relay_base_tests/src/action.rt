//! The tests of `relay_action`: limits, copies, and streams as a generic caller sees them.

mod devices;
mod refusals;
mod tests;
