//! The tests of `relay_flight`: numbers, room, and settling requests in flight.

mod refusals;
mod tests;
