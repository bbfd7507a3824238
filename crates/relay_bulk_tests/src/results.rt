//! The tests of `relay_results`: reading and writing replies, what an error says, the reason for a
//! whole request's status, matching, verdicts, and failed allocations.

mod given;
mod refusals;
mod stated;
mod tests;
