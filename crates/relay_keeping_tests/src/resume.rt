//! The tests of `relay_resume`: operations that are settled in each order, states that
//! are written and read, damaged texts, and inputs that changed.

mod damaged;
mod desk;
mod inputs;
mod refusals;
mod seeks;
mod texts;
mod trails;
