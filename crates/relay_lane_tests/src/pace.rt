//! Tests of `relay_clock` and `relay_pace`, by a clock that advances while it is slept by.

mod pauses;
mod times;
