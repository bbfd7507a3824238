//! Tests of `relay_progress`: what a reader, a wire and a dial count, the lines that show the
//! counts, when they are written, and what is said of what goes wrong.

mod dials;
mod lines;
mod readers;
mod refusals;
mod shown;
mod sights;
mod wires;
