//! Tests of `relay_ndjson`, over its public items: bodies of bulk requests, the text of writes, a
//! table of the producer grammar, and failing streams.

mod bodies;
mod faults;
mod inputs;
mod lines;
mod refusals;
mod written;
