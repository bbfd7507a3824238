//! Tests of `relay_stub`, over its public items and streams in memory: requests that are bulk,
//! other ones and broken ones, refusals by position, streams and listeners that fail, and what the
//! command writes.

mod desk;
mod documents;
mod ends;
mod refusals;
mod visits;
