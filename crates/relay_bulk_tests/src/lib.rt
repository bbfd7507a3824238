//! The tests of `relay_ndjson`, `relay_results`, `relay_index`.
#![tactic(auto)]

#[cfg(test)]
mod index;
#[cfg(test)]
mod ndjson;
#[cfg(test)]
mod results;
#[cfg(test)]
mod writes;
