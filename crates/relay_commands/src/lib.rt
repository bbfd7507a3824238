//! What the commands of the program do, over any reader and writer: `lines` turns a producer's
//! NDJSON into bulk lines with versions, and `apply` serves one bulk request with a fresh stand-in
//! index, under a script that `refuse_list` reads. `exit` says how they end after a fault, and
//! `subcommand` which word is which command. It depends on `relay_ndjson`, on `relay_index` and on
//! `relay_words`.
//!
//! It carries these promises: `lines` writes the bulk text of the operations before the first
//! fault, with versions that increase by one, and no version past the last; `apply` writes the
//! answer of a fresh index to the body that it read, and nothing before the whole body was served;
//! and a call of a stream that failed is not repeated. `outgoing` gathers what is to be written,
//! here and in `relay_scenario`, and counts it.
#![tactic(auto)]

pub mod apply;
pub mod body;
pub mod exit;
pub mod lines;
pub mod outgoing;
pub mod refuse_list;
pub mod subcommand;
