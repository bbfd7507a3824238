//! What the program's commands share: numbers, names, documents and causes as they are printed
//! (`text`), lengths of time as they are read (`duration`), and exit statuses (`exit`). The definition
//! of which operations a command took from a producer's input is here too, for `relay_commands` and
//! `relay_run` alike.
//!
//! It depends on `relay_action`, `relay_results` and, for the faults of an input, `relay_ndjson`.
//! Each function of `text` appends to a vector. `AllocError`: allocation failed, and the vector's
//! items are as before.
#![tactic(auto)]

pub mod duration;
pub mod exit;
pub mod text;

pub use duration::duration_of;
pub use exit::{Exit, exit_of_kind};
pub use relay_results::number_of;
pub use text::{add_cause, add_document, add_name, add_number, add_spaced};
