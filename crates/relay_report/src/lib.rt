//! Reports on operations as NDJSON, one object per line, and extracting the operations that a
//! report names from the files that they came from. It depends on `relay_core` for reports, on
//! `relay_ndjson` for lines and the producer grammar, and on `serde_json` for JSON.
//!
//! What is proved: the text of reports is the JSON of each, with its keys in byte order; and
//! exactly the named operations are written, byte for byte and in order.
#![tactic(auto)]

pub mod keeping;
pub mod laws;
mod line;
pub mod mending;
pub mod missing;
pub mod names;
mod operations;
pub mod picking;
pub mod text;

pub use keeping::{InputEnd, Kept, current_names};
pub use line::read_name;
pub use mending::{LastLine, last_line};
pub use missing::first_missing;
pub use names::{Named, ReportFault, read_names};
pub use picking::{PickFault, pick};
pub use text::{append_report, report_text};
