//! Bulk text: writing the body of `POST /_bulk` and reading it back, and reading the operations
//! that a producer submits as NDJSON. It depends on `relay_action` for values and streams, on
//! `serde_json` for JSON, on `itoa` for numbers and on `memchr` for line ends.
//!
//! What is proved: what is written is the bulk text of the writes; a body is read as the writes
//! whose lines it has, so what was written reads back; and a producer's lines are read as the
//! producer grammar says. A fault names the first line that breaks the grammar, and its kind.
#![tactic(auto)]

pub mod action_line;
pub mod body;
pub mod bulk;
pub mod input;
pub mod kind;
pub mod laws;
pub mod length;
pub mod line_reader;
mod lines;
mod metadata;
pub mod parser;
mod piece;
mod quoted;
mod usual;
mod versioned_line;

pub use action_line::{read_action, read_source};
pub use body::read_bulk;
pub use bulk::{TextFault, append_action_line, append_bulk, append_write, bulk_text, write_write};
pub use input::Input;
pub use kind::{BulkFault, InputFault, LineKind};
pub use length::{bulk_len, write_len};
pub use line_reader::LineReader;
pub use lines::{BLANK_LIMIT, LINE_LIMIT, LineEnd};
pub use parser::{Parser, Phase};
pub use quoted::has_escapes;
pub use relay_action::LAST_VERSION;
