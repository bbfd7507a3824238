//! The progress of a run, counted while it works: a reader, a wire and a dial that wrap others,
//! pass everything on and count what goes through them, the line that shows the counts, and the
//! lines about what goes wrong. It depends on `relay_action` for readers, on `relay_lane` for wires,
//! on `relay_http` and `relay_net` for dials, on `relay_words` for numbers and on `jiff` for the time.
//!
//! What is proved is that the reader, the wire and the dial keep the promises of what they wrap,
//! what the lines say of the counts, and which line about what goes wrong comes next, given what was
//! seen and what was said. No contract can say what the counts are, since other threads change them.
#![tactic(auto)]

pub mod counts;
pub mod dial;
pub mod event;
pub mod line;
mod log;
pub mod reader;
mod reason;
mod refusals;
pub mod show;
pub mod sight;
mod stamp;
mod statuses;
pub mod wire;

pub use counts::{Counts, Shared, Trouble};
pub use dial::CountedDial;
pub use event::Event;
pub use line::{Progress, progress_text, trouble_text, written_text};
pub use log::Log;
pub use reader::CountedReader;
pub use refusals::Refusal;
pub use show::{Show, show_progress};
pub use sight::{NOTHING, Outage, Said, Sight, after, may_say, next_event, noticed};
pub use stamp::add_stamp;
pub use statuses::{HIGHEST_STATUS, LOWEST_STATUS};
pub use wire::CountedWire;
