//! Resuming a run: how far each input is settled (`trail`), the text that records it and its reader
//! (`text`, `reading`), and whether an input is the one that it was (`input`). It depends on
//! `relay_action` for texts and lists, on `relay_words` for numbers, on `hex` for digests and on
//! `serde_json` for JSON.
//!
//! What is proved: the mark of a trail is the place after the longest run of settled operations;
//! exactly the texts of states within their limits are read, each as the state that it was written
//! for; and from the mark on an input holds exactly the operations that are not before it (`laws`,
//! `seeking`).
#![tactic(auto)]

pub mod fault;
mod finding;
pub mod input;
pub mod laws;
pub mod mark;
pub mod reading;
pub mod seeking;
pub mod state;
pub mod text;
pub mod trail;

pub use fault::StateFault;
pub use input::{Changed, Found, resumes};
pub use mark::{Mark, Place};
pub use reading::read_state;
pub use seeking::seek_to;
pub use state::{CHECKED_LIMIT, INPUT_LIMIT, InputState, LAST_EPOCH, PATH_LIMIT, State, fits};
pub use text::write_state;
pub use trail::Trail;
