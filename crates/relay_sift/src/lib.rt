//! Leaving out the invalid operations of a producer's input. A sifted reader passes on the lines of
//! the valid operations as they are, and in place of each line of an invalid one a blank line, so
//! that the lines keep their numbers; the lines of the invalid ones go to another stream. What an
//! action line is about whose fault is in its name or in a member's is found here too.
//!
//! It depends on `relay_ndjson` for what an action line and a source are, and on `relay_json` for the
//! name of an action. `specs/Portions.antt` says which lines belong together.
#![tactic(auto)]

pub mod about;
pub mod asking;
pub mod checking;
mod fault;
mod front;
pub mod kept;
mod lines;
pub mod notes;
mod pending;
pub mod sifted;

pub use about::subject_kept;
pub use asking::{Extent, Subject, extent_of, subject_of};
pub use checking::{CheckFault, check};
pub use kept::{Kept, count_feeds};
pub use notes::{SharedNotes, SiftNotes};
pub use sifted::Sifted;
