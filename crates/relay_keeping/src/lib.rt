//! Keeping the marks of a run: before which place of each input every operation is settled. The
//! thread of each producer tells where the operations that it puts end, and each lane which
//! operations are settled; the keeper takes what they tell, in messages, and gives the marks.
//! It uses a channel of `relay_receipts`, and takes no lock.
//!
//! What is proved, for every schedule of the threads: each mark that was given is that of what had
//! been taken by then, and once the keeper's end is met with those of all others, each operation
//! before it has its place from what its producer told, and was given to a lane as applied, or as one
//! whose report was saved.
//!
//! Not proved: that a mark moves, when a message is taken, and that a call returns.
#![tactic(auto)]

pub mod channel;
pub mod keeper;
mod meeting;
pub mod tellers;
pub mod told;
mod trails;

pub use channel::{MarkEnds, keep_marks};
pub use keeper::{Kept, MarkKeeper};
pub use tellers::{InputTelling, LaneTelling};
pub use told::Told;
