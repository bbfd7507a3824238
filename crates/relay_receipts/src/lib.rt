//! Receipts: the channel of one producer, on which each lane tells it how its operations ended. It
//! has one end for each lane, which tells, and one for the producer, which takes. What an ending is
//! is up to the caller: the channel carries any type. It uses a bounded channel of
//! `crossbeam_channel` under a rule, and takes no lock.
//!
//! What is proved, for every schedule of the threads that hold the ends: what the producer took
//! from a lane is at every moment a prefix of what that lane told it, in the same order, and all of
//! it once the producer took the lane's last notice, which says that it tells no more; and a
//! producer's handle that keeps a window counts what it put and was told exactly.
//!
//! Not proved: that a waiting call returns or a waiting thread wakes, when `Gone` is returned, and
//! any order between the notices of two lanes. A lane that tells does not wait as long as the
//! producer keeps its window, since the channel has a place for each operation that may be open;
//! tests show that, and no contract says it.
#![tactic(auto)]

mod bell;
pub mod channel;
pub mod notice;
pub mod rule;
pub mod take;
pub mod tell;
pub mod window;

pub use channel::receipts;
pub use notice::{Gone, Notice};
pub use take::{ReceiptTake, TakenReceipts};
pub use tell::{LaneTell, ToldLane};
pub use window::{WINDOW_LIMIT, WindowFault, WindowFaultKind, WindowedProducer};
