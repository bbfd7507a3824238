//! The lane queue: the bounded mailbox of one lane, with one end for each of 1 to 257 senders and
//! one for the lane's thread, which takes. It depends on `relay_action` for the messages, and uses
//! a bounded channel of `crossbeam_channel` under a rule; it takes no lock.
//!
//! What is proved, for every schedule of the threads that hold the ends: the log of a queue, which
//! is what was taken followed by what is queued, contains exactly the list that each sender sent,
//! in its order, numbered from 1, with Done last and only if it closed; and at most as many
//! messages are queued as the queue has places.
//!
//! Not proved: that a waiting call returns or a waiting thread wakes, when `Gone` is returned, and
//! any order between the messages of two senders. The taker learns of a disconnect only once every
//! [`LanePut`] and every [`ClosedPut`] of the queue is dropped.
#![tactic(auto)]

mod bell;
pub mod queue;
pub mod refusal;
pub mod rule;
pub mod sender;
pub mod taker;

pub use queue::lane_queue;
pub use refusal::{Gone, OfferRefusal, PutRefusal};
pub use sender::{ClosedPut, LanePut, PUT_LIMIT};
pub use taker::{LaneTake, Taken};
