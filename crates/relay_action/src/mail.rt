//! Messages to a lane.
use crate::operation::Op;

/// The content of a message to a lane.
#[derive(Debug, Drop)]
pub enum Body {
    /// An operation to deliver.
    Put(Op),
    /// One tick of the clock has passed.
    Tick,
    /// What is held is to be sent, whether or not the batch is full.
    Flush,
    /// The sender has closed; this is its last message.
    Done,
}

/// A message to a lane.
#[derive(Debug, Drop)]
pub struct Mail {
    /// The sender: a producer, from 0, or the control, whose number is one above that of the last
    /// producer.
    pub sender: u32,
    /// The number of the message among those of its sender to this lane, from 1.
    pub number: u64,
    /// The content.
    pub body: Body,
}
