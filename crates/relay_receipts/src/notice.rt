//! What a lane tells a producer.
use thiserror::Error;

/// A notice of a lane to a producer.
#[derive(Debug, Drop)]
pub struct Notice<T> {
    /// The lane, from 0.
    pub lane: u32,
    /// How an operation of the producer ended. `None`: the lane tells no more, and this is its last
    /// notice.
    pub told: Option<T>,
}

/// The other end of the channel is dropped. No contract says when this is returned.
#[derive(Clone, Copy, Debug, PartialEq, Eq, Error)]
#[error("Gone")]
pub struct Gone;
