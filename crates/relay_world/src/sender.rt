//! What a sender has done at a lane.

/// What a sender has done at a lane.
#[derive(Clone, Copy, Debug, PartialEq, Eq)]
pub struct Sender {
    /// The number of messages that it put there; it saturates at 2^64 - 1.
    pub count: u64,
    /// Whether it has closed there.
    pub closed: bool,
}
