//! What the calls of a lane return.
use thiserror::Error;

/// How the operations of a request ended.
#[derive(Clone, Copy, Debug, PartialEq, Eq)]
pub struct Settled {
    /// The number that the request applied.
    pub applied: u32,
    /// The number that an earlier request had applied.
    pub already: u32,
    /// The number that are reported.
    pub reported: u32,
    /// The number that wait to be sent again.
    pub retried: u32,
    /// False if outcomes were given that do not match the request.
    pub matched: bool,
}

/// Why a message is not taken: the first of these that applies.
#[derive(Clone, Copy, Debug, PartialEq, Eq, Error)]
pub enum TakeFault {
    /// Its sender's Done was taken.
    #[error("AfterClose")]
    AfterClose,
    /// It is a Put, and the lane holds its maximum number of operations.
    #[error("HeldFull")]
    HeldFull,
    /// An allocation for the operation or for its later report failed.
    #[error("Memory")]
    Memory,
}

/// No request with this number is in flight.
#[derive(Clone, Copy, Debug, PartialEq, Eq, Error)]
#[error("NotFlying")]
pub struct NotFlying;

/// Counts since the lane was made.
#[derive(Clone, Copy, Debug, PartialEq, Eq)]
pub struct Totals {
    /// The operations that were taken, including those for which no version was left.
    pub taken: u64,
    /// The operations that ended as applied by the answered request.
    pub applied: u64,
    /// The operations that ended as applied by an earlier request.
    pub already: u64,
    /// The requests that were formed.
    pub requests: u64,
}
