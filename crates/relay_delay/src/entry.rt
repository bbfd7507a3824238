//! A waiting operation.

/// A waiting operation.
#[derive(Clone, Copy, Debug, PartialEq, Eq)]
pub struct Entry {
    /// The version that it was assigned.
    pub version: u64,
    /// The first tick at which it may be sent.
    pub due: u64,
    /// The caller's key for the operation; nothing here reads it.
    pub slot: usize,
}
