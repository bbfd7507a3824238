//! What an index may do with a write.

/// What an index does with a write.
#[derive(Clone, Copy, Debug, PartialEq, Eq)]
pub enum Choice {
    /// Run it: apply it if its version is above the stored one.
    Run,
    /// Refuse it with this status.
    Refuse(u16),
}
