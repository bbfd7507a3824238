//! Why an operation was not put.
use relay_action::{Action, DocKey};
use thiserror::Error;

/// Why an operation was not put.
#[derive(Clone, Copy, Debug, PartialEq, Eq, Error)]
pub enum PutFaultKind {
    /// The lane of the document was found gone, now or before. No contract says when that is.
    #[error("LaneGone")]
    LaneGone,
    /// This producer has put 2^40 operations, the maximum.
    #[error("NumbersSpent")]
    NumbersSpent,
}

/// A refused operation. No number was used, and nothing was sent.
#[derive(Debug, Drop, Error)]
#[error("{kind}")]
pub struct PutFault {
    /// Why it was refused.
    pub kind: PutFaultKind,
    /// The document.
    pub key: DocKey,
    /// The action.
    pub action: Action,
}
