//! Operations that ended as applied.
use relay_action::OpName;

/// An operation that ended as applied.
#[derive(Clone, Copy, Debug, PartialEq, Eq)]
pub struct Success {
    /// The operation's name.
    pub name: OpName,
    /// The version that it was assigned.
    pub version: u64,
    /// The status of its entry in the answer that settled it. `None` if an earlier request, whose
    /// answer was lost, had applied it.
    pub status: Option<u16>,
}
