//! Reports on operations.
use relay_action::{DocKey, OpName};
use relay_results::Cause;

/// A report on an operation that was not applied, as far as its lane knows.
#[derive(Debug, Drop)]
pub struct Report {
    /// The operation's name.
    pub name: OpName,
    /// Its document.
    pub key: DocKey,
    /// Why it is reported.
    pub cause: Cause,
}
