//! Why a state is not read.
use thiserror::Error;

/// Why a state is not read.
#[derive(Clone, Copy, Debug, PartialEq, Eq, Error)]
pub enum StateFault {
    /// The text is not that of a state within its limits.
    #[error("not a state of a run")]
    Form,
    /// An allocation failed.
    #[error("out of memory")]
    Memory,
}
