//! Why a server has not served to its end.
use relay_threads::{FinishFault, StartFault};
use std::alloc::AllocError;

/// Why lanes and workers have not served to the end.
#[derive(Clone, Copy, Debug)]
pub(crate) enum Stopped {
    /// The lanes or the workers did not start.
    Start(StartFault),
    /// A lane did not finish.
    Finish(FinishFault),
    /// A lane could not tell a worker how an operation ended, and what it told that worker is not
    /// known.
    Untold,
    /// A worker gave an answer from the memory that no worker had given to it.
    Unknown,
    /// The system gave no random numbers.
    Random,
    /// An allocation failed after the start.
    Memory,
}

impl From<AllocError> for Stopped {
    fn from(_error: AllocError) -> Stopped {
        Stopped::Memory
    }
}

impl From<StartFault> for Stopped {
    fn from(fault: StartFault) -> Stopped {
        Stopped::Start(fault)
    }
}
