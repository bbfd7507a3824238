//! Why a relay does not start, and why it does not finish well.
ghost use Rattle.std.specs.Prelude.{◌≡◌};

use std::alloc::AllocError;
use thiserror::Error;

/// Why a relay was not started: the first cause that applies, in this order.
#[derive(Clone, Copy, Debug, PartialEq, Eq, Error)]
pub enum StartFault {
    /// The config is not valid.
    #[error("BadConfig")]
    BadConfig,
    /// The number of wires or of paces differs from the number of lanes.
    #[error("WireCount")]
    WireCount,
    /// An allocation for a queue, a lane or a handle failed.
    #[error("Memory")]
    Memory,
    /// A thread could not be started, which may also be a failed allocation. No contract says when.
    #[error("Thread")]
    Thread,
}

impl From<AllocError> for StartFault {
    ghost use Rattle.relay_threads.specs.declared.fault.StartFault.{StartFault};

    ghost from_gives = { λ _ e. e ≡ StartFault.Memory };

    fn from(_error: AllocError) -> StartFault {
        StartFault::Memory
    }
}

/// Why a relay did not finish well: the first cause that applies, in this order.
#[derive(Clone, Copy, Debug, PartialEq, Eq, Error)]
pub enum FinishFaultKind {
    /// A lane ended as Memory.
    #[error("LaneMemory")]
    LaneMemory,
    /// A lane ended as Gone, or a closed handle has marked it. No contract says when.
    #[error("LaneGone")]
    LaneGone,
    /// An allocation for the summary failed.
    #[error("Memory")]
    Memory,
}

/// Why a relay did not finish well, and the first lane to which that applies. All lanes have ended.
#[derive(Clone, Copy, Debug, PartialEq, Eq, Error)]
#[error("{kind} on lane {lane}")]
pub struct FinishFault {
    /// Why.
    pub kind: FinishFaultKind,
    /// The first such lane, from 0. It is 0 if the kind is Memory.
    pub lane: u32,
}
