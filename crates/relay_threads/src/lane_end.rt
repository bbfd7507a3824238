//! How a lane ends.
ghost use Rattle.std.specs.Prelude.{◌≡◌};

use relay_lane::Lane;
use relay_queue::{Gone, Taken};
use std::alloc::AllocError;

/// How a lane ended.
#[derive(Clone, Copy, Debug, PartialEq, Eq)]
pub enum LaneEndKind {
    /// Each sender's Done was taken, and nothing is held.
    Finished,
    /// An allocation failed: for a request, for an operation that was taken, which the lane then
    /// does not hold, or for telling of a report. What the lane holds is neither sent nor reported.
    Memory,
    /// The ends of all senders were dropped, and not all of them had closed. No contract says when.
    Gone,
}

impl From<AllocError> for LaneEndKind {
    ghost use Rattle.relay_threads.specs.declared.lane_end.LaneEndKind.{LaneEndKind};

    ghost from_gives = { λ _ kind. kind ≡ LaneEndKind.Memory };

    fn from(_error: AllocError) -> LaneEndKind {
        LaneEndKind::Memory
    }
}

impl From<Gone> for LaneEndKind {
    ghost use Rattle.relay_threads.specs.declared.lane_end.LaneEndKind.{LaneEndKind};

    ghost from_gives = { λ _ kind. kind ≡ LaneEndKind.Gone };

    fn from(_gone: Gone) -> LaneEndKind {
        LaneEndKind::Gone
    }
}

/// The state of a lane at its end.
#[derive(Drop)]
pub struct LaneEnd<W> {
    /// How it ended.
    pub kind: LaneEndKind,
    /// What it took from its queue.
    pub taken: Taken,
    /// The lane, with what it reports and counts.
    pub lane: Lane,
    /// Its wire, on which no number is outstanding.
    pub wire: W,
}
