//! How long a request has taken.
use std::time::{Clock, Duration, Instant};

/// When a request began, and how many milliseconds it may take.
#[derive(Clone, Copy)]
pub(crate) struct Timer {
    pub(crate) start: Option<Instant>,
    pub(crate) within: u64,
}

impl Timer {
    /// How long the request has taken, as far as the clock can tell.
    pub(crate) fn spent<R: Clock>(&self, rt: &R) -> Duration {
        match self.start {
            Some(start) => start.elapsed(rt).unwrap_or(Duration::ZERO),
            None => Duration::ZERO,
        }
    }

    /// What is left of its time.
    pub(crate) fn left<R: Clock>(&self, rt: &R) -> Duration {
        Duration::from_millis(self.within).saturating_sub(self.spent(rt))
    }
}
