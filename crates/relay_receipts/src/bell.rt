//! How the producer's end sleeps until a lane tells it something.
use std::alloc::{AllocError, Global};
use std::sync::atomic::{AtomicU64, Ordering};
use std::sync::{Arc, Wait};
use std::time::Duration;

const AWAKE: u64 = 0;

const ASLEEP: u64 = 1;

/// What the ends of a channel share beside it: whether the producer's end sleeps, or is about to. No
/// clause says what it holds, since other threads change it.
#[derive(Drop)]
pub(crate) struct Bell {
    shared: Arc<AtomicU64, Global>,
}

impl Bell {
    /// A bell of a channel whose producer's end is awake. `AllocError`: allocation failed.
    pub(crate) fn new(alloc: Global) -> Result<Bell, AllocError> {
        Ok(Bell {
            shared: Arc::new(alloc, AtomicU64::new(AWAKE))?,
        })
    }

    /// Another handle of the same bell. `AllocError`: there are too many handles.
    pub(crate) fn another(&self) -> Result<Bell, AllocError> {
        Ok(Bell {
            shared: Arc::try_clone(&self.shared)?,
        })
    }

    /// Notes that the producer's end is about to sleep. It has to look once more before it does, since
    /// a lane that told something before does not ring.
    pub(crate) fn doze(&self) {
        self.shared.store(ASLEEP, Ordering::SeqCst);
    }

    /// Notes that the producer's end does not sleep.
    pub(crate) fn rouse(&self) {
        self.shared.store(AWAKE, Ordering::SeqCst);
    }

    /// Sleeps for at most this long, and not once a lane has rung since the producer's end dozed. It
    /// may also return for no reason.
    pub(crate) fn sleep<R: Wait>(&self, rt: &R, limit: Duration) {
        self.shared.park_timeout(rt, ASLEEP as u32, limit);
    }

    /// Wakes the producer's end, if it sleeps or is about to.
    pub(crate) fn ring(&self) {
        let is_awake = self.shared.load(Ordering::SeqCst) == AWAKE;
        if !is_awake && self.shared.swap(AWAKE, Ordering::SeqCst) == ASLEEP {
            self.shared.wake_one();
        }
    }
}
