//! How many connections are open.
use std::alloc::{AllocError, Global};
use std::sync::Arc;
use std::sync::atomic::{AtomicU64, Ordering};

/// How many connections may be open at the same time. One more is closed as soon as it is accepted.
pub const CONNECTIONS: usize = 4_096;

/// How many connections are open, wherever they are: with a thread that serves them, waiting for
/// one, or with the poller.
#[derive(Drop)]
pub struct Places {
    taken: Arc<AtomicU64, Global>,
}

/// The place of an open connection. It is free again once this is dropped.
pub struct Place {
    taken: Arc<AtomicU64, Global>,
}

impl Places {
    /// No connection is open. `AllocError`: allocation failed.
    pub fn new(alloc: Global) -> Result<Places, AllocError> {
        Ok(Places {
            taken: Arc::new(alloc, AtomicU64::new(0))?,
        })
    }

    /// How many connections are open.
    pub fn taken(&self) -> u64 {
        self.taken.load(Ordering::SeqCst)
    }

    /// One more handle. `AllocError`: there are too many.
    pub fn share(&self) -> Result<Places, AllocError> {
        Ok(Places {
            taken: Arc::try_clone(&self.taken)?,
        })
    }

    /// A place for one more connection. `None`: there is none left.
    pub fn take(&self) -> Option<Place> {
        let Ok(taken) = Arc::try_clone(&self.taken) else {
            return None;
        };
        let before = taken.fetch_add(1, Ordering::SeqCst);
        let place = Place { taken };
        if before < CONNECTIONS as u64 {
            Some(place)
        } else {
            None
        }
    }
}

impl Drop for Place {
    fn drop(self) {
        let Place { taken } = self;
        taken.fetch_sub(1, Ordering::SeqCst);
    }
}
