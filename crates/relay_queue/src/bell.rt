//! Whether a tick is on its way to a lane.
use relay_action::{Body, Mail};
use std::alloc::{AllocError, Global};
use std::sync::Arc;
use std::sync::atomic::{AtomicU64, Ordering};

/// What the ends of a queue share beside it: whether a tick was sent that has not been taken yet.
/// No clause says what it holds, since other threads change it.
#[derive(Drop)]
pub(crate) struct Bell {
    shared: Arc<AtomicU64, Global>,
}

impl Bell {
    /// A bell of a queue without a tick. `AllocError`: allocation failed.
    pub(crate) fn new(alloc: Global) -> Result<Bell, AllocError> {
        Ok(Bell {
            shared: Arc::new(alloc, AtomicU64::new(0))?,
        })
    }

    /// Another handle of the same bell. `AllocError`: there are too many handles.
    pub(crate) fn another(&self) -> Result<Bell, AllocError> {
        Ok(Bell {
            shared: Arc::try_clone(&self.shared)?,
        })
    }

    /// Notes that a tick is sent, and returns whether no other one is on its way.
    pub(crate) fn ring(&self) -> bool {
        self.shared.swap(1, Ordering::SeqCst) == 0
    }

    /// Notes that no tick is on its way.
    pub(crate) fn rest(&self) {
        self.shared.store(0, Ordering::SeqCst);
    }

    /// Notes that a message was taken: if it is a tick, none is on its way.
    pub(crate) fn note_taken(&self, mail: &Mail) {
        if matches!(&mail.body, Body::Tick) {
            self.rest();
        }
    }
}
