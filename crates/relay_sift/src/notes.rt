//! What a sifted reader notes for other threads.
use std::alloc::{AllocError, Global};
use std::sync::Arc;
use std::sync::atomic::{AtomicU64, Ordering};

/// How many operations sifted readers have left out, and what failed meanwhile. Each part is read
/// separately. No contract says what another thread has noted.
#[derive(Drop)]
pub struct SiftNotes {
    left_out: AtomicU64,
    // 1 once a write failed.
    unwritten: AtomicU64,
    // 1 once an allocation failed.
    refused: AtomicU64,
}

/// Notes that several threads hold.
pub type SharedNotes = Arc<SiftNotes, Global>;

impl SiftNotes {
    /// Notes of nothing. `AllocError`: allocation failed.
    pub fn shared(alloc: Global) -> Result<SharedNotes, AllocError> {
        let notes = SiftNotes {
            left_out: AtomicU64::new(0),
            unwritten: AtomicU64::new(0),
            refused: AtomicU64::new(0),
        };
        Ok(Arc::new(alloc, notes)?)
    }

    /// Notes an operation that was left out.
    pub(crate) fn add(&self) {
        let _ = self.left_out.fetch_add(1, Ordering::SeqCst);
    }

    /// Notes that a write failed.
    pub(crate) fn add_unwritten(&self) {
        self.unwritten.store(1, Ordering::SeqCst);
    }

    /// Notes that an allocation failed.
    pub(crate) fn add_refused(&self) {
        self.refused.store(1, Ordering::SeqCst);
    }

    /// How many operations were left out.
    pub fn left_out(&self) -> u64 {
        self.left_out.load(Ordering::SeqCst)
    }

    /// Whether what was left out could not be written.
    pub fn is_unwritten(&self) -> bool {
        self.unwritten.load(Ordering::SeqCst) > 0
    }

    /// Whether an allocation failed.
    pub fn is_refused(&self) -> bool {
        self.refused.load(Ordering::SeqCst) > 0
    }
}
