//! How many requests were answered with each status.
use std::alloc::{AllocError, Global};
use std::sync::atomic::{AtomicU64, Ordering};

/// The lowest status code of HTTP, and the highest (RFC 9110, section 15).
pub const LOWEST_STATUS: u16 = 100;

pub const HIGHEST_STATUS: u16 = 599;

/// How many requests were answered with each status code of HTTP, those from 100 to 599. Each number
/// is read separately.
#[derive(Drop)]
pub struct Statuses {
    counts: Vec<AtomicU64>,
}

impl Statuses {
    /// No request was answered. `AllocError`: allocation failed.
    pub fn new(alloc: Global) -> Result<Statuses, AllocError> {
        let mut counts = Vec::new(alloc);
        for _status in LOWEST_STATUS..=HIGHEST_STATUS {
            counts.push(AtomicU64::new(0))?;
        }
        Ok(Statuses { counts })
    }

    fn count(&self, status: u16) -> Option<&AtomicU64> {
        let place = status.checked_sub(LOWEST_STATUS)?;
        self.counts.get(place as usize)
    }

    /// One more request was answered with this status. One that is no status of HTTP is not counted.
    pub fn add(&self, status: u16) {
        if let Some(count) = self.count(status) {
            count.fetch_add(1, Ordering::SeqCst);
        }
    }

    /// How many requests were answered with this status.
    pub fn get(&self, status: u16) -> u64 {
        match self.count(status) {
            Some(count) => count.load(Ordering::SeqCst),
            None => 0,
        }
    }
}
