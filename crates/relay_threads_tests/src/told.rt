//! What lanes tell of how operations ended.
use relay_lane::{Report, Success};
use relay_threads::Tell;
use std::alloc::{AllocError, Global};
use std::sync::atomic::{AtomicU64, Ordering};
use std::sync::{Arc, Wait};

/// Sums over what was told.
#[derive(Drop)]
pub struct Sums {
    /// The number of successes.
    pub successes: AtomicU64,
    /// The sum of the numbers of their operations.
    pub numbers: AtomicU64,
    /// How many of them an earlier request had applied.
    pub already: AtomicU64,
    /// The number of reports.
    pub reports: AtomicU64,
    /// How many threads have ended.
    pub ends: AtomicU64,
}

/// Adds what it is told.
#[derive(Drop)]
pub struct Summing {
    sums: Arc<Sums, Global>,
}

/// Two handles of sums that are 0.
pub fn new_sums(alloc: Global) -> Result<(Arc<Sums, Global>, Summing), AllocError> {
    let zero = Sums {
        successes: AtomicU64::new(0),
        numbers: AtomicU64::new(0),
        already: AtomicU64::new(0),
        reports: AtomicU64::new(0),
        ends: AtomicU64::new(0),
    };
    let sums = Arc::new(alloc, zero)?;
    let other = Arc::try_clone(&sums)?;
    Ok((sums, Summing { sums: other }))
}

impl Tell for Summing {
    ghost use Rattle.std.specs.Prelude.{None};

    ghost told = { λ t p. None };

    ghost Destination = { Unit {0} };

    ghost destination = { λ _. tt };

    fn applied<R: Wait>(&mut self, _rt: &R, successes: &[Success]) {
        for success in successes {
            let _ = self.sums.successes.fetch_add(1, Ordering::SeqCst);
            let _ = self
                .sums
                .numbers
                .fetch_add(success.name.number, Ordering::SeqCst);
            if success.status.is_none() {
                let _ = self.sums.already.fetch_add(1, Ordering::SeqCst);
            }
        }
    }

    fn reported<R: Wait>(&mut self, _rt: &R, _report: &Report) -> Result<(), AllocError> {
        let _ = self.sums.reports.fetch_add(1, Ordering::SeqCst);
        Ok(())
    }

    fn ended<R: Wait>(&mut self, _rt: &R) {
        let _ = self.sums.ends.fetch_add(1, Ordering::SeqCst);
    }
}
