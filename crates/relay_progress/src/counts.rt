//! The counts of a run, shared between its threads.
use crate::reason::{code_of, loss_of};
use crate::refusals::{Refusal, Refusals};
use crate::sight::Sight;
use crate::statuses::Statuses;
use relay_lane::Loss;
use std::alloc::{AllocError, Global};
use std::sync::Arc;
use std::sync::atomic::{AtomicU64, Ordering};

/// Why no connection can be made.
#[derive(Clone, Copy, Debug, PartialEq, Eq)]
pub enum Trouble {
    /// No trouble is known.
    None,
    /// Nothing is listening on the address.
    Refused,
    /// The other end did not answer in time.
    TimedOut,
    /// Any other cause.
    Other,
}

impl Trouble {
    fn code(self) -> u64 {
        self as u64
    }

    fn of_code(code: u64) -> Trouble {
        match code {
            0 => Trouble::None,
            1 => Trouble::Refused,
            2 => Trouble::TimedOut,
            _ => Trouble::Other,
        }
    }
}

/// The counts of a run. Each is read separately, so they need not all be from the same moment.
#[derive(Drop)]
pub struct Counts {
    read: AtomicU64,
    requests: AtomicU64,
    operations: AtomicU64,
    answers: AtomicU64,
    ended: AtomicU64,
    settled: AtomicU64,
    refused: AtomicU64,
    repeats: AtomicU64,
    trouble: AtomicU64,
    // How many exchanges and tries to connect failed, the code of why the last one did, and 1 if
    // nothing was answered since.
    failures: AtomicU64,
    reason: AtomicU64,
    down: AtomicU64,
    too_large: AtomicU64,
    conflicts: AtomicU64,
    refusals: Refusals,
    statuses: Statuses,
}

/// Counts that several threads hold.
pub type Shared = Arc<Counts, Global>;

impl Counts {
    /// Counts that are all 0. `AllocError`: allocation failed.
    pub fn shared(alloc: Global) -> Result<Shared, AllocError> {
        let refusals = Refusals::new(alloc)?;
        let statuses = Statuses::new(alloc)?;
        Ok(Arc::new(alloc, Counts::new(refusals, statuses))?)
    }

    fn new(refusals: Refusals, statuses: Statuses) -> Counts {
        Counts {
            read: AtomicU64::new(0),
            requests: AtomicU64::new(0),
            operations: AtomicU64::new(0),
            answers: AtomicU64::new(0),
            ended: AtomicU64::new(0),
            settled: AtomicU64::new(0),
            refused: AtomicU64::new(0),
            repeats: AtomicU64::new(0),
            trouble: AtomicU64::new(0),
            failures: AtomicU64::new(0),
            reason: AtomicU64::new(0),
            down: AtomicU64::new(0),
            too_large: AtomicU64::new(0),
            conflicts: AtomicU64::new(0),
            refusals,
            statuses,
        }
    }

    /// Counts bytes that were read from a file.
    pub fn add_read(&self, bytes: u64) {
        self.read.fetch_add(bytes, Ordering::SeqCst);
    }

    /// Counts a request with this many operations.
    pub fn add_request(&self, operations: u64) {
        self.requests.fetch_add(1, Ordering::SeqCst);
        self.operations.fetch_add(operations, Ordering::SeqCst);
    }

    /// Counts an answer that settled `settled` operations, refused `refused`, and did neither with
    /// `others`.
    pub fn add_answer(&self, settled: u64, refused: u64, others: u64) {
        self.answers.fetch_add(1, Ordering::SeqCst);
        self.settled.fetch_add(settled, Ordering::SeqCst);
        self.refused.fetch_add(refused, Ordering::SeqCst);
        self.add_loss(others);
    }

    /// Counts a request that was lost, and so did not settle this many operations.
    pub fn add_loss(&self, others: u64) {
        self.ended.fetch_add(1, Ordering::SeqCst);
        self.repeats.fetch_add(others, Ordering::SeqCst);
    }

    /// Sets how the last try to make a connection ended.
    pub fn set_trouble(&self, trouble: Trouble) {
        self.trouble.store(trouble.code(), Ordering::SeqCst);
    }

    /// How the last try to make a connection ended.
    pub fn trouble(&self) -> Trouble {
        Trouble::of_code(self.trouble.load(Ordering::SeqCst))
    }

    /// Notes that an exchange, or a try to connect, failed.
    pub fn note_failure(&self, reason: Loss) {
        self.reason.store(code_of(reason), Ordering::SeqCst);
        self.failures.fetch_add(1, Ordering::SeqCst);
        self.down.store(1, Ordering::SeqCst);
    }

    /// Notes that a request was answered with this status.
    pub fn note_answer(&self, status: u16) {
        self.statuses.add(status);
        if self.down.load(Ordering::SeqCst) != 0 {
            self.down.store(0, Ordering::SeqCst);
        }
    }

    /// Notes that a request was answered with 413.
    pub fn note_too_large(&self) {
        self.too_large.fetch_add(1, Ordering::SeqCst);
    }

    /// Notes that an operation is reported as a conflict.
    pub fn note_conflict(&self) {
        self.conflicts.fetch_add(1, Ordering::SeqCst);
    }

    /// Notes a refusal: its status, and the type of the error, or none if it is that of a whole
    /// request. The first of each is kept, unless an allocation for it fails.
    pub fn note_refusal(&self, alloc: Global, status: u16, kind: Option<&str>) {
        self.refusals.note(alloc, status, kind);
    }

    /// The refusal at this place, from 0. `None` at the end.
    pub fn refusal(&self, place: usize) -> Option<&Refusal> {
        self.refusals.get(place)
    }

    /// Whether the refusal at this place is at an earlier one too.
    pub fn is_repeated(&self, place: usize) -> bool {
        self.refusals.is_repeated(place)
    }

    /// What is to be seen this many milliseconds after the run began.
    pub fn sight(&self, moment: u64) -> Sight {
        Sight {
            moment,
            is_down: self.down.load(Ordering::SeqCst) != 0,
            reason: loss_of(self.reason.load(Ordering::SeqCst)),
            failures: self.failures.load(Ordering::SeqCst),
            requests: self.requests(),
            too_large: self.too_large.load(Ordering::SeqCst),
            conflicts: self.conflicts.load(Ordering::SeqCst),
        }
    }

    /// The number of bytes that were read.
    pub fn read(&self) -> u64 {
        self.read.load(Ordering::SeqCst)
    }

    /// The number of requests that were sent.
    pub fn requests(&self) -> u64 {
        self.requests.load(Ordering::SeqCst)
    }

    /// The number of operations in the requests.
    pub fn operations(&self) -> u64 {
        self.operations.load(Ordering::SeqCst)
    }

    /// The number of requests that were answered.
    pub fn answers(&self) -> u64 {
        self.answers.load(Ordering::SeqCst)
    }

    /// The number of requests that were answered with this status.
    pub fn answered_with(&self, status: u16) -> u64 {
        self.statuses.get(status)
    }

    /// The number of requests that were answered or lost.
    pub fn ended(&self) -> u64 {
        self.ended.load(Ordering::SeqCst)
    }

    /// The number of operations that answers settled as applied.
    pub fn settled(&self) -> u64 {
        self.settled.load(Ordering::SeqCst)
    }

    /// The number of operations that answers refused for good.
    pub fn refused(&self) -> u64 {
        self.refused.load(Ordering::SeqCst)
    }

    /// The number of times that a request did not settle one of its operations.
    pub fn repeats(&self) -> u64 {
        self.repeats.load(Ordering::SeqCst)
    }
}
