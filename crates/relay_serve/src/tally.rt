//! What is counted of a worker's open operations.
use crate::board::{ROW, Shared};
use crate::timing::Timer;

/// Counts the operations of a worker that are open, for those who watch the server.
#[derive(Drop)]
pub(crate) struct Tally {
    pub(crate) shared: Shared,
    // The worker's number in its term, from 0, and how many of its operations are open, in all and in
    // each lane.
    worker: usize,
    open: u64,
    lanes: [u64; ROW],
}

impl Tally {
    /// The tally of one more worker of the term, of which no operation is open.
    pub(crate) fn new(shared: Shared) -> Tally {
        let worker = shared.add_worker();
        Tally {
            shared,
            worker,
            open: 0,
            lanes: [0; ROW],
        }
    }

    /// The worker's number in its term, from 0.
    pub(crate) fn worker(&self) -> usize {
        self.worker
    }

    /// An operation was put to this lane, for the request of this timer.
    pub(crate) fn put(&mut self, lane: u32, timer: &Timer) {
        if let Some(count) = self.lanes.get_mut(lane as usize) {
            *count = count.saturating_add(1);
            self.shared.set_open(self.worker, lane, *count);
        }
        if self.open == 0 {
            self.shared.set_since(self.worker, timer.start);
        }
        self.open = self.open.saturating_add(1);
    }

    /// An operation that was put to this lane has ended.
    pub(crate) fn end(&mut self, lane: u32) {
        if let Some(count) = self.lanes.get_mut(lane as usize) {
            *count = count.saturating_sub(1);
            self.shared.set_open(self.worker, lane, *count);
        }
        self.open = self.open.saturating_sub(1);
        if self.open == 0 {
            self.shared.clear_since(self.worker);
        }
    }
}
