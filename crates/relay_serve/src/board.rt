//! What the threads of a server share.
use crate::clerk::say_refusal;
use crate::counts::Counts;
use crate::memory::Memory;
use crate::options::{ServeLog, ServeOptions};
use relay_clients::{Places, Room, Signals};
use relay_core::config::LANE_LIMIT;
use std::alloc::{AllocError, Global};
use std::net::SocketAddr;
use std::sync::Arc;
use std::sync::atomic::{AtomicU64, Ordering};
use std::time::{Clock, Instant};

// How many operations of a term may be reported before the next one begins: lanes keep reports until
// their term ends.
const REPORTS: u64 = 100_000;

// The length of a row: the maximum number of lanes.
pub(crate) const ROW: usize = LANE_LIMIT as usize;

/// Whether the server or its term ends, how many connections wait for a worker and how many are
/// served, and what is counted. Each part is read separately.
#[derive(Drop)]
pub struct Board {
    // What is said on standard error, and by what.
    log: ServeLog,
    host: HostRuntime,
    alloc: Global,
    ending: AtomicU64,
    shut: AtomicU64,
    turning: AtomicU64,
    failed: AtomicU64,
    waiting: AtomicU64,
    served: AtomicU64,
    /// The connections that are open.
    pub(crate) places: Places,
    /// The bytes of requests that are open.
    pub(crate) room: Room,
    /// The answers whose clients had left.
    pub(crate) memory: Memory,
    // How many operations each worker has put to each lane that have not ended: a row of a number for
    // each lane there may be, so that no two workers write to one line of a processor's cache.
    open: Vec<AtomicU64>,
    lanes: usize,
    // When the server was started. Since when each worker has had open operations, in milliseconds
    // after that, and 1 more; 0 if it has none. And how many workers the term has.
    start: Option<Instant>,
    since: Vec<AtomicU64>,
    workers: AtomicU64,
    // How many connections were closed as soon as they were accepted, and how often operations that
    // were to be set aside were not.
    refused: AtomicU64,
    unsaved: AtomicU64,
    epoch: AtomicU64,
    terms: AtomicU64,
    // How many operations of a term may end before the next one begins.
    longest: u64,
    // How many operations had ended when the term began, and how many of them may be reported.
    ended: AtomicU64,
    reported: AtomicU64,
    /// What is counted of requests.
    pub(crate) counts: Counts,
    /// What the wires count.
    pub(crate) index: relay_progress::Shared,
    // Since when the index has been seen to be down, as `since`, and how many requests it had answered
    // then.
    down: AtomicU64,
    answered: AtomicU64,
}

/// The board of a server.
pub type Shared = Arc<Board, Global>;

impl Signals for Board {
    fn is_ending(&self) -> bool {
        self.ending.load(Ordering::SeqCst) > 0
    }

    fn are_waiting(&self) -> bool {
        self.waiting() > 0 || self.is_turning()
    }

    fn add_waiting(&self) {
        self.waiting.fetch_add(1, Ordering::SeqCst);
    }

    fn take_waiting(&self) {
        self.waiting.fetch_sub(1, Ordering::SeqCst);
    }

    fn add_refused(&self) {
        self.refused.fetch_add(1, Ordering::SeqCst);
    }

    fn note_refusal(&self, status: u16, peer: Option<SocketAddr>) {
        if self.log.has_requests() {
            say_refusal(self.host, self.alloc, peer, status);
        }
    }

    fn shut(&self) {
        self.shut.store(1, Ordering::SeqCst);
    }
}

impl Board {
    /// The board of a server with these options, which is started now, and whose first term has not
    /// begun.
    pub fn shared(
        host: &HostRuntime,
        alloc: Global,
        options: &ServeOptions,
    ) -> Result<Shared, AllocError> {
        let counts = Counts::new(alloc)?;
        let places = Places::new(alloc)?;
        let room = Room::new(alloc, options.room)?;
        let memory = Memory::new(
            host,
            alloc,
            options.remember,
            options.config.producers,
            options.room,
        )?;
        let open = zeros(alloc, options.config.producers.saturating_mul(ROW as u32))?;
        let since = zeros(alloc, options.config.producers)?;
        let index = relay_progress::Counts::shared(alloc)?;
        Ok(Arc::new(
            alloc,
            Board {
                log: options.log,
                host: *host,
                alloc,
                ending: AtomicU64::new(0),
                shut: AtomicU64::new(0),
                turning: AtomicU64::new(0),
                failed: AtomicU64::new(0),
                waiting: AtomicU64::new(0),
                served: AtomicU64::new(0),
                places,
                room,
                memory,
                open,
                lanes: options.config.lanes as usize,
                start: Instant::now(host).ok(),
                since,
                workers: AtomicU64::new(0),
                refused: AtomicU64::new(0),
                unsaved: AtomicU64::new(0),
                epoch: AtomicU64::new(0),
                terms: AtomicU64::new(0),
                longest: options.longest,
                ended: AtomicU64::new(0),
                reported: AtomicU64::new(0),
                counts,
                index,
                down: AtomicU64::new(0),
                answered: AtomicU64::new(0),
            },
        )?)
    }

    /// A term begins, in this epoch. All operations of the one before have ended, whether its
    /// workers heard so or not.
    pub(crate) fn begin(&self, epoch: u32) {
        clear(&self.open);
        clear(&self.since);
        self.workers.store(0, Ordering::SeqCst);
        let ends = self.counts.ends();
        self.ended.store(ends.all(), Ordering::SeqCst);
        self.reported.store(ends.reports(), Ordering::SeqCst);
        self.epoch.store(u64::from(epoch), Ordering::SeqCst);
        self.terms.fetch_add(1, Ordering::SeqCst);
        self.turning.store(0, Ordering::SeqCst);
    }

    /// Has the term end if it is due: so many of its operations have ended, or may be reported, or there
    /// is little room for more answers to keep. The last term goes on while connections are open.
    pub(crate) fn turn_if_due<R: Clock>(&self, rt: &R) {
        let ends = self.counts.ends();
        let ended = ends.all().saturating_sub(self.ended.load(Ordering::SeqCst));
        let reported = ends
            .reports()
            .saturating_sub(self.reported.load(Ordering::SeqCst));
        let is_full = reported >= REPORTS || self.memory.is_filled(rt);
        let is_due = ended >= self.longest || is_full;
        if is_due && !self.is_ending() {
            self.turning.store(1, Ordering::SeqCst);
        }
    }

    /// Whether the term ends: its workers leave their connections to the next one.
    pub(crate) fn is_turning(&self) -> bool {
        self.turning.load(Ordering::SeqCst) > 0
    }

    /// The epoch of the term.
    pub(crate) fn epoch(&self) -> u64 {
        self.epoch.load(Ordering::SeqCst)
    }

    /// How many terms have begun.
    pub(crate) fn terms(&self) -> u64 {
        self.terms.load(Ordering::SeqCst)
    }

    /// From now on no further request is taken.
    pub fn end(&self) {
        self.ending.store(1, Ordering::SeqCst);
    }

    /// Whether no further request is taken, and no connection is open or accepted any more.
    pub(crate) fn has_ended(&self) -> bool {
        let is_shut = self.shut.load(Ordering::SeqCst) > 0;
        self.is_ending() && is_shut && self.places.taken() == 0
    }

    /// So many operations that this worker has put to this lane have not ended.
    pub(crate) fn set_open(&self, worker: usize, lane: u32, count: u64) {
        let place = worker.saturating_mul(ROW).saturating_add(lane as usize);
        if let Some(open) = self.open.get(place) {
            open.store(count, Ordering::SeqCst);
        }
    }

    /// How many operations were put to the lane with this number, from 0, and have not ended, as far as
    /// workers know. `None`: there is no such lane.
    pub(crate) fn open(&self, lane: usize) -> Option<u64> {
        if lane >= self.lanes {
            return None;
        }
        let mut count = 0u64;
        for row in self.open.chunks(ROW) {
            if let Some(open) = row.get(lane) {
                count = count.saturating_add(open.load(Ordering::SeqCst));
            }
        }
        Some(count)
    }

    /// The term has one more worker. Returns its number, from 0.
    pub(crate) fn add_worker(&self) -> usize {
        usize::try_from(self.workers.fetch_add(1, Ordering::SeqCst)).unwrap_or(usize::MAX)
    }

    // The number of milliseconds from the start to this moment.
    fn moment(&self, at: Option<Instant>) -> Option<u64> {
        let since = at?.saturating_duration_since(self.start?);
        Some(u64::try_from(since.as_millis()).unwrap_or(u64::MAX))
    }

    /// The worker with this number has open operations since then.
    pub(crate) fn set_since(&self, worker: usize, at: Option<Instant>) {
        if let (Some(since), Some(moment)) = (self.since.get(worker), self.moment(at)) {
            since.store(moment.saturating_add(1), Ordering::SeqCst);
        }
    }

    /// It has none.
    pub(crate) fn clear_since(&self, worker: usize) {
        if let Some(since) = self.since.get(worker) {
            since.store(0, Ordering::SeqCst);
        }
    }

    /// For how long the worker that has had open operations for the longest has had some, in
    /// milliseconds.
    pub(crate) fn oldest(&self, now: Option<Instant>) -> u64 {
        let mut first: Option<u64> = None;
        for since in &self.since {
            let moment = since.load(Ordering::SeqCst).checked_sub(1);
            first = match (first, moment) {
                (Some(one), Some(other)) => Some(one.min(other)),
                (one, other) => one.or(other),
            };
        }
        match (first, self.moment(now)) {
            (Some(first), Some(now)) => now.saturating_sub(first),
            _ => 0,
        }
    }

    /// How many connections were closed as soon as they were accepted, since too many were open.
    pub(crate) fn refused(&self) -> u64 {
        self.refused.load(Ordering::SeqCst)
    }

    /// Operations that were to be set aside were not.
    pub(crate) fn add_unsaved(&self) {
        self.unsaved.fetch_add(1, Ordering::SeqCst);
    }

    /// For how many requests operations that were to be set aside were not.
    pub(crate) fn unsaved(&self) -> u64 {
        self.unsaved.load(Ordering::SeqCst)
    }

    /// A lane has ended before its time, or a worker could not go on: the server ends.
    pub fn fail(&self) {
        self.failed.store(1, Ordering::SeqCst);
        self.end();
    }

    /// Whether it has failed.
    pub fn has_failed(&self) -> bool {
        self.failed.load(Ordering::SeqCst) > 0
    }

    /// How many connections wait for a worker.
    pub fn waiting(&self) -> u64 {
        self.waiting.load(Ordering::SeqCst)
    }

    /// A worker serves one more connection.
    pub fn add_served(&self) {
        self.served.fetch_add(1, Ordering::SeqCst);
    }

    /// A worker no longer serves a connection.
    pub fn take_served(&self) {
        self.served.fetch_sub(1, Ordering::SeqCst);
    }

    /// How many connections workers serve.
    pub fn served(&self) -> u64 {
        self.served.load(Ordering::SeqCst)
    }

    /// Whether the index has not answered since an exchange or a try to connect failed last.
    pub fn is_down(&self) -> bool {
        self.index.sight(0).is_down
    }

    // For how many milliseconds the index has been down without a break each time that somebody looked,
    // this time, too. `None`: it is not down.
    fn down_for(&self, now: Option<Instant>) -> Option<u64> {
        if !self.is_down() {
            self.down.store(0, Ordering::SeqCst);
            return None;
        }
        let moment = self.moment(now).unwrap_or(0).saturating_add(1);
        let answers = self.index.answers();
        let since = self.down.load(Ordering::SeqCst);
        if since == 0 || self.answered.swap(answers, Ordering::SeqCst) != answers {
            self.answered.store(answers, Ordering::SeqCst);
            self.down.store(moment, Ordering::SeqCst);
            return Some(0);
        }
        Some(moment.saturating_sub(since))
    }

    /// Why no writes can be settled now, if so: of an index that is down, for how many seconds it has been
    /// seen so. `AllocError`: allocation failed.
    pub(crate) fn trouble(
        &self,
        alloc: Global,
        now: Option<Instant>,
    ) -> Result<Option<String>, AllocError> {
        if self.has_failed() {
            return Ok(Some(String::from_str(alloc, "a lane has ended")?));
        }
        if self.is_ending() {
            return Ok(Some(String::from_str(alloc, "the relay is stopping")?));
        }
        match self.down_for(now) {
            Some(millis) => Ok(Some(unanswered(alloc, millis / 1_000)?)),
            None => Ok(None),
        }
    }
}

// The index is down, for so many seconds, or was not seen so before.
fn unanswered(alloc: Global, seconds: u64) -> Result<String, AllocError> {
    if seconds == 0 {
        return String::from_str(alloc, "the index does not answer");
    }
    format!(in alloc; "the index has not answered for at least {seconds} s")
}

// So many numbers, which are 0.
pub(crate) fn zeros(alloc: Global, count: u32) -> Result<Vec<AtomicU64>, AllocError> {
    let mut numbers = Vec::new(alloc);
    for _ in 0..count {
        numbers.push(AtomicU64::new(0))?;
    }
    Ok(numbers)
}

fn clear(numbers: &[AtomicU64]) {
    for number in numbers {
        number.store(0, Ordering::SeqCst);
    }
}

/// One more handle of a board.
pub fn share(board: &Shared) -> Result<Shared, AllocError> {
    Ok(Arc::try_clone(board)?)
}
