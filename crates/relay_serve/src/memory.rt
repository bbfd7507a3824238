//! The memory of a term: the answers whose clients had left before they were sent, and the requests that
//! workers answer now.
ghost use Rattle.std.specs.Prelude.{◌≡◌, IfSome};
ghost use Rattle.relay_front.specs.Again.{asking};

use crate::board::zeros;
use crate::entry::Entry;
use crate::marks::{Marks, Writers};
use crate::timing::Timer;
use bytes::Bytes;
use http::Request;
use relay_action::{Action, DocKey};
use relay_front::Asked;
use std::alloc::{AllocError, Global};
use std::sync::atomic::{AtomicBool, AtomicU64, Ordering};
use std::sync::{Mutex, Wait};
use std::thread;
use std::time::{Clock, Duration, Instant};

/// How many answers a term keeps, and a worker gives from the memory in it.
pub(crate) const LIMIT: usize = 1_024;

/// A request that has run for so many milliseconds may be waited for, and kept.
pub(crate) const LONG: u64 = 100;

// For how many milliseconds to sleep between two looks whether a request still runs.
const NAP: u64 = 5;

// What is kept may take such a part of the bytes that may be open.
const PART: u64 = 8;

/// An answer that is kept, the marks of its request, and since when it is kept and for how long.
#[derive(Drop)]
pub(crate) struct Kept {
    pub(crate) entry: Entry,
    pub(crate) marks: Marks,
    pub(crate) timer: Timer,
}

// What is kept, and how many answers were in this term.
#[derive(Drop)]
struct Table {
    kept: Vec<Kept>,
    count: usize,
}

/// The memory of a term. A request takes a lock of the table only if an answer to one as long is kept,
/// and one of another worker only if that has answered a request for long.
#[derive(Drop)]
pub(crate) struct Memory {
    alloc: Global,
    // For how many milliseconds an answer is kept. `None`: none is.
    span: Option<u64>,
    writers: Option<Writers>,
    table: Mutex<Table>,
    // How many answers are in the table, and a bit for each length of a body, modulo 64, that one of their
    // requests has.
    kept: AtomicU64,
    lengths: AtomicU64,
    // What each worker answers now, and from which millisecond after the start on it has done so for
    // long: 0 if it answers nothing.
    running: Vec<Mutex<Option<Asked>>>,
    long: Vec<AtomicU64>,
    start: Option<Instant>,
    // At which millisecond after the start the term began.
    begun: AtomicU64,
    // How many bytes what is kept, or offered, takes, and how many it may.
    taken: AtomicU64,
    most: u64,
    // How many of them what is kept takes, and whether that leaves little room for more in this term.
    held: AtomicU64,
    filled: AtomicBool,
    // How many requests were answered with an answer that was kept.
    repeats: AtomicU64,
}

impl Table {
    // Takes out the answer to what the request asks for, if one is kept.
    fn take(&mut self, request: &Request<Bytes>) -> Option<Kept>
        ensures { IfSome result (λ k. k.entry.asked ≡ asking request.now) }
    {
        'kept: for place in 0..self.kept.len() {
            if self.kept[place].entry.asked.is_asked_by(request) {
                return Some(self.kept.remove(place));
            }
        }
        None
    }

    // The bits of the lengths of bodies.
    fn lengths(&self) -> u64 {
        let mut lengths = 0;
        for kept in &self.kept {
            lengths |= bit_of(kept.entry.asked.len());
        }
        lengths
    }
}

// The bit of the length of a body.
fn bit_of(length: usize) -> u64 {
    1 << (length % 64)
}

// For each worker, nothing that it answers.
fn none_running(alloc: Global, workers: u32) -> Result<Vec<Mutex<Option<Asked>>>, AllocError> {
    let mut running = Vec::new(alloc);
    for _ in 0..workers {
        running.push(Mutex::new(None))?;
    }
    Ok(running)
}

impl Memory {
    /// The memory of a server that is started now, which keeps answers for so many milliseconds, if it
    /// does, has so many workers, and room for so many bytes of requests. `AllocError`: allocation failed.
    pub(crate) fn new<R: Clock>(
        rt: &R,
        alloc: Global,
        span: Option<u64>,
        workers: u32,
        room: u64,
    ) -> Result<Memory, AllocError> {
        let writers = match span {
            Some(_) => Some(Writers::new(alloc)?),
            None => None,
        };
        Ok(Memory {
            alloc,
            span,
            writers,
            table: Mutex::new(Table {
                kept: Vec::new(alloc),
                count: 0,
            }),
            kept: AtomicU64::new(0),
            lengths: AtomicU64::new(0),
            running: none_running(alloc, workers)?,
            long: zeros(alloc, workers)?,
            start: Instant::now(rt).ok(),
            begun: AtomicU64::new(0),
            taken: AtomicU64::new(0),
            most: room / PART,
            held: AtomicU64::new(0),
            filled: AtomicBool::new(false),
            repeats: AtomicU64::new(0),
        })
    }

    /// A term begins, and nothing is kept.
    pub(crate) fn clear<R: Wait + Clock>(&self, rt: &R) {
        let mut table = self.table.lock(rt);
        table.kept.clear();
        table.count = 0;
        self.note_table(&table);
        self.taken.store(0, Ordering::SeqCst);
        self.held.store(0, Ordering::SeqCst);
        self.filled.store(false, Ordering::SeqCst);
        self.begun.store(self.now(rt), Ordering::SeqCst);
    }

    // What is in the table has changed.
    fn note_table(&self, table: &Table) {
        self.lengths.store(table.lengths(), Ordering::SeqCst);
        self.kept.store(table.kept.len() as u64, Ordering::SeqCst);
    }

    /// Whether there is little room for more answers, since those that were kept stay until the term ends,
    /// and the term has been at least as long as an answer is kept.
    pub(crate) fn is_filled<R: Clock>(&self, rt: &R) -> bool {
        let Some(span) = self.span else {
            return false;
        };
        let is_filled = self.filled.load(Ordering::SeqCst);
        is_filled
            && self
                .now(rt)
                .saturating_sub(self.begun.load(Ordering::SeqCst))
                >= span
    }

    /// There is little room for more answers.
    pub(crate) fn fill(&self) {
        self.filled.store(true, Ordering::SeqCst);
    }

    // Notes that one more answer is kept, of so many bytes, and whether there is little room for more.
    fn note_kept(&self, count: usize, bytes: u64) {
        let held = self.held.fetch_add(bytes, Ordering::SeqCst);
        if count >= LIMIT || held.saturating_add(bytes) > self.most / 2 {
            self.fill();
        }
    }

    /// How many answers are kept.
    pub(crate) fn kept(&self) -> u64 {
        self.kept.load(Ordering::SeqCst)
    }

    /// How many bytes they take, with those that were kept earlier in the term.
    pub(crate) fn held(&self) -> u64 {
        self.held.load(Ordering::SeqCst)
    }

    /// How many requests were answered with an answer that was kept.
    pub(crate) fn repeats(&self) -> u64 {
        self.repeats.load(Ordering::SeqCst)
    }

    /// One more request was.
    pub(crate) fn add_repeat(&self) {
        self.repeats.fetch_add(1, Ordering::SeqCst);
    }

    /// A request is to put these writes. `AllocError`: allocation failed.
    pub(crate) fn mark(&self, writes: &[(DocKey, Action)]) -> Result<Marks, AllocError> {
        match &self.writers {
            Some(writers) => writers.mark(writes),
            None => Ok(Marks::none(self.alloc)),
        }
    }

    /// It has put them, and is not answered yet.
    pub(crate) fn look_after(&self, marks: &Marks) {
        if let Some(writers) = &self.writers {
            writers.look_after(marks);
        }
    }

    // Whether an answer is kept for no longer than it may be, and no other write of one of its documents
    // was acknowledged since.
    fn still_holds<R: Clock>(&self, rt: &R, kept: &Kept) -> bool {
        match &self.writers {
            Some(writers) => !kept.timer.left(rt).is_zero() && writers.are_last(&kept.marks),
            None => false,
        }
    }

    // How many milliseconds have gone since the start.
    fn now<R: Clock>(&self, rt: &R) -> u64 {
        match self.start.map(|start| start.elapsed(rt)) {
            Some(Ok(spent)) => u64::try_from(spent.as_millis()).unwrap_or(u64::MAX),
            _ => 0,
        }
    }

    // Takes out the answer to what the request asks for, if it is kept and still holds.
    fn find<R: Wait + Clock>(&self, rt: &R, request: &Request<Bytes>) -> Option<Kept>
        ensures { IfSome result (λ k. k.entry.asked ≡ asking request.now) }
    {
        if self.lengths.load(Ordering::SeqCst) & bit_of(request.body().len()) == 0 {
            return None;
        }
        let mut table = self.table.lock(rt);
        let kept = table.take(request)?;
        self.note_table(&table);
        if self.still_holds(rt, &kept) {
            Some(kept)
        } else {
            None
        }
    }

    // Whether the worker with this number answers a request that asks for the same.
    fn answers<R: Wait>(&self, rt: &R, worker: usize, request: &Request<Bytes>) -> bool {
        let Some(running) = self.running.get(worker) else {
            return false;
        };
        match &*running.lock(rt) {
            Some(asked) => asked.is_asked_by(request),
            None => false,
        }
    }

    // The worker that has answered a request for the same for long, and from which millisecond on.
    fn runner_of<R: Wait + Clock>(&self, rt: &R, request: &Request<Bytes>) -> Option<(usize, u64)> {
        let now = self.now(rt);
        'workers: for worker in 0..self.long.len() {
            let long = self.long[worker].load(Ordering::SeqCst);
            if long > 0 && long <= now && self.answers(rt, worker, request) {
                return Some((worker, long));
            }
        }
        None
    }

    // Waits until the worker with this number has answered the request that has run for long since then, or
    // the time is over.
    fn await_runner<R: Wait + Clock>(&self, rt: &R, worker: usize, since: u64, timer: &Timer) {
        let Some(long) = self.long.get(worker) else {
            return;
        };
        'naps: for _ in rt.forever() {
            if long.load(Ordering::SeqCst) != since || timer.left(rt).is_zero() {
                return;
            }
            thread::sleep(rt, Duration::from_millis(NAP));
        }
        unreachable!()
    }

    /// Takes out the answer to what the request asks for, if it is kept. Where a worker has answered a
    /// request for the same for 100 ms, it is waited for until that is sent, or is kept, for at most so
    /// many milliseconds. Returns with it for how many milliseconds the request has waited.
    pub(crate) fn recall<R: Wait + Clock>(
        &self,
        rt: &R,
        request: &Request<Bytes>,
        within: u64,
    ) -> (Option<Kept>, u64)
        ensures { IfSome result.0 (λ k. k.entry.asked ≡ asking request.now) }
    {
        if self.span.is_none() {
            return (None, 0);
        }
        let Some((worker, since)) = self.runner_of(rt, request) else {
            return (self.find(rt, request), 0);
        };
        let timer = Timer {
            start: Instant::now(rt).ok(),
            within,
        };
        self.await_runner(rt, worker, since, &timer);
        let waited = u64::try_from(timer.spent(rt).as_millis()).unwrap_or(u64::MAX);
        (self.find(rt, request), waited)
    }

    // Notes what the worker with this number answers.
    fn note_running<R: Wait>(&self, rt: &R, worker: usize, asked: Option<Asked>) {
        if let Some(running) = self.running.get(worker) {
            *running.lock(rt) = asked;
        }
    }

    /// The worker with this number begins to answer a request now. Returns whether that is noted: it
    /// writes, and there is memory for it.
    pub(crate) fn begin<R: Wait + Clock>(
        &self,
        rt: &R,
        worker: usize,
        request: &Request<Bytes>,
    ) -> bool {
        if self.span.is_none() {
            return false;
        }
        let Ok(Some(asked)) = Asked::of(self.alloc, request) else {
            return false;
        };
        self.note_running(rt, worker, Some(asked));
        if let Some(long) = self.long.get(worker) {
            long.store(self.now(rt).saturating_add(LONG), Ordering::SeqCst);
        }
        true
    }

    /// It has answered, and whether its client has left is known.
    pub(crate) fn end<R: Wait>(&self, rt: &R, worker: usize) {
        if let Some(long) = self.long.get(worker) {
            long.store(0, Ordering::SeqCst);
        }
        self.note_running(rt, worker, None);
    }

    /// Takes so many bytes of what is kept. Returns whether there were so many.
    pub(crate) fn take(&self, bytes: u64) -> bool {
        let taken = self.taken.fetch_add(bytes, Ordering::SeqCst);
        if taken.saturating_add(bytes) <= self.most {
            return true;
        }
        self.give_back(bytes);
        false
    }

    /// Gives them back.
    pub(crate) fn give_back(&self, bytes: u64) {
        self.taken.fetch_sub(bytes, Ordering::SeqCst);
    }

    /// Keeps an answer whose client has left. Returns whether it is kept.
    pub(crate) fn keep<R: Wait + Clock>(&self, rt: &R, entry: &Entry, marks: &Marks) -> bool {
        let Some(span) = self.span else {
            return false;
        };
        let timer = Timer {
            start: Instant::now(rt).ok(),
            within: span,
        };
        if timer.start.is_none() {
            return false;
        }
        let (Ok(entry), Ok(marks)) = (entry.share(self.alloc), marks.copy(self.alloc)) else {
            return false;
        };
        let bytes = entry.len();
        let mut table = self.table.lock(rt);
        table.kept.retain(|kept| self.still_holds(rt, kept));
        if table.count >= LIMIT {
            return false;
        }
        let kept = Kept {
            entry,
            marks,
            timer,
        };
        if table.kept.push(kept).is_err() {
            return false;
        }
        table.count += 1;
        self.note_table(&table);
        self.note_kept(table.count, bytes);
        true
    }

    /// Keeps an answer again that was taken out: it was not given, or its client has left, too.
    pub(crate) fn put_back<R: Wait>(&self, rt: &R, kept: Kept) {
        let mut table = self.table.lock(rt);
        let _ = table.kept.push(kept);
        self.note_table(&table);
    }
}
