//! A worker's producer, which settles the writes of requests.
ghost use Rattle.std.specs.Prelude.{◌≡◌, ◌⊎◌, ℕ, ◌+◌, ◌≤◌, [], ◌∷◌, ◌++◌, IfErr, IfNone, IfOk, IfSome};
ghost use Rattle.std.specs.Prelude.{List, OnErr, false, length, vec_capacity, vec_len};
ghost use Rattle.relay_producer.specs.Ends.{ClosesAll};
ghost use Rattle.relay_receipts.specs.Windows.{WindowState, without_ended};
ghost use Rattle.relay_common.specs.Identities.{identity_of, identity_of_closed};
ghost use Rattle.relay_serve.specs.Batches.{KeepsPlaces, FitsFrom};
ghost use Rattle.relay_serve.specs.Putting.{Hears, Tries, Becomes, PutsSome, is_final};
ghost use Rattle.relay_serve.specs.Settling.{Stays, Settles, Event, WasHeard};

use crate::batch::{Batch, end_of, finish_ends};
use crate::tally::Tally;
use crate::timing::Timer;
use relay_action::{Action, DocKey};
use relay_front::{End, Settled};
use relay_producer::{ClosedProducer, Receipt};
use relay_receipts::{Gone, Notice, ReceiptTake, WindowFault, WindowFaultKind, WindowedProducer};
use relay_telling::Ending;
use std::alloc::{AllocError, Global};
use std::sync::Wait;
use std::sync::atomic::{AtomicU64, Ordering};
use std::thread;
use std::time::{Clock, Duration, Instant};

// While more than so many writes are open, a worker looks for notices now and then, and sleeps between two
// looks: at first for so many microseconds, and a fourth longer each time that it finds none, up to so
// many.
const MANY: u64 = 32;

const NAP: u64 = 100;

const LONG_NAP: u64 = 2_000;

/// What settles the writes of a worker's requests: its producer, with a window of operations that
/// may be open.
#[derive(Drop)]
pub(crate) struct Settler {
    pub(crate) alloc: Global,
    pub(crate) producer: WindowedProducer<Ending>,
    pub(crate) tally: Tally,
    /// How long a request may take, in milliseconds.
    pub(crate) within: u64,
    /// For how many milliseconds the next one has waited already.
    pub(crate) waited: AtomicU64,
}

// What became of a write.
#[derive(Drop)]
enum Put {
    Done(Receipt),
    Late,
    Gone,
}

// Notes what a notice says. One that says that its lane tells no more ends the server.
fn note(tally: &mut Tally, batch: &mut Batch, notice: Notice<Ending>)
    ensures keeps { KeepsPlaces batch.old batch.new }
    ensures noted { (lanes number : ℕ) → (events : List Event) → FitsFrom lanes number events batch.old
        → FitsFrom lanes number (events ++ WasHeard notice ∷ []) batch.new }
{
    let Notice { lane, told } = notice;
    match told {
        Some(ending) => {
            let (number, end) = end_of(ending);
            tally.end(lane);
            batch.note(number, end);
        }
        None => {
            tally.shared.fail();
            batch.lose(lane);
        }
    }
}

// The places for the ends of so many writes, and for what is noted of them.
fn make_room(alloc: Global, count: usize) -> Result<(Vec<End>, Batch), AllocError>
    ensures ends { IfOk result (λ r. (vec_len r.0 ≡ 0) × (count ≤ vec_capacity r.0) × (r.0.items ≡ [])) }
    ensures batch { IfOk result (λ r. (vec_len r.1.items ≡ 0) × (count ≤ vec_capacity r.1.items)
        × (r.1.items.items ≡ [])) }
{
    let batch = Batch::new(alloc, count)?;
    let ends = Vec::with_capacity(alloc, count)?;
    Ok((ends, batch))
}

impl Settler {
    // Takes the next notice, and sleeps after each look, until the time is over.
    fn look<R: Wait + Clock>(
        &mut self,
        rt: &R,
        timer: &Timer,
    ) -> Result<Option<Notice<Ending>>, Gone>
        ensures stays { Stays self.old.producer self.new.producer }
        ensures same { self.new.producer.producer ≡ self.old.producer.producer }
        ensures taken { IfOk result (λ o. IfSome o (λ n. self.new.producer.receipts.taken
            ≡ self.old.producer.receipts.taken ++ n ∷ [])) }
        ensures pending { IfOk result (λ o. IfSome o (λ n. self.new.producer.pending
            ≡ without_ended n.told self.old.producer.pending)) }
        ensures none { IfOk result (λ o. IfNone o (self.new.producer ≡ self.old.producer)) }
        ensures gone { IfErr result (λ _. self.new.producer ≡ self.old.producer) }
    {
        let mut nap = NAP;
        'looks: for _ in rt.forever() {
            let taken = self.producer.try_take(rt)?;
            if taken.is_some() || timer.left(rt).is_zero() {
                return Ok(taken);
            }
            thread::sleep(rt, Duration::from_micros(nap));
            nap = nap.saturating_add(nap / 4).min(LONG_NAP);
        }
        unreachable!()
    }

    // Takes the next notice, unless the time is over. Where many writes are open it is not waited for
    // in the channel, where each notice would wake the thread.
    fn take<R: Wait + Clock>(
        &mut self,
        rt: &R,
        timer: &Timer,
        open: u64,
    ) -> Result<Option<Notice<Ending>>, Gone>
        ensures stays { Stays self.old.producer self.new.producer }
        ensures same { self.new.producer.producer ≡ self.old.producer.producer }
        ensures taken { IfOk result (λ o. IfSome o (λ n. self.new.producer.receipts.taken
            ≡ self.old.producer.receipts.taken ++ n ∷ [])) }
        ensures pending { IfOk result (λ o. IfSome o (λ n. self.new.producer.pending
            ≡ without_ended n.told self.old.producer.pending)) }
        ensures none { IfOk result (λ o. IfNone o (self.new.producer ≡ self.old.producer)) }
        ensures gone { IfErr result (λ _. self.new.producer ≡ self.old.producer) }
    {
        if open > MANY {
            self.look(rt, timer)
        } else {
            self.producer.take_within(rt, timer.left(rt))
        }
    }

    // The next notice, unless the time is over or no lane tells any more, where so many writes are
    // open.
    fn next_notice<R: Wait + Clock>(
        &mut self,
        rt: &R,
        timer: &Timer,
        open: u64,
    ) -> Option<Notice<Ending>>
        ensures stays { Stays self.old.producer self.new.producer }
        ensures same { self.new.producer.producer ≡ self.old.producer.producer }
        ensures taken { IfSome result (λ n. self.new.producer.receipts.taken
            ≡ self.old.producer.receipts.taken ++ n ∷ []) }
        ensures pending { IfSome result (λ n. self.new.producer.pending
            ≡ without_ended n.told self.old.producer.pending) }
        ensures none { IfNone result (self.new.producer ≡ self.old.producer) }
    {
        match self.take(rt, timer, open) {
            Ok(notice) => notice,
            Err(_) => {
                self.tally.shared.fail();
                None
            }
        }
    }

    // Waits for a notice and notes it. Returns whether there was one.
    fn hear<R: Wait + Clock>(&mut self, rt: &R, batch: &mut Batch, timer: &Timer) -> bool
        ensures stays { Stays self.old.producer self.new.producer }
        ensures keeps { KeepsPlaces batch.old batch.new }
        ensures hears { Hears self.old.producer self.new.producer batch.old batch.new }
        ensures none { result ≡ false → self.new.producer ≡ self.old.producer }
    {
        match self.next_notice(rt, timer, batch.open()) {
            Some(notice) => {
                note(&mut self.tally, batch, notice);
                true
            }
            None => false,
        }
    }

    // Puts a write, if the window has room.
    fn try_put<R: Wait>(
        &mut self,
        rt: &R,
        key: DocKey,
        action: Action,
    ) -> Result<Receipt, WindowFault>
        ensures stays { Stays self.old.producer self.new.producer }
        ensures tries { Tries key action self.old.producer result self.new.producer }
    {
        self.producer.put(rt, key, action)
    }

    // Puts a write, after waiting for room in the window.
    fn put<R: Wait + Clock>(
        &mut self,
        rt: &R,
        batch: &mut Batch,
        key: DocKey,
        action: Action,
        timer: &Timer,
    ) -> Put
        ensures stays { Stays self.old.producer self.new.producer }
        ensures keeps { KeepsPlaces batch.old batch.new }
        ensures became { (mid : WindowState Ending) × Hears self.old.producer mid batch.old batch.new
            × Becomes key action mid result self.new.producer }
    {
        let mut key = key;
        let mut action = action;
        'tries: for _ in rt.forever() {
            let fault = match self.try_put(rt, key, action) {
                Ok(receipt) => {
                    self.tally.put(receipt.lane, timer);
                    return Put::Done(receipt);
                }
                Err(fault) => fault,
            };
            let WindowFault {
                kind,
                key: kept,
                action: left,
            } = fault;
            if is_final(kind) {
                self.tally.shared.fail();
                return Put::Gone;
            }
            if !self.hear(rt, batch, timer) {
                return Put::Late;
            }
            key = kept;
            action = left;
        }
        unreachable!()
    }

    // Puts the writes, until one is not put. Returns how the others end.
    fn put_all<R: Wait + Clock>(
        &mut self,
        rt: &R,
        batch: &mut Batch,
        writes: Vec<(DocKey, Action)>,
        timer: &Timer,
    ) -> End
        requires room { vec_len batch.old.items + vec_len writes ≤ vec_capacity batch.old.items }
        requires none { batch.old.items.items ≡ [] }
        ensures stays { Stays self.old.producer self.new.producer }
        ensures len { vec_len batch.new.items ≤ vec_len batch.old.items + vec_len writes }
        ensures puts { PutsSome self.old.producer writes.items result self.new.producer batch.new }
        ensures others { (result ≡ End.Unput) ⊎ (result ≡ End.Gone) }
    {
        'writes: for (key, action) in writes {
            match self.put(rt, batch, key, action, timer) {
                Put::Done(receipt) => batch.add(receipt.name.number, receipt.lane),
                Put::Late => return End::Unput,
                Put::Gone => return End::Gone,
            }
        }
        End::Unput
    }

    // Waits until each write that was put has ended, or the time is over.
    fn hear_all<R: Wait + Clock>(&mut self, rt: &R, batch: &mut Batch, timer: &Timer)
        ensures stays { Stays self.old.producer self.new.producer }
        ensures keeps { KeepsPlaces batch.old batch.new }
        ensures hears { Hears self.old.producer self.new.producer batch.old batch.new }
    {
        'notices: for _ in rt.forever() {
            if batch.is_over() {
                return;
            }
            if !self.hear(rt, batch, timer) {
                return;
            }
        }
        unreachable!()
    }

    /// Puts the writes in their order, waits until each has ended or the time of the request is
    /// over, and returns how each ended.
    pub(crate) fn settle<R: Wait + Clock>(
        &mut self,
        rt: &R,
        writes: Vec<(DocKey, Action)>,
    ) -> Result<Settled, AllocError>
        ensures ok { IfOk result
            (λ s. Settles self.old.producer writes.items s.ends.items self.new.producer) }
        ensures each { IfOk result (λ s. length s.ends.items ≡ length writes.items) }
        ensures err { OnErr result (self.new ≡ self.old) }
    {
        let count = writes.len();
        let (ends, mut batch) = match make_room(self.alloc, count) {
            Ok(room) => room,
            Err(fault) => return Err(fault),
        };
        let timer = Timer {
            start: Instant::now(rt).ok(),
            within: self
                .within
                .saturating_sub(self.waited.load(Ordering::SeqCst)),
        };
        let others = self.put_all(rt, &mut batch, writes, &timer);
        self.hear_all(rt, &mut batch, &timer);
        let ends = finish_ends(ends, batch, &others, count);
        let took = u64::try_from(timer.spent(rt).as_millis()).unwrap_or(u64::MAX);
        Ok(Settled { ends, took })
    }

    /// Closes the producer, and returns it with its end of the channel of its receipts.
    pub(crate) fn close<R: Wait>(self, rt: &R) -> (ClosedProducer, ReceiptTake<Ending>)
        ensures closes { ClosesAll self.producer.producer.ends result.0.ends }
        ensures same { (result.0.producer ≡ self.producer.producer.producer)
            × (result.0.put ≡ self.producer.producer.put) }
        ensures identity { identity_of_closed result.0 ≡ identity_of self.producer.producer }
        ensures receipts { result.1 ≡ self.producer.receipts }
    {
        let Settler {
            alloc: _,
            producer,
            tally: _,
            within: _,
            waited: _,
        } = self;
        producer.close(rt)
    }
}

// Whether a write that was refused so can never be put.
fn is_final(kind: WindowFaultKind) -> bool
    ensures { result ≡ is_final kind }
{
    match kind {
        WindowFaultKind::WindowFull => false,
        WindowFaultKind::Put(_) => true,
    }
}
