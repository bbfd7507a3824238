//! What answers a worker's requests: its front, or the memory of the term.
ghost use Rattle.std.specs.Prelude.{◌≡◌, ◌⊎◌, ◌<◌, [], IfSome, OnErr, OnOk, vec_capacity, vec_len};
ghost use Rattle.http_server.specs.Response.{IsBlank};
ghost use Rattle.relay_results.specs.Words.{Mem};
ghost use Rattle.relay_front.specs.Again.{asking};
ghost use Rattle.relay_serve.specs.Remembering.{AnswersAgain, AnswersItself, entry_of};

use crate::entry::{Entry, Spoken, text_of};
use crate::marks::Marks;
use crate::memory::{Kept, LIMIT, LONG, Memory};
use crate::producing::WorkerFront;
use crate::timing::Timer;
use bytes::{Buf, Bytes};
use http::Request;
use http_server::{Response, Service};
use relay_clients::KeepsAnswers;
use relay_front::{Asked, says_applied};
use std::alloc::AllocError;
use std::sync::Wait;
use std::sync::atomic::{AtomicU64, Ordering};
use std::time::{Clock, Instant};

// What becomes of an answer that is offered, or was given again: nothing is known yet, it is kept, or it was
// sent.
const OPEN: u64 = 0;

const KEPT: u64 = 1;

const SENT: u64 = 2;

/// The front of a worker, with what it has given to the memory and answered from it.
///
/// The answer to a request that took long, and of which each write was applied, is offered to the
/// memory: it is the last of what was given, until the next request, and is taken back then unless the
/// client had left. An answer that the memory has is given once, so that each that is given again stands
/// for one whose client had left: it is kept again only if this client has left, too.
#[derive(Drop)]
pub(crate) struct Remembering<'a, R: Wait + Clock> {
    pub(crate) front: WorkerFront<'a, R>,
    pub(crate) spoken: Spoken,
    // How many bytes the answer takes that is offered. `None`: none is.
    offered: Option<u64>,
    // What became of it: `OPEN`, `KEPT` or `SENT`.
    fate: AtomicU64,
    // The marks of the answer that was given again last, which is the last of those, and for how long it
    // may be kept. `None`: the last answer was the front's. And what became of it.
    lent: Option<(Marks, Timer)>,
    lent_fate: AtomicU64,
}

impl<'a, R: Wait + Clock> Remembering<'a, R> {
    /// A front that has answered nothing.
    pub(crate) fn new(front: WorkerFront<'a, R>) -> Remembering<'a, R>
        ensures front { result.front ≡ front.entry }
        ensures given { result.spoken.given.items ≡ [] }
        ensures repeated { result.spoken.repeated.items ≡ [] }
    {
        let mut spoken = Spoken::new(front.alloc);
        let _ = spoken.repeated.reserve(1);
        Remembering {
            front,
            spoken,
            offered: None,
            fate: AtomicU64::new(OPEN),
            lent: None,
            lent_fate: AtomicU64::new(OPEN),
        }
    }

    fn memory(&self) -> &Memory {
        &self.front.relay.settler.tally.shared.memory
    }

    // Takes the answer to what the request asks for out of the memory, if it has one and there is room to
    // note it. The time that the request waits for it is that of its writes, too.
    fn recall(&self, request: &Request<Bytes>) -> Option<Kept>
        ensures asked { IfSome result (λ k. k.entry.asked ≡ asking request.now) }
        ensures room { IfSome result (λ _.
            vec_len self.now.spoken.repeated < vec_capacity self.now.spoken.repeated) }
    {
        let count = self.spoken.repeated.len();
        if count >= LIMIT {
            self.memory().fill();
        }
        if count >= LIMIT || count >= self.spoken.repeated.capacity() {
            return None;
        }
        let relay = &self.front.relay;
        let within = relay.settler.within / 2;
        let (kept, waited) = self.memory().recall(relay.rt, request, within);
        relay.settler.waited.store(waited, Ordering::SeqCst);
        kept
    }

    // Answers with what the memory had.
    fn answer_again(
        &mut self,
        kept: Kept,
        request: &Request<Bytes>,
        response: &mut Response,
    ) -> Result<(), AllocError>
        requires blank { IsBlank response.old }
        requires asked { kept.entry.asked ≡ asking request.now }
        requires room { vec_len self.old.spoken.repeated < vec_capacity self.old.spoken.repeated }
        ensures ok { OnOk result (AnswersAgain self.old.front self.old.spoken request.now response.new
            self.new.front self.new.spoken) }
        ensures err { OnErr result (self.new ≡ self.old) }
    {
        let Entry { status, text, .. } = &kept.entry;
        if let Err(fault) = self.front.repeat(request, *status, text, response) {
            self.memory().put_back(self.front.relay.rt, kept);
            return Err(fault);
        }
        let Kept {
            entry,
            marks,
            timer,
        } = kept;
        self.spoken.repeated.push_reserved(entry);
        let _ = self.spoken.repeated.reserve(1);
        self.lent = Some((marks, timer));
        self.lent_fate.store(OPEN, Ordering::SeqCst);
        self.memory().add_repeat();
        Ok(())
    }

    // What the answer to the request is remembered by, if each write was applied.
    fn entry_for(&self, request: &Request<Bytes>, response: &Response) -> Option<Entry>
        ensures { IfSome result (λ e. e ≡ entry_of request.now response.now) }
    {
        if self.spoken.given.len() >= LIMIT
            || !says_applied(response.status, response.body.chunk())
        {
            return None;
        }
        let Ok(Some(asked)) = Asked::of(self.front.alloc, request) else {
            return None;
        };
        let asked = asked.apart(self.front.alloc).ok()?;
        let text = text_of(self.front.alloc, response)?;
        Some(Entry {
            asked,
            status: response.status,
            text,
        })
    }

    // Takes back what is offered, unless it is kept.
    fn withdraw(&mut self)
        ensures front { self.new.front ≡ self.old.front }
        ensures repeated { self.new.spoken.repeated.items ≡ self.old.spoken.repeated.items }
        ensures given { (e : _) → Mem e self.new.spoken.given.items → Mem e self.old.spoken.given.items }
    {
        let Some(bytes) = self.offered else {
            return;
        };
        self.offered = None;
        if self.fate.swap(OPEN, Ordering::SeqCst) != KEPT {
            self.spoken.given.pop();
            self.memory().give_back(bytes);
        }
    }

    // Offers the answer to the memory, if each write was applied.
    fn offer(&mut self, request: &Request<Bytes>, response: &Response)
        ensures front { self.new.front ≡ self.old.front }
        ensures repeated { self.new.spoken.repeated.items ≡ self.old.spoken.repeated.items }
        ensures given { (e : _) → Mem e self.new.spoken.given.items
            → Mem e self.old.spoken.given.items ⊎ (e ≡ entry_of request.now response.now) }
    {
        let Some(entry) = self.entry_for(request, response) else {
            return;
        };
        let bytes = entry.len();
        if !self.memory().take(bytes) {
            return;
        }
        if self.spoken.given.push(entry).is_err() {
            self.memory().give_back(bytes);
            return;
        }
        self.offered = Some(bytes);
    }

    // Answers by the front.
    fn answer_itself(
        &mut self,
        request: &Request<Bytes>,
        response: &mut Response,
    ) -> Result<(), AllocError>
        requires { IsBlank response.old }
        ensures ok { OnOk result (AnswersItself self.old.front self.old.spoken request.now response.new
            self.new.front self.new.spoken) }
        ensures err { OnErr result (self.new ≡ self.old) }
    {
        let timer = Timer {
            start: Instant::now(self.front.relay.rt).ok(),
            within: LONG,
        };
        let before = self.front.relay.marks.number;
        self.front.call(request, response)?;
        let has_settled = self.front.relay.marks.number != before;
        let _ = self.spoken.repeated.reserve(1);
        self.lent = None;
        self.withdraw();
        if has_settled && timer.left(self.front.relay.rt).is_zero() {
            self.offer(request, response);
        }
        Ok(())
    }

    // Whether an answer is offered, and it is not known what becomes of it.
    fn is_offered(&self) -> bool {
        self.offered.is_some() && self.fate.load(Ordering::SeqCst) == OPEN
    }

    // Whether the last answer was given again, and it is not known what becomes of it.
    fn is_lent(&self) -> bool {
        self.lent.is_some() && self.lent_fate.load(Ordering::SeqCst) == OPEN
    }

    // Keeps the answer that is offered.
    fn keep_first(&self) {
        let relay = &self.front.relay;
        if let Some(entry) = self.spoken.given.last() {
            if self.memory().keep(relay.rt, entry, &relay.marks) {
                self.fate.store(KEPT, Ordering::SeqCst);
            }
        }
    }

    // Keeps the answer that was given again.
    fn keep_again(&self) {
        let alloc = self.front.alloc;
        if let (Some((marks, timer)), Some(entry)) = (&self.lent, self.spoken.repeated.last()) {
            if let (Ok(entry), Ok(marks)) = (entry.share(alloc), marks.copy(alloc)) {
                let timer = *timer;
                let kept = Kept {
                    entry,
                    marks,
                    timer,
                };
                self.memory().put_back(self.front.relay.rt, kept);
            }
        }
        self.lent_fate.store(KEPT, Ordering::SeqCst);
    }

    // It is no longer noted what is answered.
    fn end(&self) {
        let relay = &self.front.relay;
        self.memory().end(relay.rt, relay.settler.tally.worker());
    }

    /// The connection was served, as far as this worker does.
    pub(crate) fn rest(&self) {
        if self.may_keep() {
            self.let_go();
        }
    }
}

impl<'a, R: Wait + Clock> Service for Remembering<'a, R> {
    ghost use Rattle.std.specs.Prelude.{◌⊎◌};
    ghost use Rattle.relay_serve.specs.Remembering.{AnswersAgain, AnswersItself};

    ghost answers = { λ old request response new.
        AnswersItself old.front old.spoken request response new.front new.spoken
        ⊎ AnswersAgain old.front old.spoken request response new.front new.spoken };

    fn call(
        &mut self,
        request: &Request<Bytes>,
        response: &mut Response,
    ) -> Result<(), AllocError> {
        self.rest();
        if let Some(kept) = self.recall(request) {
            return self.answer_again(kept, request, response);
        }
        let relay = &self.front.relay;
        let is_noted = self
            .memory()
            .begin(relay.rt, relay.settler.tally.worker(), request);
        let answered = self.answer_itself(request, response);
        if is_noted && !self.may_keep() {
            self.end();
        }
        answered
    }
}

impl<'a, R: Wait + Clock> KeepsAnswers for Remembering<'a, R> {
    fn may_keep(&self) -> bool {
        self.is_offered() || self.is_lent()
    }

    fn keep(&self) {
        if self.is_lent() {
            self.keep_again();
        } else {
            self.keep_first();
        }
        self.end();
    }

    fn let_go(&self) {
        if self.is_lent() {
            self.lent_fate.store(SENT, Ordering::SeqCst);
        } else {
            self.fate.store(SENT, Ordering::SeqCst);
        }
        self.end();
    }
}
