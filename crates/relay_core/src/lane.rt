//! The lane.
ghost use Rattle.std.specs.Prelude.{◌≡◌, ◌≢◌, unwrap_or, ◌≤◌, ◌<◌, ◌+◌, ◌-◌, ◌/◌, []};
ghost use Rattle.std.specs.Prelude.{true, Some, None, IfOk, OnOk, OnErr, IfErr, IfSome, OnSome};
ghost use Rattle.std.specs.Prelude.{IfNone, map, option_map, is_some, is_ok, if◌then◌else◌, length};
ghost use Rattle.std.specs.List.{list_all};
ghost use Rattle.relay_results.specs.Outside.{Answer, Lost, Whole, Items};
ghost use Rattle.relay_results.specs.Matching.{matches};
ghost use Rattle.relay_results.specs.Verdicts.{is_halved, is_retried_whole};
ghost use Rattle.relay_flight.specs.Flying.{batch_at};
ghost use Rattle.relay_delivery.specs.Lane.{candidates};
ghost use Rattle.relay_core.specs.Limits.{is_valid};
ghost use Rattle.relay_core.specs.Walk.{report_of};
ghost use Rattle.relay_core.specs.Memory.{SaysAs, TellsAs, IsHalf};
ghost use Rattle.relay_core.specs.State.{fresh, after_op, after_take, take_fault, is_put};
ghost use Rattle.relay_core.specs.State.{all_closed};
ghost use Rattle.relay_core.specs.State.{after_tick, after_flush, is_flying, oldest, writes_of};
ghost use Rattle.relay_core.specs.State.{after_answer_to, without_successes};
ghost use Rattle.relay_core.specs.State.{explained_at, AreCounts, next_batch, after_request, looks_after};
ghost use Rattle.relay_core.specs.State.{looked_at_least, due_in, is_finished, IsLane};

use crate::config::{RelayConfig, first_in};
use crate::count::is_due;
use crate::fates::Way;
use crate::gather::{Due, due_batch, is_roomy, less, no_room};
use crate::launch::launch;
use crate::report::Report;
use crate::settle::{explain, settle_walk};
use crate::settled::{NotFlying, Settled, TakeFault, Totals};
use crate::success::Success;
use crate::taking::{NoRoom, kept_of, make_room, op_of, refused};
use relay_action::{Body, Mail, Op, Text, Write};
use relay_batch::{BatchItem, Room};
use relay_flight::Flight;
use relay_held::{Held, NotHeld};
use relay_results::{Cause, LastTry, Loss, Outcome, matches};
use std::alloc::{AllocError, Global};
use std::marker::Model;

/// A lane: what it holds, what is in flight, and what it reports. Contracts see its `State`, and
/// separately its looks.
#[derive(Debug, Drop)]
pub struct Lane {
    alloc: Global,
    config: RelayConfig,
    // The first version that it assigns.
    first: u64,
    mark: u64,
    taken: u64,
    applied: u64,
    already: u64,
    closed: Vec<bool>,
    // As long as this is not used up, no batch is due.
    room: Room,
    // While this is not used up and all places in flight are taken, more may be taken before an
    // answer is waited for.
    ahead: Room,
    held: Held,
    flight: Flight,
    reports: Vec<Report>,
    // Those that ended as applied and were not forgotten yet.
    successes: Vec<Success>,
}

impl Model for Lane {
    ghost use Rattle.relay_core.specs.State.{Seen};
    ghost use Rattle.relay_core.specs.View.{view_of, IsSound};

    ghost Value = { Seen };

    ghost view = { view_of };

    ghost invariant = { IsSound };
}

fn are_closed(closed: &[bool]) -> bool
    ensures { result ≡ list_all (λ b. b) closed.now }
{
    closed.iter().all(|x| *x)
}

// What the status of a request as a whole means for each of its items.
fn way_of(status: u16, items: usize) -> Way
    requires { items ≤ 4294967295 }
    ensures { result ≡ (if is_halved items status then Way.Halved (items / 2)
        else if is_retried_whole status then Way.ByEntry (LastTry.Whole status)
        else Way.Reported status) }
{
    match status {
        413 if items >= 2 => Way::Halved((items / 2) as u32),
        429 | 502 | 503 | 504 => Way::ByEntry(LastTry::Whole(status)),
        _ => Way::Reported(status),
    }
}

impl Lane {
    /// A lane that holds nothing, with a valid config. Its senders are the producers, numbered from
    /// 0, and the control, whose number is one above that of the last producer. `AllocError`:
    /// allocating the places in flight or the senders failed.
    pub fn new(alloc: Global, config: RelayConfig) -> Result<Lane, AllocError>
        requires { is_valid config ≡ true }
        ensures { IfOk result (λ l. l ≡ record { state = fresh config; looks = 0 }) }
    {
        Ok(Lane {
            alloc,
            config,
            first: first_in(config.epoch),
            mark: 0,
            taken: 0,
            applied: 0,
            already: 0,
            closed: vec![in alloc; false; config.producers as usize + 1]?,
            room: no_room(),
            ahead: no_room(),
            held: Held::new(alloc),
            flight: Flight::new(alloc, config.in_flight)?,
            reports: Vec::new(alloc),
            successes: Vec::new(alloc),
        })
    }

    /// A tick of the clock passes. The clock saturates at `u64::MAX`.
    pub fn tick(&mut self)
        ensures ticked { self.new.state ≡ after_tick self.old.state }
        ensures looks { self.new.looks ≡ self.old.looks }
    {
        self.room = no_room();
        self.held.tick();
    }

    /// Sets the flush mark to the last version assigned: what was taken so far is to be sent,
    /// whether or not the batch is full. It has no effect if no version was assigned yet.
    pub fn flush(&mut self)
        ensures flushed { self.new.state ≡ after_flush self.old.state }
        ensures looks { self.new.looks ≡ self.old.looks }
    {
        self.room = no_room();
        if self.taken > 0 {
            self.mark = self.first + self.taken.min(self.config.deal) - 1;
        }
    }

    /// Whether each sender's Done was taken.
    pub fn closed(&self) -> bool
        ensures { result ≡ all_closed self.now.state }
    {
        are_closed(&self.closed)
    }

    /// The number of senders: the producers and the control.
    pub fn senders(&self) -> u32
        ensures { result ≡ length self.now.state.closed }
    {
        self.closed.len() as u32
    }

    /// The maximum number of operations that it holds.
    pub fn max_held(&self) -> u32
        ensures { result ≡ self.now.state.config.max_held }
    {
        self.config.max_held
    }

    /// The maximum number of requests that it has in flight.
    pub fn in_flight(&self) -> u32
        ensures { result ≡ self.now.state.config.in_flight }
    {
        self.config.in_flight
    }

    /// The maximum number of operations in a request.
    pub fn request_count(&self) -> u32
        ensures { result ≡ self.now.state.config.limits.count }
    {
        self.config.limits.count
    }

    /// The number of operations held.
    pub fn held(&self) -> u32
        ensures { result ≡ length self.now.state.core.held }
    {
        self.held.len() as u32
    }

    /// The reports, in the order in which they arose.
    pub fn reports(&self) -> &[Report]
        ensures { map report_of result.now ≡ self.now.state.core.reports }
    {
        self.reports.as_slice()
    }

    /// The reports, taken out of a lane that is no longer needed.
    pub fn into_reports(self) -> Vec<Report>
        ensures { map report_of result.items ≡ self.state.core.reports }
    {
        let Lane { reports, .. } = self;
        reports
    }

    /// The operations that ended as applied since the last [`Lane::forget_successes`], in the order
    /// in which they ended.
    pub fn successes(&self) -> &[Success]
        ensures { result.now ≡ self.now.state.successes }
    {
        self.successes.as_slice()
    }

    /// Forgets the successes so far. The room for them is kept, so it does not allocate.
    pub fn forget_successes(&mut self)
        ensures forgotten { self.new.state ≡ without_successes self.old.state }
        ensures looks { self.new.looks ≡ self.old.looks }
    {
        self.successes.clear();
    }

    /// The totals of what was taken, applied and sent since the lane was made.
    pub fn totals(&self) -> Totals
        ensures lane { IsLane self.now.state }
        ensures totals { result ≡ record {
          taken = self.now.state.core.taken;
          applied = self.now.state.core.applied;
          already = self.now.state.core.already;
          requests = self.now.state.core.requests;
        } }
    {
        // (read for its range)
        let _clock = self.held.clock();
        Totals {
            taken: self.taken,
            applied: self.applied,
            already: self.already,
            requests: self.flight.next() - 1,
        }
    }

    /// The number of ticks until the first eligible operation is due, that is, one that waits while
    /// nothing older of its document is held. 0 if one is due already, `None` if none is eligible.
    pub fn due_in(&self) -> Option<u64>
        ensures { result ≡ due_in self.now.state }
    {
        self.held.due_in()
    }

    /// How many held operations [`Lane::request`] and [`Lane::has_batch`] have looked at since the
    /// lane was made. A request looks at each operation that it sends, and either call at no more
    /// than one per document held, whatever it returns. The count saturates at `u64::MAX`. It is not
    /// part of the state in the contracts.
    pub fn looks(&self) -> u64
        ensures { result ≡ self.now.looks }
    {
        self.held.looks()
    }

    /// Whether each sender has closed and nothing is held.
    pub fn finished(&self) -> bool
        ensures { result ≡ is_finished self.now.state }
    {
        self.closed() && self.held() == 0
    }
}

// Messages are taken.
impl Lane {
    // Takes an operation into a lane that has room for it. It is inlined, as `take` is, so that an
    // operation is not moved from one to the next.
    #[inline(always)]
    fn take_put(&mut self, op: Op) -> Result<(), NoRoom>
        requires { length self.old.state.core.held < self.old.state.config.max_held }
        ensures ok { OnOk result (self.new.state ≡ after_op self.old.state op) }
        ensures unchanged { OnErr result (self.new ≡ self.old) }
        ensures back { IfErr result (λ e. e.op ≡ op) }
        ensures looks { self.new.looks ≡ self.old.looks }
    {
        if make_room(&self.held, &mut self.reports, &mut self.successes).is_err() {
            return Err(NoRoom { op });
        }
        if self.taken >= self.config.deal {
            let name = op.name();
            self.reports.push_reserved(Report {
                name,
                key: op.key,
                cause: Cause::Spent,
            });
            self.taken += 1;
            return Ok(());
        }
        let Ok(key) = op.key.copy() else {
            return Err(NoRoom { op });
        };
        let version = self.first + self.taken;
        let kept = kept_of(
            op,
            key,
            version,
            self.held.clock(),
            self.config.limits.count,
        );
        let room = less(self.room, kept.bytes);
        let ahead = less(self.ahead, kept.bytes);
        match self.held.push(kept) {
            Ok(()) => {
                self.room = room;
                self.ahead = ahead;
                self.taken += 1;
                Ok(())
            }
            Err(NotHeld { one }) => Err(NoRoom { op: op_of(one) }),
        }
    }

    /// Takes a message of a known sender. An operation is assigned the next version and held, or
    /// reported as Spent if none is left; a Tick is a [`Lane::tick`], a Flush a [`Lane::flush`],
    /// and a Done closes its sender. Room for the operation's later report or success is allocated
    /// here. The fault is the first of [`TakeFault`] that applies; `Memory` only for an operation. The
    /// message is returned with it, and the lane is unchanged.
    #[inline(always)]
    pub fn take(&mut self, mail: Mail) -> Result<(), (TakeFault, Mail)>
        requires { mail.sender < length self.old.state.closed }
        ensures ok { OnOk result
            (self.new.state ≡ after_take self.old.state mail.sender mail.body) }
        ensures unchanged { OnErr result (self.new ≡ self.old) }
        ensures looks { self.new.looks ≡ self.old.looks }
        ensures back { IfErr result (λ e. e.1 ≡ mail) }
        ensures accepted { OnOk result (take_fault self.old.state mail.sender mail.body ≡ None) }
        ensures refused { IfErr result (λ e. e.0
            ≡ unwrap_or (take_fault self.old.state mail.sender mail.body) TakeFault.Memory) }
        ensures room { IfErr result (λ e. e.0 ≡ TakeFault.Memory → is_put mail.body ≡ true) }
    {
        let Mail {
            sender,
            number,
            body,
        } = mail;
        if self.closed[sender as usize] {
            return Err(refused(TakeFault::AfterClose, sender, number, body));
        }
        match body {
            Body::Put(op) => {
                if self.held.len() == self.config.max_held as usize {
                    return Err(refused(TakeFault::HeldFull, sender, number, Body::Put(op)));
                }
                match self.take_put(op) {
                    Ok(()) => Ok(()),
                    Err(NoRoom { op }) => Err(refused(
                        TakeFault::Memory,
                        sender,
                        number,
                        Body::Put(op),
                    )),
                }
            }
            Body::Tick => {
                self.tick();
                Ok(())
            }
            Body::Flush => {
                self.flush();
                Ok(())
            }
            Body::Done => {
                self.room = no_room();
                self.closed[sender as usize] = true;
                Ok(())
            }
        }
    }
}

// Requests are formed.
impl Lane {
    /// Forms the next request and returns its number: 1 for the first, then 2 and so on. The
    /// operations that wait, are due, and have nothing older of their document held are gathered in
    /// ascending order of version until the batch is closed. They are sent if the batch is full,
    /// ready or flushed, or if the lane is closed; each of them then has one more send and attempt.
    /// `None` if no place in flight is free, or if no batch is to be sent. `AllocError`: allocating
    /// the batch or its writes failed, and the state is unchanged; there is a request to form then.
    ///
    /// It looks at each operation that it sends, and at no more than one per document held: see
    /// [`Lane::looks`].
    pub fn request(&mut self) -> Result<Option<u64>, AllocError>
        ensures when { IfOk result (λ o. is_some o ≡ is_some (next_batch self.old.state)) }
        ensures number { IfOk result (λ o. IfSome o (λ n. n ≡ self.old.state.flights.next)) }
        ensures after { OnOk result
            (self.new.state ≡ after_request self.old.state (next_batch self.old.state)) }
        ensures unchanged { OnErr result (self.new.state ≡ self.old.state) }
        ensures looks { self.new.looks ≤ looks_after self.old }
        ensures looks_rise { self.old.looks ≤ self.new.looks }
        ensures looks_sent { IfOk result
            (λ o. OnSome o (looked_at_least self.old ≤ self.new.looks)) }
        ensures due { OnErr result (is_some (next_batch self.old.state) ≡ true) }
        ensures place { OnErr result
            (length self.old.state.flights.batches < self.old.state.config.in_flight) }
        ensures candidates { OnErr result (0 < length (candidates self.old.state.core)) }
    {
        if is_roomy(self.room) {
            return Ok(None);
        }
        if self.flight.flying() >= self.config.in_flight {
            return Ok(None);
        }
        let all_closed = self.closed();
        let Due { batch, room, ahead } = due_batch(
            self.alloc,
            &mut self.held,
            self.mark,
            all_closed,
            self.config.limits,
        )?;
        let Some(batch) = batch else {
            self.room = room;
            return Ok(None);
        };
        let mut writes = Vec::with_capacity(self.alloc, batch.items().len())?;
        self.room = no_room();
        self.ahead = ahead;
        let number = self.flight.next();
        launch(&mut self.held, number, batch.items().len(), &mut writes);
        let _ = self.flight.enter(batch, writes);
        Ok(Some(number))
    }

    /// Whether [`Lane::request`] has a request to form. The state is unchanged, and it looks at as
    /// many operations as `request` would. It does not allocate.
    pub fn has_batch(&mut self) -> bool
        ensures has { result ≡ is_some (next_batch self.old.state) }
        ensures unchanged { self.new.state ≡ self.old.state }
        ensures looks { self.new.looks ≤ looks_after self.old }
        ensures looks_rise { self.old.looks ≤ self.new.looks }
    {
        if is_roomy(self.room) {
            return false;
        }
        if self.flight.flying() >= self.config.in_flight {
            return false;
        }
        let all_closed = self.closed();
        is_due(&mut self.held, self.mark, all_closed, self.config.limits)
    }

    /// Whether the next request is still being gathered: none would be formed now, and more may be
    /// taken before [`Lane::request`] is worth a call or an answer is worth waiting for. This is
    /// the case while what may be sent is less than a batch and nothing demands it, and, if all
    /// places in flight are taken, while what was taken since is less than a batch and nothing was
    /// left over. `false` promises nothing.
    pub fn is_gathering(&self) -> bool
        ensures { result ≡ true → next_batch self.now.state ≡ None }
    {
        let is_full = self.flight.flying() >= self.config.in_flight;
        is_roomy(self.room) || (is_full && is_roomy(self.ahead))
    }

    /// The writes of a request in flight, in the order of its batch. Requests are numbered from 1.
    pub fn writes(&self, number: u64) -> Option<&[Write]>
        ensures flies { is_some result ≡ is_flying number self.now.state }
        ensures writes { IfSome result (λ ws. ws.now ≡ writes_of number self.now.state) }
    {
        self.flight.writes(number)
    }

    /// The number of the oldest request in flight, or `None` if there is none.
    pub fn oldest(&self) -> Option<u64>
        ensures { result ≡ oldest self.now.state }
    {
        self.flight.oldest()
    }

    /// The number of requests in flight.
    pub fn flying(&self) -> u32
        ensures { result ≡ length self.now.state.core.flying }
    {
        self.flight.flying()
    }

    /// The batch of the request with this number, if it is in flight.
    pub fn items(&self, number: u64) -> Option<&[BatchItem]>
        ensures { option_map (λ b. b.now) result ≡ batch_at number self.now.state.flights }
    {
        let batch = self.flight.batch(number)?;
        Some(batch.items())
    }
}

// Requests are answered.
impl Lane {
    // Settles a request by its answer, if it is in flight.
    fn settle(&mut self, number: u64, whole: Way, outcomes: Vec<Outcome>) -> Option<Settled>
        requires halves { IsHalf whole (length (writes_of number self.old.state)) }
        ensures flies { is_some result ≡ is_flying number self.old.state }
        ensures settled { OnSome result ((a : Answer)
            → SaysAs a (writes_of number self.old.state) whole outcomes.items
            → TellsAs a (writes_of number self.old.state) outcomes.items
            → self.new.state ≡ after_answer_to self.old.state number a) }
        ensures counts { IfSome result (λ c. (a : Answer)
            → SaysAs a (writes_of number self.old.state) whole outcomes.items
            → AreCounts self.old.state number a c) }
        ensures matched { IfSome result (λ c. c.matched ≡ true) }
        ensures unchanged { IfNone result (self.new ≡ self.old) }
        ensures looks { self.new.looks ≡ self.old.looks }
    {
        let clock = self.held.clock();
        let Some(request) = self.flight.settle(number) else {
            return None;
        };
        let found = settle_walk(
            &mut self.held,
            &mut self.reports,
            &mut self.successes,
            &self.config,
            clock,
            number,
            request.writes,
            whole,
            outcomes,
        );
        self.room = no_room();
        self.applied += found.applied as u64;
        self.already += found.already as u64;
        Some(found)
    }

    // Gives the report at this place its reason, if it is on the status of a whole request.
    fn explain(&mut self, place: usize, given: Option<Text>)
        ensures state { self.new.state ≡ explained_at place given self.old.state }
        ensures looks { self.new.looks ≡ self.old.looks }
    {
        explain(&mut self.reports, place, given);
    }

    /// The reply to a request was lost or could not be read, or the request could not be sent, for
    /// this reason: each of its operations waits to be sent again, or is given up if its attempts
    /// are used up or it is too old, that is, its first send was `give_up_after` ticks ago or more.
    /// [`NotFlying`]: no request with this number is in flight, and the lane is unchanged. It does
    /// not allocate.
    pub fn lost(&mut self, number: u64, why: Loss) -> Result<Settled, NotFlying>
        ensures flies { is_ok result ≡ is_flying number self.old.state }
        ensures ok { OnOk result (self.new.state ≡ after_answer_to self.old.state number (Lost why)) }
        ensures counts { IfOk result (λ c. AreCounts self.old.state number (Lost why) c) }
        ensures matched { IfOk result (λ c. c.matched ≡ true) }
        ensures unchanged { OnErr result (self.new ≡ self.old) }
        ensures looks { self.new.looks ≡ self.old.looks }
    {
        match self.settle(
            number,
            Way::ByEntry(LastTry::Lost(why)),
            Vec::new(self.alloc),
        ) {
            Some(found) => Ok(found),
            None => Err(NotFlying),
        }
    }

    /// A request as a whole got a status other than 200. After 413 for two or more operations, each
    /// waits to be sent again immediately, in requests of at most half as many, and the attempt
    /// does not count. After 429, 502, 503 and 504 the request counts as lost, as in
    /// [`Lane::lost`]. After any other status, and after 413 for a single operation, each is
    /// reported with the status, and the first of the request with the reason, if one is given.
    /// [`NotFlying`]: no request with this number is in flight, and the lane is unchanged. It does
    /// not allocate.
    pub fn whole(
        &mut self,
        number: u64,
        status: u16,
        reason: Option<Text>,
    ) -> Result<Settled, NotFlying>
        requires { status ≢ 200 }
        ensures flies { is_ok result ≡ is_flying number self.old.state }
        ensures ok { OnOk result
            (self.new.state ≡ after_answer_to self.old.state number (Whole status reason)) }
        ensures counts { IfOk result (λ c. AreCounts self.old.state number (Whole status reason) c) }
        ensures matched { IfOk result (λ c. c.matched ≡ true) }
        ensures unchanged { OnErr result (self.new ≡ self.old) }
        ensures looks { self.new.looks ≡ self.old.looks }
    {
        // Read for the range of its writes.
        let _ = &self.flight;
        let Some(writes) = self.writes(number) else {
            return Err(NotFlying);
        };
        let whole = way_of(status, writes.len());
        let reported = self.reports.len();
        let Some(found) = self.settle(number, whole, Vec::new(self.alloc)) else {
            return Err(NotFlying);
        };
        if let Way::Reported(_) = whole {
            self.explain(reported, reason);
        }
        Ok(found)
    }

    /// A request got status 200 and these outcomes. If they match it, each operation is settled by
    /// the verdict on its outcome; otherwise the request counts as lost, as in [`Lane::lost`].
    /// [`NotFlying`]: no request with this number is in flight, and the lane is unchanged. It does
    /// not allocate.
    pub fn reply(&mut self, number: u64, outcomes: Vec<Outcome>) -> Result<Settled, NotFlying>
        ensures flies { is_ok result ≡ is_flying number self.old.state }
        ensures ok { OnOk result
            (self.new.state ≡ after_answer_to self.old.state number (Items outcomes.items)) }
        ensures counts { IfOk result
            (λ c. AreCounts self.old.state number (Items outcomes.items) c) }
        ensures matched { IfOk result
            (λ c. c.matched ≡ matches outcomes.items (writes_of number self.old.state)) }
        ensures unchanged { OnErr result (self.new ≡ self.old) }
        ensures looks { self.new.looks ≡ self.old.looks }
    {
        let Some(writes) = self.writes(number) else {
            return Err(NotFlying);
        };
        let matched = matches(&outcomes, writes);
        let given = if matched {
            outcomes
        } else {
            Vec::new(self.alloc)
        };
        let unread = LastTry::Lost(Loss::Unreadable);
        match self.settle(number, Way::ByEntry(unread), given) {
            Some(found) => Ok(Settled { matched, ..found }),
            None => Err(NotFlying),
        }
    }
}
