//! The producer's end.
ghost use Rattle.std.specs.Prelude.{◌≡◌, ◌<◌, [], ◌∷◌, ◌++◌};
ghost use Rattle.std.specs.Prelude.{List, Option, IfOk, IfErr, IfSome, IfNone};
ghost use Rattle.relay_receipts.specs.Notices.{said_by, says, IsWellTaken, HasLast};

use crate::bell::Bell;
use crate::notice::{Gone, Notice};
use crate::rule::{Meets, NoticePass, NoticeReceiver, Reads, Takes};
use crate::tell::ToldLane;
use crossbeam_channel::TryRecvError;
use std::marker::Model;
use std::sync::Wait;
use std::time::{Clock, Duration, Instant};
use std::{hint, thread};

// The number of tries before the end sleeps in the channel. Waking a sleeper takes a system call,
// so a lane that tells much is faster if the producer waits a little first.
const TRIES: u32 = 100;

// Gives the lanes time: in the first turns by spinning, longer each turn, and then by yielding the
// processor.
fn pause(turn: u32) {
    if turn > 2 {
        thread::yield_now();
        return;
    }
    for _ in 0..32u32 << turn {
        hint::spin_loop();
    }
}

/// The producer's end of a channel of receipts. Contracts see its channel, its number of lanes, and
/// the list of the notices that were taken.
#[derive(Drop)]
pub struct ReceiptTake<T: Drop> {
    pub(crate) channel: NoticeReceiver<T>,
    pub(crate) pass: NoticePass<T>,
    pub(crate) bell: Bell,
}

impl<T: Drop> Model for ReceiptTake<T> {
    ghost use Rattle.crossbeam_channel.specs.Claims.{view as known_by, IsSeatAt};
    ghost use Rattle.crossbeam_channel.specs.Ends.{receives_on};
    ghost use Rattle.relay_receipts.specs.Ends.{TakeEnd, channel_of};
    ghost use Rattle.relay_receipts.specs.Notices.{IsWellTaken};
    ghost use Rattle.relay_receipts.specs.Steps.{IsTaker, lanes_of, taken_of};

    ghost Value = { TakeEnd T };

    ghost view = { λ a. record {
      channel = channel_of a.pass;
      lanes = lanes_of (known_by a.pass);
      taken = taken_of (known_by a.pass);
    } };

    ghost invariant = { λ a. IsSeatAt (receives_on a.channel) a.pass × IsTaker (known_by a.pass)
        × IsWellTaken (lanes_of (known_by a.pass)) (taken_of (known_by a.pass)) };
}

impl<T: Drop> ReceiptTake<T> {
    /// Takes the first notice. It waits while nothing is queued, and does not allocate. What was
    /// taken so far has of each lane its endings, in the order in which it told them, and at last,
    /// if it has closed, that it tells no more; there is no promise about the order between lanes.
    ///
    /// `Gone` says that all lanes' ends are dropped, including the closed ones, and nothing is
    /// queued; nothing is taken then, and no contract says when it is returned.
    pub fn take<R: Wait>(&mut self, rt: &R) -> Result<Notice<T>, Gone>
        ensures same { (self.new.channel ≡ self.old.channel) × (self.new.lanes ≡ self.old.lanes) }
        ensures taken { IfOk result (λ n. self.new.taken ≡ self.old.taken ++ n ∷ []) }
        ensures lane { IfOk result (λ n. n.lane < self.old.lanes) }
        ensures well_taken { IsWellTaken self.new.lanes self.new.taken }
        ensures gone { IfErr result (λ _. self.new ≡ self.old) }
    {
        if let Some(notice) = self.poll(rt)? {
            return Ok(notice);
        }
        self.take_waiting(rt)
    }

    /// Takes the notice at the front if one is queued, otherwise returns `None`. It does not wait
    /// and does not allocate. There is no promise about when a notice is seen; [`Self::take`] waits
    /// for it. `Gone` has the same meaning as there.
    pub fn try_take<R: Wait>(&mut self, rt: &R) -> Result<Option<Notice<T>>, Gone>
        ensures same { (self.new.channel ≡ self.old.channel) × (self.new.lanes ≡ self.old.lanes) }
        ensures taken { IfOk result
            (λ o. IfSome o (λ n. self.new.taken ≡ self.old.taken ++ n ∷ [])) }
        ensures lane { IfOk result (λ o. IfSome o (λ n. n.lane < self.old.lanes)) }
        ensures well_taken { IsWellTaken self.new.lanes self.new.taken }
        ensures none { IfOk result (λ o. IfNone o (self.new ≡ self.old)) }
        ensures gone { IfErr result (λ _. self.new ≡ self.old) }
    {
        match self.channel.try_recv_as::<Takes, R>(rt, &mut self.pass) {
            Ok(notice) => Ok(Some(notice)),
            Err(TryRecvError::Empty) => Ok(None),
            Err(TryRecvError::Disconnected) => Err(Gone),
        }
    }

    // Takes the first notice, unless none is queued for some tries.
    fn poll<R: Wait>(&mut self, rt: &R) -> Result<Option<Notice<T>>, Gone>
        ensures same { (self.new.channel ≡ self.old.channel) × (self.new.lanes ≡ self.old.lanes) }
        ensures taken { IfOk result
            (λ o. IfSome o (λ n. self.new.taken ≡ self.old.taken ++ n ∷ [])) }
        ensures lane { IfOk result (λ o. IfSome o (λ n. n.lane < self.old.lanes)) }
        ensures well_taken { IsWellTaken self.new.lanes self.new.taken }
        ensures none { IfOk result (λ o. IfNone o (self.new ≡ self.old)) }
        ensures gone { IfErr result (λ _. self.new ≡ self.old) }
    {
        for turn in 0..TRIES {
            if let Some(notice) = self.try_take(rt)? {
                return Ok(Some(notice));
            }
            pause(turn);
        }
        self.try_take(rt)
    }

    /// Takes the first notice. It waits for at most `limit` while nothing is queued, by the clock, and
    /// then returns `None`. If the clock cannot be read at the start, it waits as [`Self::take`] does;
    /// if it cannot later, that ends the wait. It does not allocate. No contract says how long it
    /// waits. `Gone` has the same meaning as there.
    pub fn take_within<R: Wait + Clock>(
        &mut self,
        rt: &R,
        limit: Duration,
    ) -> Result<Option<Notice<T>>, Gone>
        ensures same { (self.new.channel ≡ self.old.channel) × (self.new.lanes ≡ self.old.lanes) }
        ensures taken { IfOk result
            (λ o. IfSome o (λ n. self.new.taken ≡ self.old.taken ++ n ∷ [])) }
        ensures lane { IfOk result (λ o. IfSome o (λ n. n.lane < self.old.lanes)) }
        ensures well_taken { IsWellTaken self.new.lanes self.new.taken }
        ensures none { IfOk result (λ o. IfNone o (self.new ≡ self.old)) }
        ensures gone { IfErr result (λ _. self.new ≡ self.old) }
    {
        if let Some(notice) = self.poll(rt)? {
            return Ok(Some(notice));
        }
        match Instant::now(rt) {
            Ok(start) => self.take_from(rt, start, limit),
            Err(_) => Ok(Some(self.take(rt)?)),
        }
    }

    // Takes the first notice, and sleeps while nothing is queued, until `limit` is over since `start`.
    fn take_from<R: Wait + Clock>(
        &mut self,
        rt: &R,
        start: Instant,
        limit: Duration,
    ) -> Result<Option<Notice<T>>, Gone>
        ensures same { (self.new.channel ≡ self.old.channel) × (self.new.lanes ≡ self.old.lanes) }
        ensures taken { IfOk result
            (λ o. IfSome o (λ n. self.new.taken ≡ self.old.taken ++ n ∷ [])) }
        ensures lane { IfOk result (λ o. IfSome o (λ n. n.lane < self.old.lanes)) }
        ensures well_taken { IsWellTaken self.new.lanes self.new.taken }
        ensures none { IfOk result (λ o. IfNone o (self.new ≡ self.old)) }
        ensures gone { IfErr result (λ _. self.new ≡ self.old) }
    {
        'looks: for _ in rt.forever() {
            self.bell.doze();
            let taken = self.try_take(rt)?;
            let spent = start.elapsed(rt).unwrap_or(limit);
            let left = limit.saturating_sub(spent);
            if taken.is_some() || left.is_zero() {
                self.bell.rouse();
                return Ok(taken);
            }
            self.bell.sleep(rt, left);
        }
        unreachable!()
    }

    // Takes the first notice, and sleeps while nothing is queued.
    fn take_waiting<R: Wait>(&mut self, rt: &R) -> Result<Notice<T>, Gone>
        ensures same { (self.new.channel ≡ self.old.channel) × (self.new.lanes ≡ self.old.lanes) }
        ensures taken { IfOk result (λ n. self.new.taken ≡ self.old.taken ++ n ∷ []) }
        ensures lane { IfOk result (λ n. n.lane < self.old.lanes) }
        ensures well_taken { IsWellTaken self.new.lanes self.new.taken }
        ensures gone { IfErr result (λ _. self.new ≡ self.old) }
    {
        match self.channel.recv_as::<Takes, R>(rt, &mut self.pass) {
            Ok(notice) => Ok(notice),
            Err(_) => Err(Gone),
        }
    }

    /// Takes no more. What is queued is dropped with the last end of the channel.
    pub fn end(self) -> TakenReceipts<T>
        ensures same { result ≡ self }
        ensures well_taken { IsWellTaken result.lanes result.taken }
    {
        let ReceiptTake {
            channel,
            pass,
            bell: _,
        } = self;
        drop(channel);
        TakenReceipts { pass }
    }
}

/// What was taken, after the end. Contracts see it as a [`ReceiptTake`].
#[derive(Drop)]
pub struct TakenReceipts<T: Drop> {
    pass: NoticePass<T>,
}

impl<T: Drop> Model for TakenReceipts<T> {
    ghost use Rattle.std.specs.Prelude.{◌≡◌, []};
    ghost use Rattle.crossbeam_channel.specs.Claims.{view as known_by};
    ghost use Rattle.relay_receipts.specs.Ends.{TakeEnd, channel_of};
    ghost use Rattle.relay_receipts.specs.Notices.{IsWellTaken};
    ghost use Rattle.relay_receipts.specs.Steps.{IsTaker, lanes_of, taken_of};

    ghost Value = { TakeEnd T };

    ghost view = { λ a. record {
      channel = channel_of a.pass;
      lanes = lanes_of (known_by a.pass);
      taken = taken_of (known_by a.pass);
    } };

    ghost invariant = { λ a. (a.pass.me.1 ≡ []) × IsTaker (known_by a.pass)
        × IsWellTaken (lanes_of (known_by a.pass)) (taken_of (known_by a.pass)) };
}

impl<T: Drop> TakenReceipts<T> {
    /// Compares what was taken with what a lane of the same channel told. In proofs, and only there,
    /// this shows that the producer took a prefix of what that lane said, in order, and all of it if
    /// the lane's last notice was taken. It does not allocate.
    pub fn meet(mut self, lane: ToldLane<T>) -> TakenReceipts<T>
        requires { self.channel ≡ lane.channel }
        ensures same { result ≡ self }
        ensures well_taken { IsWellTaken result.lanes result.taken }
        ensures lane { lane.lane < self.lanes }
        ensures front { (rest : List (Option T))
            × (says lane.told lane.closed ≡ said_by lane.lane self.taken ++ rest) }
        ensures whole { HasLast (said_by lane.lane self.taken)
            → said_by lane.lane self.taken ≡ says lane.told lane.closed }
    {
        let ToldLane { channel, pass } = lane;
        channel.absorb::<Meets>(&mut self.pass, pass);
        channel.learn_as::<Reads>(&mut self.pass);
        self
    }
}
