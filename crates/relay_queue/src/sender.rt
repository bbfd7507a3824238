//! The senders' ends.
ghost use Rattle.std.specs.Prelude.{◌≡◌, ◌≢◌, ◌+◌, ◌<◌, ◌≤◌, ◌^◌, ◌↔◌, [], ◌∷◌, ◌++◌};
ghost use Rattle.std.specs.Prelude.{length, IfOk, IfErr, OnOk, IsErrAnd, IsTrue};
ghost use Rattle.relay_queue.specs.Messages.{message, IsWellSent, HasDone};

use crate::bell::Bell;
use crate::refusal::{Gone, OfferRefusal, PutRefusal};
use crate::rule::{Closes, MailPass, MailSender, Puts};
use crossbeam_channel::{SendError, TrySendError};
use relay_action::{Body, Mail};
use std::marker::Model;
use std::sync::Wait;
use std::{hint, thread};

/// The maximum number of messages that one sender puts, without its Done: 2^40.
pub const PUT_LIMIT: u64 = 1 << 40;

// The number of tries before a sender sleeps in the channel. A full queue is often that of a lane
// which waits for its index, so a sender that tries for longer takes processor time for nothing.
const TRIES: u32 = 4;

/// Gives the other side time: in the first turns by spinning, longer each turn, and then by
/// yielding the processor. The first turn is long enough for the other side to move several
/// messages, so that the two do not contend for the same cache lines, and short compared with one
/// hand-over.
pub(crate) fn pause(turn: u32) {
    if turn > 2 {
        thread::yield_now();
        return;
    }
    for _ in 0..32u32 << turn {
        hint::spin_loop();
    }
}

/// A sender's end of a queue. Contracts see its queue, its number and the list of what it sent.
///
/// Until this end is dropped, the taker learns of no disconnect.
#[derive(Drop)]
pub struct LanePut {
    pub(crate) channel: MailSender,
    pub(crate) pass: MailPass,
    pub(crate) sender: u32,
    pub(crate) count: u64,
    pub(crate) bell: Bell,
}

impl Model for LanePut {
    ghost use Rattle.std.specs.Prelude.{◌≡◌, ◌≤◌, ◌^◌, length, false};
    ghost use Rattle.crossbeam_channel.specs.Claims.{view as known_by, IsSeatAt};
    ghost use Rattle.crossbeam_channel.specs.Ends.{sends_on, ruled_capacity};
    ghost use Rattle.relay_queue.specs.Ends.{SenderEnd, queue_of};
    ghost use Rattle.relay_queue.specs.Steps.{IsSender, capacity_of, sender_of, sent_of};

    ghost Value = { SenderEnd };

    ghost view = { λ a. record {
      queue = queue_of a.pass;
      sender = a.sender;
      sent = sent_of (known_by a.pass);
    } };

    ghost invariant = { λ a. IsSeatAt (sends_on a.channel) a.pass
        × IsSender false (known_by a.pass)
        × (capacity_of (known_by a.pass) ≡ ruled_capacity (sends_on a.channel))
        × (sender_of (known_by a.pass) ≡ a.sender)
        × (length (sent_of (known_by a.pass)) ≡ a.count)
        × (a.count ≤ 2 ^ 40) };
}

impl LanePut {
    /// Sends a message other than Done, and returns its number among this sender's messages, from
    /// 1. It waits while the queue is full, and does not allocate.
    ///
    /// A refusal sends nothing and returns the body. `Spent` is returned exactly if this sender has
    /// put 2^40 messages. `Gone` says that the taker is dropped; no contract says when it is
    /// returned.
    pub fn put<R: Wait>(&mut self, rt: &R, body: Body) -> Result<u64, (PutRefusal, Body)>
        requires { body ≢ Body.Done }
        ensures same { (self.new.queue ≡ self.old.queue) × (self.new.sender ≡ self.old.sender) }
        ensures number { IfOk result (λ n. n ≡ length self.old.sent + 1) }
        ensures sent { IfOk result
            (λ n. self.new.sent ≡ self.old.sent ++ message self.old.sender n body ∷ []) }
        ensures in_order { OnOk result (IsWellSent self.new.sent) }
        ensures no_done { OnOk result (¬ HasDone self.new.sent) }
        ensures limit { OnOk result (length self.new.sent ≤ 2 ^ 40) }
        ensures refused { IfErr result (λ e. (e.1 ≡ body) × (self.new ≡ self.old)) }
        ensures spent { IsErrAnd result (λ e. e.0 ≡ PutRefusal.Spent)
            ↔ (length self.old.sent ≡ 2 ^ 40) }
    {
        if self.count >= PUT_LIMIT {
            return Err((PutRefusal::Spent, body));
        }
        let mut body = body;
        for turn in 0..TRIES {
            match self.try_put(rt, body) {
                Ok(number) => return Ok(number),
                Err((OfferRefusal::Gone, back)) => return Err((PutRefusal::Gone, back)),
                Err((_, back)) => body = back,
            }
            pause(turn);
        }
        self.put_waiting(rt, body)
    }

    /// Sends a message other than Done if there is room right now, and returns its number. It does
    /// not wait for the taker and does not allocate. A tick is not sent while an earlier one has not
    /// been taken, so at most one is on its way to a lane.
    ///
    /// A refusal sends nothing and returns the body. `Spent` is returned exactly if this sender has
    /// put 2^40 messages.
    pub fn offer<R: Wait>(&mut self, rt: &R, body: Body) -> Result<u64, (OfferRefusal, Body)>
        requires { body ≢ Body.Done }
        ensures same { (self.new.queue ≡ self.old.queue) × (self.new.sender ≡ self.old.sender) }
        ensures number { IfOk result (λ n. n ≡ length self.old.sent + 1) }
        ensures sent { IfOk result
            (λ n. self.new.sent ≡ self.old.sent ++ message self.old.sender n body ∷ []) }
        ensures in_order { OnOk result (IsWellSent self.new.sent) }
        ensures no_done { OnOk result (¬ HasDone self.new.sent) }
        ensures limit { OnOk result (length self.new.sent ≤ 2 ^ 40) }
        ensures refused { IfErr result (λ e. (e.1 ≡ body) × (self.new ≡ self.old)) }
        ensures spent { IsErrAnd result (λ e. e.0 ≡ OfferRefusal.Spent)
            ↔ (length self.old.sent ≡ 2 ^ 40) }
    {
        if self.spent() {
            return Err((OfferRefusal::Spent, body));
        }
        let is_tick = matches!(body, Body::Tick);
        if is_tick && !self.bell.ring() {
            return Err((OfferRefusal::NotYet, body));
        }
        let sent = self.try_put(rt, body);
        if is_tick && sent.is_err() {
            self.bell.rest();
        }
        sent
    }

    // Whether this sender has put the maximum number of messages.
    fn spent(&self) -> bool
        ensures { IsTrue result ↔ (length self.now.sent ≡ 2 ^ 40) }
    {
        self.count == PUT_LIMIT
    }

    // Sends a message if there is room right now. An error returns the body.
    fn try_put<R: Wait>(&mut self, rt: &R, body: Body) -> Result<u64, (OfferRefusal, Body)>
        requires body { body ≢ Body.Done }
        requires limit { length self.old.sent < 2 ^ 40 }
        ensures same { (self.new.queue ≡ self.old.queue) × (self.new.sender ≡ self.old.sender) }
        ensures number { IfOk result (λ n. n ≡ length self.old.sent + 1) }
        ensures sent { IfOk result
            (λ n. self.new.sent ≡ self.old.sent ++ message self.old.sender n body ∷ []) }
        ensures in_order { OnOk result (IsWellSent self.new.sent) }
        ensures no_done { OnOk result (¬ HasDone self.new.sent) }
        ensures limit { OnOk result (length self.new.sent ≤ 2 ^ 40) }
        ensures refused { IfErr result
            (λ e. (e.1 ≡ body) × (e.0 ≢ OfferRefusal.Spent) × (self.new ≡ self.old)) }
    {
        let number = self.count + 1;
        let mail = Mail {
            sender: self.sender,
            number,
            body,
        };
        match self
            .channel
            .try_send_as::<Puts, R>(rt, &mut self.pass, mail)
        {
            Ok(()) => {
                self.count = number;
                Ok(number)
            }
            Err(TrySendError::Full(mail)) => Err((OfferRefusal::NotYet, mail.body)),
            Err(TrySendError::Disconnected(mail)) => Err((OfferRefusal::Gone, mail.body)),
            Err(TrySendError::OutOfMemory(_)) => unreachable!(),
        }
    }

    // Sends a message, and sleeps while the queue is full.
    fn put_waiting<R: Wait>(&mut self, rt: &R, body: Body) -> Result<u64, (PutRefusal, Body)>
        requires body { body ≢ Body.Done }
        requires limit { length self.old.sent < 2 ^ 40 }
        ensures same { (self.new.queue ≡ self.old.queue) × (self.new.sender ≡ self.old.sender) }
        ensures number { IfOk result (λ n. n ≡ length self.old.sent + 1) }
        ensures sent { IfOk result
            (λ n. self.new.sent ≡ self.old.sent ++ message self.old.sender n body ∷ []) }
        ensures in_order { OnOk result (IsWellSent self.new.sent) }
        ensures no_done { OnOk result (¬ HasDone self.new.sent) }
        ensures limit { OnOk result (length self.new.sent ≤ 2 ^ 40) }
        ensures refused { IfErr result
            (λ e. (e.1 ≡ body) × (e.0 ≡ PutRefusal.Gone) × (self.new ≡ self.old)) }
    {
        let number = self.count + 1;
        let mail = Mail {
            sender: self.sender,
            number,
            body,
        };
        match self.channel.send_as::<Puts, R>(rt, &mut self.pass, mail) {
            Ok(()) => {
                self.count = number;
                Ok(number)
            }
            Err(SendError::Disconnected(mail)) => Err((PutRefusal::Gone, mail.body)),
            Err(SendError::OutOfMemory(_)) => unreachable!(),
        }
    }

    /// Sends Done, the sender's last message, even if a put would be `Spent`. It waits while the
    /// queue is full, and does not allocate. `Gone` says that the taker is dropped: nothing was
    /// sent, and the end is returned; no contract says when.
    pub fn close<R: Wait>(mut self, rt: &R) -> Result<ClosedPut, (Gone, LanePut)>
        ensures closed { IfOk result (λ p. p ≡ record self {
          sent = self.sent ++ message self.sender (length self.sent + 1) Body.Done ∷ [];
        }) }
        ensures in_order { IfOk result (λ p. IsWellSent p.sent) }
        ensures gone { IfErr result (λ e. e.1 ≡ self) }
    {
        let mail = Mail {
            sender: self.sender,
            number: self.count + 1,
            body: Body::Done,
        };
        match self.channel.send_as::<Closes, R>(rt, &mut self.pass, mail) {
            Ok(()) => {
                let LanePut {
                    channel,
                    pass,
                    sender: _,
                    count: _,
                    bell: _,
                } = self;
                Ok(ClosedPut { channel, pass })
            }
            Err(SendError::Disconnected(_)) => Err((Gone, self)),
            Err(SendError::OutOfMemory(_)) => unreachable!(),
        }
    }
}

/// A sender's end after the close, to be met with what the taker took. Contracts see it as a
/// [`LanePut`].
///
/// It keeps its end of the channel, and until it is dropped, the taker learns of no disconnect.
#[derive(Drop)]
pub struct ClosedPut {
    pub(crate) channel: MailSender,
    pub(crate) pass: MailPass,
}

impl Model for ClosedPut {
    ghost use Rattle.std.specs.Prelude.{true};
    ghost use Rattle.crossbeam_channel.specs.Claims.{view as known_by, IsSeatAt};
    ghost use Rattle.crossbeam_channel.specs.Ends.{sends_on};
    ghost use Rattle.relay_queue.specs.Ends.{SenderEnd, queue_of};
    ghost use Rattle.relay_queue.specs.Steps.{IsSender, sender_of, sent_of};

    ghost Value = { SenderEnd };

    ghost view = { λ a. record {
      queue = queue_of a.pass;
      sender = sender_of (known_by a.pass);
      sent = sent_of (known_by a.pass);
    } };

    ghost invariant = { λ a. IsSeatAt (sends_on a.channel) a.pass
        × IsSender true (known_by a.pass) };
}
