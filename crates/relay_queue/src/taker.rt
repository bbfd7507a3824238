//! The taker's end.
ghost use Rattle.std.specs.Prelude.{◌≡◌, ◌<◌, ◌≤◌, [], ◌∷◌, ◌++◌};
ghost use Rattle.std.specs.Prelude.{List, length, IfOk, IfErr, IfSome, IfNone};
ghost use Rattle.relay_action.specs.declared.mail.Mail.{Mail};
ghost use Rattle.relay_queue.specs.Messages.{mail_of, HasDone, IsWellSent, IsWellTaken};

use crate::bell::Bell;
use crate::refusal::Gone;
use crate::rule::{MailPass, MailReceiver, Meets, Reads, Takes};
use crate::sender::{ClosedPut, pause};
use crossbeam_channel::TryRecvError;
use relay_action::Mail;
use std::marker::Model;
use std::sync::Wait;

// The number of tries before the taker sleeps in the channel. Waking a sleeper takes a system call,
// so what comes soon is taken sooner if the taker waits a little first.
const TRIES: u32 = 128;

/// The taker's end of a queue. Contracts see its queue, its number of senders, and the list of what
/// was taken.
#[derive(Drop)]
pub struct LaneTake {
    pub(crate) channel: MailReceiver,
    pub(crate) pass: MailPass,
    pub(crate) bell: Bell,
}

impl Model for LaneTake {
    ghost use Rattle.crossbeam_channel.specs.Claims.{view as known_by, IsSeatAt};
    ghost use Rattle.crossbeam_channel.specs.Ends.{receives_on};
    ghost use Rattle.relay_queue.specs.Ends.{TakerEnd, queue_of};
    ghost use Rattle.relay_queue.specs.Messages.{IsWellTaken};
    ghost use Rattle.relay_queue.specs.Steps.{IsTaker, senders_of, taken_of};

    ghost Value = { TakerEnd };

    ghost view = { λ a. record {
      queue = queue_of a.pass;
      senders = senders_of (known_by a.pass);
      taken = taken_of (known_by a.pass);
    } };

    ghost invariant = { λ a. IsSeatAt (receives_on a.channel) a.pass × IsTaker (known_by a.pass)
        × IsWellTaken (senders_of (known_by a.pass)) (taken_of (known_by a.pass)) };
}

impl LaneTake {
    /// Takes the first message. It waits while nothing is queued, and does not allocate. What was
    /// taken so far, also after `Gone`, has each sender's messages in that sender's order, numbered
    /// from 1, with nothing after its Done, and no others; there is no promise about the order
    /// between senders.
    ///
    /// `Gone` says that all senders' ends are dropped, including the closed ones, and nothing is
    /// queued; nothing is taken then, and no contract says when it is returned.
    pub fn take<R: Wait>(&mut self, rt: &R) -> Result<Mail, Gone>
        ensures same { (self.new.queue ≡ self.old.queue) × (self.new.senders ≡ self.old.senders) }
        ensures taken { IfOk result (λ m. self.new.taken ≡ self.old.taken ++ m ∷ []) }
        ensures sender { IfOk result (λ m. m.sender < self.old.senders) }
        ensures well_taken { IsWellTaken self.new.senders self.new.taken }
        ensures gone { IfErr result (λ _. self.new ≡ self.old) }
    {
        for turn in 0..TRIES {
            if let Some(mail) = self.try_take(rt)? {
                return Ok(mail);
            }
            pause(turn);
        }
        self.take_waiting(rt)
    }

    /// Takes the message at the front if one is queued, otherwise returns `None`. It does not wait
    /// and does not allocate. There is no promise about when a message that was sent is seen;
    /// [`Self::take`] waits for it. `Gone` has the same meaning as there.
    pub fn try_take<R: Wait>(&mut self, rt: &R) -> Result<Option<Mail>, Gone>
        ensures same { (self.new.queue ≡ self.old.queue) × (self.new.senders ≡ self.old.senders) }
        ensures taken { IfOk result
            (λ o. IfSome o (λ m. self.new.taken ≡ self.old.taken ++ m ∷ [])) }
        ensures sender { IfOk result (λ o. IfSome o (λ m. m.sender < self.old.senders)) }
        ensures well_taken { IsWellTaken self.new.senders self.new.taken }
        ensures none { IfOk result (λ o. IfNone o (self.new ≡ self.old)) }
        ensures gone { IfErr result (λ _. self.new ≡ self.old) }
    {
        match self.channel.try_recv_as::<Takes, R>(rt, &mut self.pass) {
            Ok(mail) => {
                self.bell.note_taken(&mail);
                Ok(Some(mail))
            }
            Err(TryRecvError::Empty) => Ok(None),
            Err(TryRecvError::Disconnected) => Err(Gone),
        }
    }

    // Takes the first message, and sleeps while nothing is queued.
    fn take_waiting<R: Wait>(&mut self, rt: &R) -> Result<Mail, Gone>
        ensures same { (self.new.queue ≡ self.old.queue) × (self.new.senders ≡ self.old.senders) }
        ensures taken { IfOk result (λ m. self.new.taken ≡ self.old.taken ++ m ∷ []) }
        ensures sender { IfOk result (λ m. m.sender < self.old.senders) }
        ensures well_taken { IsWellTaken self.new.senders self.new.taken }
        ensures gone { IfErr result (λ _. self.new ≡ self.old) }
    {
        match self.channel.recv_as::<Takes, R>(rt, &mut self.pass) {
            Ok(mail) => {
                self.bell.note_taken(&mail);
                Ok(mail)
            }
            Err(_) => Err(Gone),
        }
    }

    /// Takes no more. What is queued is dropped with the last end of the queue. What was taken from
    /// each sender is a prefix of what it may send, and nothing else was taken.
    pub fn end(self) -> Taken
        ensures same { result ≡ self }
        ensures well_taken { IsWellTaken result.senders result.taken }
    {
        let LaneTake {
            channel,
            pass,
            bell: _,
        } = self;
        drop(channel);
        Taken { pass }
    }
}

/// What was taken, after the end. Contracts see it as a [`LaneTake`].
#[derive(Drop)]
pub struct Taken {
    pass: MailPass,
}

impl Model for Taken {
    ghost use Rattle.std.specs.Prelude.{◌≡◌, []};
    ghost use Rattle.crossbeam_channel.specs.Claims.{view as known_by};
    ghost use Rattle.relay_queue.specs.Ends.{TakerEnd, queue_of};
    ghost use Rattle.relay_queue.specs.Messages.{IsWellTaken};
    ghost use Rattle.relay_queue.specs.Steps.{IsTaker, senders_of, taken_of};

    ghost Value = { TakerEnd };

    ghost view = { λ a. record {
      queue = queue_of a.pass;
      senders = senders_of (known_by a.pass);
      taken = taken_of (known_by a.pass);
    } };

    ghost invariant = { λ a. (a.pass.me.1 ≡ []) × IsTaker (known_by a.pass)
        × IsWellTaken (senders_of (known_by a.pass)) (taken_of (known_by a.pass)) };
}

impl Taken {
    /// Compares what was taken with what a closed sender of the same queue sent. In proofs, and
    /// only there, this shows that the taker took a prefix of what that sender sent, that the rest
    /// is no longer than the queue has places, and that it is empty if Done was taken. It does not
    /// allocate.
    pub fn meet(mut self, closed: ClosedPut) -> Taken
        requires { self.queue ≡ closed.queue }
        ensures same { result ≡ self }
        ensures well_taken { IsWellTaken result.senders result.taken }
        ensures sender { closed.sender < self.senders }
        ensures in_order { IsWellSent closed.sent }
        ensures done { HasDone closed.sent }
        ensures log { (queued : List Mail) × (length queued ≤ self.queue.capacity)
            × (closed.sent ≡ mail_of closed.sender (self.taken ++ queued)) }
        ensures front { (rest : List Mail) × (length rest ≤ self.queue.capacity)
            × (closed.sent ≡ mail_of closed.sender self.taken ++ rest) }
        ensures whole { HasDone (mail_of closed.sender self.taken)
            → mail_of closed.sender self.taken ≡ closed.sent }
    {
        let ClosedPut { channel, pass } = closed;
        channel.absorb::<Meets>(&mut self.pass, pass);
        channel.learn_as::<Reads>(&mut self.pass);
        self
    }
}
