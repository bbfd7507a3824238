//! The rule that a queue's channel keeps at every moment, and the kinds of steps that keep it.
ghost use Rattle.std.specs.Prelude.{ℕ, List};
ghost use Rattle.relay_action.specs.declared.mail.Mail.{Mail};
ghost use Rattle.relay_queue.specs.declared.rule.Knowledge.{Knowledge};
ghost use Rattle.relay_queue.specs.Rule.{Delivers};
ghost use Rattle.relay_queue.specs.Log.{HasLog};

use crossbeam_channel::protocol::{Join, Lesson, Outcome, Protocol, Split};
use crossbeam_channel::{Pass, RuledReceiver, RuledSender};
use relay_action::Mail;
use std::collections::LinkedList;
use std::marker::{Brand, PhantomData};

/// What a sender had sent when its closed end was met. It exists in proofs only.
pub struct SentList {
    /// The sender's number.
    pub sender: u64,
    /// Its messages, in order.
    pub sent: LinkedList<Mail>,
}

/// What the pass of an end knows. It exists in proofs only.
pub enum Knowledge {
    /// What a sender's end knows.
    Sender {
        /// The number of places in the queue.
        capacity: u64,
        /// The sender's number.
        sender: u64,
        /// What it sent.
        sent: LinkedList<Mail>,
        /// Whether it closed.
        closed: bool,
    },
    /// What the taker's end knows.
    Taker {
        /// The number of places in the queue.
        capacity: u64,
        /// The number of senders that were made.
        senders: u64,
        /// What it took.
        taken: LinkedList<Mail>,
        /// What the senders whose closed ends it met had sent.
        met: LinkedList<SentList>,
    },
    /// Nothing: the pass of a closed end that was met.
    Met,
}

/// A zero-sized token that an end needs for each of its steps.
pub type MailPass = Pass<Mail, Knowledge>;

/// The sending end of the channel.
pub type MailSender = RuledSender<Mail, Knowledge, Delivery>;

/// The taking end of the channel.
pub type MailReceiver = RuledReceiver<Mail, Knowledge, Delivery>;

/// The rule.
pub struct Delivery;

impl Protocol<Mail, Knowledge> for Delivery {
    ghost use Rattle.std.specs.Prelude.{[]};
    ghost use Rattle.relay_queue.specs.declared.rule.Knowledge.TheVariants.{Taker};
    ghost use Rattle.relay_queue.specs.Rule.{Delivers};

    ghost holds = { Delivers };

    ghost first = { Taker 0 0 [] [] };
}

/// The law of the log: at every moment, what was taken followed by what is queued contains exactly
/// the list that each sender sent, numbered from 1, with Done last and only if it closed, and no
/// more is queued than the queue has places. The contract states the channel's rule in these plain
/// terms; the body does nothing.
pub fn law_of_the_log()
    ensures { (queued : List Mail) (passes : List Knowledge)
        → Delivers queued passes → HasLog queued passes }
{}

/// The number of places in a queue, chosen when its senders are made.
pub trait Places {
    ghost places: { ℕ };
}

impl Places for Brand {
    ghost places = { 0 };
}

/// The step that splits a new sender's pass off the taker's.
pub struct Splits<K> {
    places: PhantomData<K>,
}

impl<K: Places> Split<Knowledge> for Splits<K> {
    ghost use Rattle.relay_queue.specs.Steps.{with_sender, new_sender};

    ghost left = { with_sender K.places };

    ghost right = { new_sender K.places };
}

/// The step that joins the pass of a closed end into the taker's.
pub struct Meets;

impl Join<Knowledge> for Meets {
    ghost use Rattle.relay_queue.specs.declared.rule.Knowledge.TheVariants.{Met};
    ghost use Rattle.relay_queue.specs.Steps.{with_met};

    ghost both = { with_met };

    ghost spent = { Met };
}

/// The step that sends a message other than Done.
pub struct Puts;

impl Outcome<Mail, Knowledge> for Puts {
    ghost use Rattle.std.specs.Prelude.{false};
    ghost use Rattle.relay_queue.specs.Steps.{SendsNext};

    ghost then = { SendsNext false };
}

impl Lesson<Mail, Knowledge> for Puts {
    ghost use Rattle.std.specs.Prelude.{⊤};

    ghost fact = { λ v queued. ⊤ };
}

/// The step that sends Done.
pub struct Closes;

impl Outcome<Mail, Knowledge> for Closes {
    ghost use Rattle.std.specs.Prelude.{true};
    ghost use Rattle.relay_queue.specs.Steps.{SendsNext};

    ghost then = { SendsNext true };
}

impl Lesson<Mail, Knowledge> for Closes {
    ghost use Rattle.std.specs.Prelude.{⊤};

    ghost fact = { λ v queued. ⊤ };
}

/// The step that takes the message at the front.
pub struct Takes;

impl Outcome<Mail, Knowledge> for Takes {
    ghost use Rattle.relay_queue.specs.Steps.{Receives};

    ghost then = { Receives };
}

impl Lesson<Mail, Knowledge> for Takes {
    ghost use Rattle.std.specs.Prelude.{⊤};

    ghost fact = { λ v queued. ⊤ };
}

/// The step that reads the queue with the taker's pass.
pub struct Reads;

impl Lesson<Mail, Knowledge> for Reads {
    ghost use Rattle.relay_queue.specs.Steps.{Learns};

    ghost fact = { Learns };
}
