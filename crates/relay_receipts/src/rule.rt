//! The rule that a channel of receipts keeps at every moment, and the kinds of steps that keep it.
use crate::notice::Notice;
use crossbeam_channel::protocol::{Join, Lesson, Outcome, Protocol, Split};
use crossbeam_channel::{Pass, RuledReceiver, RuledSender};
use std::collections::LinkedList;

/// What a lane had told when its end was met. It exists in proofs only.
pub struct ToldList<T> {
    /// The lane.
    pub lane: u64,
    /// What it told, in order.
    pub told: LinkedList<T>,
    /// Whether it said that it tells no more.
    pub closed: bool,
}

/// What the pass of an end knows. It exists in proofs only.
pub enum Knowledge<T> {
    /// What a lane's end knows.
    Lane {
        /// The lane.
        lane: u64,
        /// What it told, in order.
        told: LinkedList<T>,
        /// Whether it said that it tells no more.
        closed: bool,
    },
    /// What the producer's end knows.
    Taker {
        /// The number of lanes whose ends were made.
        lanes: u64,
        /// What it took.
        taken: LinkedList<Notice<T>>,
        /// What the lanes whose ends it met had told.
        met: LinkedList<ToldList<T>>,
    },
    /// Nothing: the pass of an end that was met.
    Met,
}

/// A zero-sized token that an end needs for each of its steps.
pub type NoticePass<T> = Pass<Notice<T>, Knowledge<T>>;

/// The telling end of the channel.
pub type NoticeSender<T> = RuledSender<Notice<T>, Knowledge<T>, Telling>;

/// The taking end of the channel.
pub type NoticeReceiver<T> = RuledReceiver<Notice<T>, Knowledge<T>, Telling>;

/// The rule.
pub struct Telling;

impl<T> Protocol<Notice<T>, Knowledge<T>> for Telling {
    ghost use Rattle.std.specs.Prelude.{[]};
    ghost use Rattle.relay_receipts.specs.declared.rule.Knowledge.TheVariants.{Taker};
    ghost use Rattle.relay_receipts.specs.Rule.{Tells};

    ghost holds = { Tells };

    ghost first = { Taker 0 [] [] };
}

/// The step that splits the pass of one more lane off the producer's.
pub struct Splits;

impl<T> Split<Knowledge<T>> for Splits {
    ghost use Rattle.relay_receipts.specs.Steps.{with_lane, new_lane};

    ghost left = { with_lane };

    ghost right = { new_lane };
}

/// The step that joins the pass of a lane's end into the producer's.
pub struct Meets;

impl<T> Join<Knowledge<T>> for Meets {
    ghost use Rattle.relay_receipts.specs.declared.rule.Knowledge.TheVariants.{Met};
    ghost use Rattle.relay_receipts.specs.Steps.{with_met};

    ghost both = { with_met };

    ghost spent = { Met };
}

/// The step that tells.
pub struct Says;

impl<T> Outcome<Notice<T>, Knowledge<T>> for Says {
    ghost use Rattle.relay_receipts.specs.Steps.{SaysNext};

    ghost then = { SaysNext };
}

impl<T> Lesson<Notice<T>, Knowledge<T>> for Says {
    ghost use Rattle.std.specs.Prelude.{⊤};

    ghost fact = { λ v queued. ⊤ };
}

/// The step that takes the notice at the front.
pub struct Takes;

impl<T> Outcome<Notice<T>, Knowledge<T>> for Takes {
    ghost use Rattle.relay_receipts.specs.Steps.{Receives};

    ghost then = { Receives };
}

impl<T> Lesson<Notice<T>, Knowledge<T>> for Takes {
    ghost use Rattle.std.specs.Prelude.{⊤};

    ghost fact = { λ v queued. ⊤ };
}

/// The step that reads the channel with the producer's pass.
pub struct Reads;

impl<T> Lesson<Notice<T>, Knowledge<T>> for Reads {
    ghost use Rattle.relay_receipts.specs.Steps.{Learns};

    ghost fact = { Learns };
}
