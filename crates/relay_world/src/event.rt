//! Events of the world, and what each returns.
use relay_action::{Action, DocKey, List, OpName};
use relay_core::Settled;
use relay_index::Choice;
use thiserror::Error;

/// An event of the world. Lanes and producers are counted from 0; the control is the sender whose
/// number is one above that of the last producer. Requests are numbered from 1 over all lanes, in
/// the order in which they were sent; the items of a request and the runs of an item are counted
/// from 1.
#[derive(Debug, Drop)]
pub enum Event {
    /// A producer puts an operation on a document into the queue of the document's lane.
    Put(u32, DocKey, Action),
    /// A sender closes at a lane: its Done goes into that lane's queue. Its first Close closes the
    /// sender, which puts nothing more.
    Close(u32, u32),
    /// The control puts a tick of the clock into the queue of a lane.
    Tick(u32),
    /// The control puts a flush into the queue of a lane.
    Flush(u32),
    /// A lane takes the front of its queue.
    Take(u32),
    /// A lane forms its next request, and it is sent.
    Send(u32),
    /// The index runs an item of a sent request, any number of times, or refuses it.
    Run(u64, u64, Choice),
    /// A request is answered with the outcomes of its items' runs: for each item the last one, or
    /// the one picked for it, with one pick per item.
    Reply(u64, List<u64>),
    /// A request as a whole is answered with a status from 201 to 599.
    Whole(u64, u16),
    /// The reply to a request is lost.
    Lost(u64),
    /// The relay ends and starts again in this epoch, which is above the current one: queues,
    /// lanes, reports and producers start afresh, including operation numbers and closes. Sent
    /// requests keep their numbers; an old one may still be run, but is never answered.
    Restart(u32),
}

/// Why an event is refused: for each event the first cause that applies, in this order.
///
/// - Put: `NoSuch`, `Closed`, `NumbersSpent`, `QueueFull`.
/// - Close: `NoSuch`, `Closed` (at this lane), `QueueFull`.
/// - Tick, Flush: `NoSuch`, `Closed` (the control, at any lane), `QueueFull`.
/// - Take: `NoSuch`, `NothingQueued`, `HeldFull`.
/// - Send: `NoSuch`, `NoRequest`.
/// - Run: `NotSent`, `BadStatus`.
/// - Reply: `NotSent`, `NotFlying`, `NotRun`.
/// - Whole: `NotSent`, `NotFlying`, `BadStatus`.
/// - Lost: `NotSent`, `NotFlying`.
/// - Restart: `NotAbove`.
#[derive(Clone, Copy, Debug, PartialEq, Eq, Error)]
pub enum Refusal {
    /// The sender has closed.
    #[error("Closed")]
    Closed,
    /// The lane's queue is at its capacity.
    #[error("QueueFull")]
    QueueFull,
    /// Nothing is queued.
    #[error("NothingQueued")]
    NothingQueued,
    /// An operation is at the front, and the lane holds its maximum number of operations.
    #[error("HeldFull")]
    HeldFull,
    /// There is no batch to send, or the maximum number of requests is in flight.
    #[error("NoRequest")]
    NoRequest,
    /// There is no such request, or no such item.
    #[error("NotSent")]
    NotSent,
    /// The request was answered already, or it was sent before the last restart.
    #[error("NotFlying")]
    NotFlying,
    /// An item has no such run, or the number of picks differs from the number of items.
    #[error("NotRun")]
    NotRun,
    /// The index may not refuse an item with this status, or a whole request may not be answered
    /// with it.
    #[error("BadStatus")]
    BadStatus,
    /// There is no such lane or sender.
    #[error("NoSuch")]
    NoSuch,
    /// The producer has put 2^40 operations.
    #[error("NumbersSpent")]
    NumbersSpent,
    /// The epoch is not above the current one, or it is above 4,194,303.
    #[error("NotAbove")]
    NotAbove,
}

/// What an event returns.
#[derive(Clone, Copy, Debug, PartialEq, Eq)]
pub enum StepAnswer {
    /// It was refused, and nothing changed.
    Refused(Refusal),
    /// An operation was accepted, under this name.
    Put(OpName),
    /// A request was sent, with this number.
    Sent(u64),
    /// An item was run, with this status.
    Ran(u16),
    /// A request was answered, with these counts of how its operations ended.
    Settled(Settled),
    /// Any other event was accepted.
    Done,
}

/// How a list of events ended.
#[derive(Clone, Copy, Debug, PartialEq, Eq)]
pub struct RunEnd {
    /// The number of events that were accepted.
    pub done: u64,
    /// The number of events that were refused.
    pub refused: u64,
}
