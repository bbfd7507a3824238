//! A producer's handle that is told how its operations ended, and keeps a window.
ghost use Rattle.std.specs.Prelude.{◌≡◌, ◌≢◌, ◌+◌, ◌<◌, ◌≤◌, ◌^◌, ◌↔◌, [], ◌∷◌, ◌++◌};
ghost use Rattle.std.specs.Prelude.{List, true, false, length, IfOk, IfErr};
ghost use Rattle.std.specs.Prelude.{IfSome, IfNone, OnOk, OnErr, IsErrAnd};
ghost use Rattle.relay_action.specs.declared.operation.Op.{Op};
ghost use Rattle.relay_producer.specs.Ends.{open_puts, closed_puts, identities, ClosesAll};
ghost use Rattle.relay_producer.specs.Puts.{HasPut};
ghost use Rattle.relay_producer.specs.States.{lane_for, is_lane_gone, next_op};
ghost use Rattle.relay_producer.specs.States.{after_put, after_gone};
ghost use Rattle.relay_receipts.specs.Windows.{endings_in, without_ended};

use crate::notice::{Gone, Notice};
use crate::take::ReceiptTake;
use relay_action::{Action, DocKey};
use relay_producer::{ClosedProducer, Producer, PutFault, PutFaultKind, Receipt};
use std::marker::Model;
use std::sync::Wait;
use std::time::{Clock, Duration};
use thiserror::Error;

/// The largest window: 65,536 operations.
pub const WINDOW_LIMIT: u32 = 1 << 16;

/// Why an operation was not put.
#[derive(Clone, Copy, Debug, PartialEq, Eq, Error)]
pub enum WindowFaultKind {
    /// The window is full: a receipt has to be taken first.
    #[error("WindowFull")]
    WindowFull,
    /// The producer refused it.
    #[error("{0}")]
    Put(PutFaultKind),
}

/// A refused operation. No number was used, and nothing was sent.
#[derive(Debug, Drop, Error)]
#[error("{kind}")]
pub struct WindowFault {
    /// Why it was refused.
    pub kind: WindowFaultKind,
    /// The document.
    pub key: DocKey,
    /// The action.
    pub action: Action,
}

/// A producer's handle that takes its receipts, and has at most a window of operations open: those
/// that it put and was not told of yet. Contracts see the producer, its end of the channel of its
/// receipts, the window, and the number of operations that are open.
#[derive(Drop)]
pub struct WindowedProducer<T: Drop> {
    producer: Producer,
    receipts: ReceiptTake<T>,
    window: u32,
    pending: u32,
}

impl<T: Drop> Model for WindowedProducer<T> {
    ghost use Rattle.relay_receipts.specs.Windows.{WindowState, KeepsWindow};

    ghost Value = { WindowState T };

    ghost view = { λ a. record {
      producer = a.producer;
      receipts = a.receipts;
      window = a.window;
      pending = a.pending;
    } };

    ghost invariant = { λ a. KeepsWindow (record {
      producer = a.producer;
      receipts = a.receipts;
      window = a.window;
      pending = a.pending;
    }) };
}

// How many operations are open after a notice that says this, of those that were.
fn left_open<T>(told: &Option<T>, pending: u32) -> u32
    ensures { result ≡ without_ended told.now pending }
{
    match told {
        Some(_) => pending.saturating_sub(1),
        None => pending,
    }
}

impl<T: Drop> WindowedProducer<T> {
    /// The handle of a producer that has put nothing, with its end of the channel of its receipts,
    /// from which nothing was taken, and a window of 1 to [`WINDOW_LIMIT`] operations. The channel
    /// should have a place for each of them and one for each lane; if it has fewer, a lane that
    /// tells may wait for this producer.
    pub fn new(producer: Producer, receipts: ReceiptTake<T>, window: u32) -> WindowedProducer<T>
        requires put { producer.put ≡ 0 }
        requires taken { receipts.taken ≡ [] }
        requires window { (0 < window) × (window ≤ 65536) }
        ensures { result ≡ record {
          producer = producer;
          receipts = receipts;
          window = window;
          pending = 0;
        } }
    {
        WindowedProducer {
            producer,
            receipts,
            window,
            pending: 0,
        }
    }

    /// Puts an operation as [`Producer::put`] does, if fewer operations are open than the window
    /// has; it is then open until its receipt is taken. With a full window it does not wait but
    /// refuses with `WindowFull`, so that the caller takes a receipt first: a caller that waited
    /// here could not take the receipt that it waits for.
    ///
    /// A refusal returns the key and the action, uses no number and sends nothing. The first of
    /// these that applies: `WindowFull`; the faults of [`Producer::put`].
    pub fn put<R: Wait>(
        &mut self,
        rt: &R,
        key: DocKey,
        action: Action,
    ) -> Result<Receipt, WindowFault>
        ensures name { IfOk result
            (λ r. r.name ≡ record {
              epoch = self.old.producer.epoch;
              producer = self.old.producer.producer;
              number = self.old.producer.put + 1;
            }) }
        ensures lane { IfOk result (λ r. r.lane ≡ lane_for key self.old.producer) }
        ensures added { OnOk result
            (self.new ≡ record self.old {
              producer = after_put key action self.old.producer;
              pending = self.old.pending + 1;
            }) }
        ensures put { OnOk result ((ops : List Op)
            → HasPut self.old.producer.producer self.old.producer.put
            (open_puts self.old.producer.ends) ops
            → HasPut self.new.producer.producer self.new.producer.put
            (open_puts self.new.producer.ends)
            (ops ++ next_op key action self.old.producer ∷ [])) }
        ensures back { IfErr result (λ e. (e.key ≡ key) × (e.action ≡ action)) }
        ensures full { IsErrAnd result (λ e. e.kind ≡ WindowFaultKind.WindowFull)
            ↔ (self.old.pending ≡ self.old.window) }
        ensures marked { self.old.pending ≢ self.old.window
            → is_lane_gone key self.old.producer ≡ true
            → IsErrAnd result (λ e. e.kind ≡ WindowFaultKind.Put PutFaultKind.LaneGone) }
        ensures gone { IfErr result
            (λ e. e.kind ≡ WindowFaultKind.Put PutFaultKind.LaneGone
            → self.new ≡ record self.old { producer = after_gone key self.old.producer }) }
        ensures spent { IsErrAnd result
            (λ e. e.kind ≡ WindowFaultKind.Put PutFaultKind.NumbersSpent)
            ↔ ((self.old.pending ≢ self.old.window)
            × (is_lane_gone key self.old.producer ≡ false)
            × (self.old.producer.put ≡ 2 ^ 40)) }
        ensures unchanged { IfErr result
            (λ e. e.kind ≢ WindowFaultKind.Put PutFaultKind.LaneGone → self.new ≡ self.old) }
        ensures same { identities (open_puts self.new.producer.ends)
            ≡ identities (open_puts self.old.producer.ends) }
        ensures refused { OnErr result (open_puts self.new.producer.ends
            ≡ open_puts self.old.producer.ends) }
    {
        if self.pending >= self.window {
            return Err(WindowFault {
                kind: WindowFaultKind::WindowFull,
                key,
                action,
            });
        }
        match self.producer.put(rt, key, action) {
            Ok(receipt) => {
                self.pending += 1;
                Ok(receipt)
            }
            Err(PutFault { kind, key, action }) => Err(WindowFault {
                kind: WindowFaultKind::Put(kind),
                key,
                action,
            }),
        }
    }

    /// Takes the first notice as [`ReceiptTake::take`] does: it waits while nothing is queued. If it
    /// says how an operation ended, that one is no longer open.
    pub fn take<R: Wait>(&mut self, rt: &R) -> Result<Notice<T>, Gone>
        ensures producer { self.new.producer ≡ self.old.producer }
        ensures window { self.new.window ≡ self.old.window }
        ensures same { (self.new.receipts.channel ≡ self.old.receipts.channel)
            × (self.new.receipts.lanes ≡ self.old.receipts.lanes) }
        ensures taken { IfOk result
            (λ n. self.new.receipts.taken ≡ self.old.receipts.taken ++ n ∷ []) }
        ensures lane { IfOk result (λ n. n.lane < self.old.receipts.lanes) }
        ensures pending { IfOk result
            (λ n. self.new.pending ≡ without_ended n.told self.old.pending) }
        ensures gone { IfErr result (λ _. self.new ≡ self.old) }
    {
        let notice = self.receipts.take(rt)?;
        self.pending = left_open(&notice.told, self.pending);
        Ok(notice)
    }

    /// Takes the notice at the front if one is queued, otherwise returns `None`, as
    /// [`ReceiptTake::try_take`] does. It does not wait.
    pub fn try_take<R: Wait>(&mut self, rt: &R) -> Result<Option<Notice<T>>, Gone>
        ensures producer { self.new.producer ≡ self.old.producer }
        ensures window { self.new.window ≡ self.old.window }
        ensures same { (self.new.receipts.channel ≡ self.old.receipts.channel)
            × (self.new.receipts.lanes ≡ self.old.receipts.lanes) }
        ensures taken { IfOk result (λ o. IfSome o
            (λ n. self.new.receipts.taken ≡ self.old.receipts.taken ++ n ∷ [])) }
        ensures lane { IfOk result (λ o. IfSome o (λ n. n.lane < self.old.receipts.lanes)) }
        ensures pending { IfOk result (λ o. IfSome o
            (λ n. self.new.pending ≡ without_ended n.told self.old.pending)) }
        ensures none { IfOk result (λ o. IfNone o (self.new ≡ self.old)) }
        ensures gone { IfErr result (λ _. self.new ≡ self.old) }
    {
        let Some(notice) = self.receipts.try_take(rt)? else {
            return Ok(None);
        };
        self.pending = left_open(&notice.told, self.pending);
        Ok(Some(notice))
    }

    /// Takes the first notice as [`ReceiptTake::take_within`] does: it waits for at most `limit` while
    /// nothing is queued, and then returns `None`.
    pub fn take_within<R: Wait + Clock>(
        &mut self,
        rt: &R,
        limit: Duration,
    ) -> Result<Option<Notice<T>>, Gone>
        ensures producer { self.new.producer ≡ self.old.producer }
        ensures window { self.new.window ≡ self.old.window }
        ensures same { (self.new.receipts.channel ≡ self.old.receipts.channel)
            × (self.new.receipts.lanes ≡ self.old.receipts.lanes) }
        ensures taken { IfOk result (λ o. IfSome o
            (λ n. self.new.receipts.taken ≡ self.old.receipts.taken ++ n ∷ [])) }
        ensures lane { IfOk result (λ o. IfSome o (λ n. n.lane < self.old.receipts.lanes)) }
        ensures pending { IfOk result (λ o. IfSome o
            (λ n. self.new.pending ≡ without_ended n.told self.old.pending)) }
        ensures none { IfOk result (λ o. IfNone o (self.new ≡ self.old)) }
        ensures gone { IfErr result (λ _. self.new ≡ self.old) }
    {
        let Some(notice) = self.receipts.take_within(rt, limit)? else {
            return Ok(None);
        };
        self.pending = left_open(&notice.told, self.pending);
        Ok(Some(notice))
    }

    /// The number of operations that are open: at most the window, and at least as many as were put
    /// and have no receipt that was taken.
    pub fn pending(&self) -> u32
        ensures count { result ≡ self.now.pending }
        ensures within { result ≤ self.now.window }
        ensures each { self.now.producer.put
            ≤ result + length (endings_in self.now.receipts.taken) }
    {
        self.pending
    }

    /// Closes the producer as [`Producer::close`] does, and returns it with its end of the channel
    /// of its receipts, from which those of the operations that are still open can be taken.
    pub fn close<R: Wait>(self, rt: &R) -> (ClosedProducer, ReceiptTake<T>)
        ensures closed { ClosesAll self.producer.ends result.0.ends }
        ensures same { (result.0.producer ≡ self.producer.producer)
            × (result.0.put ≡ self.producer.put) }
        ensures ends { identities (closed_puts result.0.ends)
            ≡ identities (open_puts self.producer.ends) }
        ensures put { (ops : List Op)
            → HasPut self.producer.producer self.producer.put (open_puts self.producer.ends) ops
            → HasPut result.0.producer result.0.put (closed_puts result.0.ends) ops }
        ensures receipts { result.1 ≡ self.receipts }
    {
        let WindowedProducer {
            producer,
            receipts,
            window: _,
            pending: _,
        } = self;
        (producer.close(rt), receipts)
    }
}
