//! A producer's handle, which puts operations, each to the lane of its document.
ghost use Rattle.std.specs.Prelude.{◌≡◌, ◌+◌, ◌<◌, ◌^◌, ◌↔◌, [], ◌∷◌, ◌++◌};
ghost use Rattle.std.specs.Prelude.{List, true, false, map, IfOk};
ghost use Rattle.std.specs.Prelude.{IfErr, OnOk, OnErr, IsErrAnd};
ghost use Rattle.std.specs.List.{All, count_by};
ghost use Rattle.relay_action.specs.declared.operation.Op.{Op};
ghost use Rattle.relay_producer.specs.Ends.{open_end, open_puts, closed_puts, identities};
ghost use Rattle.relay_producer.specs.Ends.{is_gone, IsClosedBy, ClosesAll};
ghost use Rattle.relay_producer.specs.Puts.{HasPut};
ghost use Rattle.relay_producer.specs.States.{AreFresh, HasLanes, lane_for, is_lane_gone};
ghost use Rattle.relay_producer.specs.States.{next_op, after_put, after_gone};

use crate::ends::{ClosedEnd, OpenEnd};
use crate::fault::{PutFault, PutFaultKind};
use crate::lanes::{close_all, count_closed_gone, count_gone, open_all, send_op};
use relay_action::{Action, DocKey, Op, OpName, lane_of};
use relay_queue::{LanePut, PUT_LIMIT};
use std::alloc::{AllocError, Global};
use std::marker::Model;
use std::sync::Wait;

/// The receipt of a put: the name of the operation, and its lane.
#[derive(Clone, Copy, Debug, PartialEq, Eq)]
pub struct Receipt {
    /// The operation's name.
    pub name: OpName,
    /// The lane of its document, from 0.
    pub lane: u32,
}

/// A producer's handle. Contracts see its epoch and its number, how many operations it put, and its
/// end of each lane's queue.
///
/// Once a lane's queue reports that the lane is gone, the lane is marked, and nothing more is sent
/// to it.
#[derive(Drop)]
pub struct Producer {
    epoch: u32,
    producer: u32,
    count: u64,
    ends: Vec<OpenEnd>,
    closed: Vec<ClosedEnd>,
}

impl Model for Producer {
    ghost use Rattle.std.specs.Prelude.{◌≡◌, ◌≤◌, [], length, vec_capacity};
    ghost use Rattle.relay_producer.specs.States.{ProducerState, IsProducer};

    ghost Value = { ProducerState };

    ghost view = { λ a. record {
      epoch = a.epoch;
      producer = a.producer;
      put = a.count;
      ends = a.ends.items;
    } };

    ghost invariant = { λ a. IsProducer (record {
      epoch = a.epoch;
      producer = a.producer;
      put = a.count;
      ends = a.ends.items;
    })
        × (a.closed.items ≡ [])
        × (length a.ends.items ≤ vec_capacity a.closed) };
}

fn refused(kind: PutFaultKind, key: DocKey, action: Action) -> PutFault
    ensures { result ≡ record { kind = kind; key = key; action = action } }
{
    PutFault { kind, key, action }
}

impl Producer {
    /// The handle of producer `producer` in an epoch, over its ends of the queues of 1 to 8 lanes,
    /// in lane order, to which nothing was sent yet. It has put nothing, and no lane is marked. It
    /// reserves what its close needs, so no later call allocates. `AllocError`: allocation failed;
    /// the ends are dropped.
    pub fn new(
        alloc: Global,
        epoch: u32,
        producer: u32,
        puts: Vec<LanePut>,
    ) -> Result<Producer, AllocError>
        requires lanes { HasLanes puts.items }
        requires fresh { AreFresh producer puts.items }
        ensures state { IfOk result
            (λ p. p ≡ record {
              epoch = epoch;
              producer = producer;
              put = 0;
              ends = map open_end puts.items;
            }) }
        ensures puts { IfOk result (λ p. open_puts p.ends ≡ puts.items) }
        ensures none { IfOk result (λ p. HasPut producer 0 (open_puts p.ends) []) }
    {
        let closed = Vec::with_capacity(alloc, puts.len())?;
        let ends = open_all(alloc, puts)?;
        Ok(Producer {
            epoch,
            producer,
            count: 0,
            ends,
            closed,
        })
    }

    /// Puts an operation: sends it to the lane of its document under the next number, and returns
    /// its name and the lane. It waits while that lane's queue is full, and does not allocate.
    ///
    /// A refusal returns the key and the action, uses no number and sends nothing. The first of
    /// these that applies: `LaneGone` if the lane is marked; `NumbersSpent` if this producer has
    /// put 2^40 operations; `LaneGone` if the queue reports that the lane is gone, which marks it.
    /// No contract says when a lane is gone.
    pub fn put<R: Wait>(&mut self, rt: &R, key: DocKey, action: Action) -> Result<Receipt, PutFault>
        ensures name { IfOk result
            (λ r. r.name ≡ record {
              epoch = self.old.epoch;
              producer = self.old.producer;
              number = self.old.put + 1;
            }) }
        ensures lane { IfOk result (λ r. r.lane ≡ lane_for key self.old) }
        ensures added { OnOk result (self.new ≡ after_put key action self.old) }
        ensures limit { OnOk result (self.old.put < 2 ^ 40) }
        ensures reached { OnOk result (is_lane_gone key self.old ≡ false) }
        ensures back { IfErr result (λ e. (e.key ≡ key) × (e.action ≡ action)) }
        ensures marked { is_lane_gone key self.old ≡ true
            → IsErrAnd result (λ e. e.kind ≡ PutFaultKind.LaneGone) }
        ensures gone { IfErr result
            (λ e. e.kind ≡ PutFaultKind.LaneGone → self.new ≡ after_gone key self.old) }
        ensures spent { IsErrAnd result (λ e. e.kind ≡ PutFaultKind.NumbersSpent)
            ↔ ((is_lane_gone key self.old ≡ false) × (self.old.put ≡ 2 ^ 40)) }
        ensures unchanged { IfErr result
            (λ e. e.kind ≡ PutFaultKind.NumbersSpent → self.new ≡ self.old) }
        ensures same { identities (open_puts self.new.ends) ≡ identities (open_puts self.old.ends) }
        ensures put { OnOk result ((ops : List Op)
            → HasPut self.old.producer self.old.put (open_puts self.old.ends) ops
            → HasPut self.new.producer self.new.put (open_puts self.new.ends)
            (ops ++ next_op key action self.old ∷ [])) }
        ensures refused { OnErr result (open_puts self.new.ends ≡ open_puts self.old.ends) }
    {
        let lane = lane_of(&key, self.ends.len() as u32);
        if self.ends[lane as usize].gone {
            return Err(refused(PutFaultKind::LaneGone, key, action));
        }
        if self.count >= PUT_LIMIT {
            return Err(refused(PutFaultKind::NumbersSpent, key, action));
        }
        let epoch = self.epoch;
        let producer = self.producer;
        let number = self.count + 1;
        let name = OpName {
            epoch,
            producer,
            number,
        };
        let op = Op {
            epoch,
            producer,
            number,
            key,
            action,
        };
        send_op(rt, &mut self.ends, lane as usize, op).map_err(|op| refused(
            PutFaultKind::LaneGone,
            op.key,
            op.action,
        ))?;
        self.count = number;
        Ok(Receipt { name, lane })
    }

    /// Sends Done to each lane that is not marked, in lane order, and marks those that are found
    /// gone. It waits while a queue is full, and does not allocate. Nothing can be put afterwards.
    pub fn close<R: Wait>(self, rt: &R) -> ClosedProducer
        ensures closed { ClosesAll self.ends result.ends }
        ensures same { (result.producer ≡ self.producer) × (result.put ≡ self.put) }
        ensures ends { identities (closed_puts result.ends) ≡ identities (open_puts self.ends) }
        ensures put { (ops : List Op)
            → HasPut self.producer self.put (open_puts self.ends) ops
            → HasPut result.producer result.put (closed_puts result.ends) ops }
    {
        let Producer {
            producer,
            count,
            ends,
            closed,
            ..
        } = self;
        let ends = close_all(rt, ends, closed);
        ClosedProducer {
            producer,
            count,
            ends,
        }
    }

    /// The number of marked lanes.
    pub fn gone(&self) -> u32
        ensures count { result ≡ count_by (λ e. e.gone) self.now.ends }
        ensures shown { (ops : List Op)
            × HasPut self.now.producer self.now.put (open_puts self.now.ends) ops }
    {
        count_gone(&self.ends)
    }
}

/// The handle of a producer after its close. Contracts see its number, how many operations it put,
/// and its end of each lane's queue, which show what it put.
#[derive(Drop)]
pub struct ClosedProducer {
    producer: u32,
    count: u64,
    ends: Vec<ClosedEnd>,
}

impl Model for ClosedProducer {
    ghost use Rattle.relay_producer.specs.States.{ClosedProducerState, IsClosedProducer};

    ghost Value = { ClosedProducerState };

    ghost view = { λ a. record { producer = a.producer; put = a.count; ends = a.ends.items } };

    ghost invariant = { λ a. IsClosedProducer (record {
      producer = a.producer;
      put = a.count;
      ends = a.ends.items;
    }) };
}

impl ClosedProducer {
    /// The number of marked lanes: those that were found gone, at a put or at the close, and were
    /// sent no Done.
    pub fn gone(&self) -> u32
        ensures count { result ≡ count_by is_gone self.now.ends }
        ensures none { result ≡ 0 ↔ All (λ e. is_gone e ≡ false) self.now.ends }
        ensures shown { (ops : List Op)
            × HasPut self.now.producer self.now.put (closed_puts self.now.ends) ops }
    {
        count_closed_gone(&self.ends)
    }

    /// The ends of the lanes' queues, in lane order, each closed or of a marked lane. Whoever joins
    /// the lanes compares them with what the lanes took.
    pub fn into_ends(self) -> Vec<ClosedEnd>
        ensures ends { result.items ≡ self.ends }
        ensures lanes { HasLanes self.ends }
        ensures closed { All (IsClosedBy self.producer) self.ends }
        ensures shown { (ops : List Op)
            × HasPut self.producer self.put (closed_puts self.ends) ops }
    {
        let ClosedProducer { ends, .. } = self;
        ends
    }
}
