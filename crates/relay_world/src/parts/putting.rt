//! Messages are put into queues.
ghost use Rattle.std.specs.Prelude.{◌≡◌, ◌-◌, ◌<◌, None, Some};
ghost use Rattle.std.specs.Prelude.{OnOk, OnErr, IfOk};
ghost use Rattle.relay_results.specs.declared.cause.Loss.TheVariants.{Closed};
ghost use Rattle.relay_results.specs.Documents.{document_of};
ghost use Rattle.relay_world.specs.declared.event.Event.TheVariants as event;
ghost use Rattle.relay_world.specs.State.{lane_of};
ghost use Rattle.relay_world.specs.Refusals.{put_refusal, close_refusal};
ghost use Rattle.relay_world.specs.Refusals.{control_refusal};
ghost use Rattle.relay_world.specs.Refusals.{refusal};
ghost use Rattle.relay_world.specs.Changes.{after_put, at_lane, after_post};
ghost use Rattle.relay_world.specs.Steps.{Steps};
ghost use Rattle.relay_world.specs.Memory.{IsOpenIn};
ghost use Rattle.relay_world.specs.Memory.{ArePartsOf};

use super::{NUMBER_LIMIT, Parts};
use crate::event::{Refusal, StepAnswer};
use relay_action::{Action, Body, DocKey, Op, lane_of};
use std::alloc::AllocError;

impl Parts {
    // Why a put of a producer into the queue of a lane is refused, if it is.
    fn put_refusal(&self, producer: u32, lane: u32) -> Option<Refusal>
        ensures { result ≡ put_refusal self.now producer lane }
    {
        let config = self.config();
        if producer >= config.producers {
            return Some(Refusal::NoSuch);
        }
        if self.is_closed(producer) {
            return Some(Refusal::Closed);
        }
        if self.accepted(producer).len() as u64 >= NUMBER_LIMIT {
            return Some(Refusal::NumbersSpent);
        }
        match self.desk(lane) {
            None => Some(Refusal::NoSuch),
            Some(desk) => desk.full_refusal(config.capacity),
        }
    }

    // Accepts an operation that is not refused.
    fn accept(&mut self, op: Op, lane: u32) -> Result<(), AllocError>
        requires lane { lane ≡ lane_of self.old (document_of op.key) }
        requires fits { put_refusal self.old op.producer lane ≡ None }
        ensures ok { OnOk result (self.new ≡ after_put self.old op) }
        ensures unchanged { OnErr result (self.new ≡ self.old) }
    {
        self.accepted[op.producer as usize].accept(op, &mut self.desks[lane as usize])
    }

    pub(crate) fn put(
        &mut self,
        producer: u32,
        key: &DocKey,
        action: &Action,
    ) -> Result<StepAnswer, AllocError>
        ensures ok { IfOk result
            (λ x. Steps self.old (event.Put producer key.now action.now) x self.new) }
        ensures unchanged { OnErr result (self.new ≡ self.old) }
        ensures no_refusal { OnErr result (refusal self.old (event.Put producer key.now action.now) ≡ None) }
    {
        let lane = self.lane_of(key);
        if let Some(refusal) = self.put_refusal(producer, lane) {
            return Ok(StepAnswer::Refused(refusal));
        }
        let op = Op {
            epoch: self.config.epoch,
            producer,
            number: self.accepted(producer).len() as u64 + 1,
            key: key.copy()?,
            action: action.copy()?,
        };
        let name = op.name();
        self.accept(op, lane)?;
        Ok(StepAnswer::Put(name))
    }

    fn lane_of(&self, key: &DocKey) -> u32
        ensures { result ≡ lane_of self.now (document_of key.now) }
    {
        lane_of(key, self.config.lanes)
    }

    // Why a Close of a sender at a lane is refused, if it is.
    fn close_refusal(&self, sender: u32, lane: u32) -> Option<Refusal>
        ensures value { result ≡ close_refusal self.now sender lane }
        ensures kept { ArePartsOf self.now }
    {
        let config = self.config();
        match self.desk(lane) {
            None => Some(Refusal::NoSuch),
            Some(desk) => desk.close_refusal(sender, config.producers, config.capacity),
        }
    }

    // Why a tick or a flush of a lane is refused, if it is.
    fn control_refusal(&self, lane: u32) -> Option<Refusal>
        ensures value { result ≡ control_refusal self.now lane }
        ensures kept { ArePartsOf self.now }
    {
        let config = self.config();
        match self.desk(lane) {
            None => Some(Refusal::NoSuch),
            Some(_) if self.is_closed(config.producers) => Some(Refusal::Closed),
            Some(desk) => desk.full_refusal(config.capacity),
        }
    }

    // Puts a message of a sender that has not closed there into the queue of a lane.
    fn post(&mut self, sender: u32, lane: u32, body: Body) -> Result<(), AllocError>
        requires { IsOpenIn self.old sender lane }
        ensures ok { OnOk result (self.new ≡ at_lane lane (after_post sender body) self.old) }
        ensures unchanged { OnErr result (self.new ≡ self.old) }
    {
        self.desks[lane as usize].post(sender, body)
    }

    pub(crate) fn close(&mut self, sender: u32, lane: u32) -> Result<StepAnswer, AllocError>
        ensures ok { IfOk result (λ x. Steps self.old (event.Close sender lane) x self.new) }
        ensures unchanged { OnErr result (self.new ≡ self.old) }
        ensures no_refusal { OnErr result (refusal self.old (event.Close sender lane) ≡ None) }
    {
        if let Some(refusal) = self.close_refusal(sender, lane) {
            return Ok(StepAnswer::Refused(refusal));
        }
        self.post(sender, lane, Body::Done)?;
        Ok(StepAnswer::Done)
    }

    pub(crate) fn tick(&mut self, lane: u32) -> Result<StepAnswer, AllocError>
        ensures ok { IfOk result (λ x. Steps self.old (event.Tick lane) x self.new) }
        ensures unchanged { OnErr result (self.new ≡ self.old) }
        ensures no_refusal { OnErr result (refusal self.old (event.Tick lane) ≡ None) }
    {
        if let Some(refusal) = self.control_refusal(lane) {
            return Ok(StepAnswer::Refused(refusal));
        }
        let control = self.config().producers;
        self.post(control, lane, Body::Tick)?;
        Ok(StepAnswer::Done)
    }

    pub(crate) fn flush(&mut self, lane: u32) -> Result<StepAnswer, AllocError>
        ensures ok { IfOk result (λ x. Steps self.old (event.Flush lane) x self.new) }
        ensures unchanged { OnErr result (self.new ≡ self.old) }
        ensures no_refusal { OnErr result (refusal self.old (event.Flush lane) ≡ None) }
    {
        if let Some(refusal) = self.control_refusal(lane) {
            return Ok(StepAnswer::Refused(refusal));
        }
        let control = self.config().producers;
        self.post(control, lane, Body::Flush)?;
        Ok(StepAnswer::Done)
    }
}
