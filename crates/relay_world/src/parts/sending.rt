//! Lanes take and send.
ghost use Rattle.std.specs.Prelude.{◌≡◌, ◌-◌, ◌^◌, ◌<◌, None, Some};
ghost use Rattle.std.specs.Prelude.{OnOk, OnErr, IfOk};
ghost use Rattle.std.specs.Prelude.{length};
ghost use Rattle.relay_world.specs.declared.event.Event.TheVariants as event;
ghost use Rattle.relay_world.specs.Refusals.{refusal, take_refusal, send_refusal};
ghost use Rattle.relay_world.specs.Changes.{at_lane, took_front};
ghost use Rattle.relay_world.specs.Steps.{Steps};
ghost use Rattle.relay_world.specs.Memory.{IsThere};
ghost use Rattle.relay_world.specs.Memory.{Forms};

use super::Parts;
use crate::desk::send_from;
use crate::event::{Refusal, StepAnswer};
use std::alloc::AllocError;

impl Parts {
    // Why a lane may not take the front of its queue, if it may not.
    fn take_refusal(&self, lane: u32) -> Option<Refusal>
        ensures { result ≡ take_refusal self.now lane }
    {
        match self.desk(lane) {
            Some(desk) => desk.front_refusal(self.config().max_held),
            None => Some(Refusal::NoSuch),
        }
    }

    // Takes the front of a lane's queue. The take must not be one that is refused.
    fn take_front(&mut self, lane: u32) -> Result<(), AllocError>
        requires { take_refusal self.old lane ≡ None }
        ensures ok { OnOk result (self.new ≡ at_lane lane took_front self.old) }
        ensures unchanged { OnErr result (self.new ≡ self.old) }
    {
        self.desks[lane as usize].take()
    }

    pub(crate) fn take(&mut self, lane: u32) -> Result<StepAnswer, AllocError>
        ensures ok { IfOk result (λ x. Steps self.old (event.Take lane) x self.new) }
        ensures unchanged { OnErr result (self.new ≡ self.old) }
        ensures no_refusal { OnErr result (refusal self.old (event.Take lane) ≡ None) }
    {
        if let Some(refusal) = self.take_refusal(lane) {
            return Ok(StepAnswer::Refused(refusal));
        }
        self.take_front(lane)?;
        Ok(StepAnswer::Done)
    }

    // Forms the lane's next request, if there is one, and sends it.
    fn form(&mut self, lane: u32) -> Result<bool, AllocError>
        requires { IsThere self.old lane }
        ensures ok { IfOk result (λ b. Forms self.old lane b self.new) }
        ensures unchanged { OnErr result (self.new ≡ self.old) }
        ensures due { OnErr result (send_refusal self.old lane ≡ None) }
    {
        send_from(
            &mut self.desks[lane as usize],
            &mut self.sent,
            self.alloc,
            self.config.epoch,
            lane,
        )
    }

    fn requests(&self) -> u64
        ensures requests { result ≡ length self.now.sent }
        ensures few { result < 2 ^ 63 }
    {
        self.sent.len() as u64
    }

    pub(crate) fn send(&mut self, lane: u32) -> Result<StepAnswer, AllocError>
        ensures ok { IfOk result (λ x. Steps self.old (event.Send lane) x self.new) }
        ensures unchanged { OnErr result (self.new ≡ self.old) }
        ensures no_refusal { OnErr result (refusal self.old (event.Send lane) ≡ None) }
    {
        if self.desk(lane).is_none() {
            return Ok(StepAnswer::Refused(Refusal::NoSuch));
        }
        let number = self.requests().saturating_add(1);
        if self.form(lane)? {
            Ok(StepAnswer::Sent(number))
        } else {
            Ok(StepAnswer::Refused(Refusal::NoRequest))
        }
    }
}
