//! Requests are answered.
ghost use Rattle.std.specs.Prelude.{◌≡◌, ◌≢◌, slice_get, is_ok, ◌-◌, ◌<◌, None, Some};
ghost use Rattle.std.specs.Prelude.{true, OnOk, OnErr, IfOk, option_map, is_some};
ghost use Rattle.relay_action.specs.Actions.{kind_of};
ghost use Rattle.relay_results.specs.declared.cause.Loss.TheVariants.{Closed};
ghost use Rattle.relay_results.specs.Words.{update};
ghost use Rattle.relay_results.specs.Outside.{Items, Whole, Lost};
ghost use Rattle.relay_world.specs.declared.event.Event.TheVariants as event;
ghost use Rattle.relay_world.specs.State.{desk_at};
ghost use Rattle.relay_world.specs.Refusals.{entries_from, flies_at};
ghost use Rattle.relay_world.specs.Refusals.{is_flying};
ghost use Rattle.relay_world.specs.Refusals.{entry_at, entries, refusal};
ghost use Rattle.relay_world.specs.Changes.{at_lane};
ghost use Rattle.relay_world.specs.Changes.{with_answer};
ghost use Rattle.relay_world.specs.Changes.{answered_desk};
ghost use Rattle.relay_world.specs.Steps.{Steps};
ghost use Rattle.relay_world.specs.Memory.{answer_of, IsThere};
ghost use Rattle.relay_world.specs.Memory.{IsSent, IsSettledAt};

use super::Parts;
use crate::event::{Refusal, StepAnswer};
use crate::request::{Given, RunDone, SentItem, SentRequest};
use relay_action::{Op, Text};
use relay_core::{NotFlying, Settled};
use relay_results::Outcome;
use std::alloc::{AllocError, Global};

fn pick_at(picks: &[u64], place: usize) -> Option<u64>
    ensures { result ≡ slice_get picks.now place }
{
    picks.get(place).copied()
}

// The entry of a reply for an operation, as this run gives it.
fn entry_for(alloc: Global, op: &Op, run: &RunDone) -> Result<Outcome, AllocError>
    ensures { IfOk result (λ o. o ≡ record {
      kind =
          kind_of op.now.action;
      id = op.now.key.id;
      status = run.now.status;
      error = run.now.error;
    }) }
{
    let error = match &run.error {
        Some(error) => Some(error.copy(alloc)?),
        None => None,
    };
    Ok(Outcome {
        kind: op.action.kind(),
        id: Text::new(alloc, op.key.id())?,
        status: run.status,
        error,
    })
}

impl Parts {
    // Whether a request is in flight in its lane.
    fn is_flying(&self, sent: &SentRequest) -> bool
        ensures { result ≡ is_flying self.now sent.now }
    {
        if sent.epoch() != self.config.epoch {
            return false;
        }
        match self.desk(sent.lane()) {
            Some(desk) => desk.is_flying(sent.number()),
            None => false,
        }
    }

    // The entry for an item of a request that a lane sent, from the run that is picked, if there is
    // that run.
    fn entry(
        &self,
        lane: u32,
        item: &SentItem,
        pick: Option<u64>,
    ) -> Result<Option<Outcome>, AllocError>
        ensures { IfOk result (λ o. o ≡ entry_at self.now lane pick item.now) }
    {
        let Some(op) = self.op_with(lane, item.version()) else {
            return Ok(None);
        };
        let Some(run) = item.run_by(pick) else {
            return Ok(None);
        };
        Ok(Some(entry_for(self.alloc, op, run)?))
    }

    // Whether an item of a request that a lane sent has the run that is picked.
    fn has_run(&self, lane: u32, item: &SentItem, pick: Option<u64>) -> bool
        ensures { result ≡ is_some (entry_at self.now lane pick item.now) }
    {
        self.op_with(lane, item.version()).is_some() && item.run_by(pick).is_some()
    }

    // Whether each of these items has its run.
    fn have_runs(&self, lane: u32, items: &[SentItem], picks: &[u64]) -> bool
        ensures { result ≡ is_some (entries_from self.now lane picks.now 0 items.now) }
    {
        'items: for place in 0..items.len() {
            if !self.has_run(lane, &items[place], pick_at(picks, place)) {
                return false;
            }
        }
        true
    }

    // Whether the picks are valid and each item has its run.
    fn has_entries(&self, sent: &SentRequest, picks: &[u64]) -> bool
        ensures { result ≡ is_some (entries self.now sent.now picks.now) }
    {
        if picks.is_empty() || picks.len() == sent.items().len() {
            self.have_runs(sent.lane(), sent.items(), picks)
        } else {
            false
        }
    }

    // The entries of a reply to a request, if the picks are valid and each item has its run.
    fn entries(&self, sent: &SentRequest, picks: &[u64]) -> Result<Option<Vec<Outcome>>, AllocError>
        ensures { IfOk result
            (λ o. option_map (λ v. v.items) o ≡ entries self.now sent.now picks.now) }
    {
        if picks.is_empty() || picks.len() == sent.items().len() {
            self.entries_for(sent.lane(), sent.items(), picks)
        } else {
            Ok(None)
        }
    }

    // The entries for these items, if each has its run.
    fn entries_for(
        &self,
        lane: u32,
        items: &[SentItem],
        picks: &[u64],
    ) -> Result<Option<Vec<Outcome>>, AllocError>
        ensures { IfOk result (λ o. option_map (λ v. v.items) o
            ≡ entries_from self.now lane picks.now 0 items.now) }
    {
        let mut outcomes = Vec::with_capacity(self.alloc, items.len())?;
        'items: for place in 0..items.len() {
            let Some(entry) = self.entry(lane, &items[place], pick_at(picks, place))? else {
                return Ok(None);
            };
            outcomes.push(entry)?;
        }
        Ok(Some(outcomes))
    }

    // Records the answer to a request.
    fn note(&mut self, request: u64, given: Given)
        requires { IsSent self.old request }
        ensures { self.new ≡ record self.old {
          sent = update (request - 1) (with_answer (answer_of given)) self.old.sent;
        } }
    {
        self.sent[request.saturating_sub(1) as usize].note(given);
    }

    // Settles a lane's request whose reply was lost.
    fn lose(&mut self, lane: u32, number: u64) -> Result<Settled, NotFlying>
        requires { IsThere self.old lane }
        ensures flies { is_ok result ≡ flies_at number (desk_at self.old lane) }
        ensures ok { OnOk result (self.new ≡ at_lane lane (answered_desk number (Lost Closed)) self.old) }
        ensures counts { IfOk result (λ c. IsSettledAt self.old lane number (Lost Closed) c) }
        ensures unchanged { OnErr result (self.new ≡ self.old) }
    {
        self.desks[lane as usize].lost(number)
    }

    // Settles a lane's request that was answered as a whole.
    fn reject(&mut self, lane: u32, number: u64, status: u16) -> Result<Settled, NotFlying>
        requires there { IsThere self.old lane }
        requires status { status ≢ 200 }
        ensures flies { is_ok result ≡ flies_at number (desk_at self.old lane) }
        ensures ok { OnOk result
            (self.new ≡ at_lane lane (answered_desk number (Whole status None)) self.old) }
        ensures counts { IfOk result (λ c. IsSettledAt self.old lane number (Whole status None) c) }
        ensures unchanged { OnErr result (self.new ≡ self.old) }
    {
        self.desks[lane as usize].whole(number, status)
    }

    // Settles a lane's request that was answered with entries.
    fn settle(
        &mut self,
        lane: u32,
        number: u64,
        entries: Vec<Outcome>,
    ) -> Result<Settled, NotFlying>
        requires { IsThere self.old lane }
        ensures flies { is_ok result ≡ flies_at number (desk_at self.old lane) }
        ensures ok { OnOk result
            (self.new ≡ at_lane lane (answered_desk number (Items entries.items)) self.old) }
        ensures counts { IfOk result
            (λ c. IsSettledAt self.old lane number (Items entries.items) c) }
        ensures unchanged { OnErr result (self.new ≡ self.old) }
    {
        self.desks[lane as usize].reply(number, entries)
    }

    pub(crate) fn reply(&mut self, request: u64, picks: &[u64]) -> Result<StepAnswer, AllocError>
        ensures ok { IfOk result
            (λ x. Steps self.old (event.Reply request picks.now) x self.new) }
        ensures unchanged { OnErr result (self.new ≡ self.old) }
        ensures no_refusal { OnErr result (refusal self.old (event.Reply request picks.now) ≡ None) }
    {
        let Some(sent) = self.request(request) else {
            return Ok(StepAnswer::Refused(Refusal::NotSent));
        };
        if !self.is_flying(sent) {
            return Ok(StepAnswer::Refused(Refusal::NotFlying));
        }
        if !self.has_entries(sent, picks) {
            return Ok(StepAnswer::Refused(Refusal::NotRun));
        }
        let lane = sent.lane();
        let number = sent.number();
        let Some(kept) = self.entries(sent, picks)? else {
            unreachable!();
        };
        let Some(given) = self.entries(sent, picks)? else {
            unreachable!();
        };
        match self.settle(lane, number, given) {
            Err(_) => Ok(StepAnswer::Refused(Refusal::NotFlying)),
            Ok(counts) => {
                self.note(request, Given::Entries(kept));
                Ok(StepAnswer::Settled(counts))
            }
        }
    }

    pub(crate) fn whole(&mut self, request: u64, status: u16) -> StepAnswer
        ensures { Steps self.old (event.Whole request status) result self.new }
    {
        let Some(sent) = self.request(request) else {
            return StepAnswer::Refused(Refusal::NotSent);
        };
        if !self.is_flying(sent) {
            return StepAnswer::Refused(Refusal::NotFlying);
        }
        if status <= 200 || status > 599 {
            return StepAnswer::Refused(Refusal::BadStatus);
        }
        let lane = sent.lane();
        let number = sent.number();
        match self.reject(lane, number, status) {
            Err(_) => StepAnswer::Refused(Refusal::NotFlying),
            Ok(counts) => {
                self.note(request, Given::Status(status));
                StepAnswer::Settled(counts)
            }
        }
    }

    pub(crate) fn lost(&mut self, request: u64) -> StepAnswer
        ensures { Steps self.old (event.Lost request) result self.new }
    {
        let Some(sent) = self.request(request) else {
            return StepAnswer::Refused(Refusal::NotSent);
        };
        if !self.is_flying(sent) {
            return StepAnswer::Refused(Refusal::NotFlying);
        }
        let lane = sent.lane();
        let number = sent.number();
        match self.lose(lane, number) {
            Err(_) => StepAnswer::Refused(Refusal::NotFlying),
            Ok(counts) => {
                self.note(request, Given::Loss);
                StepAnswer::Settled(counts)
            }
        }
    }
}
