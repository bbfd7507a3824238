//! The parts of a world, and each event on them.
ghost use Rattle.std.specs.Prelude.{◌≡◌, slice_get, ◌-◌, ◌^◌, ◌<◌, [], ◌∷◌, None, Some};
ghost use Rattle.std.specs.Prelude.{true, OnOk, OnErr, IfOk, map, option_map};
ghost use Rattle.relay_results.specs.Documents.{document_of};
ghost use Rattle.relay_core.specs.Limits.{is_valid};
ghost use Rattle.relay_core.specs.Walk.{report_of};
ghost use Rattle.relay_world.specs.declared.event.Event.TheVariants as event;
ghost use Rattle.relay_world.specs.State.{fresh, desk_at, accepted_from, applied_writes};
ghost use Rattle.relay_world.specs.State.{names_at, reports, request_at, is_closed};
ghost use Rattle.relay_world.specs.State.{is_finished, is_written, AreKeysOf, op_among, op_with};
ghost use Rattle.relay_world.specs.State.{running, place_dealt, incarnations_of};
ghost use Rattle.relay_world.specs.Refusals.{is_above, refusal};
ghost use Rattle.relay_world.specs.Changes.{after_restart};
ghost use Rattle.relay_delivery.specs.Incarnations.{accepted_in};
ghost use Rattle.relay_world.specs.Steps.{Steps};
ghost use Rattle.relay_world.specs.Memory.{ArePartsOf};

mod answering;
mod putting;
mod running;
mod sending;

use crate::accepted::{Accepted, none_accepted};
use crate::desk::{Desk, fresh_desks};
use crate::ended::{Ended, take_all};
use crate::epoch::{in_new_epoch, place_dealt};
use crate::event::{Refusal, StepAnswer};
use crate::names::Names;
use crate::request::SentRequest;
use relay_action::{DocKey, Op, OpName, Write};
use relay_core::config::EPOCH_LIMIT;
use relay_core::{RelayConfig, Report};
use relay_index::Index;
use std::alloc::{AllocError, Global};
use std::marker::Model;
use std::mem;
use std::snapshot::Snapshot;

// The maximum number of operations of a producer, 2^40.
const NUMBER_LIMIT: u64 = 1_099_511_627_776;

// The lanes with their queues, what was accepted and sent, the index, and the names of what it
// applied.
#[derive(Drop)]
pub(crate) struct Parts {
    // The index as it was at the start, for proofs only.
    opening: Snapshot<Index>,
    alloc: Global,
    config: RelayConfig,
    desks: Vec<Desk>,
    accepted: Vec<Accepted>,
    ended: Vec<Ended>,
    sent: Vec<SentRequest>,
    index: Index,
    names: Names,
}

impl Model for Parts {
    ghost use Rattle.relay_world.specs.State.{World};
    ghost use Rattle.relay_world.specs.View.{world_of, IsSound};

    ghost Value = { World };

    ghost view = { world_of };

    ghost invariant = { IsSound };
}

impl Parts {
    pub(crate) fn new(alloc: Global, config: RelayConfig, index: Index) -> Result<Parts, AllocError>
        requires { is_valid config ≡ true }
        ensures { IfOk result (λ w. w ≡ fresh config index) }
    {
        Ok(Parts {
            opening: Snapshot::of(&index),
            alloc,
            config,
            desks: fresh_desks(alloc, config)?,
            accepted: none_accepted(alloc, config.producers)?,
            ended: Vec::new(alloc),
            sent: Vec::new(alloc),
            index,
            names: Names::new(alloc),
        })
    }
}

// Look-ups.
impl Parts {
    // The config. What is in memory is within its limits.
    fn config(&self) -> RelayConfig
        ensures config { result ≡ self.now.config }
        ensures kept { ArePartsOf self.now }
    {
        self.config
    }

    fn desk(&self, lane: u32) -> Option<&Desk>
        ensures { option_map (λ d. d.now) result ≡ desk_at self.now lane }
    {
        self.desks.get(lane as usize)
    }

    // What was accepted from a producer; nothing if there is no such producer.
    pub(crate) fn accepted(&self, producer: u32) -> &[Op]
        ensures { result.now ≡ accepted_from self.now producer }
    {
        match self.accepted.get(producer as usize) {
            Some(list) => list.as_slice(),
            None => &[],
        }
    }

    // The writes that were applied to a document since the start.
    pub(crate) fn applied(&self, key: &DocKey) -> &[Write]
        ensures { result.now ≡ applied_writes self.now (document_of key.now) }
    {
        let all = self.index.applied(key);
        let before = self.names.before(key, all.len());
        match all.get(before..) {
            Some(since) => since,
            None => &[],
        }
    }

    // The names of the operations whose writes were applied to a document.
    pub(crate) fn names(&self, key: &DocKey) -> &[OpName]
        ensures { result.now ≡ names_at self.now (document_of key.now) }
    {
        self.names.names(key)
    }

    pub(crate) fn reports(&self, lane: u32) -> &[Report]
        ensures { map report_of result.now ≡ reports self.now lane }
    {
        match self.desk(lane) {
            Some(desk) => desk.reports(),
            None => &[],
        }
    }

    // Whether a write was applied to a document since the start.
    fn is_written(&self, key: &DocKey) -> bool
        ensures { result ≡ is_written self.now (document_of key.now) }
    {
        !self.applied(key).is_empty()
    }

    // The documents that a write was applied to since the start.
    pub(crate) fn keys(&self) -> Result<Vec<DocKey>, AllocError>
        ensures { IfOk result (λ keys. AreKeysOf self.now keys.items) }
    {
        let mut keys = self.index.keys(self.alloc)?;
        keys.retain(|key| self.is_written(key));
        Ok(keys)
    }

    // A sent request, by its number.
    fn request(&self, request: u64) -> Option<&SentRequest>
        ensures { option_map (λ s. s.now) result ≡ request_at self.now request }
    {
        if request == 0 {
            None
        } else {
            self.sent_at(request - 1)
        }
    }

    // A sent request, by its place from 0.
    fn sent_at(&self, place: u64) -> Option<&SentRequest>
        ensures { option_map (λ s. s.now) result ≡ slice_get self.now.sent place }
    {
        self.sent.get(place as usize)
    }

    // The place of a version among those that a lane may assign in an epoch, if it is one of them.
    fn dealt_at(&self, epoch: u32, version: u64) -> Option<u64>
        ensures { result ≡ place_dealt self.now.config.deal epoch version }
    {
        place_dealt(self.config().deal, epoch, version)
    }

    // The operation to which a lane assigned a version, in the incarnation that assigned it.
    fn op_with(&self, lane: u32, version: u64) -> Option<&Op>
        ensures { option_map (λ o. o.now) result ≡ op_with self.now lane version }
    {
        'ended: for ended in self.ended.iter() {
            if let Some(place) = self.dealt_at(ended.epoch, version) {
                return ended.op_at(lane, place);
            }
        }
        self.op_running(lane, version)
    }

    // The same for the current incarnation only.
    fn op_running(&self, lane: u32, version: u64) -> Option<&Op>
        ensures { option_map (λ o. o.now) result
            ≡ op_among self.now.config.deal (running self.now ∷ []) lane version }
    {
        let place = self.dealt_at(self.config.epoch, version)?;
        self.desk(lane)?.op_at(place)
    }

    // Whether each sender has closed at each lane, nothing is queued, and no lane holds an
    // operation.
    pub(crate) fn finished(&self) -> bool
        ensures { result ≡ is_finished self.now }
    {
        self.desks.iter().all(|desk| desk.is_done())
    }

    // Whether a sender has closed at some lane.
    fn is_closed(&self, sender: u32) -> bool
        ensures { result ≡ is_closed self.now sender }
    {
        self.desks.iter().any(|desk| desk.has_closed(sender))
    }
}

// Restarts, and what was accepted before them.
impl Parts {
    // What was accepted from a producer in the incarnation of an epoch; nothing if there was none.
    pub(crate) fn accepted_in(&self, epoch: u32, producer: u32) -> &[Op]
        ensures { result.now ≡ accepted_in (incarnations_of self.now) epoch producer }
    {
        'ended: for ended in self.ended.iter() {
            if ended.epoch == epoch {
                return ended.accepted(producer);
            }
        }
        if self.config.epoch == epoch {
            self.accepted(producer)
        } else {
            &[]
        }
    }

    // Starts again in an epoch above the current one. All that can fail comes first. `AllocError`:
    // allocation failed; nothing changed.
    fn begin(&mut self, epoch: u32) -> Result<(), AllocError>
        requires { is_above self.old epoch ≡ true }
        ensures ok { OnOk result (self.new ≡ after_restart self.old epoch) }
        ensures unchanged { OnErr result (self.new ≡ self.old) }
    {
        let config = in_new_epoch(self.config, epoch);
        let lists = Vec::with_capacity(self.alloc, self.desks.len())?;
        self.ended.reserve(1)?;
        let desks = fresh_desks(self.alloc, config)?;
        let accepted = none_accepted(self.alloc, config.producers)?;
        let old_desks = mem::replace(&mut self.desks, desks);
        let old_accepted = mem::replace(&mut self.accepted, accepted);
        let taken = take_all(old_desks, lists);
        self.ended.push_reserved(Ended {
            epoch: self.config.epoch,
            accepted: old_accepted,
            taken,
            sent: self.sent.len() as u64,
        });
        self.config = config;
        Ok(())
    }

    // The relay ends and starts again in an epoch.
    pub(crate) fn restart(&mut self, epoch: u32) -> Result<StepAnswer, AllocError>
        ensures ok { IfOk result (λ x. Steps self.old (event.Restart epoch) x self.new) }
        ensures unchanged { OnErr result (self.new ≡ self.old) }
        ensures no_refusal { OnErr result (refusal self.old (event.Restart epoch) ≡ None) }
    {
        if epoch <= self.config.epoch || epoch > EPOCH_LIMIT {
            return Ok(StepAnswer::Refused(Refusal::NotAbove));
        }
        self.begin(epoch)?;
        Ok(StepAnswer::Done)
    }
}
