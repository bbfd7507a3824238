//! The world.
ghost use Rattle.std.specs.Prelude.{◌≡◌, ◌+◌, ◌^◌, ◌<◌, [], true, map, take, slice_get, is_some};
ghost use Rattle.std.specs.Prelude.{length, IfOk, IfErr, IfSome, OnErr};
ghost use Rattle.relay_results.specs.Documents.{document_of};
ghost use Rattle.relay_core.specs.Limits.{is_valid};
ghost use Rattle.relay_core.specs.Walk.{report_of};
ghost use Rattle.relay_world.specs.Refusals.{refusal};
ghost use Rattle.relay_world.specs.State.{fresh, accepted_from, applied_writes, names_at, reports};
ghost use Rattle.relay_world.specs.State.{write_at, is_finished, incarnations_of, AreKeysOf};
ghost use Rattle.relay_delivery.specs.Incarnations.{accepted_in};
ghost use Rattle.relay_world.specs.Headline.{Delivered, StaysClosed};
ghost use Rattle.relay_world.specs.Memory.{IsWriteAt};
ghost use Rattle.relay_world.specs.Steps.{Steps, Plays, none_yet, counts_after, may_allocate};

use crate::event::{Event, RunEnd, StepAnswer};
use crate::parts::Parts;
use relay_action::{DocKey, Op, OpName, Write};
use relay_core::{RelayConfig, Report};
use relay_index::Index;
use std::alloc::{AllocError, Global};
use std::marker::Model;

/// Lanes with their queues over one index, on which events are played. Contracts see it as a
/// `World` of `specs/State.antt`: what is queued, taken and held at each lane, what was accepted,
/// sent, run and answered, and whose writes the index applied.
#[derive(Drop)]
pub struct World {
    parts: Parts,
}

impl Model for World {
    ghost use Rattle.relay_world.specs.State.{World};
    ghost use Rattle.relay_world.specs.Ties.{IsWorld};

    ghost Value = { World };

    ghost view = { λ w. w.parts };

    ghost invariant = { λ w. IsWorld w.parts };
}

// The counts after one more event.
fn counted(answer: StepAnswer, end: RunEnd) -> RunEnd
    requires { end.done + end.refused < 2 ^ 63 }
    ensures { result ≡ counts_after answer end }
{
    let mut now = end;
    match answer {
        StepAnswer::Refused(_) => now.refused += 1,
        _ => now.done += 1,
    }
    now
}

// Plays one event on the parts of a world.
fn play(parts: &mut Parts, event: &Event) -> Result<StepAnswer, AllocError>
    ensures ok { IfOk result (λ x. Steps parts.old event.now x parts.new) }
    ensures unchanged { OnErr result (parts.new ≡ parts.old) }
    ensures memory { OnErr result (may_allocate event.now ≡ true) }
    ensures no_refusal { OnErr result (refusal parts.old event.now ≡ None) }
{
    match event {
        Event::Put(producer, key, action) => parts.put(*producer, key, action),
        Event::Close(sender, lane) => parts.close(*sender, *lane),
        Event::Tick(lane) => parts.tick(*lane),
        Event::Flush(lane) => parts.flush(*lane),
        Event::Take(lane) => parts.take(*lane),
        Event::Send(lane) => parts.send(*lane),
        Event::Run(request, item, choice) => parts.run(*request, *item, *choice),
        Event::Reply(request, picks) => parts.reply(*request, picks.as_slice()),
        Event::Whole(request, status) => Ok(parts.whole(*request, *status)),
        Event::Lost(request) => Ok(parts.lost(*request)),
        Event::Restart(epoch) => parts.restart(*epoch),
    }
}

// Plays events on the parts of a world.
fn play_all(parts: &mut Parts, events: &[Event]) -> Result<RunEnd, (u64, AllocError)>
    ensures ok { IfOk result (λ end. Plays parts.old none_yet events.now end parts.new) }
    ensures err { IfErr result (λ e. (end : RunEnd) × (end.done + end.refused ≡ e.0)
        × Plays parts.old none_yet (take e.0 events.now) end parts.new) }
    ensures unfinished { IfErr result (λ e. e.0 < length events.now) }
    ensures memory { IfErr result
        (λ e. IfSome (slice_get events.now e.0) (λ x. may_allocate x ≡ true)) }
    ensures no_refusal { IfErr result (λ e. IfSome (slice_get events.now e.0)
        (λ x. refusal parts.new x ≡ None)) }
{
    let mut end = RunEnd {
        done: 0,
        refused: 0,
    };
    'events: for event in events {
        match play(parts, event) {
            Ok(answer) => end = counted(answer, end),
            Err(fault) => return Err((end.done + end.refused, fault)),
        }
    }
    Ok(end)
}

// Events are played.
impl World {
    /// A world in which nothing has happened, over an index that may have any versions from before.
    /// That nothing is lost needs either that each of them is below the first one of the config's
    /// epoch, which can be checked with `Index::highest`; or that the index states the stored version
    /// in each conflict, and has none that a lane assigns. The config must be valid. `AllocError`:
    /// allocation failed.
    pub fn new(alloc: Global, config: RelayConfig, index: Index) -> Result<World, AllocError>
        requires valid { is_valid config ≡ true }
        ensures { IfOk result (λ w. w ≡ fresh config index) }
    {
        Ok(World {
            parts: Parts::new(alloc, config, index)?,
        })
    }

    /// Plays one event. It is refused exactly if one of its causes applies, with the first that
    /// does, and changes nothing then; otherwise it changes what its rule says, and nothing else.
    /// Before and afterwards, all that was accepted is exactly accounted for. `AllocError`:
    /// allocation failed; nothing changed, and no cause of a refusal applied. Answering a request as
    /// a whole, and losing its reply, does not allocate.
    pub fn step(&mut self, event: &Event) -> Result<StepAnswer, AllocError>
        ensures ok { IfOk result (λ x. Steps self.old event.now x self.new) }
        ensures unchanged { OnErr result (self.new ≡ self.old) }
        ensures memory { OnErr result (may_allocate event.now ≡ true) }
        ensures no_refusal { OnErr result (refusal self.old event.now ≡ None) }
        ensures delivered { Delivered self.new }
        ensures closed { StaysClosed self.old self.new }
    {
        play(&mut self.parts, event)
    }

    /// Plays events, continuing after refused ones, and returns how many were accepted and how many
    /// refused. An error has the number of events before the one for which an allocation failed;
    /// that one changed nothing, and nothing refused it. Whatever the events and their order, including restarts, all that
    /// was accepted is exactly accounted for afterwards; and if the epoch is still the same,
    /// nothing more was accepted from a producer that had closed.
    pub fn run(&mut self, events: &[Event]) -> Result<RunEnd, (u64, AllocError)>
        ensures ok { IfOk result (λ end. Plays self.old none_yet events.now end self.new) }
        ensures err { IfErr result (λ e. (end : RunEnd) × (end.done + end.refused ≡ e.0)
            × Plays self.old none_yet (take e.0 events.now) end self.new) }
        ensures unfinished { IfErr result (λ e. e.0 < length events.now) }
        ensures memory { IfErr result
            (λ e. IfSome (slice_get events.now e.0) (λ x. may_allocate x ≡ true)) }
        ensures no_refusal { IfErr result (λ e. IfSome (slice_get events.now e.0)
            (λ x. refusal self.new x ≡ None)) }
        ensures delivered { Delivered self.new }
        ensures closed { StaysClosed self.old self.new }
    {
        play_all(&mut self.parts, events)
    }
}

// Look-ups.
impl World {
    /// What was accepted from a producer since the last restart, in the order in which it was put;
    /// empty if there is no such producer.
    pub fn accepted(&self, producer: u32) -> &[Op]
        ensures { result.now ≡ accepted_from self.now producer }
    {
        self.parts.accepted(producer)
    }

    /// What was accepted from a producer in the incarnation with this epoch, in the order in which
    /// it was put; empty if there was no such epoch or producer.
    pub fn accepted_in(&self, epoch: u32, producer: u32) -> &[Op]
        ensures { result.now ≡ accepted_in (incarnations_of self.now) epoch producer }
    {
        self.parts.accepted_in(epoch, producer)
    }

    /// The writes that the index applied to a document since the start, in order.
    pub fn applied(&self, key: &DocKey) -> &[Write]
        ensures { result.now ≡ applied_writes self.now (document_of key.now) }
    {
        self.parts.applied(key)
    }

    /// The names of the operations whose writes the index applied to a document since the start:
    /// the attribution of these writes.
    pub fn names(&self, key: &DocKey) -> &[OpName]
        ensures { result.now ≡ names_at self.now (document_of key.now) }
    {
        self.parts.names(key)
    }

    /// The document and the version of an item of a sent request, both numbered from 1. `None`:
    /// there is no such request or item.
    pub fn sent(&self, request: u64, item: u64) -> Option<(&DocKey, u64)>
        ensures found { is_some result ≡ is_some (write_at self.now request item) }
        ensures write { IfSome result (λ p. IsWriteAt self.now request item p.0.now p.1) }
    {
        self.parts.sent(request, item)
    }

    /// The reports of a lane since the last restart, in order; empty if there is no such lane.
    pub fn reports(&self, lane: u32) -> &[Report]
        ensures { map report_of result.now ≡ reports self.now lane }
    {
        self.parts.reports(lane)
    }

    /// The documents to which the index applied a write since the start, including deleted ones, in
    /// byte order of their index names and then of their ids. `AllocError`: allocation failed.
    pub fn keys(&self) -> Result<Vec<DocKey>, AllocError>
        ensures { IfOk result (λ keys. AreKeysOf self.now keys.items) }
    {
        self.parts.keys()
    }

    /// Whether each sender has closed at each lane, nothing is queued, and no lane holds an
    /// operation. If so, each operation accepted since the last restart was applied or is reported
    /// (`complete` of `Delivered`).
    pub fn finished(&self) -> bool
        ensures answer { result ≡ is_finished self.now }
        ensures delivered { Delivered self.now }
    {
        self.parts.finished()
    }
}
