//! What producers put, the wire to an index that loses its first reply, and whether the index applied
//! it.
ghost use Rattle.std.specs.Prelude.{◌≡◌, None};

use relay_action::{Action, DocKey, Write};
use relay_fixtures::applied::{count_applied, stores};
use relay_fixtures::index_wire::{IndexWire, Way, wire_of};
use relay_fixtures::keys;
use relay_index::Index;
use relay_lane::{Loss, Pace};
use std::alloc::Global;
use std::mem;

/// A wire to an empty index, which loses its first reply.
pub fn losing_wire(alloc: Global) -> IndexWire
    ensures { result.flying ≡ None }
{
    wire_of(alloc, Way::FailsReply(1, Loss::Closed))
}

/// A pace that does not wait.
#[derive(Clone, Copy, Drop)]
pub struct AtOnce;

impl Pace for AtOnce {
    ghost use Rattle.std.specs.Prelude.{None};

    ghost paused = { λ n. None };

    fn pause(&mut self, _ticks: u64) {}

    fn passed(&mut self) -> u64 {
        0
    }

    fn begin(&mut self) {}

    fn rest(&mut self) {}
}

/// The number of documents that each producer writes.
pub const DOCUMENTS: u64 = 10;

/// The document of an operation: one of the producer's own.
pub fn key_of(alloc: Global, producer: u32, number: u64) -> Option<DocKey> {
    let id = format!(in alloc; "{producer}-{}", number % DOCUMENTS).ok()?;
    keys::key_of(alloc, "books", id.as_str())
}

/// What an operation does: it stores its own number.
pub fn action_of(alloc: Global, number: u64) -> Option<Action> {
    let source = format!(in alloc; "{number}").ok()?;
    Action::index(alloc, source.as_str()).ok()
}

// Whether the write at this place stores this text.
fn has_at(writes: &[Write], place: u64, source: &str) -> bool {
    match writes.get(place as usize) {
        Some(write) => stores(write, source),
        None => false,
    }
}

// Whether the write at this place of an operation's document is that operation.
fn is_applied(
    alloc: Global,
    index: &Index,
    producer: u32,
    number: u64,
    place: u64,
) -> Option<bool> {
    let source = format!(in alloc; "{number}").ok()?;
    let Some(key) = key_of(alloc, producer, number) else {
        mem::forget(source);
        return None;
    };
    let same = has_at(index.applied(&key), place, source.as_str());
    mem::forget((source, key));
    Some(same)
}

// Whether the index applied to each document of a producer its operations, each once and in order.
fn is_as_put(alloc: Global, index: &Index, producer: u32, count: u64) -> Option<bool> {
    for sent in 0..count {
        let number = sent.saturating_add(1);
        if !is_applied(alloc, index, producer, number, sent / DOCUMENTS)? {
            return Some(false);
        }
    }
    Some(true)
}

/// Whether an index applied exactly what two producers put: the operations 1 to 100 of each.
pub fn is_whole(alloc: Global, index: &Index) -> Option<bool> {
    for producer in 0..2u32 {
        if !is_as_put(alloc, index, producer, 100)? {
            return Some(false);
        }
    }
    Some(count_applied(alloc, index).ok()? == 200)
}
