//! The next batch.
ghost use Rattle.std.specs.Prelude.{◌≡◌, ◌||◌, true, None, IfOk, IfErr, IfSome, OnErr, min, ◌+◌};
ghost use Rattle.std.specs.Prelude.{◌≤◌, is_some, length, []};
ghost use Rattle.relay_batch.specs.Tallies.{tally_of};
ghost use Rattle.relay_core.specs.Walk.{item_of_candidate, items_of_kept};
ghost use Rattle.relay_core.specs.Rule.{gathering_after, closes, is_marked, batch_of};
ghost use Rattle.relay_core.specs.Quiet.{is_roomy, no_room, less, IsQuiet};
ghost use Rattle.relay_held.specs.Queues.{distinct, documents};

use crate::count::{Counted, count_from, is_batch_due};
use relay_batch::{Batch, BatchItem, Batcher, Limits, Offer, Room};
use relay_held::{Candidate, Held};
use std::alloc::{AllocError, Global};

/// The item of a candidate. Its own version serves as the number of its document, since nothing
/// older is held of that document.
pub(crate) fn item_of(one: Candidate) -> BatchItem
    ensures { result ≡ item_of_candidate one }
{
    BatchItem {
        name: one.name,
        doc: one.version,
        version: one.version,
        bytes: one.bytes,
        cap: one.cap,
        taken_at: one.taken_at,
    }
}

/// What was gathered.
#[derive(Debug, Drop)]
pub struct Gathered {
    /// The batch so far.
    pub batcher: Batcher,
    /// Whether an offer was closed.
    pub closed: bool,
}

/// Offers the candidates in ascending order of version until one is Closed or none is left. If an
/// allocation fails, they are counted instead. Only [`Held::candidate`] returns a candidate, and it
/// counts each one as a look.
pub(crate) fn gather(alloc: Global, held: &mut Held, limits: Limits) -> Result<Gathered, Counted>
    ensures batch { IfOk result
        (λ g. g.batcher
        ≡ gathering_after (items_of_kept held.old.list held.old.clock held.old.list)
        (record { limits = limits; items = [] })) }
    ensures closed { IfOk result
        (λ g. g.closed
        ≡ closes (items_of_kept held.old.list held.old.clock held.old.list)
        (record { limits = limits; items = [] })) }
    ensures counted { IfErr result
        (λ k. k.tally
        ≡ tally_of (gathering_after (items_of_kept held.old.list held.old.clock held.old.list)
        (record { limits = limits; items = [] }))) }
    ensures count_closed { IfErr result
        (λ k. k.closed
        ≡ closes (items_of_kept held.old.list held.old.clock held.old.list)
        (record { limits = limits; items = [] })) }
    ensures held { held.new ≡ record held.old { looks = held.new.looks } }
    ensures looks { held.new.looks ≤ held.old.looks + distinct (documents held.old.list) }
    ensures looks_rise { held.old.looks ≤ held.new.looks }
    ensures looked { IfOk result
        (λ g. min (held.old.looks + length g.batcher.items) 18446744073709551615
        ≤ held.new.looks) }
{
    let mut batcher = Batcher::new(alloc, limits);
    'candidates: for at in 0..held.documents() {
        let Some(one) = held.candidate(at) else {
            break;
        };
        let item = item_of(one);
        let answer = match batcher.offer(item) {
            Ok(answer) => answer,
            Err(AllocError) => {
                let mut tally = batcher.tally();
                let _ = tally.offer(item);
                return Err(count_from(held, tally, at + 1));
            }
        };
        match answer {
            Offer::Closed => {
                return Ok(Gathered {
                    batcher,
                    closed: true,
                });
            }
            Offer::Busy | Offer::Added => {}
        }
    }
    Ok(Gathered {
        batcher,
        closed: false,
    })
}

fn is_flushed(items: &[BatchItem], mark: u64) -> bool
    ensures { result ≡ is_marked mark items.now }
{
    match items {
        [] => false,
        [first, ..] => first.version <= mark,
    }
}

/// Whether what was gathered is to be sent.
pub(crate) fn is_asked(is_ready: bool, closed: bool, is_flushed: bool, all_closed: bool) -> bool
    ensures { result ≡ (is_ready || (closed || (is_flushed || all_closed))) }
{
    is_ready || closed || is_flushed || all_closed
}

/// The result of the sending rule.
#[derive(Debug, Drop)]
pub struct Due {
    /// The batch to send now, if there is one.
    pub batch: Option<Batch>,
    /// Nothing is to be sent until more than this was taken, unless a tick passes, a flush or an
    /// answer arrives, or a sender closes.
    pub room: Room,
    /// How much may be taken while the batch is in flight: as much as one request carries, or
    /// nothing if some operation that may be sent is left.
    pub ahead: Room,
}

/// No room.
pub(crate) fn no_room() -> Room
    ensures { result ≡ no_room }
{
    Room { items: 0, bytes: 0 }
}

/// Whether there is room for at least one item and one byte.
pub(crate) fn is_roomy(room: Room) -> bool
    ensures { result ≡ is_roomy room }
{
    room.items > 0 && room.bytes > 0
}

/// The room that is left after an operation with this many bytes.
pub(crate) fn less(room: Room, bytes: u64) -> Room
    ensures { result ≡ less bytes room }
{
    if bytes < room.bytes {
        Room {
            items: room.items.saturating_sub(1),
            bytes: room.bytes - bytes,
        }
    } else {
        no_room()
    }
}

// How much may be taken while a batch is in flight.
fn ahead_of(limits: Limits, closed: bool) -> Room {
    if closed {
        return no_room();
    }
    Room {
        items: limits.count,
        bytes: limits.bytes,
    }
}

// Nothing is to be sent, until the rule is checked again.
fn no_batch() -> Due
    ensures batch { result.batch ≡ None }
    ensures room { result.room ≡ no_room }
{
    Due {
        batch: None,
        room: no_room(),
        ahead: no_room(),
    }
}

/// The batch to send now, if there is one; otherwise, until when the rule need not be checked
/// again. `AllocError`: an allocation failed, and there is a batch to send.
pub(crate) fn due_batch(
    alloc: Global,
    held: &mut Held,
    mark: u64,
    all_closed: bool,
    limits: Limits,
) -> Result<Due, AllocError>
    ensures batch { IfOk result
        (λ d. d.batch
        ≡ batch_of held.old.clock mark all_closed limits
        (items_of_kept held.old.list held.old.clock held.old.list)) }
    ensures quiet { IfOk result (λ d. is_roomy d.room ≡ true
        → IsQuiet held.old.clock mark all_closed limits
        (items_of_kept held.old.list held.old.clock held.old.list) d.room) }
    ensures due { OnErr result
        (is_some (batch_of held.old.clock mark all_closed limits
        (items_of_kept held.old.list held.old.clock held.old.list)) ≡ true) }
    ensures held { held.new ≡ record held.old { looks = held.new.looks } }
    ensures looks { held.new.looks ≤ held.old.looks + distinct (documents held.old.list) }
    ensures looks_rise { held.old.looks ≤ held.new.looks }
    ensures looked { IfOk result
        (λ d. IfSome d.batch (λ b. min (held.old.looks + length b) 18446744073709551615
        ≤ held.new.looks)) }
{
    let Gathered { batcher, closed } = match gather(alloc, held, limits) {
        Ok(gathered) => gathered,
        Err(counted) => {
            if is_batch_due(counted, held.clock(), mark, all_closed) {
                return Err(AllocError);
            }
            return Ok(no_batch());
        }
    };
    let is_ready = batcher.ready(held.clock());
    let room = batcher.room();
    let Some(batch) = batcher.close() else {
        return Ok(no_batch());
    };
    if is_asked(
        is_ready,
        closed,
        is_flushed(batch.items(), mark),
        all_closed,
    ) {
        Ok(Due {
            batch: Some(batch),
            room: no_room(),
            ahead: ahead_of(limits, closed),
        })
    } else {
        Ok(Due {
            batch: None,
            room,
            ahead: no_room(),
        })
    }
}
