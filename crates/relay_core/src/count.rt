//! The next batch, counted without its items. It does not allocate.
ghost use Rattle.std.specs.Prelude.{◌≡◌, ◌+◌, ◌≤◌, ◌<◌, [], map, drop, is_some};
ghost use Rattle.relay_batch.specs.Gathering.{Gathering};
ghost use Rattle.relay_batch.specs.Tallies.{tally_of};
ghost use Rattle.relay_held.specs.Queues.{candidates_kept, distinct, documents, Rises};
ghost use Rattle.relay_core.specs.Counting.{counted_after, closes_count};
ghost use Rattle.relay_core.specs.Rule.{goes, batch_of};
ghost use Rattle.relay_core.specs.Walk.{item_of_kept, items_of_kept};

use crate::gather::{is_asked, item_of};
use relay_batch::{Limits, Offer, Tally};
use relay_held::Held;

/// What was counted.
#[derive(Clone, Copy, Debug)]
pub struct Counted {
    /// What the batch so far holds.
    pub tally: Tally,
    /// Whether an offer was closed.
    pub closed: bool,
}

/// Counts the candidates from a place on, in ascending order of version, until one is Closed or
/// none is left.
pub(crate) fn count_from(held: &mut Held, start: Tally, from: usize) -> Counted
    requires { from ≤ distinct (documents held.old.list) }
    ensures tally { result.tally ≡ counted_after
        (map item_of_kept (drop from (candidates_kept held.old.list held.old.clock))) start }
    ensures closed { result.closed ≡ closes_count
        (map item_of_kept (drop from (candidates_kept held.old.list held.old.clock))) start }
    ensures held { held.new ≡ record held.old { looks = held.new.looks } }
    ensures looks { held.new.looks + from ≤ held.old.looks + distinct (documents held.old.list) }
    ensures looks_rise { held.old.looks ≤ held.new.looks }
{
    let mut tally = start;
    'candidates: for at in from..held.documents() {
        let Some(one) = held.candidate(at) else {
            break;
        };
        match tally.offer(item_of(one)) {
            Offer::Closed => {
                return Counted {
                    tally,
                    closed: true,
                };
            }
            Offer::Busy | Offer::Added => {}
        }
    }
    Counted {
        tally,
        closed: false,
    }
}

/// Whether the batch that was counted is to be sent.
pub(crate) fn is_batch_due(counted: Counted, clock: u64, mark: u64, all_closed: bool) -> bool
    ensures { (g : Gathering) → counted.tally ≡ tally_of g
        → result ≡ goes clock mark all_closed g counted.closed }
{
    match counted.tally.first() {
        None => false,
        Some(first) => is_asked(
            counted.tally.ready(clock),
            counted.closed,
            first.version <= mark,
            all_closed,
        ),
    }
}

/// Whether there is a batch to send now.
pub(crate) fn is_due(held: &mut Held, mark: u64, all_closed: bool, limits: Limits) -> bool
    requires { Rises held.old.list }
    ensures due { result ≡ is_some (batch_of held.old.clock mark all_closed limits
        (items_of_kept held.old.list held.old.clock held.old.list)) }
    ensures held { held.new ≡ record held.old { looks = held.new.looks } }
    ensures looks { held.new.looks ≤ held.old.looks + distinct (documents held.old.list) }
    ensures looks_rise { held.old.looks ≤ held.new.looks }
{
    let counted = count_from(held, Tally::new(limits), 0);
    is_batch_due(counted, held.clock(), mark, all_closed)
}
