//! Deletes that are sent over a wire, one at a time, and what is returned for them.
ghost use Rattle.std.specs.Prelude.{◌≡◌, ◌∷◌, ◌≤◌, [], length, MatchResult};
ghost use Rattle.relay_ndjson.specs.Bodies.{AreDealt};
ghost use Rattle.relay_ndjson.specs.Bulk.{text_of};

use relay_action::{Action, DocKey, Write};
use relay_lane::{Loss, Wire, WireReply};
use relay_ndjson::bulk_len;
use std::alloc::Global;

/// What a wire returned: the number of entries and the status of the first, or a status for the
/// request as a whole, or a fault; or nothing was sent, since an allocation failed before.
#[derive(Clone, Copy, Debug, PartialEq, Eq)]
pub enum Told {
    Entries(usize, u16),
    Whole(u16),
    Fault(Loss),
    NotAsked,
}

/// What an answer is.
pub fn told_by(answer: Result<WireReply, Loss>) -> Told {
    match answer {
        Ok(WireReply::Items(outcomes)) => {
            let status = outcomes.first().map_or(0, |outcome| outcome.status);
            Told::Entries(outcomes.len(), status)
        }
        Ok(WireReply::Whole(status, _)) => Told::Whole(status),
        Err(fault) => Told::Fault(fault),
    }
}

// Sends a request if none is outstanding.
fn send<W: Wire>(wire: &mut W, number: u64, writes: &[Write]) -> Result<(), Told>
    requires out { W.out wire.old ≡ [] }
    requires few { length writes.now ≤ 10000 }
    requires dealt { AreDealt writes.now }
    requires bytes { length (text_of writes.now) ≤ 16777216 }
    ensures { MatchResult result
        (λ _. W.out wire.new ≡ number ∷ [])
        (λ _. W.out wire.new ≡ []) }
{
    match wire.send(number, writes) {
        Ok(()) => Ok(()),
        Err(fault) => Err(Told::Fault(fault)),
    }
}

/// Sends a delete of a document of the index `books`.
pub fn sends<W: Wire>(
    alloc: Global,
    wire: &mut W,
    number: u64,
    id: &str,
    version: u64,
) -> Result<(), Told>
    requires out { W.out wire.old ≡ [] }
    requires version { version ≤ 9000000000000000000 }
    ensures { MatchResult result
        (λ _. W.out wire.new ≡ number ∷ [])
        (λ _. W.out wire.new ≡ []) }
{
    let Ok(key) = DocKey::new(alloc, "books", id) else {
        return Err(Told::NotAsked);
    };
    let writes = [Write {
        key,
        version,
        action: Action::delete(),
    }];
    if bulk_len(&writes) > 16_777_216 {
        return Err(Told::NotAsked);
    }
    send(wire, number, &writes)
}

/// Sends such a delete and receives the answer.
pub fn asks<W: Wire>(alloc: Global, wire: &mut W, number: u64, id: &str, version: u64) -> Told
    requires out { W.out wire.old ≡ [] }
    requires version { version ≤ 9000000000000000000 }
    ensures { W.out wire.new ≡ [] }
{
    match sends(alloc, wire, number, id, version) {
        Ok(()) => told_by(wire.receive(number)),
        Err(told) => told,
    }
}
