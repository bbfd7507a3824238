//! What an answer means for one operation.
ghost use Rattle.std.specs.Prelude.{◌≡◌};
ghost use Rattle.relay_results.specs.Verdicts.{may_be_own};
ghost use Rattle.relay_results.specs.Outside.{stored_in};
ghost use Rattle.relay_results.specs.Fates.{kind_in, reason_in, fate_of_item, fate_of_entry};
ghost use Rattle.relay_core.specs.Tried.{tries_of};
ghost use Rattle.relay_core.specs.Walk.{said, fate_or};

use relay_action::{ActionKind, Text};
use relay_held::Kept;
use relay_results::{Cause, ItemError, ItemVerdict, LastTry, Outcome, verdict};

/// What the answer to a request as a whole means for its operations.
#[derive(Clone, Copy, Debug)]
pub enum Way {
    /// Each is settled by its entry. One without an entry is retried, and this is what became of its
    /// last try.
    ByEntry(LastTry),
    /// Each is reported with this status, and without a reason.
    Reported(u16),
    /// Each waits to be sent again, in requests of at most this many.
    Halved(u32),
}

/// The fate of an operation when its request is answered.
#[derive(Debug, Drop)]
pub enum Fate {
    /// It ends as applied.
    Applied,
    /// It ends as applied by an earlier request.
    Already,
    /// It waits to be sent again.
    Retried,
    /// It waits to be sent again under this cap, and its attempt is given back.
    Halved(u32),
    /// It ends with a report.
    Reported(Cause),
}

// An operation when its answer arrives: its version, how many requests carried it, how many of
// them count as tries, and how many tries it may have.
#[derive(Clone, Copy)]
struct Tries {
    version: u64,
    sends: u32,
    attempts: u32,
    max: u32,
}

// Whether an error states no stored version, or this one.
fn may_be_own(error: &Option<ItemError>, own: u64) -> bool
    ensures { result ≡ may_be_own (stored_in error.now) own }
{
    match error {
        Some(error) => error.detail().stored.is_none_or(|stored| stored == own),
        None => true,
    }
}

// The cause of a report on a conflict with this error.
fn conflict(error: Option<ItemError>) -> Cause
    ensures { result ≡ Cause.Conflict (stored_in error) (reason_in error) }
{
    match error {
        Some(error) => {
            let detail = error.into_detail();
            Cause::Conflict {
                stored: detail.stored,
                reason: detail.reason,
            }
        }
        None => Cause::Conflict {
            stored: None,
            reason: None,
        },
    }
}

// The cause of a report on a refusal with this status and this error.
fn refusal(status: u16, error: Option<ItemError>) -> Cause
    ensures { result ≡ Cause.Refused status (kind_in error) (reason_in error) }
{
    match error {
        Some(error) => {
            let detail = error.into_detail();
            Cause::Refused {
                status,
                kind: detail.kind,
                reason: detail.reason,
            }
        }
        None => Cause::Refused {
            status,
            kind: Text::empty(),
            reason: None,
        },
    }
}

// What an entry means for its operation.
fn fate_by(kind: ActionKind, outcome: Outcome, tries: Tries) -> Fate
    ensures { said result ≡ fate_of_item (tries_of tries) kind outcome }
{
    let own = may_be_own(&outcome.error, tries.version);
    let error = outcome.error.is_some();
    match verdict(
        kind,
        outcome.status,
        error,
        own,
        tries.sends,
        tries.attempts,
        tries.max,
    ) {
        ItemVerdict::Applied => Fate::Applied,
        ItemVerdict::Already => Fate::Already,
        ItemVerdict::Conflict => Fate::Reported(conflict(outcome.error)),
        ItemVerdict::Retry => Fate::Retried,
        ItemVerdict::GaveUp => Fate::Reported(Cause::GaveUp {
            sends: tries.sends,
            last: LastTry::Item(outcome.status),
        }),
        ItemVerdict::Refused => Fate::Reported(refusal(outcome.status, outcome.error)),
    }
}

// What the entry at its place means for it, if there is one. Otherwise this is what became of its
// last try.
fn fate_next(kind: ActionKind, entry: Option<Outcome>, tries: Tries, last: LastTry) -> Fate
    ensures { said result ≡ fate_of_entry (tries_of tries) kind entry last }
{
    match entry {
        Some(outcome) => fate_by(kind, outcome, tries),
        None => {
            if tries.attempts < tries.max {
                Fate::Retried
            } else {
                Fate::Reported(Cause::GaveUp {
                    sends: tries.sends,
                    last,
                })
            }
        }
    }
}

/// What an answer means for a held operation: what the status of the whole request says, otherwise
/// its entry; without an entry it is retried. It does not allocate.
pub(crate) fn fate_in(one: &Kept, whole: Way, entry: Option<Outcome>, max: u32) -> Fate
    ensures { said result
        ≡ fate_or whole
        (fate_of_entry (record {
          version =
              one.now.version;
          sends = one.now.sends;
          attempts = one.now.attempts;
          max = max;
        })
        one.now.kind entry) }
{
    let tries = Tries {
        version: one.version,
        sends: one.sends,
        attempts: one.attempts,
        max,
    };
    match whole {
        Way::Reported(status) => Fate::Reported(Cause::Request {
            status,
            reason: None,
        }),
        Way::Halved(cap) => Fate::Halved(cap),
        Way::ByEntry(last) => fate_next(one.kind, entry, tries, last),
    }
}
