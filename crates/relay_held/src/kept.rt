//! A held operation, as it is in memory.
ghost use Rattle.std.specs.Prelude.{◌≡◌};
ghost use Rattle.relay_held.specs.Operations.{candidate_of};

use relay_action::{ActionKind, DocKey, OpName, Write};

/// A place of a request in flight.
#[derive(Clone, Copy, Debug, PartialEq, Eq)]
pub struct Spot {
    /// The number of the request, from 1.
    pub request: u64,
    /// The place in it, from 0.
    pub place: u64,
}

/// A held operation. Its write is here while it waits, and in its request while it is in flight.
#[derive(Debug, Drop)]
pub struct Kept {
    /// Its name.
    pub name: OpName,
    /// Its document.
    pub key: DocKey,
    /// The kind of its action.
    pub kind: ActionKind,
    /// The version that it was assigned.
    pub version: u64,
    /// The length of its lines, in bytes.
    pub bytes: u64,
    /// The maximum number of operations in a request that carries it, unless it is alone there.
    pub cap: u32,
    /// The clock when it was taken, in ticks.
    pub taken_at: u64,
    /// The clock when it was first sent, in ticks; when it was taken, until then.
    pub since: u64,
    /// The first tick at which it may be sent.
    pub due: u64,
    /// The number of requests that carried it.
    pub sends: u32,
    /// The number of those that count as attempts.
    pub attempts: u32,
    /// Its place in a request, while it is in flight.
    pub flies: Option<Spot>,
    /// Its write, while it waits.
    pub write: Option<Write>,
}

/// What a batch needs to know of an operation that may be sent.
#[derive(Clone, Copy, Debug, PartialEq, Eq)]
pub struct Candidate {
    /// Its name.
    pub name: OpName,
    /// The version that it was assigned.
    pub version: u64,
    /// The length of its lines, in bytes.
    pub bytes: u64,
    /// The maximum number of operations in a request that carries it, unless it is alone there.
    pub cap: u32,
    /// The clock when it was taken, in ticks.
    pub taken_at: u64,
}

pub(crate) fn candidate_of(one: &Kept) -> Candidate
    ensures { result ≡ candidate_of one.now }
{
    Candidate {
        name: one.name,
        version: one.version,
        bytes: one.bytes,
        cap: one.cap,
        taken_at: one.taken_at,
    }
}
