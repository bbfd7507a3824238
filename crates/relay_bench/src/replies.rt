//! Reading one reply many times.
ghost use Rattle.std.specs.Prelude.{◌≡◌, ◌≤◌, ◌^◌, IfOk, length};

use crate::fault::BenchFault;
use crate::rate::nanoseconds_since;
use relay_results::{Outcome, read_reply};
use std::alloc::Global;
use std::time::{Clock, Instant};

/// The result of reading a reply many times.
#[derive(Clone, Copy, Debug, PartialEq, Eq)]
pub struct Readings {
    /// The number of items in the reply.
    pub items: u64,
    /// The number of items with an error.
    pub errors: u64,
    /// The sum of their statuses.
    pub statuses: u64,
    /// The time of all readings in nanoseconds, at most 10^18.
    pub nanoseconds: u64,
}

// The number of items, of those with an error, and the sum of the statuses.
fn sums(outcomes: &[Outcome]) -> (u64, u64, u64)
    ensures { result.0 ≡ length outcomes.now }
{
    let mut errors = 0u64;
    let mut statuses = 0u64;
    for outcome in outcomes {
        if outcome.error.is_some() {
            errors = errors.saturating_add(1);
        }
        statuses = statuses.saturating_add(outcome.status as u64);
    }
    (outcomes.len() as u64, errors, statuses)
}

/// Reads a reply `turns` times, and drops each list of outcomes before the next reading.
pub fn measure<R: Clock>(
    rt: &R,
    alloc: Global,
    body: &[u8],
    turns: u64,
) -> Result<Readings, BenchFault>
    ensures { IfOk result (λ r. r.nanoseconds ≤ 10 ^ 18) }
{
    let mut last = (0u64, 0u64, 0u64);
    let start = Instant::now(rt)?;
    for _turn in 0..turns {
        match read_reply(alloc, body) {
            Ok(outcomes) => last = sums(outcomes.as_slice()),
            Err(fault) => return Err(BenchFault::Reply(fault)),
        }
    }
    let nanoseconds = nanoseconds_since(rt, start)?;
    let (items, errors, statuses) = last;
    Ok(Readings {
        items,
        errors,
        statuses,
        nanoseconds,
    })
}
