//! Time per item.
ghost use Rattle.std.specs.Prelude.{◌≡◌, ◌*◌, ◌/◌, ◌^◌, ◌<◌, ◌≤◌, IfOk};

use crate::fault::BenchFault;
use std::time::{Clock, Instant};

/// The longest time that is reported, in nanoseconds: 10^18, about 31 years.
const LONGEST: u64 = 1_000_000_000_000_000_000;

/// The nanoseconds since a moment, at most 10^18.
pub fn nanoseconds_since<R: Clock>(rt: &R, start: Instant) -> Result<u64, BenchFault>
    ensures { IfOk result (λ n. n ≤ 10 ^ 18) }
{
    let nanoseconds = start.elapsed(rt)?.as_nanos();
    Ok(u64::try_from(nanoseconds).unwrap_or(LONGEST).min(LONGEST))
}

/// This many nanoseconds, but at most 10^18.
pub fn capped(nanoseconds: u64) -> u64
    ensures { result ≤ 10 ^ 18 }
{
    nanoseconds.min(LONGEST)
}

/// The time per item in tenths of a nanosecond, rounded down, if `count` items took this time
/// together.
pub fn tenths_each(nanoseconds: u64, count: u64) -> u64
    requires time { nanoseconds ≤ 10 ^ 18 }
    requires count { 0 < count }
    ensures { result ≡ nanoseconds * 10 / count }
{
    nanoseconds * 10 / count
}
