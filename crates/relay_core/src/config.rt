//! The config of a relay, and its limits.
ghost use Rattle.std.specs.Prelude.{◌≡◌, ◌≤◌};
ghost use Rattle.relay_core.specs.Limits.{is_from_to, are_attempts, is_age, are_valid_limits};
ghost use Rattle.relay_core.specs.Limits.{is_valid};
ghost use Rattle.relay_delivery.specs.Machine.{first_in};

use relay_batch::Limits;

/// The maximum number of lanes.
pub const LANE_LIMIT: u32 = 8;

/// The maximum number of producers.
pub const PRODUCER_LIMIT: u32 = 256;

/// The maximum number of messages in a lane's queue.
pub const CAPACITY_LIMIT: u32 = 65_536;

/// The maximum number of operations that a lane holds.
pub const HELD_LIMIT: u32 = 65_536;

/// The maximum number of operations in a batch.
pub const COUNT_LIMIT: u32 = 10_000;

/// The lowest limit of a batch's bytes.
pub const BYTES_LEAST: u64 = 1_024;

/// The highest limit of a batch's bytes.
pub const BYTES_LIMIT: u64 = 16_777_216;

/// The maximum number of ticks for which a batch waits to be filled.
pub const LINGER_LIMIT: u32 = 65_535;

/// The maximum number of attempts of an operation, if they are limited.
pub const ATTEMPT_LIMIT: u32 = 32;

/// More attempts than a lane makes of an operation: with pauses of 6.4 s they take 155 days.
pub const ATTEMPTS_UNLIMITED: u32 = 2_097_152;

/// The highest age, in ticks, after which an operation that fails is given up: a week.
pub const AGE_LIMIT: u32 = 6_048_000;

/// The maximum number of requests of a lane in flight.
pub const FLYING_LIMIT: u32 = 8;

/// The last epoch.
pub const EPOCH_LIMIT: u32 = 4_194_303;

/// The maximum number of versions that a lane assigns in an epoch, 2^40 - 1.
pub const DEAL_LIMIT: u64 = 1_099_511_627_775;

/// The config of a relay.
#[derive(Clone, Copy, Debug, PartialEq, Eq)]
pub struct RelayConfig {
    /// The number of lanes: 1 to 8.
    pub lanes: u32,
    /// The number of producers: 1 to 256.
    pub producers: u32,
    /// The capacity of a lane's queue, in messages: 1 to 65,536.
    pub capacity: u32,
    /// The maximum number of operations that a lane holds: 1 to 65,536.
    pub max_held: u32,
    /// The limits of a batch: a count of 1 to 10,000, 1,024 to 16,777,216 bytes, and a linger time
    /// of at most 65,535 ticks.
    pub limits: Limits,
    /// The maximum number of attempts of an operation before it is given up: 1 to 32, or
    /// [`ATTEMPTS_UNLIMITED`].
    pub attempts: u32,
    /// After how many ticks since its first send an operation that fails again is given up: 1 to
    /// 6,048,000, which is a week. `None`: only after its attempts.
    pub give_up_after: Option<u32>,
    /// The maximum number of requests of a lane in flight: 1 to 8.
    pub in_flight: u32,
    /// The epoch, above those of all earlier incarnations: 0 to 4,194,303. A version is the epoch
    /// times 2^40 plus a count from 1 in each lane.
    pub epoch: u32,
    /// The maximum number of versions that a lane assigns: 1 to 1,099,511,627,775.
    pub deal: u64,
}

fn is_from_to(least: u64, most: u64, n: u64) -> bool
    ensures { result ≡ is_from_to least most n }
{
    least <= n && n <= most
}

// Whether this is a number of attempts.
fn are_attempts(attempts: u32) -> bool
    ensures { result ≡ are_attempts attempts }
{
    is_from_to(1, ATTEMPT_LIMIT as u64, attempts as u64) || attempts == ATTEMPTS_UNLIMITED
}

// Whether this is an age after which operations are given up.
fn is_age(age: Option<u32>) -> bool
    ensures { result ≡ is_age age }
{
    match age {
        Some(ticks) => is_from_to(1, AGE_LIMIT as u64, ticks as u64),
        None => true,
    }
}

fn are_valid(limits: Limits) -> bool
    ensures { result ≡ are_valid_limits limits }
{
    is_from_to(1, COUNT_LIMIT as u64, limits.count as u64)
        && is_from_to(BYTES_LEAST, BYTES_LIMIT, limits.bytes)
        && limits.linger <= LINGER_LIMIT
}

pub(crate) fn first_in(epoch: u32) -> u64
    requires { epoch ≤ 4194303 }
    ensures { result ≡ first_in epoch }
{
    u64::from(epoch) * (DEAL_LIMIT + 1) + 1
}

impl RelayConfig {
    /// Whether each number is within its limits.
    pub fn valid(&self) -> bool
        ensures { result ≡ is_valid self.now }
    {
        is_from_to(1, LANE_LIMIT as u64, self.lanes as u64)
            && is_from_to(1, PRODUCER_LIMIT as u64, self.producers as u64)
            && is_from_to(1, CAPACITY_LIMIT as u64, self.capacity as u64)
            && is_from_to(1, HELD_LIMIT as u64, self.max_held as u64)
            && are_valid(self.limits)
            && are_attempts(self.attempts)
            && is_age(self.give_up_after)
            && is_from_to(1, FLYING_LIMIT as u64, self.in_flight as u64)
            && self.epoch <= EPOCH_LIMIT
            && is_from_to(1, DEAL_LIMIT, self.deal)
    }
}
