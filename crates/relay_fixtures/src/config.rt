//! A config, and limits of batches.
use relay_batch::Limits;
use relay_core::config::DEAL_LIMIT;
use relay_lane::RelayConfig;

/// Batches of ten operations and 4,096 bytes that are sent immediately.
pub const LIMITS: Limits = Limits {
    count: 10,
    bytes: 4_096,
    linger: 0,
};

/// One lane and one producer, queues of ten messages, those batches, and three attempts.
pub const CONFIG: RelayConfig = RelayConfig {
    lanes: 1,
    producers: 1,
    capacity: 10,
    max_held: 10,
    limits: LIMITS,
    attempts: 3,
    give_up_after: None,
    in_flight: 1,
    epoch: 0,
    deal: DEAL_LIMIT,
};
