//! A lane at its limits.
use crate::desk::{CONFIG, Entry, LIMITS, Step, goes};
use relay_batch::Limits;
use relay_core::{RelayConfig, TakeFault};

// Each number one below, at and one above its limits.
const CONFIGS: &[(RelayConfig, bool)] = &[
    (RelayConfig { lanes: 0, ..CONFIG }, false),
    (RelayConfig { lanes: 8, ..CONFIG }, true),
    (RelayConfig { lanes: 9, ..CONFIG }, false),
    (
        RelayConfig {
            producers: 0,
            ..CONFIG
        },
        false,
    ),
    (
        RelayConfig {
            producers: 256,
            ..CONFIG
        },
        true,
    ),
    (
        RelayConfig {
            producers: 257,
            ..CONFIG
        },
        false,
    ),
    (
        RelayConfig {
            capacity: 65_536,
            max_held: 65_536,
            ..CONFIG
        },
        true,
    ),
    (
        RelayConfig {
            capacity: 65_537,
            ..CONFIG
        },
        false,
    ),
    (
        RelayConfig {
            max_held: 65_537,
            ..CONFIG
        },
        false,
    ),
    (
        RelayConfig {
            max_held: 0,
            ..CONFIG
        },
        false,
    ),
    (
        RelayConfig {
            limits: Limits {
                count: 10_000,
                bytes: 16_777_216,
                linger: 65_535,
            },
            ..CONFIG
        },
        true,
    ),
    (
        RelayConfig {
            limits: Limits {
                count: 10_001,
                ..LIMITS
            },
            ..CONFIG
        },
        false,
    ),
    (
        RelayConfig {
            limits: Limits {
                bytes: 1_023,
                ..LIMITS
            },
            ..CONFIG
        },
        false,
    ),
    (
        RelayConfig {
            limits: Limits {
                linger: 65_536,
                ..LIMITS
            },
            ..CONFIG
        },
        false,
    ),
    (
        RelayConfig {
            attempts: 0,
            ..CONFIG
        },
        false,
    ),
    (
        RelayConfig {
            attempts: 32,
            ..CONFIG
        },
        true,
    ),
    (
        RelayConfig {
            attempts: 33,
            ..CONFIG
        },
        false,
    ),
    (
        RelayConfig {
            attempts: 2_097_151,
            ..CONFIG
        },
        false,
    ),
    (
        RelayConfig {
            attempts: 2_097_152,
            ..CONFIG
        },
        true,
    ),
    (
        RelayConfig {
            attempts: 2_097_153,
            ..CONFIG
        },
        false,
    ),
    (
        RelayConfig {
            give_up_after: Some(0),
            ..CONFIG
        },
        false,
    ),
    (
        RelayConfig {
            give_up_after: Some(1),
            ..CONFIG
        },
        true,
    ),
    (
        RelayConfig {
            give_up_after: Some(6_048_000),
            ..CONFIG
        },
        true,
    ),
    (
        RelayConfig {
            give_up_after: Some(6_048_001),
            ..CONFIG
        },
        false,
    ),
    (
        RelayConfig {
            in_flight: 8,
            ..CONFIG
        },
        true,
    ),
    (
        RelayConfig {
            in_flight: 9,
            ..CONFIG
        },
        false,
    ),
    (
        RelayConfig {
            epoch: 4_194_303,
            deal: 1_099_511_627_775,
            ..CONFIG
        },
        true,
    ),
    (
        RelayConfig {
            epoch: 4_194_304,
            ..CONFIG
        },
        false,
    ),
    (RelayConfig { deal: 0, ..CONFIG }, false),
    (RelayConfig { deal: 1, ..CONFIG }, true),
    (
        RelayConfig {
            deal: 1_099_511_627_776,
            ..CONFIG
        },
        false,
    ),
];

#[test]
fn valid_configs(rt: HostRuntime) {
    for (config, valid) in CONFIGS {
        assert!(rt; config.valid() == *valid);
    }
}

const ONE_HELD: RelayConfig = RelayConfig {
    max_held: 1,
    deal: 1,
    ..CONFIG
};

// One operation held, and one version to assign: HeldFull comes before Spent.
const HELD_FULL: &[Step<'static>] = &[
    Step::Put("1", ""),
    Step::NotTaken(TakeFault::HeldFull),
    Step::Sends(&[("1", 1)]),
    Step::NotTaken(TakeFault::HeldFull),
    Step::Items(&[Entry::Delete("1", 404)], [1, 0, 0, 0]),
    Step::Put("2", ""),
    Step::Held(0),
    Step::SendsNone,
    Step::Close(0),
    Step::NotTaken(TakeFault::AfterClose),
];

#[test]
fn held_full_before_spent(rt: HostRuntime) {
    goes(&rt, rt.alloc(), ONE_HELD, HELD_FULL, &[(2, 5, 0)]);
}

const LINGERING: RelayConfig = RelayConfig {
    limits: Limits {
        linger: 65_535,
        ..LIMITS
    },
    ..CONFIG
};

// A batch that is not full is sent after its linger time.
const BY_TIME: &[Step<'static>] = &[
    Step::Flush,
    Step::Put("1", "{}"),
    Step::SendsNone,
    Step::DueIn(0),
    Step::Ticks(65_534),
    Step::SendsNone,
    Step::Ticks(1),
    Step::Sends(&[("1", 1)]),
];

// It is sent after a flush, with what was put since; lost, it is sent again after its pause, with
// one more.
const BY_FLUSH: &[Step<'static>] = &[
    Step::Put("1", "{}"),
    Step::Flush,
    Step::Put("2", "{}"),
    Step::Sends(&[("1", 1), ("2", 2)]),
    Step::Lost([0, 0, 0, 2]),
    Step::Put("3", "{}"),
    Step::SendsNone,
    Step::Ticks(1),
    Step::Sends(&[("1", 1), ("2", 2), ("3", 3)]),
];

// It is sent once all have closed.
const BY_CLOSE: &[Step<'static>] = &[
    Step::Put("1", "{}"),
    Step::Close(0),
    Step::SendsNone,
    Step::Close(1),
    Step::Sends(&[("1", 1)]),
];

const TWO_AT_ONCE: RelayConfig = RelayConfig {
    limits: Limits {
        count: 2,
        bytes: 4_096,
        linger: 65_535,
    },
    ..CONFIG
};

// A batch is closed by its count and by its bytes.
const FULL_BATCHES: &[Step<'static>] = &[
    Step::Put("1", "{}"),
    Step::Put("1", "{}"),
    Step::SendsNone,
    Step::Put("2", "{}"),
    Step::Sends(&[("1", 1), ("2", 3)]),
    Step::Items(
        &[Entry::Index("1", 200), Entry::Index("2", 200)],
        [2, 0, 0, 0],
    ),
    Step::SendsNone,
    Step::Put("3", "{}"),
    Step::Sends(&[("1", 2), ("3", 4)]),
];

const WAITING: &[(RelayConfig, &[Step<'static>])] = &[
    (LINGERING, BY_TIME),
    (LINGERING, BY_FLUSH),
    (LINGERING, BY_CLOSE),
    (TWO_AT_ONCE, FULL_BATCHES),
];

#[test]
fn batches_that_wait(rt: HostRuntime) {
    for (config, steps) in WAITING {
        goes(&rt, rt.alloc(), *config, *steps, &[]);
    }
}
