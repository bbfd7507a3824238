//! Worked scripts.
use crate::world::script::{Ends, Given, Row, Says, Script, THREE, lasts, run_of};
use relay_core::RelayConfig;
use relay_world::Refusal;

pub const TWO: RelayConfig = RelayConfig {
    attempts: 2,
    ..THREE
};

/// Three operations in one request; the second one is refused, and sent once more.
pub const THREE_THEN_ONE: &[(Row<'static>, Says)] = &[
    (Row::Put(0, "1", "{\"a\":1}"), Says::Named(1)),
    (Row::Put(0, "2", "{\"a\":2}"), Says::Named(2)),
    (Row::Put(0, "3", ""), Says::Named(3)),
    (Row::Take(0), Says::Ok),
    (Row::Take(0), Says::Ok),
    (Row::Take(0), Says::Ok),
    (Row::Send(0), Says::Request(1)),
    (Row::Run(1, 1), Says::Status(201)),
    (Row::Refuse(1, 2, 429), Says::Status(429)),
    (Row::Run(1, 3), Says::Status(404)),
    (Row::Reply(1, &[]), Says::Counts([2, 0, 0, 1])),
    (Row::Send(0), Says::No(Refusal::NoRequest)),
    (Row::Tick(0), Says::Ok),
    (Row::Take(0), Says::Ok),
    (Row::Send(0), Says::Request(2)),
    (Row::Run(2, 1), Says::Status(201)),
    (Row::Reply(2, &[]), Says::Counts([1, 0, 0, 0])),
    (Row::Close(0, 0), Says::Ok),
    (Row::Close(1, 0), Says::Ok),
    (Row::Take(0), Says::Ok),
    (Row::Take(0), Says::Ok),
];

/// All three are applied.
pub const THREE_APPLIED: Ends = (&[("1", &[1]), ("2", &[2]), ("3", &[3])], &[]);

#[test]
fn counts_of_a_run(rt: HostRuntime) {
    assert!(rt; run_of(&rt, rt.alloc(), THREE, THREE_THEN_ONE) == (20, 1));
}

/// One operation is put, taken and sent.
const SENT: &[(Row<'static>, Says)] = &[
    (Row::Put(0, "1", "{\"a\":1}"), Says::Named(1)),
    (Row::Take(0), Says::Ok),
    (Row::Send(0), Says::Request(1)),
];

/// Its request is run, and the reply lost.
const LOST: &[(Row<'static>, Says)] = &[
    (Row::Run(1, 1), Says::Status(201)),
    (Row::Lost(1), Says::Counts([0, 0, 0, 1])),
    (Row::Tick(0), Says::Ok),
    (Row::Take(0), Says::Ok),
    (Row::Send(0), Says::Request(2)),
    (Row::Run(2, 1), Says::Status(409)),
    (Row::Reply(2, &[]), Says::Counts([0, 1, 0, 0])),
];

/// Its request is lost, and run after the repeat.
const LATE: &[(Row<'static>, Says)] = &[
    (Row::Lost(1), Says::Counts([0, 0, 0, 1])),
    (Row::Tick(0), Says::Ok),
    (Row::Take(0), Says::Ok),
    (Row::Send(0), Says::Request(2)),
    (Row::Run(2, 1), Says::Status(201)),
    (Row::Run(1, 1), Says::Status(409)),
    (Row::Reply(2, &[]), Says::Counts([1, 0, 0, 0])),
    (Row::Reply(2, &[]), Says::No(Refusal::NotFlying)),
];

const ONE_DOCUMENT: &[(Row<'static>, Says)] = &[
    (Row::Put(0, "1", "{\"a\":1}"), Says::Named(1)),
    (Row::Put(0, "1", "{\"a\":2}"), Says::Named(2)),
    (Row::Take(0), Says::Ok),
    (Row::Take(0), Says::Ok),
    (Row::Send(0), Says::Request(1)),
    (Row::Send(0), Says::No(Refusal::NoRequest)),
    (Row::Refuse(1, 1, 429), Says::Status(429)),
    (Row::Reply(1, &[]), Says::Counts([0, 0, 0, 1])),
    (Row::Send(0), Says::No(Refusal::NoRequest)),
    (Row::Tick(0), Says::Ok),
    (Row::Take(0), Says::Ok),
    (Row::Send(0), Says::Request(2)),
    (Row::Run(2, 1), Says::Status(201)),
    (Row::Reply(2, &[]), Says::Counts([1, 0, 0, 0])),
    (Row::Send(0), Says::Request(3)),
    (Row::Run(3, 1), Says::Status(200)),
    (Row::Reply(3, &[]), Says::Counts([1, 0, 0, 0])),
];

/// An operation is run twice before its request is answered.
const RUN_TWICE: &[(Row<'static>, Says)] = &[
    (Row::Put(0, "1", ""), Says::Named(1)),
    (Row::Take(0), Says::Ok),
    (Row::Send(0), Says::Request(1)),
    (Row::Reply(1, &[]), Says::No(Refusal::NotRun)),
    (Row::Run(1, 1), Says::Status(404)),
    (Row::Run(1, 1), Says::Status(409)),
    (Row::Reply(1, &[3]), Says::No(Refusal::NotRun)),
    (Row::Reply(1, &[0]), Says::No(Refusal::NotRun)),
    (Row::Reply(1, &[1, 1]), Says::No(Refusal::NotRun)),
];

/// An operation that was given up is nevertheless applied, before the next one of its document.
pub const GIVEN_UP: &[(Row<'static>, Says)] = &[
    (Row::Put(0, "1", "{\"a\":1}"), Says::Named(1)),
    (Row::Take(0), Says::Ok),
    (Row::Send(0), Says::Request(1)),
    (Row::Lost(1), Says::Counts([0, 0, 0, 1])),
    (Row::Tick(0), Says::Ok),
    (Row::Take(0), Says::Ok),
    (Row::Send(0), Says::Request(2)),
    (Row::Lost(2), Says::Counts([0, 0, 1, 0])),
    (Row::Put(0, "1", ""), Says::Named(2)),
    (Row::Take(0), Says::Ok),
    (Row::Run(1, 1), Says::Status(201)),
    (Row::Send(0), Says::Request(3)),
    (Row::Run(3, 1), Says::Status(200)),
    (Row::Run(2, 1), Says::Status(409)),
    (Row::Reply(3, &[]), Says::Counts([1, 0, 0, 0])),
];

/// Both are applied, and the first one is reported.
pub const APPLIED_BUT_GIVEN_UP: Ends = (&[("1", &[1, 2])], &[Given::GaveUp(1, 2)]);

const STATUSES: &[(Row<'static>, Says)] = &[
    (Row::Refuse(1, 1, 409), Says::No(Refusal::BadStatus)),
    (Row::Whole(1, 200), Says::No(Refusal::BadStatus)),
    (Row::Whole(1, 600), Says::No(Refusal::BadStatus)),
    (Row::Refuse(1, 1, 400), Says::Status(400)),
    (Row::Reply(1, &[]), Says::Counts([0, 0, 1, 0])),
];

const SCRIPTS: &[Script] = &[
    (THREE, [THREE_THEN_ONE, &[]], THREE_APPLIED, true),
    (THREE, [SENT, LOST], (&[("1", &[1])], &[]), false),
    (THREE, [SENT, LATE], (&[("1", &[1])], &[]), false),
    (THREE, [ONE_DOCUMENT, &[]], (&[("1", &[1, 2])], &[]), false),
    (
        THREE,
        [
            RUN_TWICE,
            &[(Row::Reply(1, &[]), Says::Counts([0, 0, 1, 0]))],
        ],
        (&[("1", &[1])], &[Given::Conflict(1)]),
        false,
    ),
    (
        THREE,
        [
            RUN_TWICE,
            &[(Row::Reply(1, &[1]), Says::Counts([1, 0, 0, 0]))],
        ],
        (&[("1", &[1])], &[]),
        false,
    ),
    (TWO, [GIVEN_UP, &[]], APPLIED_BUT_GIVEN_UP, false),
    (
        THREE,
        [SENT, &[(Row::Whole(1, 401), Says::Counts([0, 0, 1, 0]))]],
        (&[("1", &[])], &[Given::Rejected(1, 401)]),
        false,
    ),
    (
        THREE,
        [SENT, &[(Row::Whole(1, 503), Says::Counts([0, 0, 0, 1]))]],
        (&[("1", &[])], &[]),
        false,
    ),
    (
        THREE,
        [SENT, STATUSES],
        (&[("1", &[])], &[Given::Refused(1, 400)]),
        false,
    ),
];

#[test]
fn worked_scripts(rt: HostRuntime) {
    for script in SCRIPTS {
        assert!(rt; lasts(&rt, rt.alloc(), script));
    }
}
