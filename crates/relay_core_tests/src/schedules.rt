//! Worked schedules of a lane.
use crate::desk::{CONFIG, Entry, Step, goes};
use relay_batch::Limits;
use relay_core::config::ATTEMPTS_UNLIMITED;
use relay_core::{RelayConfig, TakeFault, Totals};
use std::alloc::Global;
use std::process::Abort;

// The first document is created.
const CREATED: [Entry<'static>; 1] = [Entry::Index("1", 201)];

// The first document has a conflict.
const CONFLICT: [Entry<'static>; 1] = [Entry::Failed("1", 409)];

// Three documents in one request; the busy one is sent again, with its version, a tick later.
const THREE_THEN_ONE: &[Step<'static>] = &[
    Step::Put("1", "{\"a\":1}"),
    Step::Put("2", "{\"a\":2}"),
    Step::Put("3", ""),
    Step::Sends(&[("1", 1), ("2", 2), ("3", 3)]),
    Step::SendsNone,
    Step::Items(
        &[
            Entry::Index("1", 201),
            Entry::Failed("2", 429),
            Entry::Delete("3", 404),
        ],
        [2, 0, 0, 1],
    ),
    Step::NotFlying,
    Step::SendsNone,
    Step::DueIn(1),
    Step::Ticks(1),
    Step::DueIn(0),
    Step::Sends(&[("2", 2)]),
    Step::DueIn(99),
    Step::Items(&[Entry::Index("2", 201)], [1, 0, 0, 0]),
    Step::Finished(false),
    Step::Close(0),
    Step::Close(1),
    Step::NotTaken(TakeFault::AfterClose),
    Step::Finished(true),
    Step::Totals(Totals {
        taken: 3,
        applied: 3,
        already: 0,
        requests: 2,
    }),
];

// A repeat whose conflict states its own version is settled, and one whose conflict states another is
// reported, with that version; so is a first conflict, even if it states its own.
const STATED: &[Step<'static>] = &[
    Step::Put("1", "{\"a\":1}"),
    Step::Sends(&[("1", 1)]),
    Step::Lost([0, 0, 0, 1]),
    Step::Ticks(1),
    Step::Sends(&[("1", 1)]),
    Step::Items(&[Entry::Stated("1", 1)], [0, 1, 0, 0]),
    Step::Put("2", "{\"a\":2}"),
    Step::Sends(&[("2", 2)]),
    Step::Whole(503, [0, 0, 0, 1]),
    Step::Ticks(1),
    Step::Sends(&[("2", 2)]),
    Step::Items(&[Entry::Stated("2", 7)], [0, 0, 1, 0]),
    Step::Put("3", "{\"a\":3}"),
    Step::Sends(&[("3", 3)]),
    Step::Items(&[Entry::Stated("3", 3)], [0, 0, 1, 0]),
];

// A lost reply, and then a conflict with its own version; a first conflict is reported.
const CONFLICTS: &[Step<'static>] = &[
    Step::Put("1", "{\"a\":1}"),
    Step::Sends(&[("1", 1)]),
    Step::Lost([0, 0, 0, 1]),
    Step::DueIn(1),
    Step::Tick,
    Step::DueIn(0),
    Step::Sends(&[("1", 1)]),
    Step::Items(&CONFLICT, [0, 1, 0, 0]),
    Step::Put("1", "{\"a\":2}"),
    Step::Sends(&[("1", 2)]),
    Step::Items(&CONFLICT, [0, 0, 1, 0]),
    Step::Held(0),
];

// The next operation of a document waits until the earlier one is settled.
const ONE_AT_A_TIME: &[Step<'static>] = &[
    Step::Put("1", "{\"a\":1}"),
    Step::Put("1", "{\"a\":2}"),
    Step::Sends(&[("1", 1)]),
    Step::SendsNone,
    Step::Items(&[Entry::Failed("1", 429)], [0, 0, 0, 1]),
    Step::SendsNone,
    Step::Ticks(1),
    Step::Sends(&[("1", 1)]),
    Step::Items(&CREATED, [1, 0, 0, 0]),
    Step::Sends(&[("1", 2)]),
    Step::Items(&CREATED, [1, 0, 0, 0]),
];

const TWO_ATTEMPTS: RelayConfig = RelayConfig {
    attempts: 2,
    ..CONFIG
};

// Two attempts: the second loss is reported.
const GIVEN_UP: &[Step<'static>] = &[
    Step::Put("1", "{\"a\":1}"),
    Step::Sends(&[("1", 1)]),
    Step::Lost([0, 0, 0, 1]),
    Step::Ticks(1),
    Step::Sends(&[("1", 1)]),
    Step::Lost([0, 0, 1, 0]),
    Step::Put("1", ""),
    Step::Sends(&[("1", 2)]),
    Step::Items(&[Entry::Delete("1", 200)], [1, 0, 0, 0]),
];

const NINE_ATTEMPTS: RelayConfig = RelayConfig {
    attempts: 9,
    ..CONFIG
};

// The single operation is sent, and lost.
const LOST: &[Step<'static>] = &[
    Step::Put("1", "{}"),
    Step::Sends(&[("1", 1)]),
    Step::Lost([0, 0, 0, 1]),
];

// It is sent once more after this many ticks, not before, and lost again.
fn lost_after(pause: u32) -> [Step<'static>; 6] {
    [
        Step::DueIn(pause as u64),
        Step::Ticks(pause.saturating_sub(1)),
        Step::SendsNone,
        Step::Ticks(1),
        Step::Sends(&[("1", 1)]),
        Step::Lost([0, 0, 0, 1]),
    ]
}

// It is sent for the last time.
const LOST_AT_LAST: &[Step<'static>] = &[
    Step::Ticks(63),
    Step::SendsNone,
    Step::Ticks(1),
    Step::Sends(&[("1", 1)]),
    Step::Lost([0, 0, 1, 0]),
    Step::Held(0),
];

// The steps of attempts that are lost, with these pauses between them, and then these steps.
fn lost_steps(
    rt: &impl Abort,
    alloc: Global,
    pauses: &[u32],
    last: &[Step<'static>],
) -> Vec<Step<'static>> {
    let mut steps = Vec::from_slice(alloc, LOST).expect(rt, "memory");
    for pause in pauses {
        steps
            .extend_from_slice(&lost_after(*pause))
            .expect(rt, "memory");
    }
    steps.extend_from_slice(last).expect(rt, "memory");
    steps
}

// Nine attempts, each lost immediately: the pauses are 1, 2, 4 and so on, at most 64.
#[test]
fn nine_attempts(rt: HostRuntime) {
    let steps = lost_steps(&rt, rt.alloc(), &[1, 2, 4, 8, 16, 32, 64], LOST_AT_LAST);
    goes(&rt, rt.alloc(), NINE_ATTEMPTS, &steps, &[(1, 4, 9)]);
}

const UNLIMITED: RelayConfig = RelayConfig {
    attempts: ATTEMPTS_UNLIMITED,
    ..CONFIG
};

// The pauses after 32 attempts.
const PAUSES: [u32; 32] = [
    1, 2, 4, 8, 16, 32, 64, 64, 64, 64, 64, 64, 64, 64, 64, 64, 64, 64, 64, 64, 64, 64, 64, 64, 64,
    64, 64, 64, 64, 64, 64, 64,
];

// It is sent once more, and applied.
const CREATED_AT_LAST: &[Step<'static>] = &[
    Step::Ticks(64),
    Step::Sends(&[("1", 1)]),
    Step::Items(&CREATED, [1, 0, 0, 0]),
    Step::Held(0),
];

// Without a limit an operation is retried after its 33rd attempt too.
#[test]
fn attempts_without_a_limit(rt: HostRuntime) {
    let steps = lost_steps(&rt, rt.alloc(), &PAUSES, CREATED_AT_LAST);
    goes(&rt, rt.alloc(), UNLIMITED, &steps, &[]);
}

// An operation that fails five ticks after its first send or later is given up.
const FIVE_TICKS: RelayConfig = RelayConfig {
    attempts: ATTEMPTS_UNLIMITED,
    give_up_after: Some(5),
    ..CONFIG
};

// The second operation waits for ten ticks before its first send. It is retried four ticks after
// that, and given up five ticks after it, immediately after its second send.
const TOO_OLD: &[Step<'static>] = &[
    Step::Put("1", "{}"),
    Step::Sends(&[("1", 1)]),
    Step::Put("2", "{}"),
    Step::Ticks(10),
    Step::SendsNone,
    Step::Items(&CREATED, [1, 0, 0, 0]),
    Step::Sends(&[("2", 2)]),
    Step::Ticks(4),
    Step::Lost([0, 0, 0, 1]),
    Step::DueIn(1),
    Step::Ticks(1),
    Step::Sends(&[("2", 2)]),
    Step::Lost([0, 0, 1, 0]),
    Step::Held(0),
];

// The second document is busy.
const BUSY: [Entry<'static>; 1] = [Entry::Index("2", 429)];

// A request that is halved is no failure, but the first send is the one before it: each operation
// is given up at the first failure after that, by its entry and by the status of its request. An old
// one that succeeds is applied.
const HALVED_WHEN_OLD: &[Step<'static>] = &[
    Step::Put("1", "{}"),
    Step::Put("2", "{}"),
    Step::Put("3", "{}"),
    Step::Sends(&[("1", 1), ("2", 2), ("3", 3)]),
    Step::Ticks(5),
    Step::Whole(413, [0, 0, 0, 3]),
    Step::Sends(&[("1", 1)]),
    Step::Items(&CREATED, [1, 0, 0, 0]),
    Step::Sends(&[("2", 2)]),
    Step::Items(&BUSY, [0, 0, 1, 0]),
    Step::Sends(&[("3", 3)]),
    Step::Whole(503, [0, 0, 1, 0]),
    Step::Put("3", "{}"),
    Step::Sends(&[("3", 4)]),
    Step::Whole(503, [0, 0, 0, 1]),
    Step::Held(1),
];

// Replies that do not match count as lost: too few entries, another id, another kind, too many.
const NO_MATCHES: [&'static [Entry<'static>]; 4] = [
    &[],
    &[Entry::Index("2", 201)],
    &[Entry::Delete("1", 200)],
    &[Entry::Index("1", 201), Entry::Index("1", 201)],
];

#[test]
fn replies_that_do_not_match(rt: HostRuntime) {
    for entries in &NO_MATCHES {
        let steps = [
            Step::Put("1", "{}"),
            Step::Sends(&[("1", 1)]),
            Step::NoMatch(*entries, [0, 0, 0, 1]),
            Step::Ticks(1),
            Step::Sends(&[("1", 1)]),
            Step::Items(&CREATED, [1, 0, 0, 0]),
        ];
        goes(&rt, rt.alloc(), CONFIG, &steps, &[]);
    }
}

const RETRIED: [u32; 4] = [0, 0, 0, 1];

const OVER: [u32; 4] = [0, 0, 1, 0];

// What the status of a request as a whole means for its single operation.
const WHOLE: [(u16, [u32; 4], &'static [(u64, u8, u32)]); 8] = [
    (401, OVER, &[(1, 2, 401)]),
    (429, RETRIED, &[]),
    (500, OVER, &[(1, 2, 500)]),
    (502, RETRIED, &[]),
    (503, RETRIED, &[]),
    (504, RETRIED, &[]),
    (505, OVER, &[(1, 2, 505)]),
    (201, OVER, &[(1, 2, 201)]),
];

#[test]
fn whole_answers(rt: HostRuntime) {
    for (status, counts, reports) in &WHOLE {
        let steps = [
            Step::Put("1", "{}"),
            Step::Sends(&[("1", 1)]),
            Step::Whole(*status, *counts),
            Step::NotFlying,
            Step::Held(counts[3]),
        ];
        goes(&rt, rt.alloc(), CONFIG, &steps, *reports);
    }
}

// An item that is refused, with an error and without one.
const REFUSED: &[Step<'static>] = &[
    Step::Put("1", "{}"),
    Step::Put("2", "{}"),
    Step::Sends(&[("1", 1), ("2", 2)]),
    Step::Items(
        &[Entry::Failed("1", 400), Entry::Index("2", 400)],
        [0, 0, 2, 0],
    ),
];

// One attempt for each operation.
const ONE_ATTEMPT: RelayConfig = RelayConfig {
    attempts: 1,
    ..CONFIG
};

// Five deletes of 78 bytes and an index that accepts 160: the request is halved, which costs no
// attempt.
const HALVED: &[Step<'static>] = &[
    Step::Put("1", ""),
    Step::Put("2", ""),
    Step::Put("3", ""),
    Step::Put("4", ""),
    Step::Put("5", ""),
    Step::Sends(&[("1", 1), ("2", 2), ("3", 3), ("4", 4), ("5", 5)]),
    Step::Whole(413, [0, 0, 0, 5]),
    Step::DueIn(0),
    Step::Sends(&[("1", 1), ("2", 2)]),
    Step::Items(
        &[Entry::Delete("1", 404), Entry::Delete("2", 404)],
        [2, 0, 0, 0],
    ),
    Step::Sends(&[("3", 3), ("4", 4)]),
    Step::Items(
        &[Entry::Delete("3", 404), Entry::Delete("4", 404)],
        [2, 0, 0, 0],
    ),
    Step::Sends(&[("5", 5)]),
    Step::Items(&[Entry::Delete("5", 404)], [1, 0, 0, 0]),
    Step::Held(0),
    Step::Totals(Totals {
        taken: 5,
        applied: 5,
        already: 0,
        requests: 4,
    }),
];

// And with one that accepts 77: each is reported once it is alone.
const HALVED_AWAY: &[Step<'static>] = &[
    Step::Put("1", ""),
    Step::Put("2", ""),
    Step::Put("3", ""),
    Step::Put("4", ""),
    Step::Put("5", ""),
    Step::Sends(&[("1", 1), ("2", 2), ("3", 3), ("4", 4), ("5", 5)]),
    Step::Whole(413, [0, 0, 0, 5]),
    Step::Sends(&[("1", 1), ("2", 2)]),
    Step::Whole(413, [0, 0, 0, 2]),
    Step::Sends(&[("1", 1)]),
    Step::Whole(413, [0, 0, 1, 0]),
    Step::Sends(&[("2", 2)]),
    Step::Whole(413, [0, 0, 1, 0]),
    Step::Sends(&[("3", 3), ("4", 4)]),
    Step::Whole(413, [0, 0, 0, 2]),
    Step::Sends(&[("3", 3)]),
    Step::Whole(413, [0, 0, 1, 0]),
    Step::Sends(&[("4", 4)]),
    Step::Whole(413, [0, 0, 1, 0]),
    Step::Sends(&[("5", 5)]),
    Step::Whole(413, [0, 0, 1, 0]),
    Step::Held(0),
    Step::Totals(Totals {
        taken: 5,
        applied: 0,
        already: 0,
        requests: 8,
    }),
];

const EACH_TOO_LARGE: &[(u64, u8, u32)] = &[
    (1, 2, 413),
    (2, 2, 413),
    (3, 2, 413),
    (4, 2, 413),
    (5, 2, 413),
];

// Batches of two, which wait for three ticks, one in flight.
const TWO: RelayConfig = RelayConfig {
    limits: Limits {
        count: 2,
        bytes: 4_096,
        linger: 3,
    },
    ..CONFIG
};

// Two documents are created.
const BOTH: [Entry<'static>; 2] = [Entry::Index("1", 201), Entry::Index("2", 201)];

// While a request is in flight, as many operations are gathered as the next one carries, and none
// if some are left over.
const GATHERED: &[Step<'static>] = &[
    Step::Gathers(false),
    Step::SendsNone,
    Step::Gathers(false),
    Step::Put("1", "{}"),
    Step::Gathers(false),
    Step::SendsNone,
    Step::Gathers(true),
    Step::Put("2", "{}"),
    Step::Gathers(false),
    Step::Sends(&[("1", 1), ("2", 2)]),
    Step::Gathers(true),
    Step::Put("3", ""),
    Step::Gathers(true),
    Step::Put("4", ""),
    Step::Gathers(false),
    Step::Put("5", ""),
    Step::SendsNone,
    Step::Items(&BOTH, [2, 0, 0, 0]),
    Step::Gathers(false),
    Step::Sends(&[("3", 3), ("4", 4)]),
    Step::Gathers(false),
    Step::Whole(400, [0, 0, 2, 0]),
    Step::Gathers(false),
    Step::SendsNone,
    Step::Gathers(true),
    Step::Tick,
    Step::Gathers(false),
];

#[test]
fn gathered_in_flight(rt: HostRuntime) {
    goes(&rt, rt.alloc(), TWO, GATHERED, &[(3, 2, 400), (4, 2, 400)]);
}

/// A config, the steps of a schedule, and the reports at its end.
type Schedule = (
    RelayConfig,
    &'static [Step<'static>],
    &'static [(u64, u8, u32)],
);

const SCHEDULES: &[Schedule] = &[
    (CONFIG, THREE_THEN_ONE, &[]),
    (CONFIG, STATED, &[(2, 3, 7), (3, 3, 3)]),
    (CONFIG, CONFLICTS, &[(2, 3, 0)]),
    (CONFIG, ONE_AT_A_TIME, &[]),
    (TWO_ATTEMPTS, GIVEN_UP, &[(1, 4, 2)]),
    (FIVE_TICKS, TOO_OLD, &[(2, 4, 2)]),
    (FIVE_TICKS, HALVED_WHEN_OLD, &[(2, 4, 2), (3, 4, 2)]),
    (CONFIG, REFUSED, &[(1, 1, 400), (2, 1, 400)]),
    (ONE_ATTEMPT, HALVED, &[]),
    (ONE_ATTEMPT, HALVED_AWAY, EACH_TOO_LARGE),
];

// Each step of each schedule has its result.
#[test]
fn worked_schedules(rt: HostRuntime) {
    for (config, steps, reports) in SCHEDULES {
        goes(&rt, rt.alloc(), *config, *steps, *reports);
    }
}
