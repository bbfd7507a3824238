//! Epochs: restarts, what is left of earlier incarnations, and the last version of an epoch.
use crate::world::script::{Given, Name, Row, Says, THREE, is_given, is_named, played, world_of};
use relay_action::{DocKey, Op, OpName, Write};
use relay_core::RelayConfig;
use relay_world::{Refusal, World};
use std::alloc::Global;
use std::process::Abort;

/// An applied write: its version, and the name of its operation.
type Applied = (u64, Name);

/// How a world ends: how many operations of each producer were accepted in the last epoch, the
/// writes applied to documents, the reports of lane 0, and whether it is finished.
#[derive(Clone, Copy)]
struct End<'a> {
    accepted: &'a [usize],
    applied: &'a [(&'a str, &'a [Applied])],
    reports: &'a [(Name, Given)],
    finished: bool,
}

fn are_writes(writes: &[Write], names: &[OpName], rows: &[Applied]) -> bool {
    if writes.len() != rows.len() || names.len() != rows.len() {
        return false;
    }
    for i in 0..rows.len() {
        if writes[i].version != rows[i].0 || !is_named(names[i], rows[i].1) {
            return false;
        }
    }
    true
}

/// Whether a document has these writes, of these operations.
fn has_writes(rt: &impl Abort, alloc: Global, world: &World, id: &str, rows: &[Applied]) -> bool {
    let key = DocKey::new(alloc, "b", id).expect(rt, "a key");
    are_writes(world.applied(&key), world.names(&key), rows)
}

/// Whether these documents have these writes, and no other document has any.
fn has_applied(rt: &impl Abort, alloc: Global, world: &World, rows: &[(&str, &[Applied])]) -> bool {
    let mut good = world.keys().expect(rt, "memory").len() == rows.len();
    for (id, writes) in rows {
        good = has_writes(rt, alloc, world, id, writes) && good;
    }
    good
}

/// Whether this many operations of each producer were accepted in the last epoch.
fn has_accepted(world: &World, counts: &[usize]) -> bool {
    let mut producer = 0u32;
    let mut good = true;
    for count in counts {
        good = good && world.accepted(producer).len() == *count;
        producer = producer.saturating_add(1);
    }
    good
}

/// Whether lane 0 has reported these operations, for these causes.
fn has_reported(world: &World, rows: &[(Name, Given)]) -> bool {
    let reports = world.reports(0);
    for (report, row) in reports.iter().zip(rows) {
        if !is_named(report.name, row.0) || !is_given(report, row.1) {
            return false;
        }
    }
    reports.len() == rows.len()
}

/// Whether a world answers rows as they say, and then ends like this.
fn goes_so(
    rt: &impl Abort,
    alloc: Global,
    world: &mut World,
    rows: &[(Row<'_>, Says)],
    end: &End<'_>,
) -> bool {
    played(rt, alloc, world, rows)
        && has_accepted(world, end.accepted)
        && has_applied(rt, alloc, world, end.applied)
        && has_reported(world, end.reports)
        && world.finished() == end.finished
}

const FIRST_OF_ONE: u64 = 1_099_511_627_777;

/// A restart while a request is in flight: it may still run, and settles nothing.
const RESTARTED: &[(Row<'static>, Says)] = &[
    (Row::Put(0, "1", "{\"a\":1}"), Says::Name(0, 0, 1)),
    (Row::Take(0), Says::Ok),
    (Row::Send(0), Says::Request(1)),
    (Row::Restart(1), Says::Ok),
    (Row::Reply(1, &[]), Says::No(Refusal::NotFlying)),
    (Row::Put(0, "1", ""), Says::Name(1, 0, 1)),
    (Row::Take(0), Says::Ok),
    (Row::Run(1, 1), Says::Status(201)),
    (Row::Send(0), Says::Request(2)),
    (Row::Run(2, 1), Says::Status(200)),
    (Row::Run(1, 1), Says::Status(409)),
    (Row::Reply(2, &[]), Says::Counts([1, 0, 0, 0])),
    (Row::Restart(1), Says::No(Refusal::NotAbove)),
];

const EPOCHS: &[(Row<'static>, Says)] = &[
    (Row::Restart(0), Says::No(Refusal::NotAbove)),
    (Row::Restart(4_194_304), Says::No(Refusal::NotAbove)),
    (Row::Restart(4_294_967_295), Says::No(Refusal::NotAbove)),
    (Row::Restart(3), Says::Ok),
    (Row::Restart(2), Says::No(Refusal::NotAbove)),
    (Row::Restart(3), Says::No(Refusal::NotAbove)),
    (Row::Put(0, "1", ""), Says::Name(3, 0, 1)),
    (Row::Restart(4_194_303), Says::Ok),
    (Row::Restart(4_194_303), Says::No(Refusal::NotAbove)),
    (Row::Put(0, "1", ""), Says::Name(4_194_303, 0, 1)),
];

/// One version per lane, in epoch 8.
const LAST: RelayConfig = RelayConfig {
    capacity: 1,
    max_held: 1,
    epoch: 8,
    deal: 1,
    ..THREE
};

const ONE_IN_EIGHT: &[(Row<'static>, Says)] = &[
    (Row::Put(0, "1", ""), Says::Name(8, 0, 1)),
    (Row::Put(0, "2", ""), Says::No(Refusal::QueueFull)),
    (Row::Take(0), Says::Ok),
    (Row::Put(0, "2", ""), Says::Name(8, 0, 2)),
    (Row::Take(0), Says::No(Refusal::HeldFull)),
    (Row::Send(0), Says::Request(1)),
    (Row::Run(1, 1), Says::Status(404)),
    (Row::Reply(1, &[]), Says::Counts([1, 0, 0, 0])),
    (Row::Take(0), Says::Ok),
    (Row::Close(0, 0), Says::Ok),
    (Row::Put(0, "3", ""), Says::No(Refusal::Closed)),
];

/// Two lanes, the first of which has the documents with an even id, and two producers.
const TWO_LANES: RelayConfig = RelayConfig {
    lanes: 2,
    producers: 2,
    ..THREE
};

/// One operation is in flight and waits to be sent again, one is queued, one is reported, and a
/// producer has closed.
const BEFORE: &[(Row<'static>, Says)] = &[
    (Row::Put(0, "2", "{}"), Says::Name(0, 0, 1)),
    (Row::Put(1, "1", "{}"), Says::Name(0, 1, 1)),
    (Row::Put(0, "4", ""), Says::Name(0, 0, 2)),
    (Row::Take(0), Says::Ok),
    (Row::Take(1), Says::Ok),
    (Row::Send(0), Says::Request(1)),
    (Row::Send(1), Says::Request(2)),
    (Row::Run(2, 1), Says::Status(201)),
    (Row::Lost(1), Says::Counts([0, 0, 0, 1])),
    (Row::Whole(2, 401), Says::Counts([0, 0, 1, 0])),
    (Row::Close(1, 1), Says::Ok),
    (Row::Put(1, "3", ""), Says::No(Refusal::Closed)),
];

/// A restart leaves nothing queued, held, in flight, reported or closed, and numbers start at 1
/// again. The requests of the new lanes have the same numbers there as the old ones, and no answer
/// to an old one settles them.
const AFTER: &[(Row<'static>, Says)] = &[
    (Row::Restart(7), Says::Ok),
    (Row::Take(0), Says::No(Refusal::NothingQueued)),
    (Row::Take(1), Says::No(Refusal::NothingQueued)),
    (Row::Send(0), Says::No(Refusal::NoRequest)),
    (Row::Lost(1), Says::No(Refusal::NotFlying)),
    (Row::Put(1, "3", ""), Says::Name(7, 1, 1)),
    (Row::Put(0, "2", ""), Says::Name(7, 0, 1)),
    (Row::Take(1), Says::Ok),
    (Row::Take(0), Says::Ok),
    (Row::Send(1), Says::Request(3)),
    (Row::Send(0), Says::Request(4)),
    (Row::Reply(2, &[]), Says::No(Refusal::NotFlying)),
    (Row::Whole(1, 503), Says::No(Refusal::NotFlying)),
    (Row::Lost(2), Says::No(Refusal::NotFlying)),
    (Row::Run(4, 1), Says::Status(404)),
    (Row::Run(1, 1), Says::Status(409)),
    (Row::Run(3, 1), Says::Status(404)),
    (Row::Reply(3, &[]), Says::Counts([1, 0, 0, 0])),
    (Row::Close(0, 0), Says::Ok),
    (Row::Close(1, 0), Says::Ok),
    (Row::Close(2, 0), Says::Ok),
    (Row::Close(0, 1), Says::Ok),
    (Row::Close(1, 1), Says::Ok),
    (Row::Close(2, 1), Says::Ok),
    (Row::Take(0), Says::Ok),
    (Row::Take(0), Says::Ok),
    (Row::Take(0), Says::Ok),
    (Row::Take(1), Says::Ok),
    (Row::Take(1), Says::Ok),
    (Row::Take(1), Says::Ok),
];

const FIRST_OF_SEVEN: u64 = 7_696_581_394_433;

const ALL_OF_SEVEN: &[(&str, &[Applied])] = &[
    ("1", &[(1, (0, 1, 1))]),
    ("2", &[(FIRST_OF_SEVEN, (7, 0, 1))]),
    ("3", &[(FIRST_OF_SEVEN, (7, 1, 1))]),
];

/// Whether these operations have these names.
fn are_named(ops: &[Op], names: &[Name]) -> bool {
    for (op, name) in ops.iter().zip(names) {
        if !is_named(op.name(), *name) {
            return false;
        }
    }
    ops.len() == names.len()
}

/// Whether these were accepted in each epoch from each producer, and nothing in another epoch or
/// from another producer.
fn keeps_what_was_accepted(world: &World) -> bool {
    let rows: [(u32, u32, &[Name]); 7] = [
        (0, 0, &[(0, 0, 1), (0, 0, 2)]),
        (0, 1, &[(0, 1, 1)]),
        (7, 0, &[(7, 0, 1)]),
        (7, 1, &[(7, 1, 1)]),
        (0, 2, &[]),
        (7, 2, &[]),
        (1, 0, &[]),
    ];
    for (epoch, producer, names) in rows {
        if !are_named(world.accepted_in(epoch, producer), names) {
            return false;
        }
    }
    true
}

// Two lanes are restarted and finish in the new epoch, and what was accepted in each is still known.
#[test]
fn two_lanes_and_producers(rt: HostRuntime) {
    let alloc = rt.alloc();
    let world = world_of(&rt, alloc, TWO_LANES);
    let before = End {
        accepted: &[2, 1],
        applied: &[("1", &[(1, (0, 1, 1))])],
        reports: &[],
        finished: false,
    };
    assert!(rt; goes_so(&rt, alloc, world, BEFORE, &before));
    assert!(rt; world.reports(1).len() == 1);
    let open = End {
        accepted: &[1, 1],
        applied: ALL_OF_SEVEN,
        reports: &[],
        finished: false,
    };
    assert!(rt; goes_so(&rt, alloc, world, AFTER, &open));
    assert!(rt; world.reports(1).is_empty());
    let last = [(Row::Reply(4, &[]), Says::Counts([1, 0, 0, 0]))];
    let after = End {
        finished: true,
        ..open
    };
    assert!(rt; goes_so(&rt, alloc, world, &last, &after));
    assert!(rt; keeps_what_was_accepted(world));
}

/// Three incarnations write one document. The second one's request runs in the third, before that
/// one's own.
const THREE_LIVES: &[(Row<'static>, Says)] = &[
    (Row::Put(0, "1", "{}"), Says::Name(0, 0, 1)),
    (Row::Take(0), Says::Ok),
    (Row::Send(0), Says::Request(1)),
    (Row::Run(1, 1), Says::Status(201)),
    (Row::Restart(1), Says::Ok),
    (Row::Put(0, "1", "{}"), Says::Name(1, 0, 1)),
    (Row::Take(0), Says::Ok),
    (Row::Send(0), Says::Request(2)),
    (Row::Restart(5), Says::Ok),
    (Row::Put(0, "1", "{}"), Says::Name(5, 0, 1)),
    (Row::Take(0), Says::Ok),
    (Row::Send(0), Says::Request(3)),
    (Row::Run(2, 1), Says::Status(200)),
    (Row::Run(3, 1), Says::Status(200)),
    (Row::Run(2, 1), Says::Status(409)),
    (Row::Run(1, 1), Says::Status(409)),
    (Row::Reply(1, &[]), Says::No(Refusal::NotFlying)),
    (Row::Reply(2, &[]), Says::No(Refusal::NotFlying)),
    (Row::Reply(3, &[]), Says::Counts([1, 0, 0, 0])),
    (Row::Restart(4), Says::No(Refusal::NotAbove)),
];

/// One version per lane, in epoch 0.
const ONE_VERSION: RelayConfig = RelayConfig { deal: 1, ..THREE };

// The operation that got no version in epoch 0 is not the one that has the second version of epoch
// 1.
const SPENT: &[(Row<'static>, Says)] = &[
    (Row::Put(0, "1", "{}"), Says::Name(0, 0, 1)),
    (Row::Put(0, "1", "{}"), Says::Name(0, 0, 2)),
    (Row::Take(0), Says::Ok),
    (Row::Take(0), Says::Ok),
    (Row::Restart(1), Says::Ok),
    (Row::Put(0, "1", "{}"), Says::Name(1, 0, 1)),
    (Row::Take(0), Says::Ok),
    (Row::Send(0), Says::Request(1)),
    (Row::Run(1, 1), Says::Status(201)),
    (Row::Reply(1, &[]), Says::Counts([1, 0, 0, 0])),
];

/// Scripts with restarts, or epochs at their limits, on a fresh world with a config, and how they end.
const LIVES: &[(RelayConfig, &[(Row<'static>, Says)], End<'static>)] = &[
    (
        THREE,
        RESTARTED,
        End {
            accepted: &[1],
            applied: &[("1", &[(1, (0, 0, 1)), (FIRST_OF_ONE, (1, 0, 1))])],
            reports: &[],
            finished: false,
        },
    ),
    (
        THREE,
        EPOCHS,
        End {
            accepted: &[1],
            applied: &[],
            reports: &[],
            finished: false,
        },
    ),
    (
        LAST,
        ONE_IN_EIGHT,
        End {
            accepted: &[2],
            applied: &[("1", &[(8_796_093_022_209, (8, 0, 1))])],
            reports: &[((8, 0, 2), Given::Spent(2))],
            finished: false,
        },
    ),
    (
        THREE,
        THREE_LIVES,
        End {
            accepted: &[1],
            applied: &[(
                "1",
                &[
                    (1, (0, 0, 1)),
                    (FIRST_OF_ONE, (1, 0, 1)),
                    (5_497_558_138_881, (5, 0, 1)),
                ],
            )],
            reports: &[],
            finished: false,
        },
    ),
    (
        ONE_VERSION,
        SPENT,
        End {
            accepted: &[1],
            applied: &[("1", &[(FIRST_OF_ONE, (1, 0, 1))])],
            reports: &[],
            finished: false,
        },
    ),
];

#[test]
fn one_life_after_another(rt: HostRuntime) {
    for (config, rows, end) in LIVES {
        let world = world_of(&rt, rt.alloc(), *config);
        assert!(rt; goes_so(&rt, rt.alloc(), world, *rows, end));
    }
}

/// Three deletes in one request, which is too large as a whole: each is sent by itself, the second
/// one after it ran.
const HALVED: &[(Row<'static>, Says)] = &[
    (Row::Put(0, "1", ""), Says::Named(1)),
    (Row::Put(0, "2", ""), Says::Named(2)),
    (Row::Put(0, "3", ""), Says::Named(3)),
    (Row::Take(0), Says::Ok),
    (Row::Take(0), Says::Ok),
    (Row::Take(0), Says::Ok),
    (Row::Send(0), Says::Request(1)),
    (Row::Run(1, 2), Says::Status(404)),
    (Row::Whole(1, 413), Says::Counts([0, 0, 0, 3])),
    (Row::Send(0), Says::Request(2)),
    (Row::Whole(2, 413), Says::Counts([0, 0, 1, 0])),
    (Row::Send(0), Says::Request(3)),
    (Row::Run(3, 1), Says::Status(409)),
    (Row::Reply(3, &[]), Says::Counts([0, 1, 0, 0])),
    (Row::Send(0), Says::Request(4)),
];

/// Whether an item of a request is this document with this version.
fn has_item(world: &World, (request, item): (u64, u64), id: &str, version: u64) -> bool {
    match world.sent(request, item) {
        Some((key, found)) => key.index() == "b" && key.id() == id && found == version,
        None => false,
    }
}

/// Whether these are exactly the documents of the requests, each with the version of its number.
fn has_requests(world: &World) -> bool {
    let items: [(u64, u64, &str, u64); 6] = [
        (1, 1, "1", 1),
        (1, 2, "2", 2),
        (1, 3, "3", 3),
        (2, 1, "1", 1),
        (3, 1, "2", 2),
        (4, 1, "3", 3),
    ];
    let mut good = true;
    for (request, item, id, version) in items {
        good = has_item(world, (request, item), id, version) && good;
    }
    let ends: [(u64, u64); 5] = [(1, 4), (2, 2), (3, 2), (4, 2), (5, 1)];
    for (request, item) in ends {
        good = world.sent(request, item).is_none() && good;
    }
    good
}

#[test]
fn too_large_as_a_whole(rt: HostRuntime) {
    let alloc = rt.alloc();
    let world = world_of(&rt, alloc, THREE);
    let end = End {
        accepted: &[3],
        applied: &[("2", &[(2, (0, 0, 2))])],
        reports: &[((0, 0, 1), Given::Rejected(1, 413))],
        finished: false,
    };
    assert!(rt; goes_so(&rt, alloc, world, HALVED, &end));
    assert!(rt; has_requests(world));
}
