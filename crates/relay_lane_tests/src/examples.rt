//! Worked examples.
ghost use Rattle.relay_lane.specs.Out.{out_of};
ghost use Rattle.std.specs.Option.{option_to_list};
ghost use Rattle.std.specs.Prelude.{◌≡◌, [], IfSome};

use relay_fixtures::applied::count_applied;
use relay_fixtures::config::CONFIG;
use relay_fixtures::desk::{Desk, closes, filled};
use relay_fixtures::index_wire::{IndexWire, Way, wire_of};
use relay_fixtures::notes::{NO_PAUSES, Notes};
use relay_lane::{Cause, Lane, Loss, drain, drain_next, make_room, pump};
use std::alloc::Global;
use std::process::Abort;

// The outcome of a drain: requests, pauses, reports of GaveUp after three sends and reports of the
// status of a whole request, how many ended as applied and as already applied, and the writes that
// the index applied.
#[derive(Clone, Copy, Debug, PartialEq, Eq)]
struct Came {
    requests: u64,
    pauses: [u64; 8],
    gave_up: u32,
    rejected: u32,
    applied: u64,
    already: u64,
    in_index: usize,
}

// How many reports there are of GaveUp after three sends, and of the status of a whole request.
fn reported(lane: &Lane) -> (u32, u32) {
    let mut gave_up = 0u32;
    let mut rejected = 0u32;
    for report in lane.reports() {
        match &report.cause {
            Cause::GaveUp { sends: 3, .. } => gave_up = gave_up.saturating_add(1),
            Cause::Request { .. } => rejected = rejected.saturating_add(1),
            _ => {}
        }
    }
    (gave_up, rejected)
}

// What became of a lane, its wire and its pace.
fn look_at(rt: &impl Abort, alloc: Global, lane: &Lane, wire: &IndexWire, pace: &Notes) -> Came {
    let (gave_up, rejected) = reported(lane);
    let totals = lane.totals();
    Came {
        requests: totals.requests,
        pauses: pace.first,
        gave_up,
        rejected,
        applied: totals.applied,
        already: totals.already,
        in_index: count_applied(alloc, &wire.index).expect(rt, "memory"),
    }
}

// A lane that took an operation for each of these documents. `None`: an allocation failed.
fn holding(alloc: Global, ids: &[&str]) -> Option<Desk>
    ensures { IfSome result (λ d. out_of d.lane.state ≡ []) }
{
    filled(alloc, CONFIG, ids, "{}")
}

// The outcome of draining a lane that closes.
fn came_to(rt: &impl Abort, alloc: Global, desk: &mut Desk, wire: &mut IndexWire) -> Came
    requires { option_to_list wire.old.flying ≡ out_of desk.old.lane.state }
{
    let mut pace = NO_PAUSES;
    assert!(rt; closes(desk) && desk.lane.closed());
    drain(&mut desk.lane, wire, &mut pace).expect(rt, "memory");
    assert!(rt; desk.lane.finished());
    look_at(rt, alloc, &desk.lane, wire, &pace)
}

// The same for a lane that took an operation for each of these documents, over a wire of this kind.
fn drained(rt: &impl Abort, alloc: Global, ids: &[&str], way: Way) -> Came {
    let mut desk = holding(alloc, ids).expect(rt, "a lane");
    came_to(rt, alloc, &mut desk, &mut wire_of(alloc, way))
}

const NOTHING: Came = Came {
    requests: 0,
    pauses: [0; 8],
    gave_up: 0,
    rejected: 0,
    applied: 0,
    already: 0,
    in_index: 0,
};

// Three operations in one request are given up after three sends, without or with a run of it.
const GAVE_UP: Came = Came {
    requests: 3,
    pauses: [1, 2, 0, 0, 0, 0, 0, 0],
    gave_up: 3,
    ..NOTHING
};

const GAVE_UP_BUT_RAN: Came = Came {
    in_index: 3,
    ..GAVE_UP
};

const ONE: &[&str] = &["1", "1", "1"];

const THREE: &[&str] = &["1", "2", "3"];

// Three operations of one document are sent one after another, three of three documents in one
// request.
const DRAINS: &[(&[&str], Way, Came)] = &[
    (&[], Way::Loses, NOTHING),
    (
        ONE,
        Way::Runs,
        Came {
            requests: 3,
            applied: 3,
            in_index: 3,
            ..NOTHING
        },
    ),
    (
        THREE,
        Way::Runs,
        Came {
            requests: 1,
            applied: 3,
            in_index: 3,
            ..NOTHING
        },
    ),
    (
        ONE,
        Way::Loses,
        Came {
            requests: 9,
            pauses: [1, 2, 1, 2, 1, 2, 0, 0],
            gave_up: 3,
            ..NOTHING
        },
    ),
    (THREE, Way::Loses, GAVE_UP),
    (THREE, Way::Whole(503), GAVE_UP),
    (
        THREE,
        Way::Whole(404),
        Came {
            requests: 1,
            rejected: 3,
            ..NOTHING
        },
    ),
    (THREE, Way::TooFew, GAVE_UP_BUT_RAN),
    (THREE, Way::TooMany, GAVE_UP_BUT_RAN),
    (THREE, Way::Another, GAVE_UP_BUT_RAN),
    (
        ONE,
        Way::LosesEach(2),
        Came {
            requests: 5,
            pauses: [1, 1, 0, 0, 0, 0, 0, 0],
            applied: 1,
            already: 2,
            in_index: 3,
            ..NOTHING
        },
    ),
    (
        THREE,
        Way::FailsSend(1, Loss::Unreachable),
        Came {
            requests: 2,
            pauses: [1, 0, 0, 0, 0, 0, 0, 0],
            applied: 3,
            in_index: 3,
            ..NOTHING
        },
    ),
];

#[test]
fn drains(rt: HostRuntime) {
    for (ids, way, wanted) in DRAINS {
        let found = drained(&rt, rt.alloc(), *ids, *way);
        assert!(rt; found == *wanted, "{way:?} {found:?}");
    }
}

// How many turns it takes until a lane that closes holds nothing, at most 100.
fn turns_of(rt: &impl Abort, desk: &mut Desk, wire: &mut IndexWire) -> u32
    requires { option_to_list wire.old.flying ≡ out_of desk.old.lane.state }
{
    let mut pace = NO_PAUSES;
    closes(desk);
    for turns in 0..100u32 {
        assert!(rt; desk.lane.closed());
        if !drain_next(&mut desk.lane, wire, &mut pace).expect(rt, "memory") {
            return turns;
        }
    }
    panic!(rt; "more turns")
}

// The same for a lane that took an operation for each of these documents.
fn turned(rt: &impl Abort, alloc: Global, ids: &[&str], way: Way) -> u32 {
    let mut desk = holding(alloc, ids).expect(rt, "a lane");
    turns_of(rt, &mut desk, &mut wire_of(alloc, way))
}

// A request that is sent is one turn, its answer another, and a pause a third; one that could not be
// sent is one turn with its loss.
const TURNS: &[(&[&str], Way, u32)] = &[
    (&[], Way::Runs, 0),
    (ONE, Way::Runs, 6),
    (THREE, Way::Runs, 2),
    (THREE, Way::Loses, 8),
    (THREE, Way::FailsSend(1, Loss::Unreachable), 4),
];

#[test]
fn drains_turn_by_turn(rt: HostRuntime) {
    for (ids, way, wanted) in TURNS {
        let found = turned(&rt, rt.alloc(), *ids, *way);
        assert!(rt; found == *wanted, "{way:?} {found}");
    }
}

const FAULTS: &[Loss] = &[
    Loss::Refused,
    Loss::Unreachable,
    Loss::TimedOut,
    Loss::Closed,
    Loss::Unreadable,
    Loss::Memory,
];

// The outcome for three operations of one document if one request was not sent.
const NOT_SENT: Came = Came {
    requests: 4,
    pauses: [1, 0, 0, 0, 0, 0, 0, 0],
    applied: 3,
    in_index: 3,
    ..NOTHING
};

// And if one reply was a fault: its operation was applied by then.
const NOT_REPLIED: Came = Came {
    applied: 2,
    already: 1,
    ..NOT_SENT
};

// Each fault at each call: that request is repeated, and nothing is reported.
#[test]
fn faults(rt: HostRuntime) {
    for fault in FAULTS {
        for at in 1..4u64 {
            let sent = drained(&rt, rt.alloc(), ONE, Way::FailsSend(at, *fault));
            let replied = drained(&rt, rt.alloc(), ONE, Way::FailsReply(at, *fault));
            assert!(rt;
                sent == NOT_SENT && replied == NOT_REPLIED,
                "{sent:?} {replied:?}"
            );
        }
    }
}

// The result of `pump`, the requests that were sent, and how many operations are held then, of a
// lane that took these.
fn pumped(rt: &impl Abort, alloc: Global, ids: &[&str], way: Way) -> (u64, u64, u32) {
    let mut desk = holding(alloc, ids).expect(rt, "a lane");
    let mut wire = wire_of(alloc, way);
    let mut pace = NO_PAUSES;
    let sent = pump(&mut desk.lane, &mut wire, &mut pace).expect(rt, "memory");
    (sent, wire.sends, desk.lane.held())
}

const PUMPS: &[(&[&str], Way, (u64, u64, u32))] = &[
    (&[], Way::Runs, (0, 0, 0)),
    (&["1", "1", "1"], Way::Runs, (3, 3, 0)),
    (
        &["1", "1", "2"],
        Way::FailsSend(1, Loss::Unreachable),
        (1, 1, 3),
    ),
    (
        &["1", "1", "2"],
        Way::FailsReply(2, Loss::Closed),
        (2, 2, 1),
    ),
];

#[test]
fn pumps(rt: HostRuntime) {
    for (ids, way, wanted) in PUMPS {
        assert!(rt; pumped(&rt, rt.alloc(), *ids, *way) == *wanted, "{way:?}");
    }
}

// How many are held after room was made in a lane that holds at most ten and took these, the
// requests that were sent, and the ticks of the pauses.
fn with_room(rt: &impl Abort, alloc: Global, ids: &[&str], way: Way) -> (u32, u64, u64) {
    let mut desk = holding(alloc, ids).expect(rt, "a lane");
    let mut wire = wire_of(alloc, way);
    let mut pace = NO_PAUSES;
    make_room(&mut desk.lane, &mut wire, &mut pace).expect(rt, "memory");
    (desk.lane.held(), wire.sends, pace.ticks)
}

const TEN_OF_ONE: &[&str] = &["1", "1", "1", "1", "1", "1", "1", "1", "1", "1"];

const TEN_OF_TEN: &[&str] = &["1", "2", "3", "4", "5", "6", "7", "8", "9", "10"];

// Ten of one document: room is made by the first of them. Ten of ten documents go in one request.
const ROOMS: &[(&[&str], Way, (u32, u64, u64))] = &[
    (&[], Way::Runs, (0, 0, 0)),
    (&["1", "1", "2"], Way::Runs, (3, 0, 0)),
    (TEN_OF_ONE, Way::Runs, (9, 1, 0)),
    (TEN_OF_ONE, Way::Loses, (9, 3, 3)),
    (TEN_OF_TEN, Way::FailsReply(1, Loss::Unreadable), (0, 2, 1)),
];

#[test]
fn makes_room(rt: HostRuntime) {
    for (ids, way, wanted) in ROOMS {
        assert!(rt;
            with_room(&rt, rt.alloc(), *ids, *way) == *wanted,
            "{way:?}"
        );
    }
}

// A lane that took these, at the second attempt at the latest.
fn holding_at_last(alloc: Global, ids: &[&str]) -> Option<Desk>
    ensures { IfSome result (λ d. out_of d.lane.state ≡ []) }
{
    match holding(alloc, ids) {
        Some(desk) => Some(desk),
        None => holding(alloc, ids),
    }
}

// Drains a closed lane, and returns whether no allocation failed.
fn drains_once(desk: &mut Desk, wire: &mut IndexWire, pace: &mut Notes) -> bool
    requires { option_to_list wire.old.flying ≡ out_of desk.old.lane.state }
    ensures { option_to_list wire.new.flying ≡ out_of desk.new.lane.state }
{
    desk.lane.closed() && drain(&mut desk.lane, wire, pace).is_ok()
}

// Whether draining a lane that closes succeeds; or it has lost nothing, and the next drain
// succeeds.
fn drains_at_last(desk: &mut Desk, wire: &mut IndexWire) -> bool
    requires { option_to_list wire.old.flying ≡ out_of desk.old.lane.state }
{
    let mut pace = NO_PAUSES;
    closes(desk);
    drains_once(desk, wire, &mut pace) || desk.lane.held() > 0 && drains_once(desk, wire, &mut pace)
}

// Whether three operations ended as applied, and none is reported.
fn applied_three(lane: &Lane) -> bool {
    let totals = lane.totals();
    lane.finished()
        && lane.reports().is_empty()
        && totals.applied.saturating_add(totals.already) == 3
}

// Whether three operations are applied, whichever allocation fails.
fn applies_three(alloc: Global) -> bool {
    match holding_at_last(alloc, &["1", "1", "2"]) {
        Some(mut desk) => {
            drains_at_last(&mut desk, &mut wire_of(alloc, Way::Runs)) && applied_three(&desk.lane)
        }
        None => false,
    }
}

// Whichever allocation fails, the drain has lost nothing, and the next one succeeds.
#[test]
fn refusals(rt: HostRuntime) {
    assert!(rt; applies_three(rt.alloc()));
}
