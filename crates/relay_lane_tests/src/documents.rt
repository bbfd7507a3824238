//! A thousand documents with three operations each.
ghost use Rattle.relay_lane.specs.Out.{out_of};
ghost use Rattle.std.specs.Option.{option_to_list};
ghost use Rattle.std.specs.Prelude.{◌≡◌};

use relay_batch::Limits;
use relay_fixtures::applied::count_applied;
use relay_fixtures::config::CONFIG;
use relay_fixtures::desk::{Desk, closes, desk_of, puts};
use relay_fixtures::index_wire::{IndexWire, Way, wire_of};
use relay_fixtures::notes::NO_PAUSES;
use relay_lane::{RelayConfig, Totals, drain};
use std::alloc::Global;
use std::process::Abort;

const DOCUMENTS: u64 = 1_000;

const OPERATIONS: u64 = 3_000;

const ALL_AT_ONCE: RelayConfig = RelayConfig {
    max_held: 3_000,
    limits: Limits {
        count: 1_000,
        bytes: 1_000_000,
        linger: 0,
    },
    ..CONFIG
};

// Puts an operation whose source is its number.
fn puts_number(rt: &impl Abort, alloc: Global, desk: &mut Desk, number: u64)
    ensures { out_of desk.new.lane.state ≡ out_of desk.old.lane.state }
{
    let id = format!(in alloc; "{}", number % DOCUMENTS).expect(rt, "memory");
    let source = format!(in alloc; "{number}").expect(rt, "memory");
    assert!(rt; puts(alloc, desk, number, id.as_str(), source.as_str()));
}

// Puts each document, then each once more, and so on.
fn puts_all(rt: &impl Abort, alloc: Global, desk: &mut Desk)
    ensures { out_of desk.new.lane.state ≡ out_of desk.old.lane.state }
{
    for number in 0..OPERATIONS {
        puts_number(rt, alloc, desk, number);
    }
}

// Puts all of them, closes the lane, and drains it.
fn drains(rt: &impl Abort, alloc: Global, desk: &mut Desk, wire: &mut IndexWire)
    requires { option_to_list wire.old.flying ≡ out_of desk.old.lane.state }
{
    let mut pace = NO_PAUSES;
    puts_all(rt, alloc, desk);
    assert!(rt; closes(desk) && desk.lane.closed());
    drain(&mut desk.lane, wire, &mut pace).expect(rt, "memory");
}

// Each is applied, the first of each document in the first request, and so on: a request looks at
// each document once, and one more call finds nothing to look at.
#[test]
fn three_of_each(rt: HostRuntime) {
    let alloc = rt.alloc();
    let mut desk = desk_of(alloc, ALL_AT_ONCE).expect(&rt, "a lane");
    let mut wire = wire_of(alloc, Way::Runs);
    drains(&rt, alloc, &mut desk, &mut wire);
    let totals = desk.lane.totals();
    let wanted = Totals {
        taken: OPERATIONS,
        applied: OPERATIONS,
        already: 0,
        requests: 3,
    };
    assert!(rt; totals == wanted, "{totals:?}");
    assert!(rt; desk.lane.finished() && desk.lane.looks() == OPERATIONS);
    assert!(rt; count_applied(alloc, &wire.index) == Ok(OPERATIONS as usize));
}
