//! Ten thousand operations of a hundred documents over a wire that fails at random.
ghost use Rattle.relay_lane.specs.Out.{out_of};
ghost use Rattle.std.specs.Option.{option_to_list};
ghost use Rattle.std.specs.Prelude.{◌≡◌, ◌<◌};

use relay_batch::Limits;
use relay_fixtures::applied::{count_applied, stores};
use relay_fixtures::config::CONFIG;
use relay_fixtures::desk::{Desk, closes, desk_of, puts};
use relay_fixtures::index_wire::{IndexWire, Way, wire_of};
use relay_fixtures::keys::key_of;
use relay_fixtures::notes::NO_PAUSES;
use relay_index::Index;
use relay_lane::{RelayConfig, drain, make_room, pump};
use std::alloc::Global;
use std::mem;
use std::process::Abort;

const OPERATIONS: u64 = 10_000;

const MANY: RelayConfig = RelayConfig {
    max_held: 64,
    limits: Limits {
        count: 16,
        bytes: 1_024,
        linger: 3,
    },
    attempts: 32,
    ..CONFIG
};

// The document of an operation.
fn document_of(number: u64) -> u64
    ensures { result < 100 }
{
    (number.wrapping_mul(2_654_435_761) >> 7) % 100
}

// Puts an operation whose source is its number.
fn puts_number(rt: &impl Abort, alloc: Global, desk: &mut Desk, number: u64)
    ensures { out_of desk.new.lane.state ≡ out_of desk.old.lane.state }
{
    let id = format!(in alloc; "{}", document_of(number)).expect(rt, "memory");
    let source = format!(in alloc; "{number}").expect(rt, "memory");
    assert!(rt; puts(alloc, desk, number, id.as_str(), source.as_str()));
}

// Puts all of them, each after room was made for it if there was none, sends what is ready after
// each, and drains the lane.
fn played(rt: &impl Abort, alloc: Global, desk: &mut Desk, wire: &mut IndexWire)
    requires { option_to_list wire.old.flying ≡ out_of desk.old.lane.state }
{
    let mut pace = NO_PAUSES;
    for number in 1..OPERATIONS + 1 {
        if desk.lane.held() == desk.lane.max_held() {
            make_room(&mut desk.lane, wire, &mut pace).expect(rt, "memory");
        }
        puts_number(rt, alloc, desk, number);
        pump(&mut desk.lane, wire, &mut pace).expect(rt, "memory");
    }
    assert!(rt; closes(desk) && desk.lane.closed());
    drain(&mut desk.lane, wire, &mut pace).expect(rt, "memory");
}

// Whether an operation is the one that an index applied to its document at this place.
fn is_applied(rt: &impl Abort, alloc: Global, index: &Index, number: u64, place: usize) -> bool {
    let id = format!(in alloc; "{}", document_of(number)).expect(rt, "memory");
    let source = format!(in alloc; "{number}").expect(rt, "memory");
    let key = key_of(alloc, "b", id.as_str()).expect(rt, "a key");
    let write = index.applied(&key).get(place).expect(rt, "a write");
    let same = write.version == number && stores(write, source.as_str());
    mem::forget((id, source, key));
    same
}

// The index applied to each document its operations, in order, each once.
fn is_as_put(rt: &impl Abort, alloc: Global, index: &Index) -> bool {
    let mut places = [0usize; 100];
    for number in 1..OPERATIONS + 1 {
        let document = document_of(number);
        let place = places[document as usize];
        if !is_applied(rt, alloc, index, number, place) {
            return false;
        }
        places[document as usize] = place.saturating_add(1);
    }
    count_applied(alloc, index) == Ok(OPERATIONS as usize)
}

// All ended as applied, some by an earlier request, and none is reported.
#[test]
fn ten_thousand(rt: HostRuntime) {
    let alloc = rt.alloc();
    let mut desk = desk_of(alloc, MANY).expect(&rt, "a lane");
    let mut wire = wire_of(alloc, Way::Random);
    played(&rt, alloc, &mut desk, &mut wire);
    assert!(rt; desk.lane.finished() && desk.lane.reports().is_empty());
    assert!(rt; is_as_put(&rt, alloc, &wire.index));
    let totals = desk.lane.totals();
    assert!(rt;
        totals.taken == OPERATIONS
            && totals.already > 0
            && totals.applied.saturating_add(totals.already) == OPERATIONS,
        "{totals:?}"
    );
}
