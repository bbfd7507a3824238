//! A lane at work, with any one of its allocations refused (`make refusals`): the call is repeated,
//! and the work continues.
ghost use Rattle.relay_lane.specs.Out.{out_of};
ghost use Rattle.std.specs.Option.{option_to_list};
ghost use Rattle.std.specs.Prelude.{◌≡◌, [], IfSome};

use relay_fixtures::config::CONFIG;
use relay_fixtures::desk::{Desk, closes, desk_of, puts};
use relay_fixtures::index_wire::{IndexWire, Way, wire_of};
use relay_fixtures::keys::key_of;
use relay_fixtures::notes::NO_PAUSES;
use relay_index::Index;
use relay_lane::{Lane, RelayConfig, drain, drain_next, make_room, pump, send_ready, settle_next};
use std::alloc::{AllocError, Global};
use std::process::Abort;

/// Room for the first three operations only.
const SMALL: RelayConfig = RelayConfig {
    max_held: 3,
    ..CONFIG
};

/// Ids and sources that are too long to be stored in the value itself.
const IDS: [&str; 4] = [
    "the first document of more than thirty-eight bytes",
    "the second document of more than thirty-eight bytes",
    "the third document of more than thirty-eight bytes",
    "the fourth document of more than thirty-eight bytes",
];

// Puts the first three operations.
fn puts_three(alloc: Global, desk: &mut Desk) -> bool
    ensures { out_of desk.new.lane.state ≡ out_of desk.old.lane.state }
{
    puts(alloc, desk, 1, IDS[0], IDS[0])
        && puts(alloc, desk, 2, IDS[1], IDS[1])
        && puts(alloc, desk, 3, IDS[2], IDS[2])
}

// A desk whose lane holds the first three operations.
fn desk_once(alloc: Global) -> Option<Desk>
    ensures { IfSome result (λ d. out_of d.lane.state ≡ []) }
{
    let mut desk = desk_of(alloc, SMALL)?;
    if puts_three(alloc, &mut desk) {
        Some(desk)
    } else {
        None
    }
}

// The same, made again if an allocation is refused.
fn made_again(alloc: Global) -> Option<Desk>
    ensures { IfSome result (λ d. out_of d.lane.state ≡ []) }
{
    match desk_once(alloc) {
        Some(desk) => Some(desk),
        None => desk_once(alloc),
    }
}

// Sends what is ready, by a second call if the first was refused and left the lane as it was.
fn pumps(lane: &mut Lane, wire: &mut IndexWire) -> bool
    requires { option_to_list wire.old.flying ≡ out_of lane.old.state }
    ensures { option_to_list wire.new.flying ≡ out_of lane.new.state }
{
    let (held, totals) = (lane.held(), lane.totals());
    let mut pace = NO_PAUSES;
    match pump(lane, wire, &mut pace) {
        Ok(sent) => sent == 1,
        Err(AllocError) => {
            lane.held() == held && lane.totals() == totals && pump(lane, wire, &mut pace) == Ok(1)
        }
    }
}

// Sends the first request without waiting, by a second call if the first was refused and left the
// lane as it was.
fn sends(lane: &mut Lane, wire: &mut IndexWire) -> bool
    requires { option_to_list wire.old.flying ≡ out_of lane.old.state }
    ensures { option_to_list wire.new.flying ≡ out_of lane.new.state }
{
    let (held, totals) = (lane.held(), lane.totals());
    let mut pace = NO_PAUSES;
    match send_ready(lane, wire, &mut pace) {
        Ok(sent) => sent == 1,
        Err(AllocError) => {
            lane.held() == held
                && lane.totals() == totals
                && send_ready(lane, wire, &mut pace) == Ok(1)
        }
    }
}

// Settles the request in flight. There may be none, since an allocation of the wire may have been
// refused.
fn settles_one(lane: &mut Lane, wire: &mut IndexWire) -> bool
    requires { option_to_list wire.old.flying ≡ out_of lane.old.state }
    ensures { option_to_list wire.new.flying ≡ out_of lane.new.state }
{
    let flies = lane.flying() == 1;
    let mut pace = NO_PAUSES;
    settle_next(lane, wire, &mut pace) == flies
}

// Settles nothing, since nothing is in flight.
fn settles_none(lane: &mut Lane, wire: &mut IndexWire) -> bool
    requires { option_to_list wire.old.flying ≡ out_of lane.old.state }
    ensures { option_to_list wire.new.flying ≡ out_of lane.new.state }
{
    let mut pace = NO_PAUSES;
    !settle_next(lane, wire, &mut pace)
}

// Settles the first request, by a pump or by a request and its answer.
fn settles_first(lane: &mut Lane, wire: &mut IndexWire, by_pump: bool) -> bool
    requires { option_to_list wire.old.flying ≡ out_of lane.old.state }
    ensures { option_to_list wire.new.flying ≡ out_of lane.new.state }
{
    if by_pump {
        pumps(lane, wire)
    } else {
        sends(lane, wire) && settles_one(lane, wire) && settles_none(lane, wire)
    }
}

// Makes room for an operation, by a second call if the first was refused.
fn makes_room(lane: &mut Lane, wire: &mut IndexWire) -> bool
    requires { option_to_list wire.old.flying ≡ out_of lane.old.state }
    ensures { option_to_list wire.new.flying ≡ out_of lane.new.state }
{
    let mut pace = NO_PAUSES;
    match make_room(lane, wire, &mut pace) {
        Ok(()) => lane.held() < 3,
        Err(AllocError) => lane.held() == 3 && make_room(lane, wire, &mut pace).is_ok(),
    }
}

// One turn of a closed lane that holds something, by a second call if the first was refused and left
// the lane as it was.
fn turns(lane: &mut Lane, wire: &mut IndexWire) -> bool
    requires { option_to_list wire.old.flying ≡ out_of lane.old.state }
    ensures { option_to_list wire.new.flying ≡ out_of lane.new.state }
{
    let (held, totals) = (lane.held(), lane.totals());
    let mut pace = NO_PAUSES;
    if !lane.closed() {
        return false;
    }
    match drain_next(lane, wire, &mut pace) {
        Ok(some) => some,
        Err(AllocError) => {
            lane.held() == held
                && lane.totals() == totals
                && lane.closed()
                && drain_next(lane, wire, &mut pace) == Ok(true)
        }
    }
}

// Drains a closed lane, by a second call if the first was refused.
fn drains(lane: &mut Lane, wire: &mut IndexWire) -> bool
    requires { option_to_list wire.old.flying ≡ out_of lane.old.state }
    ensures { option_to_list wire.new.flying ≡ out_of lane.new.state }
{
    let mut pace = NO_PAUSES;
    if !lane.closed() {
        return false;
    }
    match drain(lane, wire, &mut pace) {
        Ok(()) => true,
        Err(AllocError) => {
            lane.held() > 0 && lane.closed() && drain(lane, wire, &mut pace).is_ok()
        }
    }
}

// Whether the index applied one write to a document.
fn has_one(alloc: Global, index: &Index, id: &str) -> bool {
    match key_of(alloc, "b", id) {
        Some(key) => index.applied(&key).len() == 1,
        None => false,
    }
}

// Whether it applied one to each document.
fn is_whole(alloc: Global, index: &Index) -> bool {
    for id in IDS {
        if !has_one(alloc, index, id) {
            return false;
        }
    }
    true
}

// Puts the fourth operation, by a second call if the first was refused.
fn puts_fourth(alloc: Global, desk: &mut Desk) -> bool
    ensures { out_of desk.new.lane.state ≡ out_of desk.old.lane.state }
{
    puts(alloc, desk, 4, IDS[3], IDS[3]) || puts(alloc, desk, 4, IDS[3], IDS[3])
}

// Whether four operations ended as applied, and none is held or reported.
fn applied_four(lane: &Lane) -> bool {
    let totals = lane.totals();
    totals.applied.saturating_add(totals.already) == 4
        && lane.held() == 0
        && lane.reports().is_empty()
}

// Whether a lane settles four operations as applied, the first three by a pump or by a request and
// its answer.
fn works(alloc: Global, desk: &mut Desk, wire: &mut IndexWire, by_pump: bool) -> bool
    requires { option_to_list wire.old.flying ≡ out_of desk.old.lane.state }
{
    settles_first(&mut desk.lane, wire, by_pump)
        && makes_room(&mut desk.lane, wire)
        && puts_fourth(alloc, desk)
        && closes(desk)
        && turns(&mut desk.lane, wire)
        && drains(&mut desk.lane, wire)
        && applied_four(&desk.lane)
}

// A lane of its own settles them, and each is in the index.
fn applies_four(rt: &impl Abort, alloc: Global, by_pump: bool) {
    let mut desk = made_again(alloc).expect(rt, "three operations");
    let mut wire = wire_of(alloc, Way::Runs);
    assert!(rt; works(alloc, &mut desk, &mut wire, by_pump));
    assert!(rt; is_whole(alloc, &wire.index));
}

#[test]
fn refused_turns(rt: HostRuntime) {
    for by_pump in [true, false] {
        applies_four(&rt, rt.alloc(), by_pump);
    }
}
