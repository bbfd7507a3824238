//! Wires, and a lane that is drained over one, with any one of their allocations refused (`make
//! refusals`). A refusal inside a wire is a lost request.
ghost use Rattle.std.specs.Prelude.{◌≡◌, [], IfSome};
ghost use Rattle.relay_lane.specs.Out.{out_of};
ghost use Rattle.relay_wires.specs.Numbers.{numbers};

use crate::wires::desk::CONFIG;
use crate::wires::streams::{Wired, wired};
use relay_fixtures::asking::{Told, asks, told_by};
use relay_fixtures::desk::{Desk, closes, filled};
use relay_fixtures::keys::key_of;
use relay_fixtures::notes::NO_PAUSES;
use relay_http::HttpReply;
use relay_index::{Index, Script};
use relay_lane::{Loss, Wire, drain};
use relay_loop::{LoopEnd, LoopWire, wire_to};
use relay_wires::told::tell;
use std::alloc::{AllocError, Global};
use std::mem;

// A wire to an empty index that loses the reply to one number; 0: none.
fn loop_once(alloc: Global, lost: u64) -> Option<LoopWire>
    ensures { IfSome result (λ w. w.out ≡ []) }
{
    let mut end = LoopEnd::new(alloc, Index::new(alloc), Script::new(alloc));
    if end.lose(lost).is_err() && end.lose(lost).is_err() {
        mem::forget(end);
        return None;
    }
    wire_to(alloc, end, 16).ok()
}

fn loop_wire(alloc: Global, lost: u64) -> Option<LoopWire>
    ensures { IfSome result (λ w. w.out ≡ []) }
{
    match loop_once(alloc, lost) {
        Some(wire) => Some(wire),
        None => loop_once(alloc, lost),
    }
}

const ID: &str = "a document with a \"quote\", of more than thirty-eight bytes";

// Whether a delete is answered, by a second request if an allocation for the first failed.
fn is_told<W: Wire>(alloc: Global, wire: &mut W) -> bool
    requires { W.out wire.old ≡ [] }
    ensures { W.out wire.new ≡ [] }
{
    match asks(alloc, wire, 1, ID, 2) {
        Told::Entries(entries, _) => entries == 1,
        Told::NotAsked | Told::Fault(Loss::Memory | Loss::Unreachable | Loss::Closed) => {
            matches!(asks(alloc, wire, 2, ID, 2), Told::Entries(1, _))
        }
        _ => false,
    }
}

// How many writes the index applied to a document.
fn count_of(alloc: Global, index: &Index, name: &str, id: &str) -> Option<usize> {
    let key = key_of(alloc, name, id)?;
    let count = index.applied(&key).len();
    mem::forget(key);
    Some(count)
}

// The same in memory, where the index applies the delete once.
fn is_told_in_memory(alloc: Global) -> Option<bool> {
    let mut wire = loop_wire(alloc, 7)?;
    let told = is_told(alloc, &mut wire);
    let applied = count_of(alloc, wire.peer().index(), "books", ID);
    mem::forget(wire);
    Some(told && applied == Some(1))
}

#[test]
fn refused_request_in_memory(rt: HostRuntime) {
    assert!(rt; is_told_in_memory(rt.alloc()) == Some(true));
}

const REPLY: &[u8] =
    b"HTTP/1.1 200 OK\r\nContent-Type: application/json\r\nContent-Length: 147\r\n\r\n{\"errors\":false,\"items\":[{\"delete\":{\"_id\":\"a document with a \\\"quote\\\", of more than thirty-eight bytes\",\"_index\":\"books\",\"status\":404}}],\"took\":0}";

const REPLIES: &[&[u8]] = &[REPLY, REPLY];

fn http_wire(alloc: Global) -> Option<Wired<'static>>
    ensures { IfSome result (λ w. w.out ≡ []) }
{
    match wired(alloc, REPLIES, 1_000, 0, 1) {
        Some(wire) => Some(wire),
        None => wired(alloc, REPLIES, 1_000, 0, 1),
    }
}

fn is_told_over_http(alloc: Global) -> Option<bool> {
    let mut wire = http_wire(alloc)?;
    let told = is_told(alloc, &mut wire);
    mem::forget(wire);
    Some(told)
}

#[test]
fn refused_request_over_http(rt: HostRuntime) {
    assert!(rt; is_told_over_http(rt.alloc()) == Some(true));
}

const BODY: &[u8] =
    b"{\"items\":[{\"delete\":{\"_id\":\"a document of more than thirty-eight bytes\",\"status\":404}}]}";

// Whether a reply with one entry is read as that, by a second call if the first was refused.
fn tells_one_entry(alloc: Global) -> Option<bool> {
    let body = BODY.to_vec(alloc).or_else(|_| BODY.to_vec(alloc)).ok()?;
    let reply = HttpReply {
        status: 200,
        body,
        keep: true,
    };
    let wanted = Told::Entries(1, 404);
    match told_by(tell(alloc, &reply)) {
        Told::Fault(Loss::Memory) => Some(told_by(tell(alloc, &reply)) == wanted),
        told => Some(told == wanted),
    }
}

#[test]
fn refused_reply(rt: HostRuntime) {
    assert!(rt; tells_one_entry(rt.alloc()) == Some(true));
}

const SIX: [&str; 6] = ["1", "2", "1", "3", "2", "1"];

// A closed lane that holds six deletes.
fn desk_once(alloc: Global) -> Option<Desk>
    ensures { IfSome result (λ d. out_of d.lane.state ≡ []) }
{
    let mut desk = filled(alloc, CONFIG, &SIX, "")?;
    if closes(&mut desk) { Some(desk) } else { None }
}

fn desk_of(alloc: Global) -> Option<Desk>
    ensures { IfSome result (λ d. out_of d.lane.state ≡ []) }
{
    match desk_once(alloc) {
        Some(desk) => Some(desk),
        None => desk_once(alloc),
    }
}

// Drains a closed lane, by a second call if the first was refused.
fn drains(desk: &mut Desk, wire: &mut LoopWire) -> bool
    requires { numbers wire.old.out ≡ out_of desk.old.lane.state }
{
    let mut pace = NO_PAUSES;
    if !desk.lane.closed() {
        return false;
    }
    match drain(&mut desk.lane, wire, &mut pace) {
        Ok(()) => desk.lane.held() == 0,
        Err(AllocError) => {
            desk.lane.held() > 0
                && desk.lane.closed()
                && drain(&mut desk.lane, wire, &mut pace).is_ok()
                && desk.lane.held() == 0
        }
    }
}

// How many writes the index applied to three documents.
fn count(alloc: Global, index: &Index) -> Option<usize> {
    let mut count = 0usize;
    for id in ["1", "2", "3"] {
        count = count.saturating_add(count_of(alloc, index, "b", id)?);
    }
    Some(count)
}

// Whether each of the six is applied once, or reported.
fn delivers(alloc: Global) -> Option<bool> {
    let mut desk = desk_of(alloc)?;
    let mut wire = loop_wire(alloc, 2)?;
    let drained = drains(&mut desk, &mut wire);
    let totals = desk.lane.totals();
    let settled = totals.applied.saturating_add(totals.already);
    let reports = desk.lane.reports().len() as u64;
    let applied = count(alloc, wire.peer().index());
    mem::forget(wire);
    let applied = applied? as u64;
    Some(drained && settled.saturating_add(reports) == 6 && settled <= applied && applied <= 6)
}

#[test]
fn refused_drain(rt: HostRuntime) {
    assert!(rt; delivers(rt.alloc()) == Some(true));
}
