//! A wire to an index that describes the outside: the index runs each request once, and some of the
//! replies are lost.
ghost use Rattle.relay_lane.specs.Out.{out_of};
ghost use Rattle.std.specs.Prelude.{◌≡◌, None};

use relay_action::Write;
use relay_fixtures::applied::count_applied;
use relay_fixtures::config::CONFIG;
use relay_fixtures::desk::{Desk, closes, desk_of, puts};
use relay_fixtures::notes::NO_PAUSES;
use relay_fixtures::runs::run_all;
use relay_index::Index;
use relay_lane::{Loss, Wire, WireReply, drain};
use relay_results::Outcome;
use std::alloc::Global;
use std::mem;

#[derive(Drop)]
struct Telling {
    alloc: Global,
    index: Index,
    flying: Option<u64>,
    reply: Vec<Outcome>,
    sends: u64,
}

impl Wire for Telling {
    ghost use Rattle.std.specs.Prelude.{true};
    ghost use Rattle.std.specs.Option.{option_to_list};
    ghost use Rattle.relay_index.specs.Runs.{Shows};
    ghost use Rattle.relay_lane_tests.specs.Telling.{IsOutWith};

    ghost out = { λ w. option_to_list w.flying };

    ghost describes = { λ w. true };

    ghost fits = { λ w o. Shows o w.index × IsOutWith w.flying w.reply.items o };

    // It says nothing of what passes beyond what it describes.
    ghost carries = { λ v x w. Unit {0} };

    fn send(&mut self, number: u64, writes: &[Write]) -> Result<(), Loss> {
        if self.flying.is_some() {
            return Err(Loss::Unreachable);
        }
        self.sends = self.sends.saturating_add(1);
        match run_all(self.alloc, &mut self.index, writes) {
            Ok(entries) => {
                self.reply = entries;
                self.flying = Some(number);
                Ok(())
            }
            Err(_) => Err(Loss::Memory),
        }
    }

    fn receive(&mut self, _number: u64) -> Result<WireReply, Loss> {
        self.flying = None;
        let entries = mem::replace(&mut self.reply, Vec::new(self.alloc));
        if self.sends % 2 == 0 {
            return Err(Loss::Closed);
        }
        Ok(WireReply::Items(entries))
    }
}

// A wire with an empty index.
fn empty(alloc: Global) -> Telling
    ensures { result.flying ≡ None }
{
    Telling {
        alloc,
        index: Index::new(alloc),
        flying: None,
        reply: Vec::new(alloc),
        sends: 0,
    }
}

// Puts three operations of one document, closes, and returns whether the lane is closed.
fn closes_with_three(alloc: Global, desk: &mut Desk) -> bool
    ensures { out_of desk.new.lane.state ≡ out_of desk.old.lane.state }
{
    for number in 1..4u64 {
        if !puts(alloc, desk, number, "1", "{}") {
            return false;
        }
    }
    closes(desk)
}

// Three operations of one document are sent by five requests, since every other reply is lost, and
// everything is applied once.
#[test]
fn tells(rt: HostRuntime) {
    let alloc = rt.alloc();
    let mut desk = desk_of(alloc, CONFIG).expect(&rt, "a lane");
    let mut wire = empty(alloc);
    let mut pace = NO_PAUSES;
    assert!(rt; closes_with_three(alloc, &mut desk) && desk.lane.closed());
    drain(&mut desk.lane, &mut wire, &mut pace).expect(&rt, "memory");
    assert!(rt; desk.lane.finished() && desk.lane.totals().requests == 5);
    assert!(rt; count_applied(alloc, &wire.index) == Ok(3));
    mem::forget(wire);
}
