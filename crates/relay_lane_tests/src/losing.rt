//! A wire that loses every request, and describes the outside: that it was sent, and lost.
ghost use Rattle.relay_lane.specs.Out.{out_of};
ghost use Rattle.std.specs.Option.{option_to_list};
ghost use Rattle.std.specs.Prelude.{◌≡◌, true};
ghost use Rattle.relay_core.specs.State.{all_closed};
ghost use Rattle.relay_lane_tests.specs.Shown.{SettlesLosses};

use relay_action::Write;
use relay_fixtures::config::CONFIG;
use relay_fixtures::desk::{closes, desk_of, puts};
use relay_fixtures::notes::NO_PAUSES;
use relay_lane::{Cause, Lane, Loss, Wire, WireReply, drain};

#[derive(Drop)]
struct Losing {
    flying: Option<u64>,
}

impl Wire for Losing {
    ghost use Rattle.std.specs.Prelude.{true};
    ghost use Rattle.std.specs.Option.{option_to_list};
    ghost use Rattle.relay_lane_tests.specs.Shown.{IsOut, LosesEach};

    ghost out = { λ w. option_to_list w.flying };

    ghost describes = { λ w. true };

    ghost fits = { λ w o. IsOut w.flying o };

    ghost carries = { λ v x w. LosesEach v.flying x w.flying };

    fn send(&mut self, number: u64, _writes: &[Write]) -> Result<(), Loss> {
        if self.flying.is_some() {
            return Err(Loss::Unreachable);
        }
        self.flying = Some(number);
        Ok(())
    }

    fn receive(&mut self, _number: u64) -> Result<WireReply, Loss> {
        self.flying = None;
        Err(Loss::Closed)
    }
}

// Drains a closed lane, and returns whether no allocation failed. The lane settles nothing that the
// wire did not return.
fn empties(lane: &mut Lane, wire: &mut Losing) -> bool
    requires closed { all_closed lane.old.state ≡ true }
    requires out { option_to_list wire.old.flying ≡ out_of lane.old.state }
    ensures { SettlesLosses lane.old.state lane.new.state }
{
    let mut pace = NO_PAUSES;
    drain(lane, wire, &mut pace).is_ok()
}

// Whether each report says that an operation was given up after three sends.
fn gave_up(lane: &Lane) -> bool {
    for report in lane.reports() {
        if !matches!(&report.cause, Cause::GaveUp { sends: 3, .. }) {
            return false;
        }
    }
    true
}

// It loses each request, so each operation is reported.
#[test]
fn loses(rt: HostRuntime) {
    let mut desk = desk_of(rt.alloc(), CONFIG).expect(&rt, "a lane");
    let mut wire = Losing { flying: None };
    assert!(rt; puts(rt.alloc(), &mut desk, 1, "1", "{}") && closes(&mut desk));
    assert!(rt; desk.lane.closed() && empties(&mut desk.lane, &mut wire));
    assert!(rt; desk.lane.finished() && desk.lane.totals().requests == 3 && gave_up(&desk.lane));
}
