//! The passing of time.
ghost use Rattle.std.specs.Prelude.{◌≡◌, ℕ, Option};
ghost use Rattle.relay_lane.specs.Turns.{Passed, Paused, Ticked};

use relay_core::Lane;

/// How a lane's ticks pass. A lane is told of them by its pace: those that it pauses for while it
/// has nothing to send, and those that passed while it waited for its wire or for messages.
pub trait Pace {
    /// How many ticks it has let pass in all, if it shows that; the number saturates at 2^64 - 1.
    ghost paused: { Self → Option ℕ };

    /// Returns when this many ticks have passed.
    fn pause(&mut self, ticks: u64)
        ensures { Paused ticks (paused self.old) (paused self.new) };

    /// Returns how many ticks have passed that it neither paused for nor returned here before. It
    /// does not wait. A pace that keeps no time returns 0.
    fn passed(&mut self) -> u64
        ensures { Paused result (paused self.old) (paused self.new) };

    /// Whether it keeps time: then `passed` counts every tick, and a message that says that one has
    /// passed only wakes the lane.
    fn keeps_time(&self) -> bool {
        false
    }

    /// Operations were refused, and their pauses begin now. So that the first tick of a pause is
    /// not cut to what is left of the running one, the running one may begin anew.
    fn begin(&mut self)
        ensures { paused self.new ≡ paused self.old };

    /// Lets a short time pass, about a millisecond, while the lane waits for whatever comes first.
    fn rest(&mut self)
        ensures { paused self.new ≡ paused self.old };
}

/// Ticks a lane as often as ticks have passed, by its pace, that it was not told of.
pub fn pass<P: Pace>(lane: &mut Lane, pace: &mut P)
    ensures ticked { Ticked lane.old.state lane.new.state }
    ensures passed { Passed lane.old.state.core.clock lane.new.state.core.clock
        (P.paused pace.old) (P.paused pace.new) }
{
    let _ = lane.totals();
    let ticks = pace.passed();
    for _tick in 0..ticks {
        lane.tick();
    }
}
