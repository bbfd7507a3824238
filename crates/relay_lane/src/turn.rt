//! One turn of a lane at work: a request is sent, the oldest one is answered, or the lane pauses.
ghost use Rattle.std.specs.Prelude.{◌≡◌, ◌<◌, [], true, is_some, length, IfOk, OnErr, IfSome};
ghost use Rattle.relay_core.specs.State.{next_batch, due_in, is_flying, after_answer_to, IsLane};
ghost use Rattle.relay_lane.specs.Out.{out_of};
ghost use Rattle.relay_lane.specs.Turns.{after_ticks, Passed, Paused};
ghost use Rattle.relay_lane.specs.Steps.{Asked, Settled, IsDueLater};
ghost use Rattle.relay_lane.specs.Delivers.{Delivers};
ghost use Rattle.relay_lane.specs.Wires.{answer_of, IsWireReply};

use crate::exchange::settle;
use crate::pace::{Pace, pass};
use crate::wire::{Wire, WireReply};
use relay_core::Lane;
use relay_results::Loss;
use std::alloc::AllocError;

/// Sends the lane's next request, settles it as lost if it could not be sent, and returns whether
/// there was one. The ticks that passed meanwhile are counted before it is settled.
pub(crate) fn send_next<W: Wire, P: Pace>(
    lane: &mut Lane,
    wire: &mut W,
    pace: &mut P,
) -> Result<bool, AllocError>
    requires out { W.out wire.old ≡ out_of lane.old.state }
    ensures lane { IsLane lane.old.state }
    ensures some { IfOk result (λ sent. sent ≡ is_some (next_batch lane.old.state)) }
    ensures turn { IfOk result (λ sent. Asked (W.describes wire.old) W.fits W.carries wire.old wire.new sent
        lane.old.state lane.new.state) }
    ensures unchanged { OnErr result (lane.new.state ≡ lane.old.state) }
    ensures held { OnErr result (0 < length lane.old.state.core.held) }
    ensures passed { Passed lane.old.state.core.clock lane.new.state.core.clock
        (P.paused pace.old) (P.paused pace.new) }
    ensures out { W.out wire.new ≡ out_of lane.new.state }
    ensures describes { W.describes wire.new ≡ W.describes wire.old }
    ensures delivers { OnErr result (Delivers (W.describes wire.old) W.fits W.carries wire.old wire.new
        lane.old.state lane.new.state []) }
{
    let _ = lane.totals();
    let Some(number) = lane.request()? else {
        return Ok(false);
    };
    let sent = match lane.writes(number) {
        Some(writes) => wire.send(number, writes),
        None => unreachable!(),
    };
    pass(lane, pace);
    match sent {
        Ok(()) => Ok(true),
        Err(fault) => {
            settle_now(lane, pace, number, Err(fault));
            Ok(true)
        }
    }
}

/// Waits for the answer to the oldest request in flight, and settles it. The ticks that passed
/// meanwhile are counted before it is settled.
pub(crate) fn settle_oldest<W: Wire, P: Pace>(lane: &mut Lane, wire: &mut W, pace: &mut P)
    requires some { 0 < length lane.old.state.core.flying }
    requires out { W.out wire.old ≡ out_of lane.old.state }
    ensures turn { Settled (W.describes wire.old) W.fits W.carries wire.old wire.new lane.old.state
        lane.new.state }
    ensures passed { Passed lane.old.state.core.clock lane.new.state.core.clock
        (P.paused pace.old) (P.paused pace.new) }
    ensures out { W.out wire.new ≡ out_of lane.new.state }
    ensures describes { W.describes wire.new ≡ W.describes wire.old }
{
    let _ = lane.totals();
    if let Some(number) = lane.oldest() {
        let answer = wire.receive(number);
        pass(lane, pace);
        let _ = lane.totals();
        settle_now(lane, pace, number, answer);
    }
}

// Settles a request in flight by its answer. The pauses of those that are to be sent again begin
// now.
fn settle_now<P: Pace>(lane: &mut Lane, pace: &mut P, number: u64, answer: Result<WireReply, Loss>)
    requires flies { is_flying number lane.old.state ≡ true }
    requires reply { IsWireReply answer }
    ensures state { lane.new.state ≡ after_answer_to lane.old.state number (answer_of answer) }
    ensures paused { P.paused pace.new ≡ P.paused pace.old }
{
    if settle(lane, number, answer) {
        pace.begin();
    }
}

/// Pauses until the first operation that may be sent is due, and ticks the clock accordingly.
pub(crate) fn wait<P: Pace>(lane: &mut Lane, pace: &mut P)
    requires { IsDueLater lane.old.state }
    ensures lane { IfSome (due_in lane.old.state)
        (λ n. lane.new.state ≡ after_ticks n lane.old.state) }
    ensures paused { IfSome (due_in lane.old.state)
        (λ n. Paused n (P.paused pace.old) (P.paused pace.new)) }
{
    if let Some(ticks) = lane.due_in() {
        pace.pause(ticks);
        for _tick in 0..ticks {
            lane.tick();
        }
    }
}
