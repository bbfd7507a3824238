//! One request over a wire.
ghost use Rattle.std.specs.Prelude.{◌≡◌, true};
ghost use Rattle.relay_core.specs.State.{is_flying, after_answer_to};
ghost use Rattle.relay_lane.specs.Wires.{answer_of, IsWireReply};

use crate::wire::WireReply;
use relay_core::Lane;
use relay_results::Loss;

/// Settles a request in flight by its answer, and returns whether operations of it wait to be sent
/// again.
pub(crate) fn settle(lane: &mut Lane, number: u64, answer: Result<WireReply, Loss>) -> bool
    requires flies { is_flying number lane.old.state ≡ true }
    requires reply { IsWireReply answer }
    ensures { lane.new.state ≡ after_answer_to lane.old.state number (answer_of answer) }
{
    let settled = match answer {
        Ok(WireReply::Items(outcomes)) => lane.reply(number, outcomes),
        Ok(WireReply::Whole(status, reason)) => lane.whole(number, status, reason),
        Err(why) => lane.lost(number, why),
    };
    match settled {
        Ok(settled) => settled.retried > 0,
        Err(_) => false,
    }
}
