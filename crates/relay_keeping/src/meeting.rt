//! What was taken, met with what the ends told.
ghost use Rattle.std.specs.Prelude.{◌≡◌, ℕ, Some};
ghost use Rattle.relay_keeping.specs.Meeting.{AllMet, AreSeated, IsMet, input_ends, lane_ends};
ghost use Rattle.relay_keeping.specs.Met.{AllPutOnly, AllTellOnly};
ghost use Rattle.relay_keeping.specs.Tellers.{seat};

use crate::tellers::{InputTelling, LaneTelling};
use crate::told::Told;
use relay_receipts::{LaneTell, TakenReceipts};

// Meets what was taken with what one end told.
fn meet_one(taken: TakenReceipts<Told>, end: Option<LaneTell<Told>>) -> TakenReceipts<Told>
    requires { (teller : ℕ) × (seat end ≡ Some (taken.channel, teller)) }
    ensures same { result ≡ taken }
    ensures met { IsMet taken.taken end }
{
    let Some(end) = end else {
        unreachable!();
    };
    taken.meet(end.end())
}

/// Meets what was taken with what each producer's thread told.
pub(crate) fn meet_inputs(
    taken: TakenReceipts<Told>,
    inputs: Vec<InputTelling>,
) -> TakenReceipts<Told>
    requires { (teller : ℕ) × AreSeated taken.channel teller (input_ends inputs.items) }
    ensures same { result ≡ taken }
    ensures met { AllMet taken.taken (input_ends inputs.items) }
    ensures only { AllPutOnly inputs.items }
{
    let mut met = taken;
    'inputs: for input in inputs {
        met = meet_one(met, input.end());
    }
    met
}

/// Meets what was taken with what each lane told.
pub(crate) fn meet_lanes(taken: TakenReceipts<Told>, lanes: Vec<LaneTelling>) -> TakenReceipts<Told>
    requires { (teller : ℕ) × AreSeated taken.channel teller (lane_ends lanes.items) }
    ensures same { result ≡ taken }
    ensures met { AllMet taken.taken (lane_ends lanes.items) }
    ensures only { AllTellOnly lanes.items }
{
    let mut met = taken;
    'lanes: for lane in lanes {
        met = meet_one(met, lane.end());
    }
    met
}
