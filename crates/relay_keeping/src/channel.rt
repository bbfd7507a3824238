//! A channel by which the threads of a run tell the keeper of its marks.
ghost use Rattle.std.specs.Prelude.{◌≡◌, ◌+◌, ◌<◌, ◌^◌, ℕ, IfOk, length, vec_len};
ghost use Rattle.relay_receipts.specs.Ends.{Channel};
ghost use Rattle.relay_keeping.specs.declared.told.Told.{Told as ToldOf};
ghost use Rattle.relay_keeping.specs.Keepers.{new_keeper};
ghost use Rattle.relay_keeping.specs.Seats.{tells_from};
ghost use Rattle.relay_keeping.specs.Tellers.{AreNewInputs, AreNewLanes};

use crate::keeper::MarkKeeper;
use crate::tellers::{InputTelling, LaneTelling};
use crate::told::Told;
use relay_receipts::{LaneTell, receipts};
use relay_resume::Mark;
use std::alloc::{AllocError, Global};

/// The ends of a channel by which the threads of a run tell the keeper of its marks.
#[derive(Drop)]
pub struct MarkEnds {
    /// The keeper's.
    pub keeper: MarkKeeper,
    /// Those of the producers, by producer.
    pub inputs: Vec<InputTelling>,
    /// Those of the lanes, by lane.
    pub lanes: Vec<LaneTelling>,
}

/// A channel with this many places, at least one, and its ends: the keeper's, one for each producer,
/// whose input is read from the mark at its position on, and one for each lane. `AllocError`:
/// allocation failed.
pub fn keep_marks(
    alloc: Global,
    starts: &[Mark],
    lanes: u32,
    places: u32,
) -> Result<MarkEnds, AllocError>
    requires places { 0 < places }
    requires tellers { length starts.now + lanes < 2 ^ 32 }
    ensures keeper { IfOk result
        (λ r. r.keeper ≡ new_keeper r.keeper.channel (length starts.now + lanes) starts.now) }
    ensures inputs { IfOk result
        (λ r. AreNewInputs r.keeper.channel 0 starts.now r.inputs.items) }
    ensures lanes { IfOk result
        (λ r. AreNewLanes r.keeper.channel (length starts.now) r.lanes.items) }
    ensures count { IfOk result (λ r. vec_len r.lanes ≡ lanes) }
{
    let producers = starts.len();
    let (take, ends) = receipts(alloc, places, producers as u32 + lanes)?;
    let keeper = MarkKeeper::new(alloc, take, starts)?;
    let mut ends = ends;
    let others = ends.split_off(producers)?;
    Ok(MarkEnds {
        keeper,
        inputs: new_inputs(alloc, starts, ends)?,
        lanes: new_lanes(alloc, others)?,
    })
}

// What the producers tell by, given their ends.
fn new_inputs(
    alloc: Global,
    starts: &[Mark],
    ends: Vec<LaneTell<Told>>,
) -> Result<Vec<InputTelling>, AllocError>
    requires count { vec_len ends ≡ length starts.now }
    requires fresh { (channel : Channel ToldOf)
        × (ends.items ≡ tells_from channel 0 (vec_len ends)) }
    ensures { IfOk result (λ v. (channel : Channel ToldOf)
        → ends.items ≡ tells_from channel 0 (vec_len ends)
        → AreNewInputs channel 0 starts.now v.items) }
{
    let mut inputs = Vec::new(alloc);
    'ends: for end in ends {
        let start = starts[inputs.len()];
        inputs.push(InputTelling::new(alloc, end, start))?;
    }
    Ok(inputs)
}

// What the lanes tell by, given their ends.
fn new_lanes(alloc: Global, ends: Vec<LaneTell<Told>>) -> Result<Vec<LaneTelling>, AllocError>
    requires { (channel : Channel ToldOf) × (teller : ℕ)
        × (ends.items ≡ tells_from channel teller (vec_len ends)) }
    ensures count { IfOk result (λ v. vec_len v ≡ vec_len ends) }
    ensures new { IfOk result (λ v. (channel : Channel ToldOf) (teller : ℕ)
        → ends.items ≡ tells_from channel teller (vec_len ends)
        → AreNewLanes channel teller v.items) }
{
    let mut lanes = Vec::new(alloc);
    'ends: for end in ends {
        lanes.push(LaneTelling::new(alloc, end))?;
    }
    Ok(lanes)
}
