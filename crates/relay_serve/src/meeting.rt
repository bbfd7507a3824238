//! What the workers took, met with what the lanes told them.
ghost use Rattle.std.specs.Prelude.{◌≡◌, IfOk, OnOk, map};
ghost use Rattle.relay_receipts.specs.Ends.{TakeEnd};
ghost use Rattle.relay_telling.specs.Destinations.{TellOn};
ghost use Rattle.relay_telling.specs.New.{channels_of};
ghost use Rattle.relay_serve.specs.Meeting.{IsMetBy, AllMet, LanesMet, AllWellTaken};

use crate::stopped::Stopped;
use relay_receipts::{ReceiptTake, TakenReceipts};
use relay_telling::{Ending, LaneTells, ProducerTell};
use std::alloc::{AllocError, Global};

// What the workers took, after the end.
fn end_all(
    alloc: Global,
    receipts: Vec<ReceiptTake<Ending>>,
) -> Result<Vec<TakenReceipts<Ending>>, AllocError>
    ensures same { IfOk result (λ v. v.items ≡ receipts.items) }
    ensures well_taken { IfOk result (λ v. AllWellTaken v.items) }
{
    let mut ended = Vec::new(alloc);
    'receipts: for take in receipts {
        ended.push(take.end())?;
    }
    Ok(ended)
}

// Meets what a worker took with what a lane told it, unless some of that was lost.
fn meet_one(
    taken: TakenReceipts<Ending>,
    end: ProducerTell,
) -> Result<TakenReceipts<Ending>, Stopped>
    requires channel { taken.channel ≡ end.tell.channel }
    ensures same { IfOk result (λ t. t ≡ taken) }
    ensures met { OnOk result (IsMetBy taken end) }
{
    let ProducerTell { tell, gone } = end;
    if gone {
        return Err(Stopped::Untold);
    }
    Ok(taken.meet(tell.end()))
}

// Meets what each worker took with what a lane told it.
fn meet_lane(
    alloc: Global,
    taken: Vec<TakenReceipts<Ending>>,
    tells: LaneTells,
) -> Result<Vec<TakenReceipts<Ending>>, Stopped>
    requires channels { map (λ (e : ProducerTell). e.tell.channel) tells.ends.items
        ≡ channels_of taken.items }
    ensures same { IfOk result (λ v. v.items ≡ taken.items) }
    ensures met { OnOk result (AllMet taken.items tells.ends.items) }
{
    let mut met = Vec::new(alloc);
    let mut ends = tells.ends.into_iter();
    'workers: for one in taken {
        let Some(end) = ends.next() else {
            unreachable!();
        };
        met.reserve(1)?;
        met.push_reserved(meet_one(one, end)?);
    }
    Ok(met)
}

/// Meets what each worker took with what each lane told it, and returns what was taken. `Untold`:
/// something that a lane told a worker was lost. `Memory`: allocation failed.
pub(crate) fn meet_all(
    alloc: Global,
    receipts: Vec<ReceiptTake<Ending>>,
    tells: Vec<LaneTells>,
) -> Result<Vec<TakenReceipts<Ending>>, Stopped>
    requires channels { TellOn (channels_of receipts.items) 0 tells.items }
    ensures same { IfOk result (λ v. v.items ≡ receipts.items) }
    ensures met { OnOk result (LanesMet receipts.items tells.items) }
    ensures well_taken { OnOk result (AllWellTaken receipts.items) }
{
    let mut taken = end_all(alloc, receipts)?;
    'lanes: for lane in tells {
        taken = meet_lane(alloc, taken, lane)?;
    }
    Ok(taken)
}
