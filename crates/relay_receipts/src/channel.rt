//! A channel of receipts and its ends.
ghost use Rattle.std.specs.Prelude.{◌≡◌, ◌+◌, ◌<◌, [], IfOk, OnOk, vec_len};
ghost use Rattle.crossbeam_channel.specs.Claims.{view, IsSeatAt};
ghost use Rattle.crossbeam_channel.specs.Ends.{sends_on};
ghost use Rattle.relay_receipts.specs.declared.rule.Knowledge.TheVariants.{Taker};
ghost use Rattle.relay_receipts.specs.Ends.{channel_of, fresh, fresh_tells};

use crate::bell::Bell;
use crate::notice::Notice;
use crate::rule::{Knowledge, NoticePass, NoticeSender, Splits, Telling};
use crate::take::ReceiptTake;
use crate::tell::LaneTell;
use crossbeam_channel::bounded_with;
use std::alloc::{AllocError, Global};

/// A channel of receipts with `places` places, at least one, and its ends: the producer's, and one
/// for each lane, numbered from 0. A producer that has at most `window` operations open is never
/// waited for if there are `window + lanes` places: one for each operation, and one for the last
/// notice of each lane. `AllocError`: allocating the places or the ends failed. No later call of an
/// end allocates.
pub fn receipts<T: Drop>(
    alloc: Global,
    places: u32,
    lanes: u32,
) -> Result<(ReceiptTake<T>, Vec<LaneTell<T>>), AllocError>
    requires places { 0 < places }
    ensures take { IfOk result (λ r. (r.0.lanes ≡ lanes) × (r.0.taken ≡ [])) }
    ensures tells { IfOk result (λ r. r.1.items ≡ fresh_tells r.0.channel lanes) }
    ensures len { IfOk result (λ r. vec_len r.1 ≡ lanes) }
{
    let (sends, takes, mut pass) = bounded_with::<Notice<T>, Knowledge<T>, Telling, Global>(
        alloc,
        places as usize,
    )?;
    let bell = Bell::new(alloc)?;
    let mut tells = Vec::new(alloc);
    for lane in 0..lanes {
        tells.push(add_lane(&sends, &bell, &mut pass, lane)?)?;
    }
    let take = ReceiptTake {
        channel: takes,
        pass,
        bell,
    };
    Ok((take, tells))
}

// Makes the end of one more lane, with a pass that is split off the producer's.
fn add_lane<T: Drop>(
    sends: &NoticeSender<T>,
    bell: &Bell,
    pass: &mut NoticePass<T>,
    lane: u32,
) -> Result<LaneTell<T>, AllocError>
    requires seat { IsSeatAt (sends_on sends.now) pass.old }
    requires known { view pass.old ≡ Taker lane [] [] }
    ensures tell { IfOk result (λ t. t ≡ fresh (channel_of pass.old) lane) }
    ensures pass { OnOk result (IsSeatAt (sends_on sends.now) pass.new
        × (view pass.new ≡ Taker (lane + 1) [] [])
        × (channel_of pass.new ≡ channel_of pass.old)) }
{
    let channel = sends.try_clone()?;
    let bell = bell.another()?;
    let pass = channel.another::<Splits>(pass);
    Ok(LaneTell {
        channel,
        pass,
        lane,
        closed: false,
        bell,
    })
}
