//! A queue and its ends.
ghost use Rattle.std.specs.Prelude.{◌≡◌, ◌+◌, ◌<◌, ◌≤◌, ◌⊎◌, [], IfOk, OnOk, vec_len};
ghost use Rattle.crossbeam_channel.specs.Claims.{view, IsSeatAt};
ghost use Rattle.crossbeam_channel.specs.Ends.{sends_on, ruled_capacity};
ghost use Rattle.relay_queue.specs.declared.rule.Knowledge.TheVariants.{Taker};
ghost use Rattle.relay_queue.specs.Ends.{queue_of, queue_with, fresh, fresh_puts};
ghost use Rattle.relay_queue.specs.Steps.{capacity_of};

use crate::bell::Bell;
use crate::rule::{Delivery, Knowledge, MailPass, MailSender, Places, Splits};
use crate::sender::LanePut;
use crate::taker::LaneTake;
use crossbeam_channel::bounded_with;
use relay_action::Mail;
use std::alloc::{AllocError, Global};
use std::marker::Brand;

/// A queue with `capacity` places, from 1 to 65,536, and its ends: the taker's, and one for each of
/// 1 to 257 senders, numbered from 0. `AllocError`: allocating the places or the ends failed. No
/// later call of an end allocates.
pub fn lane_queue(
    alloc: Global,
    capacity: u32,
    senders: u32,
) -> Result<(LaneTake, Vec<LanePut>), AllocError>
    requires capacity { (0 < capacity) × (capacity ≤ 65536) }
    requires senders { (0 < senders) × (senders ≤ 257) }
    ensures capacity { IfOk result (λ r. r.0.queue.capacity ≡ capacity) }
    ensures taker { IfOk result (λ r. (r.0.senders ≡ senders) × (r.0.taken ≡ [])) }
    ensures senders { IfOk result (λ r. r.1.items ≡ fresh_puts r.0.queue senders) }
    ensures len { IfOk result (λ r. vec_len r.1 ≡ senders) }
{
    let (sends, takes, mut pass) = bounded_with::<Mail, Knowledge, Delivery, Global>(
        alloc,
        capacity as usize,
    )?;
    let bell = Bell::new(alloc)?;
    let mut puts = Vec::new(alloc);
    for sender in 0..senders {
        puts.push(add_sender::<Brand>(&sends, &bell, &mut pass, sender)?)?;
    }
    let take = LaneTake {
        channel: takes,
        pass,
        bell,
    };
    Ok((take, puts))
}

// Makes one more sender, with a pass that is split off the taker's. The first one fixes the number
// of places that the passes know.
fn add_sender<K: Places>(
    sends: &MailSender,
    bell: &Bell,
    pass: &mut MailPass,
    sender: u32,
) -> Result<LanePut, AllocError>
    requires seat { IsSeatAt (sends_on sends.now) pass.old }
    requires known { view pass.old ≡ Taker (capacity_of (view pass.old)) sender [] [] }
    requires places { (ruled_capacity (sends_on sends.now) ≡ K.places)
        × ((sender ≡ 0) ⊎ (capacity_of (view pass.old) ≡ K.places)) }
    ensures put { IfOk result (λ p. p ≡ fresh (queue_with pass.old K.places) sender) }
    ensures pass { OnOk result (IsSeatAt (sends_on sends.now) pass.new
        × (view pass.new ≡ Taker K.places (sender + 1) [] [])
        × (queue_of pass.new ≡ queue_with pass.old K.places)) }
{
    let channel = sends.try_clone()?;
    let bell = bell.another()?;
    let pass = channel.another::<Splits<K>>(pass);
    Ok(LanePut {
        channel,
        pass,
        sender,
        count: 0,
        bell,
    })
}
