//! A lane's ends of the channels of all producers.
ghost use Rattle.std.specs.Prelude.{◌≡◌, ◌+◌, ◌<◌, ◌≤◌, [], ◌∷◌, ℕ, IfOk, OnOk, OnErr, map, vec_len};
ghost use Rattle.relay_core.specs.Walk.{report_of};
ghost use Rattle.relay_receipts.specs.Ends.{Channel, fresh_tells};
ghost use Rattle.relay_telling.specs.declared.ending.Ending.{Ending};
ghost use Rattle.relay_threads.specs.Told.{AddsApplied, AddsReport, AddsNothing};
ghost use Rattle.relay_telling.specs.Destinations.{identity, identities};
ghost use Rattle.relay_telling.specs.New.{channels_of, new_take, AreNewTells, FirstHave};
ghost use Rattle.relay_telling.specs.Shown.{shown_at, TellsOne, TellsTo};

use crate::ending::{Ending, copy_report};
use relay_lane::{Report, Success};
use relay_receipts::{LaneTell, ReceiptTake, receipts};
use relay_threads::Tell;
use std::alloc::{AllocError, Global};
use std::sync::Wait;

/// A lane's end of one producer's channel.
#[derive(Drop)]
pub struct ProducerTell {
    /// The end of the channel.
    pub tell: LaneTell<Ending>,
    /// Whether something was not told: the producer's end was dropped, or this end had closed.
    pub gone: bool,
}

impl ProducerTell {
    // Tells the producer how an operation ended.
    fn tell<R: Wait>(&mut self, rt: &R, ending: Ending)
        ensures { TellsOne ending self.old self.new }
    {
        if self.tell.tell(rt, ending).is_err() {
            self.gone = true;
        }
    }

    // Tells the producer that the lane tells no more.
    fn close<R: Wait>(&mut self, rt: &R)
        ensures { (self.new.tell.told ≡ self.old.tell.told) × (self.new.gone ≡ self.old.gone)
            × (identity self.new ≡ identity self.old) }
    {
        let _ = self.tell.close(rt);
    }
}

/// A lane's ends of the channels of all producers, by producer, by which it tells each how its
/// operations ended. It shows what was told to a producer, unless some of that was lost since the
/// producer is gone. It tells where its ends do: each on its channel, as an end of its lane.
#[derive(Drop)]
pub struct LaneTells {
    /// The ends, by producer.
    pub ends: Vec<ProducerTell>,
}

impl LaneTells {
    // Tells a producer, if it has an end, how its operation ended.
    fn tell<R: Wait>(&mut self, rt: &R, producer: u32, ending: Ending)
        ensures { TellsTo producer ending self.old.ends.items self.new.ends.items }
    {
        let producer = producer as usize;
        if producer < self.ends.len() {
            self.ends[producer].tell(rt, ending);
        }
    }

    // Tells of an operation that ended as applied.
    fn tell_applied<R: Wait>(&mut self, rt: &R, success: &Success)
        ensures told { (p : ℕ) → AddsApplied p (success.now ∷ [])
            (shown_at self.old.ends.items p) (shown_at self.new.ends.items p) }
        ensures same { identities self.new.ends.items ≡ identities self.old.ends.items }
    {
        let success = *success;
        self.tell(rt, success.name.producer, Ending::Applied(success));
    }
}

impl Tell for LaneTells {
    ghost use Rattle.std.specs.Prelude.{ℕ, List};
    ghost use Rattle.relay_receipts.specs.Ends.{Channel};
    ghost use Rattle.relay_telling.specs.declared.ending.Ending.{Ending};
    ghost use Rattle.relay_telling.specs.Destinations.{identities};
    ghost use Rattle.relay_telling.specs.Shown.{shown_at};

    ghost told = { λ t p. shown_at t.ends.items p };

    ghost Destination = { List (Channel Ending × ℕ) };

    ghost destination = { λ t. identities t.ends.items };

    fn applied<R: Wait>(&mut self, rt: &R, successes: &[Success]) {
        for success in successes {
            self.tell_applied(rt, success);
        }
    }

    fn reported<R: Wait>(&mut self, rt: &R, report: &Report) -> Result<(), AllocError> {
        let report = copy_report(report)?;
        self.tell(rt, report.name.producer, Ending::Reported(report));
        Ok(())
    }

    fn ended<R: Wait>(&mut self, rt: &R) {
        for producer in 0..self.ends.len() {
            self.ends[producer].close(rt);
        }
    }
}

/// The channels of receipts for `producers` producers, each with room for a window of `window`
/// operations: what each of `lanes` lanes tells by, by lane, with its end of each channel, and the
/// ends of the producers. `AllocError`: allocation failed.
pub fn telling(
    alloc: Global,
    producers: u32,
    lanes: u32,
    window: u32,
) -> Result<(Vec<LaneTells>, Vec<ReceiptTake<Ending>>), AllocError>
    requires window { (0 < window) × (window ≤ 65536) }
    requires lanes { lanes ≤ 8 }
    ensures lanes { IfOk result (λ r. vec_len r.0 ≡ lanes) }
    ensures producers { IfOk result (λ r. vec_len r.1 ≡ producers) }
    ensures takes { IfOk result
        (λ r. r.1.items ≡ map (new_take lanes) (channels_of r.1.items)) }
    ensures tells { IfOk result (λ r. AreNewTells (channels_of r.1.items) 0 r.0.items) }
{
    let mut tells = Vec::new(alloc);
    for _lane in 0..lanes {
        tells.push(LaneTells {
            ends: Vec::new(alloc),
        })?;
    }
    let mut takes = Vec::new(alloc);
    for _producer in 0..producers {
        takes.reserve(1)?;
        takes.push_reserved(add_producer(alloc, &mut tells, lanes, window)?);
    }
    Ok((tells, takes))
}

// Makes the channel of one more producer, and gives each lane its end of it.
fn add_producer(
    alloc: Global,
    tells: &mut Vec<LaneTells>,
    lanes: u32,
    window: u32,
) -> Result<ReceiptTake<Ending>, AllocError>
    requires window { (0 < window) × (window ≤ 65536) }
    requires lanes { (vec_len tells.old ≡ lanes) × (lanes ≤ 8) }
    ensures len { OnOk result (vec_len tells.new ≡ vec_len tells.old) }
    ensures take { IfOk result (λ t. t ≡ new_take lanes t.channel) }
    ensures tells { IfOk result (λ t. FirstHave t.channel 0 lanes tells.old.items tells.new.items) }
{
    let (take, ends) = receipts(alloc, window + lanes, lanes)?;
    give_ends(tells, ends)?;
    Ok(take)
}

// Gives each lane its end of one channel.
fn give_ends(tells: &mut Vec<LaneTells>, ends: Vec<LaneTell<Ending>>) -> Result<(), AllocError>
    requires { vec_len ends ≡ vec_len tells.old }
    ensures len { OnOk result (vec_len tells.new ≡ vec_len tells.old) }
    ensures given { OnOk result ((channel : Channel Ending)
        → ends.items ≡ fresh_tells channel (vec_len tells.old)
        → FirstHave channel 0 (vec_len tells.old) tells.old.items tells.new.items) }
{
    let mut lane = 0usize;
    for tell in ends {
        tells[lane].ends.push(ProducerTell { tell, gone: false })?;
        lane += 1;
    }
    Ok(())
}
