//! A wire to an index in memory, which fails as it is told to. It does not describe the outside.
ghost use Rattle.std.specs.Prelude.{◌≡◌, None};
ghost use Rattle.relay_lane.specs.Wires.{IsWireReply};

use crate::runs::run_all;
use rand_core::Rng;
use rand_pcg::Pcg32;
use relay_action::{ActionKind, Text, Write};
use relay_index::Index;
use relay_lane::{Loss, Wire, WireReply};
use relay_results::Outcome;
use std::alloc::{AllocError, Global};
use std::mem;

/// What happens to requests.
#[derive(Clone, Copy, Debug, PartialEq, Eq)]
pub enum Way {
    /// Each is run and answered.
    Runs,
    /// Each is run, and every n-th reply is lost.
    LosesEach(u64),
    /// The one with this number is not sent; the others are run and answered.
    FailsSend(u64, Loss),
    /// Each is run, and the reply to the one with this number is a fault.
    FailsReply(u64, Loss),
    /// Each is run, and answered with one entry fewer than it has writes.
    TooFew,
    /// Each is run, and answered with one entry more.
    TooMany,
    /// Each is run, and answered for another document.
    Another,
    /// None is run, and each is answered as a whole.
    Whole(u16),
    /// None is run, and each is answered with one entry of this status.
    Answers(u16),
    /// None is run, and every reply is lost.
    Loses,
    /// At random: not sent, lost after it ran, refused as a whole, answered with too few entries,
    /// or run and answered.
    Random,
}

/// A wire that runs requests when they are sent, one at a time. What it owns is leaked, as a lane is.
pub struct IndexWire {
    alloc: Global,
    pub index: Index,
    way: Way,
    now: Way,
    pub flying: Option<u64>,
    reply: Vec<Outcome>,
    /// How many requests were to be sent.
    pub sends: u64,
    rng: Pcg32,
}

impl Drop for IndexWire {
    fn drop(self) {
        let IndexWire {
            alloc: _,
            index,
            way: _,
            now: _,
            flying: _,
            reply,
            sends: _,
            rng,
        } = self;
        mem::forget((index, reply, rng));
    }
}

/// A wire with an empty index.
pub fn wire_of(alloc: Global, way: Way) -> IndexWire
    ensures { result.flying ≡ None }
{
    IndexWire {
        alloc,
        index: Index::new(alloc),
        way,
        now: way,
        flying: None,
        reply: Vec::new(alloc),
        sends: 0,
        rng: Pcg32::new(1, 0),
    }
}

// What happens to the request with this number; `random` is a random number.
fn way_at(way: Way, sends: u64, random: u32) -> Way {
    match way {
        Way::LosesEach(every) if every > 0 && sends % every == 0 => {
            Way::FailsReply(sends, Loss::Closed)
        }
        Way::FailsSend(at, _) | Way::FailsReply(at, _) if at != sends => Way::Runs,
        Way::Random => match random % 16 {
            0 => Way::FailsSend(sends, Loss::Unreachable),
            1 | 2 => Way::FailsReply(sends, Loss::Closed),
            3 => Way::Whole(503),
            4 => Way::TooFew,
            _ => Way::Runs,
        },
        _ => way,
    }
}

// The entry of an index action on another document.
fn another(alloc: Global) -> Result<Outcome, AllocError> {
    let Ok(id) = Text::new(alloc, "another") else {
        return Err(AllocError);
    };
    Ok(Outcome {
        kind: ActionKind::Index,
        id,
        status: 201,
        error: None,
    })
}

// One entry of a delete.
fn answers(alloc: Global, status: u16) -> Result<Vec<Outcome>, AllocError> {
    let mut entries = Vec::new(alloc);
    entries.push(Outcome {
        kind: ActionKind::Delete,
        id: Text::empty(),
        status,
        error: None,
    })?;
    Ok(entries)
}

// The entries without the last one, or with one for another document, if wanted.
fn changed(
    alloc: Global,
    entries: Vec<Outcome>,
    drops: bool,
    adds: bool,
) -> Result<Vec<Outcome>, AllocError> {
    let mut entries = entries;
    if drops {
        let _ = entries.pop();
    }
    if adds {
        entries.push(another(alloc)?)?;
    }
    Ok(entries)
}

fn answered(alloc: Global, way: Way, entries: Vec<Outcome>) -> Result<WireReply, Loss>
    ensures { IsWireReply result }
{
    let (drops, adds) = match way {
        Way::Loses => return Err(Loss::Closed),
        Way::FailsReply(_, fault) => return Err(fault),
        Way::Whole(status) if status != 200 => return Ok(WireReply::Whole(status, None)),
        Way::TooFew => (true, false),
        Way::TooMany => (false, true),
        Way::Another => (true, true),
        _ => (false, false),
    };
    match changed(alloc, entries, drops, adds) {
        Ok(entries) => Ok(WireReply::Items(entries)),
        Err(_) => Err(Loss::Memory),
    }
}

impl Wire for IndexWire {
    ghost use Rattle.std.specs.Prelude.{false};
    ghost use Rattle.std.specs.Option.{option_to_list};

    ghost out = { λ w. option_to_list w.flying };

    ghost describes = { λ w. false };

    ghost fits = { λ w o. ⊥ };

    // It says nothing of what passes.
    ghost carries = { λ v x w. Unit {0} };

    fn send(&mut self, number: u64, writes: &[Write]) -> Result<(), Loss> {
        if self.flying.is_some() {
            return Err(Loss::Unreachable);
        }
        self.sends = self.sends.saturating_add(1);
        self.now = way_at(self.way, self.sends, self.rng.next_u32());
        match self.now {
            Way::FailsSend(_, fault) => return Err(fault),
            Way::Whole(_) | Way::Loses => {}
            Way::Answers(status) => match answers(self.alloc, status) {
                Ok(entries) => self.reply = entries,
                Err(_) => return Err(Loss::Memory),
            },
            _ => match run_all(self.alloc, &mut self.index, writes) {
                Ok(entries) => self.reply = entries,
                Err(_) => return Err(Loss::Memory),
            },
        }
        self.flying = Some(number);
        Ok(())
    }

    fn receive(&mut self, _number: u64) -> Result<WireReply, Loss> {
        self.flying = None;
        let entries = mem::replace(&mut self.reply, Vec::new(self.alloc));
        answered(self.alloc, self.now, entries)
    }
}
