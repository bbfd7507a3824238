//! What the threads of a run tell the keeper of its marks.
ghost use Rattle.std.specs.Prelude.{◌≡◌, ◌++◌, ◌∷◌, [], IfOk, IfSome, None, is_some, length, map, true};
ghost use Rattle.std.specs.Prelude.{vec_len};
ghost use Rattle.relay_resume.specs.Places.{place_behind};
ghost use Rattle.relay_keeping.specs.Tellers.{places_of, seat};
ghost use Rattle.relay_run.specs.Marks.{IsToldIf, bounds_of};
ghost use Rattle.relay_run.specs.Places.{AllUntold, AreFirst, AreNewTellings, input_teller};
ghost use Rattle.relay_run.specs.Saving.{AreUntold, lane_seat};
ghost use Rattle.relay_run.specs.Settling.{teller_of};

use crate::resuming::START;
use http_server::Log;
use relay_keeping::{InputTelling, LaneTelling, MarkEnds, MarkKeeper, keep_marks};
use relay_resume::{Mark, Place};
use std::alloc::{AllocError, Global};
use std::marker::Model;
use std::sync::Wait;

// The greatest number of inputs, and of lanes, of a run that is kept.
const MOST: usize = 65_536;

// The number of messages that may be queued.
const PLACES: u32 = 4_096;

/// What the thread of a producer tells: where the operations end that it puts. Contracts see these
/// places, its end of the channel, and where its input is read from.
#[derive(Drop)]
pub struct Telling {
    input: InputTelling,
    // The places, for proofs only.
    places: Log<Place, ()>,
}

impl Model for Telling {
    ghost use Rattle.std.specs.Prelude.{map};
    ghost use Rattle.relay_keeping.specs.Tellers.{seat};
    ghost use Rattle.relay_run.specs.Places.{IsTold};
    ghost use Rattle.relay_run.specs.Settling.{Tellings};

    ghost Value = { Tellings };

    ghost view = { λ t. record {
      places = map (λ x. x.0) t.places.items;
      via = seat t.input.end;
      start = t.input.start;
    } };

    ghost invariant = { λ t. IsTold t.input (map (λ x. x.0) t.places.items) };
}

impl Telling {
    /// It tells nobody. It does not allocate.
    pub fn silent(alloc: Global) -> Telling
        ensures places { result.places ≡ [] }
        ensures via { result.via ≡ None }
    {
        Telling {
            input: InputTelling::silent(alloc, START),
            places: Log::new(),
        }
    }

    // It tells by this end, by which nothing was told.
    fn new(input: InputTelling) -> Telling
        requires { places_of input ≡ [] }
        ensures places { result.places ≡ [] }
        ensures teller { (result.via ≡ seat input.end) × (result.start ≡ input.start) }
    {
        Telling {
            input,
            places: Log::new(),
        }
    }

    /// Tells that the operation is put whose last line has this number, from 1, of those that were
    /// read, where the lines up to it have so many bytes.
    pub(crate) fn put<R: Wait>(&mut self, rt: &R, line: u64, used: u64)
        ensures { self.new ≡ record self.old {
          places = self.old.places
              ++ place_behind self.old.start line used ∷ [];
        } }
    {
        let place = self.input.start().place_behind(line, used);
        self.input.put(rt, place);
        self.places = self.places.and(&place, &());
    }

    /// What it told by.
    pub(crate) fn into_input(self) -> InputTelling
        ensures teller { (seat result.end ≡ self.via) × (result.start ≡ self.start) }
        ensures first { AreFirst (places_of result) self.places }
    {
        self.input
    }

    /// Whether there is something that was not sent yet: a thread that may wait sends it before.
    pub(crate) fn has_unsent(&self) -> bool {
        self.input.has_unsent()
    }

    /// Sends what was told.
    pub(crate) fn flush<R: Wait>(&mut self, rt: &R)
        ensures { self.new ≡ self.old }
    {
        self.input.flush(rt);
    }
}

/// By what the threads of a run tell the keeper of its marks, if there is one.
#[derive(Drop)]
pub(crate) struct Ends {
    /// What the producers tell by, by producer.
    pub inputs: Vec<Telling>,
    /// What the lanes tell by. Empty if there is no keeper.
    pub lanes: Vec<LaneTelling>,
    /// The keeper.
    pub keeper: Option<MarkKeeper>,
}

/// What a producer tells by without a keeper, for each of so many. `AllocError`: allocation failed.
pub fn silent_inputs(alloc: Global, inputs: usize) -> Result<Vec<Telling>, AllocError>
    ensures count { IfOk result (λ v. vec_len v ≡ inputs) }
    ensures new { IfOk result (λ v. AllUntold v.items) }
{
    let mut tellings = Vec::new(alloc);
    'inputs: for _ in 0..inputs {
        tellings.push(Telling::silent(alloc))?;
    }
    Ok(tellings)
}

/// What a lane tells by without a keeper, for each of so many. `AllocError`: allocation failed.
pub fn silent_lanes(alloc: Global, lanes: usize) -> Result<Vec<LaneTelling>, AllocError>
    ensures count { IfOk result (λ v. vec_len v ≡ lanes) }
    ensures new { IfOk result (λ v. AreUntold v.items) }
{
    let mut tellings = Vec::new(alloc);
    'lanes: for _ in 0..lanes {
        tellings.push(LaneTelling::silent(alloc))?;
    }
    Ok(tellings)
}

impl Ends {
    /// There is no keeper, for so many inputs and lanes. `AllocError`: allocation failed.
    pub(crate) fn none(alloc: Global, inputs: usize, lanes: usize) -> Result<Ends, AllocError>
        ensures inputs { IfOk result (λ e. vec_len e.inputs ≡ inputs) }
        ensures lanes { IfOk result (λ e. vec_len e.lanes ≡ lanes) }
        ensures new { IfOk result (λ e. AllUntold e.inputs.items × AreUntold e.lanes.items) }
        ensures keeper { IfOk result (λ e. e.keeper ≡ None) }
    {
        Ok(Ends {
            inputs: silent_inputs(alloc, inputs)?,
            lanes: silent_lanes(alloc, lanes)?,
            keeper: None,
        })
    }

    /// There is one. Each input is read from its mark on. `AllocError`: allocation failed, or there are
    /// too many inputs or lanes.
    pub(crate) fn new(alloc: Global, starts: &[Mark], lanes: usize) -> Result<Ends, AllocError>
        ensures inputs { IfOk result (λ e. vec_len e.inputs ≡ length starts.now) }
        ensures lanes { IfOk result (λ e. vec_len e.lanes ≡ lanes) }
        ensures new { IfOk result (λ e. AllUntold e.inputs.items × AreUntold e.lanes.items) }
        ensures told { IfOk result (λ e. IsToldIf (bounds_of e.keeper) (map teller_of e.inputs.items)
            (map lane_seat e.lanes.items)) }
        ensures keeper { IfOk result (λ e. IfSome e.keeper (λ k. (k.starts ≡ starts.now)
            × (k.given ≡ []))) }
        ensures kept { IfOk result (λ e. is_some e.keeper ≡ true) }
    {
        if starts.len() > MOST || lanes > MOST {
            return Err(AllocError);
        }
        let MarkEnds {
            keeper,
            inputs,
            lanes,
        } = keep_marks(alloc, starts, lanes as u32, PLACES)?;
        let inputs = new_tellings(alloc, inputs)?;
        Ok(Ends {
            inputs,
            lanes,
            keeper: Some(keeper),
        })
    }
}

// What the producers tell by, given their ends.
fn new_tellings(alloc: Global, inputs: Vec<InputTelling>) -> Result<Vec<Telling>, AllocError>
    requires { AreNewTellings inputs.items }
    ensures tellers { IfOk result (λ v. map teller_of v.items ≡ map input_teller inputs.items) }
    ensures new { IfOk result (λ v. AllUntold v.items) }
{
    let mut tellings = Vec::new(alloc);
    'inputs: for input in inputs {
        tellings.push(Telling::new(input))?;
    }
    Ok(tellings)
}
