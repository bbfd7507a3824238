//! What the threads of a run tell its keeper by, and what is known of the marks once all have ended.
ghost use Rattle.std.specs.Prelude.{◌≡◌, IfOk, map, string_bytes};
ghost use Rattle.relay_run.specs.Marks.{IsToldBy, IsToldIf, bound, bounds_in, held_by};
ghost use Rattle.relay_run.specs.Places.{input_teller};
ghost use Rattle.relay_run.specs.Saving.{lane_seat, seat_of};
ghost use Rattle.relay_run.specs.Settling.{teller_of};
ghost use Rattle.relay_run.specs.Safe.{AllSafe, AllSafeStates, AreInputsOf, AreLanesOf};
ghost use Rattle.relay_run.specs.Written.{ArePast, GoesBy, past_of};

use crate::keeping::Keeping;
use crate::resuming::Resumed;
use crate::settling::Telling;
use crate::telling::SavingTell;
use relay_action::ByteOut;
use relay_keeping::{InputTelling, Kept, LaneTelling, MarkKeeper};
use std::alloc::{AllocError, Global};
use std::marker::Model;

/// What the lanes and the producers of a run tell by, and the thread that keeps what they tell, if one
/// does: the keeper there is told by them, and by nobody else.
#[derive(Drop)]
pub(crate) struct Marked<F: ByteOut> {
    tells: Vec<SavingTell<F>>,
    inputs: Vec<Telling>,
    keeping: Option<Keeping>,
}

impl<F: ByteOut> Model for Marked<F> {
    ghost use Rattle.std.specs.Prelude.{map};
    ghost use Rattle.relay_run.specs.Marks.{IsToldIf, bounds_in, held_by};
    ghost use Rattle.relay_run.specs.Markings.{Marking};
    ghost use Rattle.relay_run.specs.Saving.{seat_of};
    ghost use Rattle.relay_run.specs.Settling.{teller_of};

    ghost Value = { Marking };

    ghost view = { λ m. record {
      tells = m.tells.items;
      inputs = m.inputs.items;
      fixed = held_by m.keeping;
    } };

    ghost invariant = { λ m. IsToldIf (bounds_in (held_by m.keeping)) (map teller_of m.inputs.items)
        (map seat_of m.tells.items) };
}

impl<F: ByteOut> Marked<F> {
    pub(crate) fn new(
        tells: Vec<SavingTell<F>>,
        inputs: Vec<Telling>,
        keeping: Option<Keeping>,
    ) -> Marked<F>
        requires { IsToldIf (bounds_in (held_by keeping)) (map teller_of inputs.items)
            (map seat_of tells.items) }
        ensures tells { result.tells ≡ tells.items }
        ensures inputs { result.inputs ≡ inputs.items }
        ensures fixed { result.fixed ≡ held_by keeping }
    {
        Marked {
            tells,
            inputs,
            keeping,
        }
    }

    /// Its parts.
    pub(crate) fn into_parts(self) -> (Vec<SavingTell<F>>, Vec<Telling>, Option<Keeping>)
        ensures tells { result.0.items ≡ self.tells }
        ensures inputs { result.1.items ≡ self.inputs }
        ensures fixed { held_by result.2 ≡ self.fixed }
        ensures told { IsToldIf (bounds_in (held_by result.2)) (map teller_of result.1.items)
            (map seat_of result.0.items) }
    {
        let Marked {
            tells,
            inputs,
            keeping,
        } = self;
        (tells, inputs, keeping)
    }
}

// The ends by which producers told.
fn inputs_of(alloc: Global, tellings: Vec<Telling>) -> Result<Vec<InputTelling>, AllocError>
    ensures ends { IfOk result (λ v. map input_teller v.items ≡ map teller_of tellings.items) }
    ensures told { IfOk result (λ v. AreInputsOf tellings.items v.items) }
{
    let mut inputs = Vec::new(alloc);
    'tellings: for telling in tellings {
        inputs.push(telling.into_input())?;
    }
    Ok(inputs)
}

// The ends by which lanes told.
fn lanes_of<F: ByteOut + Drop>(
    alloc: Global,
    tells: Vec<SavingTell<F>>,
) -> Result<Vec<LaneTelling>, AllocError>
    ensures ends { IfOk result (λ v. map lane_seat v.items ≡ map seat_of tells.items) }
    ensures told { IfOk result (λ v. AreLanesOf tells.items v.items) }
{
    let mut lanes = Vec::new(alloc);
    'tells: for tell in tells {
        lanes.push(tell.into_settled())?;
    }
    Ok(lanes)
}

/// Compares what the keeper of a run took with what all its tellers told, after all have ended. In
/// proofs, and only there, this shows of each mark that it gave what is before it in its input:
/// operations that the producer told before it put them, each of which a lane was told of as one that
/// was applied, or as one whose report was saved. And each state that was written to the file of the
/// run's state has, of each of these files that it names, the mark that the file is read from in this
/// run, or one that was given by then for the producer that reads it. `AllocError`: allocation failed.
pub fn meet_marks<F: ByteOut + Drop>(
    alloc: Global,
    files: &[String],
    marks: MarkKeeper,
    state: &Resumed,
    inputs: Vec<Telling>,
    tells: Vec<SavingTell<F>>,
) -> Result<Kept, AllocError>
    requires told { IsToldBy (bound marks) (map teller_of inputs.items) (map seat_of tells.items) }
    requires goes { GoesBy marks state.now }
    requires paths { state.now.reads.files ≡ map string_bytes files.now }
    ensures same { IfOk result (λ k. k ≡ marks) }
    ensures safe { IfOk result (λ k. AllSafe inputs.items tells.items k.given) }
    ensures states { IfOk result (λ k. AllSafeStates inputs.items tells.items (record {
      producers = state.now.reads.producers;
      files = map string_bytes files.now;
    }) state.now.written) }
    ensures past { IfOk result (λ k. ArePast (past_of k) state.now.written) }
{
    let _ = files;
    let _ = state;
    let inputs = inputs_of(alloc, inputs)?;
    let lanes = lanes_of(alloc, tells)?;
    Ok(marks.end().meet(inputs, lanes))
}
