//! The trails of the inputs of a run.
ghost use Rattle.std.specs.Prelude.{◌≡◌, ℕ, List, [], ◌∷◌, ◌++◌, IfOk, OnOk, Some};
ghost use Rattle.relay_action.specs.declared.operation.OpName.{OpName as Name};
ghost use Rattle.relay_resume.specs.declared.mark.Place.{Place as PlaceOf};
ghost use Rattle.relay_resume.specs.Trails.{History, IsOf};
ghost use Rattle.relay_receipts.specs.declared.notice.Notice.{Notice as NoticeOf};
ghost use Rattle.relay_keeping.specs.declared.told.Told.{Told as ToldOf};
ghost use Rattle.relay_keeping.specs.Histories.{names_in, places_in};
ghost use Rattle.relay_keeping.specs.Steps.{AreTrails, FollowAll, and_puts, starts_of, with_puts};

use crate::told::Told;
use relay_action::OpName;
use relay_receipts::Notice;
use relay_resume::{Mark, Place, Trail};
use std::alloc::{AllocError, Global};

/// An input, and what of it is settled.
#[derive(Debug, Drop)]
pub(crate) struct Followed {
    /// Where it is read from.
    pub start: Mark,
    /// What was put and settled since.
    pub trail: Trail,
}

/// The inputs that are read from these marks on. `AllocError`: allocation failed.
pub(crate) fn follow_from(alloc: Global, starts: &[Mark]) -> Result<Vec<Followed>, AllocError>
    ensures trails { IfOk result (λ v. FollowAll [] v.items) }
    ensures starts { IfOk result (λ v. starts_of v.items ≡ starts.now) }
{
    let mut inputs = Vec::with_capacity(alloc, starts.len())?;
    'starts: for start in starts {
        inputs.push(Followed {
            start: *start,
            trail: Trail::new(alloc, *start),
        })?;
    }
    Ok(inputs)
}

// Puts operations, in order.
fn put_all(trail: &mut Trail, ends: &[Place]) -> Result<(), AllocError>
    ensures { OnOk result
        ((h : History) → IsOf h trail.old → IsOf (and_puts ends.now h) trail.new) }
{
    'ends: for end in ends {
        trail.put(*end)?;
    }
    Ok(())
}

// Puts operations of a producer's input, if there is one.
fn put_at(inputs: &mut Vec<Followed>, producer: u32, ends: &[Place]) -> Result<(), AllocError>
    ensures trails { OnOk result ((puts : ℕ → List PlaceOf) (names : List Name)
        → AreTrails puts names inputs.old.items
        → AreTrails (with_puts puts producer ends.now) names inputs.new.items) }
    ensures starts { starts_of inputs.new.items ≡ starts_of inputs.old.items }
{
    let place = producer as usize;
    if place < inputs.len() {
        put_all(&mut inputs[place].trail, ends)?;
    }
    Ok(())
}

// Settles an operation, if its producer has an input.
fn settle_one(inputs: &mut Vec<Followed>, name: &OpName) -> Result<(), AllocError>
    ensures trails { OnOk result ((puts : ℕ → List PlaceOf) (names : List Name)
        → AreTrails puts names inputs.old.items
        → AreTrails puts (names ++ name.now ∷ []) inputs.new.items) }
    ensures starts { starts_of inputs.new.items ≡ starts_of inputs.old.items }
{
    let place = name.producer as usize;
    if place < inputs.len() {
        inputs[place].trail.settle(name.number)?;
    }
    Ok(())
}

// Settles operations.
fn settle_all(inputs: &mut Vec<Followed>, names: &[OpName]) -> Result<(), AllocError>
    ensures trails { OnOk result ((puts : ℕ → List PlaceOf) (before : List Name)
        → AreTrails puts before inputs.old.items
        → AreTrails puts (before ++ names.now) inputs.new.items) }
    ensures starts { starts_of inputs.new.items ≡ starts_of inputs.old.items }
{
    'names: for name in names {
        settle_one(inputs, name)?;
    }
    Ok(())
}

// Puts or settles what a teller told.
fn follow_told(inputs: &mut Vec<Followed>, teller: u32, told: &Told) -> Result<(), AllocError>
    ensures trails { OnOk result ((puts : ℕ → List PlaceOf) (names : List Name)
        → AreTrails puts names inputs.old.items
        → AreTrails (with_puts puts teller (places_in (Some told.now ∷ [])))
        (names ++ names_in (Some told.now ∷ [])) inputs.new.items) }
    ensures starts { starts_of inputs.new.items ≡ starts_of inputs.old.items }
{
    match told {
        Told::Put(ends) => put_at(inputs, teller, ends),
        Told::Settled(names) => settle_all(inputs, names),
    }
}

/// Puts or settles what a notice says. `AllocError`: allocation failed, and the trails no longer say
/// what was put and settled.
pub(crate) fn follow(inputs: &mut Vec<Followed>, notice: &Notice<Told>) -> Result<(), AllocError>
    ensures trails { OnOk result ((taken : List (NoticeOf ToldOf))
        → FollowAll taken inputs.old.items
        → FollowAll (taken ++ notice.now ∷ []) inputs.new.items) }
    ensures starts { starts_of inputs.new.items ≡ starts_of inputs.old.items }
{
    match &notice.told {
        Some(told) => follow_told(inputs, notice.lane, told),
        None => Ok(()),
    }
}
