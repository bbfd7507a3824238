//! Scripts of refusals.
ghost use Rattle.std.specs.Prelude.{◌≡◌, ◌==◌, ℕ, Some, OnOk, OnErr, if◌then◌else◌};
ghost use Rattle.relay_index.specs.Choices.{MayRefuse, MayChoose};
ghost use Rattle.relay_index.specs.Plans.{no_script, refusal_at, choice_at, with_limit, takes};
ghost use Rattle.relay_index.specs.Plans.{after_item};

use crate::choice::Choice;
use crate::refusal::Refusal;
use indexmap::IndexMap;
use std::alloc::{AllocError, Global};
use std::marker::Model;

/// Which items an index refuses, by their place among all items that are run under the script,
/// which counts them. It may also limit the size of a body. Contracts see it as the refusals, the
/// count and the limit.
#[derive(Drop)]
pub struct Script {
    refusals: IndexMap<u64, Refusal>,
    ran: u64,
    limit: Option<u64>,
}

impl Model for Script {
    ghost use Rattle.relay_index.specs.Plans.{Plan};

    ghost Value = { Plan };

    ghost view = { λ s. record { refusals = s.refusals.entries; ran = s.ran; limit = s.limit } };
}

impl Script {
    /// A script that refuses nothing, before any item was run. It does not allocate.
    pub fn new(alloc: Global) -> Script
        ensures { result ≡ no_script }
    {
        Script {
            refusals: IndexMap::new(alloc),
            ran: 0,
            limit: None,
        }
    }

    /// Refuses the item at this place, counted from 1 over all items that are run under the script,
    /// with this status. A second refusal of a place replaces the first; a refusal of a place that
    /// has been passed, or of place 0, has no effect. The status must be one that [`may_refuse`]
    /// accepts. `AllocError`: allocation failed, and the script is unchanged.
    ///
    /// [`may_refuse`]: crate::may_refuse
    pub fn refuse(&mut self, place: u64, status: u16) -> Result<(), AllocError>
        requires { MayRefuse status }
        ensures refused { OnOk result ((p : ℕ) →
            refusal_at self.new p ≡ (if place == p then Some status else refusal_at self.old p)) }
        ensures ran { self.new.ran ≡ self.old.ran }
        ensures limit { self.new.limit ≡ self.old.limit }
        ensures err { OnErr result (self.new ≡ self.old) }
    {
        self.refusals.insert(place, Refusal { status })?;
        Ok(())
    }

    /// From now on a body of more than `max` bytes gets 413, and no line of it is read. It does not
    /// allocate.
    pub fn too_large(&mut self, max: u64)
        ensures { self.new ≡ with_limit max self.old }
    {
        self.limit = Some(max);
    }

    // Whether a body of this size is accepted.
    pub(crate) fn takes(&self, bytes: usize) -> bool
        ensures { result ≡ takes self.now bytes }
    {
        match self.limit {
            Some(most) => bytes as u64 <= most,
            None => true,
        }
    }

    // The choice for the next item.
    pub(crate) fn choice(&self) -> Choice
        ensures choice { result ≡ choice_at self.now }
        ensures may { MayChoose result }
    {
        match self.refusals.get(&self.ran.saturating_add(1)) {
            Some(refusal) => Choice::Refuse(refusal.status),
            None => Choice::Run,
        }
    }

    pub(crate) fn step(&mut self)
        ensures { self.new ≡ after_item self.old }
    {
        self.ran = self.ran.saturating_add(1);
    }
}
