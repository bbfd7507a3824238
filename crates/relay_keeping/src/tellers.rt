//! What the thread of a producer and a lane tell.
ghost use Rattle.std.specs.Prelude.{◌≡◌, ◌≢◌, ◌↔◌, [], ◌∷◌, ◌++◌, map, IfOk, IsTrue};
ghost use Rattle.std.specs.Prelude.{Some, None, false, true};
ghost use Rattle.relay_keeping.specs.Histories.{names_in, places_in};
ghost use Rattle.relay_keeping.specs.Tellers.{MaySay, MayTell, PutsPlace, SameInput, TellsOnly};
ghost use Rattle.relay_keeping.specs.Tellers.{after_report, name_of, places_of};
ghost use Rattle.relay_keeping.specs.Tellers.{reported_names, said_at, seat};

use crate::told::Told;
use http_server::Log;
use relay_action::OpName;
use relay_core::Success;
use relay_receipts::LaneTell;
use relay_resume::{Mark, Place};
use std::alloc::{AllocError, Global};
use std::marker::Model;
use std::mem;
use std::sync::Wait;

// The number of places that are sent together. A producer that waits for a lane keeps fewer to itself,
// and a mark does not pass those.
const BATCH: usize = 64;

/// What the thread of a producer tells: where each operation ends that it puts. Contracts see its end
/// of the channel, where its input is read from, and the places that it has not sent yet.
///
/// If nobody keeps marks it has no end, and does nothing.
#[derive(Drop)]
pub struct InputTelling {
    alloc: Global,
    end: Option<LaneTell<Told>>,
    start: Mark,
    // The places that were not sent yet.
    batch: Vec<Place>,
    // Whether all was told that was to be told.
    is_whole: bool,
}

impl Model for InputTelling {
    ghost use Rattle.std.specs.Prelude.{◌≡◌, []};
    ghost use Rattle.relay_keeping.specs.Histories.{names_in};
    ghost use Rattle.relay_keeping.specs.Tellers.{InputState, said_at};

    ghost Value = { InputState };

    ghost view = { λ t. record {
      end = t.end;
      start = t.start;
      batch = t.batch.items;
      is_whole = t.is_whole;
    } };

    ghost invariant = { λ t. names_in (said_at t.end) ≡ [] };
}

// Sends the places that were not sent yet, if there are any. Returns whether they were sent.
fn send<R: Wait>(
    rt: &R,
    alloc: Global,
    end: &mut Option<LaneTell<Told>>,
    batch: &mut Vec<Place>,
) -> bool
    ensures places { places_in (said_at end.new) ++ batch.new.items
        ≡ places_in (said_at end.old) ++ batch.old.items }
    ensures names { names_in (said_at end.new) ≡ names_in (said_at end.old) }
    ensures seat { seat end.new ≡ seat end.old }
{
    let Some(end) = end else {
        return true;
    };
    if batch.is_empty() {
        return true;
    }
    let places = mem::replace(batch, Vec::new(alloc));
    match end.tell(rt, Told::Put(places)) {
        Ok(()) => true,
        Err(Told::Put(back)) => {
            *batch = back;
            false
        }
        Err(Told::Settled(_)) => unreachable!(),
    }
}

impl InputTelling {
    /// It tells by this end, by which nothing was told, of an input that is read from this mark on. It
    /// does not allocate.
    pub(crate) fn new(alloc: Global, end: LaneTell<Told>, start: Mark) -> InputTelling
        requires { end.told ≡ [] }
        ensures end { result.end ≡ Some end }
        ensures start { result.start ≡ start }
        ensures empty { (result.batch ≡ []) × (result.is_whole ≡ true) }
    {
        InputTelling {
            alloc,
            end: Some(end),
            start,
            batch: Vec::new(alloc),
            is_whole: true,
        }
    }

    /// It tells nobody, and does nothing. It does not allocate.
    pub fn silent(alloc: Global, start: Mark) -> InputTelling
        ensures { (result.end ≡ None) × (result.start ≡ start) × (result.batch ≡ [])
            × (result.is_whole ≡ false) }
    {
        InputTelling {
            alloc,
            end: None,
            start,
            batch: Vec::new(alloc),
            is_whole: false,
        }
    }

    // Adds a place to those that are to be sent.
    fn add(&mut self, place: Place)
        ensures adds { PutsPlace place self.old self.new }
        ensures same { SameInput self.old self.new }
    {
        if self.is_whole {
            self.is_whole = self.batch.push(place).is_ok();
        }
    }

    /// The mark from which the input is read on.
    pub fn start(&self) -> Mark
        ensures { result ≡ self.now.start }
    {
        self.start
    }

    /// Tells that the producer puts the operation next that ends at this place. After a failed
    /// allocation, or once the keeper is gone, nothing more is told.
    pub fn put<R: Wait>(&mut self, rt: &R, place: Place)
        ensures puts { PutsPlace place self.old self.new }
        ensures same { SameInput self.old self.new }
    {
        self.add(place);
        if self.batch.len() >= BATCH {
            self.flush(rt);
        }
    }

    /// Whether there are places that were not sent yet: a thread that may wait sends them before.
    pub fn has_unsent(&self) -> bool
        ensures { IsTrue result ↔ (self.now.batch ≢ []) }
    {
        !self.batch.is_empty()
    }

    /// Sends the places that were not sent yet.
    pub fn flush<R: Wait>(&mut self, rt: &R)
        ensures places { places_of self.new ≡ places_of self.old }
        ensures same { SameInput self.old self.new }
        ensures whole { self.new.is_whole ≡ true → self.old.is_whole ≡ true }
    {
        self.is_whole = send(rt, self.alloc, &mut self.end, &mut self.batch) && self.is_whole;
    }

    // Its end of the channel.
    pub(crate) fn end(self) -> Option<LaneTell<Told>>
        ensures end { result ≡ self.end }
        ensures only { names_in (said_at self.end) ≡ [] }
    {
        self.end
    }
}

/// What a lane tells: which operations are settled. Contracts see its end of the channel, and the
/// names that it was given.
///
/// If nobody keeps marks it has no end, and tells nothing.
#[derive(Drop)]
pub struct LaneTelling {
    alloc: Global,
    end: Option<LaneTell<Told>>,
    // The names that it was given, of operations that were applied and of those whose reports were
    // saved, for proofs only.
    applied: Log<OpName, ()>,
    saved: Log<OpName, ()>,
}

impl Model for LaneTelling {
    ghost use Rattle.std.specs.Prelude.{map};
    ghost use Rattle.relay_keeping.specs.Tellers.{LaneState, TellsOnly};

    ghost Value = { LaneState };

    ghost view = { λ t. record {
      end = t.end;
      applied = map (λ x. x.0) t.applied.items;
      saved = map (λ x. x.0) t.saved.items;
    } };

    ghost invariant = { λ t. TellsOnly (record { end = t.end; applied = map (λ x. x.0) t.applied.items; saved = map (λ x. x.0) t.saved.items }) };
}

// Tells that the operations with these names are settled, if there is an end to tell by.
fn tell<R: Wait>(rt: &R, end: &mut Option<LaneTell<Told>>, names: Vec<OpName>)
    ensures told { MaySay names.items end.old end.new }
    ensures seat { seat end.new ≡ seat end.old }
{
    let Some(end) = end else {
        return;
    };
    let _ = end.tell(rt, Told::Settled(names));
}

// The names of operations that were applied.
fn names_of(alloc: Global, successes: &[Success]) -> Result<Vec<OpName>, AllocError>
    ensures { IfOk result (λ v. v.items ≡ map name_of successes.now) }
{
    let mut names = Vec::with_capacity(alloc, successes.len())?;
    'successes: for success in successes {
        names.push(success.name)?;
    }
    Ok(names)
}

// Tells of operations that were applied, if there are any and an end to tell by.
fn tell_applied<R: Wait>(
    rt: &R,
    alloc: Global,
    end: &mut Option<LaneTell<Told>>,
    successes: &[Success],
)
    ensures told { MaySay (map name_of successes.now) end.old end.new }
    ensures seat { seat end.new ≡ seat end.old }
{
    if end.is_none() || successes.is_empty() {
        return;
    }
    if let Ok(names) = names_of(alloc, successes) {
        tell(rt, end, names);
    }
}

fn one_name(alloc: Global, name: OpName) -> Result<Vec<OpName>, AllocError>
    ensures { IfOk result (λ v. v.items ≡ name ∷ []) }
{
    let mut names = Vec::with_capacity(alloc, 1)?;
    names.push(name)?;
    Ok(names)
}

// Tells of an operation, if there is an end to tell by.
fn tell_one<R: Wait>(rt: &R, alloc: Global, end: &mut Option<LaneTell<Told>>, name: OpName)
    ensures told { MaySay (name ∷ []) end.old end.new }
    ensures seat { seat end.new ≡ seat end.old }
{
    if end.is_none() {
        return;
    }
    if let Ok(names) = one_name(alloc, name) {
        tell(rt, end, names);
    }
}

// Notes for proofs that operations were applied.
fn note_all(noted: &mut Log<OpName, ()>, successes: &[Success])
    ensures { map (λ x. x.0) noted.new.items
        ≡ map (λ x. x.0) noted.old.items ++ map name_of successes.now }
{
    'successes: for success in successes {
        *noted = noted.and(&success.name, &());
    }
}

impl LaneTelling {
    /// It tells by this end, by which nothing was told.
    pub(crate) fn new(alloc: Global, end: LaneTell<Told>) -> LaneTelling
        requires { end.told ≡ [] }
        ensures { result ≡ record { end = Some end; applied = []; saved = [] } }
    {
        LaneTelling {
            alloc,
            end: Some(end),
            applied: Log::new(),
            saved: Log::new(),
        }
    }

    /// It tells nobody.
    pub fn silent(alloc: Global) -> LaneTelling
        ensures { result ≡ record { end = None; applied = []; saved = [] } }
    {
        LaneTelling {
            alloc,
            end: None,
            applied: Log::new(),
            saved: Log::new(),
        }
    }

    /// Tells that these operations were applied, in one message. If an allocation fails, or the keeper is
    /// gone, nothing is told: a mark then stays before them.
    pub fn applied<R: Wait>(&mut self, rt: &R, successes: &[Success])
        ensures told { MayTell (map name_of successes.now) self.old self.new }
        ensures applied { self.new.applied ≡ self.old.applied ++ map name_of successes.now }
        ensures saved { self.new.saved ≡ self.old.saved }
        ensures same { seat self.new.end ≡ seat self.old.end }
    {
        tell_applied(rt, self.alloc, &mut self.end, successes);
        note_all(&mut self.applied, successes);
    }

    /// Tells that an operation was reported, and its report saved, unless that failed. If an allocation
    /// fails, or the keeper is gone, nothing is told.
    pub fn reported<R: Wait>(&mut self, rt: &R, name: OpName, failed: bool)
        ensures told { MayTell (reported_names failed name) self.old self.new }
        ensures applied { self.new.applied ≡ self.old.applied }
        ensures saved { self.new.saved ≡ after_report failed name self.old.saved }
        ensures same { seat self.new.end ≡ seat self.old.end }
    {
        if failed {
            return;
        }
        tell_one(rt, self.alloc, &mut self.end, name);
        self.saved = self.saved.and(&name, &());
    }

    // Its end of the channel.
    pub(crate) fn end(self) -> Option<LaneTell<Told>>
        ensures end { result ≡ self.end }
        ensures only { TellsOnly self }
    {
        self.end
    }
}
