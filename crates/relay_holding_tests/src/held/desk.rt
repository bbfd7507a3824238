//! Held operations whose versions rise one by one.
ghost use Rattle.std.specs.Prelude.{◌≡◌, Some, None, false, IfSome};
ghost use Rattle.relay_held.specs.declared.kept.Kept.{Kept};
ghost use Rattle.relay_held.specs.Operations.{waits_here};
ghost use Rattle.relay_held.specs.Queues.{AllUnder, first_of};
ghost use Rattle.relay_holding_tests.specs.HeldUnder.{AllUnder-prop};

use relay_action::{Action, ActionKind, DocKey, OpName, Write};
use relay_held::{Held, Kept, NotHeld};
use std::alloc::Global;

/// What is held, all below the next version.
#[derive(Drop)]
pub struct Desk {
    pub held: Held,
    pub next: u64,
    ghost under: { AllUnder next held.list } by { AllUnder-prop next held.list },
}

/// A desk at which nothing is held.
pub fn empty_desk(alloc: Global) -> Desk {
    Desk {
        held: Held::new(alloc),
        next: 1,
    }
}

/// The key of a document. `None`: allocation failed.
pub fn key_of(alloc: Global, document: u64) -> Option<DocKey> {
    let id = format!(in alloc; "{document}").ok()?;
    DocKey::new(alloc, "b", id.as_str()).ok()
}

// A delete of a document that waits. `None`: allocation failed.
fn kept_of(alloc: Global, document: u64, version: u64, due: u64) -> Option<Kept>
    ensures { IfSome result (λ k. (k.version ≡ version) × (k.flies ≡ None)) }
{
    Some(Kept {
        name: OpName {
            epoch: 0,
            producer: 0,
            number: version,
        },
        key: key_of(alloc, document)?,
        kind: ActionKind::Delete,
        version,
        bytes: 78,
        cap: 10,
        taken_at: due,
        since: due,
        due,
        sends: 0,
        attempts: 0,
        flies: None,
        write: Some(Write {
            key: key_of(alloc, document)?,
            version,
            action: Action::delete(),
        }),
    })
}

/// Holds a delete of a document with the next version, and returns whether it is held. It tries
/// once more if an allocation fails.
pub fn push(alloc: Global, desk: &mut Desk, document: u64, due: u64) -> bool {
    if desk.next == u64::MAX || desk.held.len() > 1_000 {
        return false;
    }
    let Some(one) = kept_of(alloc, document, desk.next, due) else {
        return false;
    };
    desk.next += 1;
    match desk.held.push(one) {
        Ok(()) => true,
        Err(NotHeld { one }) => desk.held.push(one).is_ok(),
    }
}

/// Lets one tick pass.
pub fn tick(desk: &mut Desk) {
    desk.held.tick();
}

/// The version of the operation at a place of those that may be sent, or 0 if there is none.
pub fn version_at(desk: &mut Desk, at: usize) -> u64 {
    match desk.held.candidate(at) {
        Some(one) => one.version,
        None => 0,
    }
}

/// Sends the first operation that may be sent. `None` if there is none.
pub fn launch(desk: &mut Desk, request: u64, place: u64) -> Option<Write> {
    match desk.held.candidate(0) {
        Some(_) => desk.held.launch(request, place),
        None => None,
    }
}

// Whether the first operation of a document waits.
fn waits(held: &Held, key: &DocKey) -> bool
    ensures { result ≡ false → (h : Kept) → first_of key.now held.now.list ≡ Some h
        → waits_here h.flies ≡ false }
{
    match held.first(key) {
        Some(one) => one.flies.is_none(),
        None => false,
    }
}

/// Lets the first operation of a write's document, which is in flight, wait again. `false` if it
/// waits already.
pub fn land(desk: &mut Desk, due: u64, write: Write) -> bool {
    if waits(&desk.held, &write.key) {
        return false;
    }
    desk.held.land(due, write);
    true
}

/// The same under a cap, and its attempt is given back.
pub fn halve(desk: &mut Desk, due: u64, cap: u32, write: Write) -> bool {
    if waits(&desk.held, &write.key) {
        return false;
    }
    desk.held.halve(due, cap, write);
    true
}

/// Takes out the first operation of a document, which is in flight, and returns its name. `None` if
/// it waits, or none is held.
pub fn take(desk: &mut Desk, key: &DocKey) -> Option<OpName> {
    if waits(&desk.held, key) {
        return None;
    }
    desk.held.take(key)
}
