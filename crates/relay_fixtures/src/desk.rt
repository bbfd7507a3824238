//! A lane into which messages are put.
ghost use Rattle.std.specs.Prelude.{◌≡◌, ◌<◌, [], length, IfSome};
ghost use Rattle.relay_lane.specs.Out.{out_of};

use relay_action::{Action, ActionFault, Body, DocKey, Mail, Op};
use relay_lane::{Lane, RelayConfig, TakeFault};
use std::alloc::Global;
use std::mem;

/// A lane. It is leaked, since it costs a lot to prove that a lane can be dropped.
pub struct Desk {
    pub lane: Lane,
}

impl Drop for Desk {
    fn drop(self) {
        let Desk { lane } = self;
        mem::forget(lane);
    }
}

// Takes a message of a known sender. Returns the fault, if it is not taken.
fn take(lane: &mut Lane, mail: Mail) -> Option<TakeFault>
    requires known { mail.sender < length lane.old.state.closed }
    ensures out { out_of lane.new.state ≡ out_of lane.old.state }
    ensures config { lane.new.state.config ≡ lane.old.state.config }
{
    if let Err((fault, _)) = lane.take(mail) {
        return Some(fault);
    }
    None
}

/// A desk with a fresh lane and a config, which must be valid. `None`: allocation failed.
pub fn desk_of(alloc: Global, config: RelayConfig) -> Option<Desk>
    ensures { IfSome result (λ d. out_of d.lane.state ≡ []) }
{
    if !config.valid() {
        return None;
    }
    match Lane::new(alloc, config) {
        Ok(lane) => Some(Desk { lane }),
        Err(_) => None,
    }
}

/// Takes a message of a sender, and returns whether it was taken.
pub fn sends(desk: &mut Desk, sender: u32, body: Body) -> bool
    ensures { out_of desk.new.lane.state ≡ out_of desk.old.lane.state }
{
    if sender >= desk.lane.senders() {
        return false;
    }
    let mail = Mail {
        sender,
        number: 0,
        body,
    };
    take(&mut desk.lane, mail).is_none()
}

/// What an operation does: it stores this source, or deletes if that is empty.
pub fn action_of(alloc: Global, source: &str) -> Result<Action, ActionFault> {
    if source.is_empty() {
        Ok(Action::delete())
    } else {
        Action::index(alloc, source)
    }
}

// An operation of the first producer.
fn op_of(alloc: Global, number: u64, id: &str, source: &str) -> Result<Op, ActionFault> {
    Ok(Op {
        epoch: 0,
        producer: 0,
        number,
        key: DocKey::new(alloc, "b", id)?,
        action: action_of(alloc, source)?,
    })
}

/// Puts an operation of the first producer on a document of the index `b`, and returns whether it
/// was taken. Without a source it deletes.
pub fn puts(alloc: Global, desk: &mut Desk, number: u64, id: &str, source: &str) -> bool
    ensures { out_of desk.new.lane.state ≡ out_of desk.old.lane.state }
{
    match op_of(alloc, number, id, source) {
        Ok(op) => sends(desk, 0, Body::Put(op)),
        Err(_) => false,
    }
}

/// A desk whose lane took an operation on each of these documents in turn, numbered from 0. `None`:
/// an allocation failed, or one was not taken.
pub fn filled(alloc: Global, config: RelayConfig, ids: &[&str], source: &str) -> Option<Desk>
    ensures { IfSome result (λ d. out_of d.lane.state ≡ []) }
{
    let mut desk = desk_of(alloc, config)?;
    for i in 0..ids.len() {
        if !puts(alloc, &mut desk, i as u64, ids[i], source) {
            return None;
        }
    }
    Some(desk)
}

/// Closes the producer and the control, and returns whether the lane is closed.
pub fn closes(desk: &mut Desk) -> bool
    ensures { out_of desk.new.lane.state ≡ out_of desk.old.lane.state }
{
    sends(desk, 0, Body::Done) && sends(desk, 1, Body::Done) && desk.lane.closed()
}
