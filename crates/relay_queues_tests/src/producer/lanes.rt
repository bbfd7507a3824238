//! Lanes with two producers and the control, and what their takers find.
ghost use Rattle.std.specs.Prelude.{◌≡◌, ◌+◌, ◌<◌, ◌≤◌, ℕ, length, IfOk, OnOk};
ghost use Rattle.relay_queue.specs.Ends.{Queue, fresh_puts};
ghost use Rattle.relay_producer.specs.States.{AreFresh};

use relay_action::{Action, Body, DocKey, Mail};
use relay_queue::{LanePut, LaneTake, lane_queue};
use std::alloc::{AllocError, Global};
use std::sync::Wait;

/// The ends of some lanes' queues, by lane: those of the takers, of two producers and of the
/// control.
#[derive(Drop)]
pub struct Lanes {
    pub takes: Vec<LaneTake>,
    pub first: Vec<LanePut>,
    pub second: Vec<LanePut>,
    pub control: Vec<LanePut>,
}

// Moves the last end of a queue to the ends of its sender.
fn deal(row: &mut Vec<LanePut>, puts: &mut Vec<LanePut>) -> Result<(), AllocError>
    ensures length { OnOk result (length row.new.items ≡ length row.old.items + 1) }
    ensures row { OnOk result ((queue : Queue) (n : ℕ) → puts.old.items ≡ fresh_puts queue (n + 1)
        → AreFresh n row.old.items → AreFresh n row.new.items) }
    ensures puts { OnOk result ((queue : Queue) (n : ℕ) → puts.old.items ≡ fresh_puts queue (n + 1)
        → puts.new.items ≡ fresh_puts queue n) }
{
    let Some(put) = puts.pop() else {
        return Err(AllocError);
    };
    Ok(row.push(put)?)
}

// One more lane.
fn add_lane(alloc: Global, capacity: u32, lanes: &mut Lanes) -> Result<(), AllocError>
    requires { (0 < capacity) × (capacity ≤ 65536) }
    ensures first { OnOk result
        (AreFresh 0 lanes.old.first.items → AreFresh 0 lanes.new.first.items) }
    ensures second { OnOk result
        (AreFresh 1 lanes.old.second.items → AreFresh 1 lanes.new.second.items) }
    ensures control { OnOk result
        (AreFresh 2 lanes.old.control.items → AreFresh 2 lanes.new.control.items) }
    ensures length { OnOk result ((length lanes.new.first.items ≡ length lanes.old.first.items + 1)
        × (length lanes.new.second.items ≡ length lanes.old.second.items + 1)
        × (length lanes.new.control.items ≡ length lanes.old.control.items + 1)) }
{
    let (take, mut puts) = lane_queue(alloc, capacity, 3)?;
    lanes.takes.push(take)?;
    deal(&mut lanes.control, &mut puts)?;
    deal(&mut lanes.second, &mut puts)?;
    deal(&mut lanes.first, &mut puts)?;
    Ok(())
}

/// This many lanes, each with a queue of this many places.
pub fn make(alloc: Global, count: u32, capacity: u32) -> Result<Lanes, AllocError>
    requires { (0 < capacity) × (capacity ≤ 65536) }
    ensures first { IfOk result
        (λ r. AreFresh 0 r.first.items × (length r.first.items ≡ count)) }
    ensures second { IfOk result
        (λ r. AreFresh 1 r.second.items × (length r.second.items ≡ count)) }
    ensures control { IfOk result
        (λ r. AreFresh 2 r.control.items × (length r.control.items ≡ count)) }
{
    let mut lanes = Lanes {
        takes: Vec::new(alloc),
        first: Vec::new(alloc),
        second: Vec::new(alloc),
        control: Vec::new(alloc),
    };
    for _lane in 0..count {
        add_lane(alloc, capacity, &mut lanes)?;
    }
    Ok(lanes)
}

/// The document of an id; it tries once more if an allocation fails.
pub fn document(alloc: Global, id: &str) -> Option<DocKey> {
    match DocKey::new(alloc, "books", id) {
        Ok(key) => Some(key),
        Err(_) => DocKey::new(alloc, "books", id).ok(),
    }
}

/// What a message should say.
#[derive(Clone, Copy)]
pub enum Said {
    /// A delete, as the operation of the sender with this number.
    Put(u64),
    Tick,
    Flush,
    Done,
}

fn says(mail: &Mail, said: Said) -> bool {
    match (&mail.body, said) {
        (Body::Put(op), Said::Put(number)) => {
            op.producer == mail.sender
                && op.number == number
                && matches!(&op.action, Action::Delete)
        }
        (Body::Tick, Said::Tick) => true,
        (Body::Flush, Said::Flush) => true,
        (Body::Done, Said::Done) => true,
        _ => false,
    }
}

/// Whether the next message is this one of this sender, and says this.
pub fn takes<R: Wait>(rt: &R, take: &mut LaneTake, sender: u32, number: u64, said: Said) -> bool {
    match take.take(rt) {
        Ok(mail) => mail.sender == sender && mail.number == number && says(&mail, said),
        Err(_) => false,
    }
}
