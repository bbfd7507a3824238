//! The control's handle, which sends ticks and flushes to all lanes.
ghost use Rattle.std.specs.Prelude.{◌≡◌, ◌+◌, ◌↔◌, false, map, IfOk};
ghost use Rattle.std.specs.List.{All, count_by};
ghost use Rattle.relay_action.specs.declared.mail.Body.TheVariants.{Tick, Flush};
ghost use Rattle.relay_producer.specs.Ends.{open_end, open_puts, closed_puts, identities, is_gone};
ghost use Rattle.relay_producer.specs.Ends.{count_sent, IsSentToAll, IsClosedBy, ClosesAll};
ghost use Rattle.relay_producer.specs.Puts.{HaveNoPuts};
ghost use Rattle.relay_producer.specs.States.{AreFresh, HasLanes};

use crate::ends::{ClosedEnd, OpenEnd};
use crate::lanes::{Signal, close_all, count_closed_gone, count_gone, open_all, send_to_all};
use relay_queue::LanePut;
use std::alloc::{AllocError, Global};
use std::marker::Model;
use std::sync::Wait;

/// The control's handle. The control is a sender like the producers, numbered one above the last of
/// them, but sends no operations. Contracts see its number and its end of each lane's queue.
///
/// Once a lane's queue reports that the lane is gone, the lane is marked, and nothing more is sent
/// to it.
#[derive(Drop)]
pub struct Control {
    sender: u32,
    ends: Vec<OpenEnd>,
    closed: Vec<ClosedEnd>,
}

impl Model for Control {
    ghost use Rattle.std.specs.Prelude.{◌≡◌, ◌≤◌, [], length, vec_capacity};
    ghost use Rattle.relay_producer.specs.States.{ControlState, IsControl};

    ghost Value = { ControlState };

    ghost view = { λ a. record { sender = a.sender; ends = a.ends.items } };

    ghost invariant = { λ a. IsControl (record { sender = a.sender; ends = a.ends.items })
        × (a.closed.items ≡ [])
        × (length a.ends.items ≤ vec_capacity a.closed) };
}

impl Control {
    /// The handle of the control over its ends of the queues of 1 to 8 lanes, in lane order, to
    /// which nothing was sent yet. No lane is marked. It reserves what its close needs, so no later
    /// call allocates. `AllocError`: allocation failed; the ends are dropped.
    pub fn new(alloc: Global, sender: u32, puts: Vec<LanePut>) -> Result<Control, AllocError>
        requires lanes { HasLanes puts.items }
        requires fresh { AreFresh sender puts.items }
        ensures state { IfOk result
            (λ c. c ≡ record { sender = sender; ends = map open_end puts.items }) }
        ensures puts { IfOk result (λ c. open_puts c.ends ≡ puts.items) }
        ensures no_puts { IfOk result (λ c. HaveNoPuts (open_puts c.ends)) }
    {
        let closed = Vec::with_capacity(alloc, puts.len())?;
        let ends = open_all(alloc, puts)?;
        Ok(Control {
            sender,
            ends,
            closed,
        })
    }

    /// Sends a tick to each lane that is not marked, marks those that are found gone, and returns
    /// the number of queues that took it. It waits for no lane and does not allocate: a tick for a
    /// lane that has not taken its last one, or whose queue is full, is dropped. A queue takes at
    /// most 2^40 messages from the control.
    pub fn tick<R: Wait>(&mut self, rt: &R) -> u32
        ensures sent { IsSentToAll Tick self.old.ends self.new.ends }
        ensures count { count_sent self.old.ends + result ≡ count_sent self.new.ends }
        ensures sender { self.new.sender ≡ self.old.sender }
        ensures same { identities (open_puts self.new.ends) ≡ identities (open_puts self.old.ends) }
        ensures no_puts { HaveNoPuts (open_puts self.new.ends) }
    {
        send_to_all(rt, &mut self.ends, Signal::Tick)
    }

    /// Sends a flush, as `tick` sends a tick: it waits for no lane, and a lane whose queue is full
    /// is not sent it.
    pub fn flush<R: Wait>(&mut self, rt: &R) -> u32
        ensures sent { IsSentToAll Flush self.old.ends self.new.ends }
        ensures count { count_sent self.old.ends + result ≡ count_sent self.new.ends }
        ensures sender { self.new.sender ≡ self.old.sender }
        ensures same { identities (open_puts self.new.ends) ≡ identities (open_puts self.old.ends) }
        ensures no_puts { HaveNoPuts (open_puts self.new.ends) }
    {
        send_to_all(rt, &mut self.ends, Signal::Flush)
    }

    /// Sends Done to each lane that is not marked, in lane order, and marks those that are found
    /// gone. It waits while a queue is full, and does not allocate.
    pub fn close<R: Wait>(self, rt: &R) -> ClosedControl
        ensures closed { ClosesAll self.ends result.ends }
        ensures sender { result.sender ≡ self.sender }
        ensures ends { identities (closed_puts result.ends) ≡ identities (open_puts self.ends) }
        ensures no_puts { HaveNoPuts (closed_puts result.ends) }
    {
        let Control {
            sender,
            ends,
            closed,
        } = self;
        let ends = close_all(rt, ends, closed);
        ClosedControl { sender, ends }
    }

    /// The number of marked lanes.
    pub fn gone(&self) -> u32
        ensures { result ≡ count_by (λ e. e.gone) self.now.ends }
    {
        count_gone(&self.ends)
    }
}

/// The handle of the control after its close. Contracts see its number and its end of each lane's
/// queue, to which no operation was sent.
#[derive(Drop)]
pub struct ClosedControl {
    sender: u32,
    ends: Vec<ClosedEnd>,
}

impl Model for ClosedControl {
    ghost use Rattle.relay_producer.specs.States.{ClosedControlState, IsClosedControl};

    ghost Value = { ClosedControlState };

    ghost view = { λ a. record { sender = a.sender; ends = a.ends.items } };

    ghost invariant = { λ a. IsClosedControl (record { sender = a.sender; ends = a.ends.items }) };
}

impl ClosedControl {
    /// The number of marked lanes: those that were found gone, before or at the close, and were
    /// sent no Done.
    pub fn gone(&self) -> u32
        ensures count { result ≡ count_by is_gone self.now.ends }
        ensures none { result ≡ 0 ↔ All (λ e. is_gone e ≡ false) self.now.ends }
    {
        count_closed_gone(&self.ends)
    }

    /// The ends of the lanes' queues, in lane order, each closed or of a marked lane. Whoever joins
    /// the lanes compares them with what the lanes took.
    pub fn into_ends(self) -> Vec<ClosedEnd>
        ensures ends { result.items ≡ self.ends }
        ensures lanes { HasLanes self.ends }
        ensures closed { All (IsClosedBy self.sender) self.ends }
        ensures no_puts { HaveNoPuts (closed_puts self.ends) }
    {
        let ClosedControl { ends, .. } = self;
        ends
    }
}
