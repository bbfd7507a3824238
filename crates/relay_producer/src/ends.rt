//! A sender's end of one lane's queue, before and after the close.
ghost use Rattle.std.specs.Prelude.{◌≡◌, ◌≢◌, ◌+◌, ◌^◌, length, if◌then◌else◌, IfErr, OnOk};

use relay_action::Body;
use relay_queue::{ClosedPut, LanePut, OfferRefusal, PutRefusal};
use std::sync::Wait;

/// A sender's end of one lane's queue.
#[derive(Drop)]
pub struct OpenEnd {
    /// The end of the queue.
    pub put: LanePut,
    /// Whether the lane was found gone. If so, nothing more is sent to it.
    pub gone: bool,
}

/// A sender's end of one lane's queue, after the close.
#[derive(Drop)]
pub enum ClosedEnd {
    /// The lane was sent Done.
    Closed(ClosedPut),
    /// The lane was found gone, and was sent no Done.
    Gone(LanePut),
}

impl OpenEnd {
    ghost use Rattle.relay_producer.specs.Ends.{Takes, IsSent, with_mark, Closes};

    // Sends a message other than Done, unless the lane was found gone before, and marks it if it is
    // found gone now. It waits while the queue is full. An error returns the body.
    pub(crate) fn send<R: Wait>(&mut self, rt: &R, body: Body) -> Result<(), (PutRefusal, Body)>
        requires { body ≢ Body.Done }
        ensures sent { OnOk result (Takes body self.old self.new) }
        ensures back { IfErr result (λ e. e.1 ≡ body) }
        ensures gone { IfErr result (λ e. e.0 ≡ PutRefusal.Gone → self.new ≡ with_mark self.old) }
        ensures spent { IfErr result (λ e. e.0 ≡ PutRefusal.Spent
            → (length self.old.put.sent ≡ 2 ^ 40) × (self.new ≡ self.old)) }
    {
        if self.gone {
            return Err((PutRefusal::Gone, body));
        }
        let (refusal, body) = match self.put.put(rt, body) {
            Ok(_) => return Ok(()),
            Err(refused) => refused,
        };
        if refusal == PutRefusal::Gone {
            self.gone = true;
        }
        Err((refusal, body))
    }

    // Sends a message other than Done if that needs no wait, unless the lane was found gone before,
    // and marks it if it is found gone now. Returns whether the queue took it.
    pub(crate) fn signal<R: Wait>(&mut self, rt: &R, body: Body) -> bool
        requires { body ≢ Body.Done }
        ensures sent { IsSent body self.old self.new }
        ensures count { length self.new.put.sent
            ≡ length self.old.put.sent + (if result then 1 else 0) }
    {
        if self.gone {
            return false;
        }
        match self.put.offer(rt, body) {
            Ok(_) => true,
            Err((OfferRefusal::Gone, _)) => {
                self.gone = true;
                false
            }
            Err(_) => false,
        }
    }

    // Sends Done, unless the lane was found gone. It waits while the queue is full.
    pub(crate) fn close<R: Wait>(self, rt: &R) -> ClosedEnd
        ensures { Closes self result }
    {
        let OpenEnd { put, gone } = self;
        if gone {
            return ClosedEnd::Gone(put);
        }
        match put.close(rt) {
            Ok(closed) => ClosedEnd::Closed(closed),
            Err((_, put)) => ClosedEnd::Gone(put),
        }
    }
}
