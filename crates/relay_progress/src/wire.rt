//! A counted wire.
ghost use Rattle.std.specs.Prelude.{◌≡◌, is_some, true};
ghost use Rattle.relay_results.specs.Verdicts.{is_sent_again, verdict_of};

use crate::counts::{Counts, Shared};
use relay_action::Write;
use relay_lane::{Loss, Wire, WireReply};
use relay_results::{ItemVerdict, Outcome, verdict};
use std::alloc::Global;
use std::marker::Model;

/// A wire that wraps another, and counts requests and operations and what goes wrong with them, if it
/// has counts. It keeps the promises of the wire inside, which is what contracts see.
#[derive(Drop)]
pub struct CountedWire<W> {
    wire: W,
    alloc: Global,
    counts: Option<Shared>,
    // The outstanding requests, and the number of operations in each. If allocating an entry
    // failed, it is missing, and the request counts as having none.
    sizes: Vec<(u64, u64)>,
}

impl<W> Model for CountedWire<W> {
    ghost Value = { W };

    ghost view = { λ w. w.wire };
}

impl<W> CountedWire<W> {
    /// A wire that adds to these counts. It does not allocate.
    pub fn new(alloc: Global, wire: W, counts: Option<Shared>) -> CountedWire<W>
        ensures { result ≡ wire }
    {
        CountedWire {
            wire,
            alloc,
            counts,
            sizes: Vec::new(alloc),
        }
    }
}

impl<W: Wire> Wire for CountedWire<W> {
    ghost out = { λ w. W.out w };

    ghost describes = { λ w. W.describes w };

    ghost fits = { λ w o. W.fits w o };

    ghost carries = { λ v x w. W.carries v x w };

    fn send(&mut self, number: u64, writes: &[Write]) -> Result<(), Loss> {
        let result = self.wire.send(number, writes);
        if let Some(counts) = &self.counts {
            count_sent(
                counts,
                &mut self.sizes,
                number,
                writes.len() as u64,
                &result,
            );
        }
        result
    }

    fn receive(&mut self, number: u64) -> Result<WireReply, Loss> {
        let result = self.wire.receive(number);
        if let Some(counts) = &self.counts {
            let operations = take_size(&mut self.sizes, number);
            count_received(counts, operations, &result);
            note_received(counts, self.alloc, operations, &result);
        }
        result
    }

    fn has_answer(&self, number: u64) -> bool {
        self.wire.has_answer(number)
    }
}

// Counts a request that was sent, or could not be sent.
fn count_sent(
    counts: &Counts,
    sizes: &mut Vec<(u64, u64)>,
    number: u64,
    operations: u64,
    sent: &Result<(), Loss>,
) {
    counts.add_request(operations);
    match sent {
        Ok(()) => {
            let _ = sizes.push((number, operations));
        }
        Err(loss) => {
            counts.add_loss(operations);
            counts.note_failure(*loss);
        }
    }
}

// The number of operations in the outstanding request with this number.
fn take_size(sizes: &mut Vec<(u64, u64)>, number: u64) -> u64 {
    match sizes.iter().position(|size| size.0 == number) {
        Some(place) => sizes.swap_remove(place).1,
        None => 0,
    }
}

// Counts the answer to a request with this many operations.
fn count_received(counts: &Counts, operations: u64, came: &Result<WireReply, Loss>) {
    match came {
        Ok(WireReply::Items(outcomes)) => count_entries(counts, operations, outcomes),
        Ok(WireReply::Whole(status, _)) if is_sent_again(*status, operations) => {
            counts.add_answer(0, 0, operations);
        }
        Ok(WireReply::Whole(_, _)) => counts.add_answer(0, operations, 0),
        Err(_) => counts.add_loss(operations),
    }
}

// Notes what is wrong with what came for a request with this many operations.
fn note_received(counts: &Counts, alloc: Global, operations: u64, came: &Result<WireReply, Loss>) {
    match came {
        Ok(reply) => {
            counts.note_answer(status_of(reply));
            note_reply(counts, alloc, operations, reply);
        }
        Err(loss) => counts.note_failure(*loss),
    }
}

// The status of a reply: entries come with 200.
fn status_of(reply: &WireReply) -> u16 {
    match reply {
        WireReply::Items(_) => 200,
        WireReply::Whole(status, _) => *status,
    }
}

// Notes the refusals of a reply to a request with this many operations: one with several that is too
// large is sent again in halves.
fn note_reply(counts: &Counts, alloc: Global, operations: u64, reply: &WireReply) {
    match reply {
        WireReply::Items(outcomes) => {
            for outcome in outcomes {
                note_outcome(counts, alloc, outcome);
            }
        }
        WireReply::Whole(413, _) if operations >= 2 => counts.note_too_large(),
        WireReply::Whole(status, _) => counts.note_refusal(alloc, *status, None),
    }
}

// Notes a refusal. A conflict is none: only the lane can tell whose version was stored.
fn note_outcome(counts: &Counts, alloc: Global, outcome: &Outcome) {
    let Some(error) = &outcome.error else {
        return;
    };
    if outcome.status != 409 {
        counts.note_refusal(alloc, outcome.status, Some(error.detail().kind.as_str()));
    }
}

// Counts the entries of an answer to a request with this many operations.
fn count_entries(counts: &Counts, operations: u64, outcomes: &[Outcome]) {
    let mut settled = 0u64;
    let mut refused = 0u64;
    for outcome in outcomes {
        match verdict_on(outcome) {
            ItemVerdict::Applied | ItemVerdict::Already => settled = settled.saturating_add(1),
            ItemVerdict::Refused => refused = refused.saturating_add(1),
            _ => {}
        }
    }
    let others = operations.saturating_sub(settled).saturating_sub(refused);
    counts.add_answer(settled, refused, others);
}

// The lane's verdict on an entry, as if its operation had been sent before and had attempts left: of
// a conflict a wire cannot tell whose version was stored.
fn verdict_on(outcome: &Outcome) -> ItemVerdict
    ensures { result ≡ verdict_of outcome.now.kind outcome.now.status (is_some outcome.now.error)
        true 2 1 2 }
{
    verdict(
        outcome.kind,
        outcome.status,
        outcome.error.is_some(),
        true,
        2,
        1,
        2,
    )
}

// Whether the operations of a request that got this status as a whole are sent again, by the lane's
// rule.
fn is_sent_again(status: u16, operations: u64) -> bool
    ensures { result ≡ is_sent_again operations status }
{
    match status {
        413 => operations >= 2,
        429 | 502 | 503 | 504 => true,
        _ => false,
    }
}
