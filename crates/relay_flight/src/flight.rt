//! The table of requests in flight.
ghost use Rattle.std.specs.Prelude.{◌≡◌, ℕ, ◌^◌, ◌<◌, ◌==◌, [], length, IfOk, OnOk, IfErr, IfNone};
ghost use Rattle.std.specs.Prelude.{MatchOption, is_ok, None, Some, if◌then◌else◌, nat_lt};
ghost use Rattle.std.specs.Prelude.{position, option_map};
ghost use Rattle.std.specs.Option.{option_copied};
ghost use Rattle.relay_flight.specs.InFlight.{InFlight, IsInFlight, has_number, request_at};
ghost use Rattle.relay_flight.specs.InFlight.{with_request, without_request, IsOldest};

use crate::full::Full;
use crate::request::Request;
use relay_action::Write;
use relay_batch::Batch;
use std::alloc::{AllocError, Global};
use std::marker::Model;

/// The requests in flight, by number. Contracts see it as the maximum number of requests in flight,
/// the next number, and the requests in ascending order of their numbers.
#[derive(Debug, Drop)]
pub struct Flight {
    max: u32,
    next: u64,
    held: Vec<Request>,
}

impl Model for Flight {
    ghost use Rattle.std.specs.Prelude.{◌<◌, ◌≤◌, ◌^◌, vec_capacity};
    ghost use Rattle.relay_flight.specs.InFlight.{InFlight, IsInFlight};

    ghost Value = { InFlight };

    ghost view = { λ f. record { max = f.max; next = f.next; requests = f.held.items } };

    ghost invariant = { λ f. record {
      flight : IsInFlight (record { max = f.max; next = f.next; requests = f.held.items });
      room : f.max ≤ vec_capacity f.held;
      counted : f.max < 2 ^ 32;
    } };
}

impl Flight {
    /// An empty table for at most `max` requests. It reserves all their places, so no later call
    /// allocates. `AllocError`: that allocation failed.
    pub fn new(alloc: Global, max: u32) -> Result<Flight, AllocError>
        ensures { IfOk result (λ f. f ≡ record { max = max; next = 1; requests = [] }) }
    {
        Ok(Flight {
            max,
            next: 1,
            held: Vec::with_capacity(alloc, max as usize)?,
        })
    }

    /// Adds a request of this batch and these writes, and returns its number: 1 for the first, then
    /// 2 and so on. The next number must be below 2^63. [`Full`] is returned exactly if `max`
    /// requests are in flight; it hands both back, and nothing has changed.
    pub fn enter(&mut self, batch: Batch, writes: Vec<Write>) -> Result<u64, Full>
        requires { self.old.next < 2 ^ 63 }
        ensures room { is_ok result ≡ nat_lt (length self.old.requests) self.old.max }
        ensures number { IfOk result (λ no. no ≡ self.old.next) }
        ensures ok { OnOk result (self.new
            ≡ with_request (record
            { number = self.old.next; batch = batch; writes = writes }) self.old) }
        ensures batch { IfErr result (λ f. f.batch ≡ batch) }
        ensures writes { IfErr result (λ f. f.writes ≡ writes) }
        ensures unchanged { IfErr result (λ _. self.new ≡ self.old) }
        ensures looked_up { IfOk result (λ no. (k : ℕ) → request_at k self.new
            ≡ (if k == no then Some (record { number = no; batch = batch; writes = writes }) else
            request_at k self.old)) }
        ensures fresh { IfOk result (λ no. request_at no self.old ≡ None) }
        ensures kept { IsInFlight self.new }
    {
        if self.held.len() >= self.max as usize {
            return Err(Full { batch, writes });
        }
        let number = self.next;
        self.held.push_reserved(Request {
            number,
            batch,
            writes,
        });
        self.next += 1;
        Ok(number)
    }

    /// The next number, from 1.
    pub fn next(&self) -> u64
        ensures next { result ≡ self.now.next }
        ensures kept { IsInFlight self.now }
    {
        self.next
    }

    fn place(&self, number: u64) -> Option<usize>
        ensures { result ≡ position (has_number number) self.now.requests }
    {
        self.held
            .iter()
            .position(|request| request.number == number)
    }

    /// The batch of the request with this number, or `None` if it is not in flight.
    pub fn batch(&self, number: u64) -> Option<&Batch>
        ensures { option_copied result ≡ option_map (λ r. r.batch) (request_at number self.now) }
    {
        let at = self.place(number)?;
        Some(&self.held[at].batch)
    }

    /// The writes of the request with this number, in the order of its batch, or `None` if it is
    /// not in flight.
    pub fn writes(&self, number: u64) -> Option<&[Write]>
        ensures { option_map (λ ws. ws.now) result
            ≡ option_map (λ r. r.writes.items) (request_at number self.now) }
    {
        let at = self.place(number)?;
        Some(self.held[at].writes.as_slice())
    }

    /// Removes the request with this number from the table. `None`: it is not in flight, and
    /// nothing has changed.
    pub fn settle(&mut self, number: u64) -> Option<Request>
        ensures request { result ≡ request_at number self.old }
        ensures after { self.new ≡ without_request number self.old }
        ensures unchanged { IfNone result (self.new ≡ self.old) }
        ensures looked_up { (k : ℕ) →
            request_at k self.new ≡ (if k == number then None else request_at k self.old) }
        ensures kept { IsInFlight self.new }
    {
        let at = self.place(number)?;
        Some(self.held.remove(at))
    }

    /// The lowest number in flight, or `None` if there is none.
    pub fn oldest(&self) -> Option<u64>
        ensures { MatchOption result (self.now.requests ≡ []) (λ no. IsOldest no self.now) }
    {
        let request = self.held.first()?;
        Some(request.number)
    }

    /// The number of requests in flight.
    pub fn flying(&self) -> u32
        ensures { result ≡ length self.now.requests }
    {
        self.held.len() as u32
    }
}
