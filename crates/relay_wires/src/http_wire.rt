//! A wire over HTTP connections.
ghost use Rattle.std.specs.Prelude.{◌≡◌, string_bytes, IfOk, IsTrue};
ghost use Rattle.relay_http.specs.WrittenRequest.{is_host};
ghost use Rattle.relay_results.specs.Outside.{Outside};
ghost use Rattle.relay_wires.specs.Carriers.{idle};
ghost use Rattle.relay_wires.specs.Telling.{Fits};

use crate::carrying::{bring, carry, hear, pick};
use crate::numbered::{place_of, take};
use crate::peer::Peer;
use relay_action::{ByteIn, ByteOut, ByteStream, Write};
use relay_http::{Conn, Dial, Peek};
use relay_lane::{Loss, Wire, WireReply};
use std::alloc::{AllocError, Global};
use std::collections::VecDeque;
use std::marker::Model;

/// A wire to an index over HTTP. Each outstanding request has its own connection. After a reply
/// that keeps the connection, and beyond which no byte was read, the connection is free; free
/// connections are used before another one is dialled. After a fault the connection is dropped.
///
/// Before a free connection is used again, it is checked without waiting: if a byte or the end of
/// the stream has arrived, it is dropped, since an unrequested reply would be mistaken for the
/// reply to the next request.
///
/// It describes the outside if the far end of its streams is described: then it writes each request
/// on a connection of its own, and returns for it what is honest there.
#[derive(Drop)]
pub struct HttpWire<S: ByteStream, D: Dial<S>, P: Peer<S>> {
    alloc: Global,
    dial: D,
    peer: P,
    host: String,
    most: u32,
    out: VecDeque<(u64, Conn<S>)>,
    free: Vec<Conn<S>>,
}

impl<S: ByteStream, D: Dial<S>, P: Peer<S>> Model for HttpWire<S, D, P> {
    ghost use Rattle.std.specs.Prelude.{string_bytes, vec_capacity};
    ghost use Rattle.std.specs.VecDeque.{deque_capacity};
    ghost use Rattle.relay_wires.specs.Carriers.{Carrier, IsCarrier};

    ghost Value = { Carrier P };

    ghost view = { λ w. record {
      host = string_bytes w.host;
      most = w.most;
      out = w.out.items;
      free = w.free.items;
      failed = D.failed w.dial;
      dialled = D.dialled w.dial;
      peer = w.peer;
    } };

    ghost invariant = { λ w. IsCarrier
        (record {
          host = string_bytes w.host;
          most = w.most;
          out = w.out.items;
          free = w.free.items;
          failed = D.failed w.dial;
          dialled = D.dialled w.dial;
          peer = w.peer;
        })
        (deque_capacity w.out) (vec_capacity w.free) };
}

impl<S: ByteStream + Drop, D: Dial<S> + Drop, P: Peer<S> + Drop> HttpWire<S, D, P> {
    /// A wire whose requests name this host, 1 to 255 visible ASCII characters, with at most `max`
    /// requests outstanding, over streams to this far end. It reserves a place for each request.
    /// `AllocError`: allocating the places failed.
    pub fn new(
        alloc: Global,
        dial: D,
        peer: P,
        host: String,
        max: u32,
    ) -> Result<HttpWire<S, D, P>, AllocError>
        requires { IsTrue (is_host (string_bytes host)) }
        ensures begun { IfOk result
            (λ w. w ≡ idle (string_bytes host) max (D.failed dial) (D.dialled dial) peer) }
        // Each outside that fits the far end fits the wire.
        ensures opens { IfOk result (λ w. (o : Outside) → P.fits peer o → Fits P.fits w o) }
    {
        let out = VecDeque::with_capacity(alloc, max as usize)?;
        let free = Vec::with_capacity(alloc, max as usize)?;
        Ok(HttpWire {
            alloc,
            dial,
            peer,
            host,
            most: max,
            out,
            free,
        })
    }

    /// What is at the far end.
    pub fn peer(&self) -> &P
        ensures { result.now ≡ self.now.peer }
    {
        &self.peer
    }
}

impl<S: ByteIn + ByteOut + Peek + Drop, D: Dial<S> + Drop, P: Peer<S> + Drop> Wire
    for HttpWire<S, D, P> {
    ghost use Rattle.std.specs.Prelude.{◌∷◌, ◌≤◌, length, Some, None, MatchResult};
    ghost use Rattle.relay_ndjson.specs.Bodies.{AreDealt};
    ghost use Rattle.relay_ndjson.specs.Bulk.{text_of};
    ghost use Rattle.relay_results.specs.Outside.{Lost};
    ghost use Rattle.relay_results.specs.Words.{Mem};
    ghost use Rattle.relay_lane.specs.Wires.{answer_of, IsWireReply, SendsOn, AnswersOn};
    ghost use Rattle.relay_lane.specs.Wires.{ExchangesOn, Shows, ShowsNext, without};
    ghost use Rattle.relay_wires.specs.Numbers.{numbers};
    ghost use Rattle.relay_lane.specs.Exchanges.{Receives};
    ghost use Rattle.relay_lane.specs.Exchanges as passed;
    ghost use Rattle.relay_wires.specs.Carriers.{Sends, Brings, Carried};

    ghost out = { λ w. numbers w.out };

    ghost describes = { λ w. P.describes w.peer };

    ghost fits = { λ w o. Fits P.fits w o };

    ghost carries = { λ v x w. Carried P.describes P.does v x w };

    /// Writes a request on a free connection on which nothing has arrived since it was freed, or on
    /// one that is dialled. `Refused`, `TimedOut`, `Unreachable`: the dial failed, or the maximum
    /// number of requests is outstanding, which is `Unreachable`. `Closed`, `TimedOut`: a write
    /// failed. `Memory`: an allocation failed, for the request, of which part may have been sent,
    /// or for the window of a fresh connection. After a fault the connection is dropped.
    fn send(&mut self, number: u64, writes: &[Write]) -> Result<(), Loss>
        requires fresh { Mem number (numbers self.old.out) → ⊥ }
        requires few { length writes.now ≤ 10000 }
        requires dealt { AreDealt writes.now }
        requires bytes { length (text_of writes.now) ≤ 16777216 }
        ensures out { MatchResult result
            (λ _. numbers self.new.out ≡ number ∷ numbers self.old.out)
            (λ _. numbers self.new.out ≡ numbers self.old.out) }
        ensures describes { P.describes self.new.peer ≡ P.describes self.old.peer }
        ensures outside { MatchResult result
            (λ _. ShowsNext (P.describes self.old.peer) (Fits P.fits) self.old self.new number
            (SendsOn writes.now))
            (λ why. ShowsNext (P.describes self.old.peer) (Fits P.fits) self.old self.new number
            (ExchangesOn number writes.now (Lost why))) }
        // What is written is the request with these writes. An error is the one that the fault of
        // writing it maps to; if no connection was picked, it is that of the dial, or Memory if the window of
        // a fresh one could not be allocated.
        ensures sends { Sends number writes.now self.old self.new result }
        ensures carries { MatchResult result
            (λ _. Carried P.describes P.does self.old
            (passed.Sends number writes.now None) self.new)
            (λ why. Carried P.describes P.does self.old
            (passed.Sends number writes.now (Some why)) self.new) }
    {
        if self.out.len() >= self.most as usize {
            return Err(Loss::Unreachable);
        }
        let mut conn = pick(self.alloc, &mut self.free, &mut self.dial)?;
        carry(self.alloc, &mut conn, &self.host, writes)?;
        self.out.push_front_reserved((number, conn));
        Ok(())
    }

    /// Reads the reply to a request from its connection, after the far end had the request. Status
    /// 200 returns the entries, or `Unreadable` if the body is not a reply; any other status is the
    /// answer to the request as a whole, with the reason that its body gives. `Unreadable`: what
    /// came is no reply. `Closed`, `TimedOut`: the stream ended, or a read failed. `Memory`: an
    /// allocation for the reply failed.
    fn receive(&mut self, number: u64) -> Result<WireReply, Loss>
        requires { Mem number (numbers self.old.out) }
        ensures out { numbers self.new.out ≡ without number (numbers self.old.out) }
        ensures describes { P.describes self.new.peer ≡ P.describes self.old.peer }
        ensures reply { IsWireReply result }
        ensures outside { Shows (P.describes self.old.peer) (Fits P.fits) self.old self.new
            (AnswersOn number (answer_of result)) }
        // What is returned follows from the reply that was read there, by the table of statuses.
        ensures brings { Brings P.describes P.does number self.old self.new result }
        ensures carries { Carried P.describes P.does self.old
            (Receives number (answer_of result)) self.new }
    {
        let Some(conn) = take(&mut self.out, number) else {
            unreachable!();
        };
        let conn = hear(&mut self.peer, number, conn)?;
        bring(self.alloc, conn, &mut self.free)
    }

    /// Whether something has arrived on the connection of a request: a byte or the end. A stream
    /// that shows its bytes is never quiet, so it counts as answered.
    fn has_answer(&self, number: u64) -> bool {
        match place_of(&self.out, number) {
            Some(place) => !self.out[place].1.is_quiet(),
            None => true,
        }
    }
}
