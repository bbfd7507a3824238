//! The way from a lane to an index.
ghost use Rattle.std.specs.Prelude.{◌≡◌, ◌≤◌, ◌∷◌, ℕ, List, Bool, Some, None};
ghost use Rattle.std.specs.Prelude.{length, MatchResult};
ghost use Rattle.relay_ndjson.specs.Bodies.{AreDealt};
ghost use Rattle.relay_ndjson.specs.Bulk.{text_of};
ghost use Rattle.relay_results.specs.Outside.{Outside, Lost};
ghost use Rattle.relay_results.specs.Words.{Mem};
ghost use Rattle.relay_lane.specs.Wires.{answer_of, IsWireReply, SendsOn, AnswersOn, ExchangesOn};
ghost use Rattle.relay_lane.specs.Wires.{Shows, ShowsNext, without};
ghost use Rattle.relay_lane.specs.Exchanges.{Exchange, Sends, Receives};

use relay_action::{Text, Write};
use relay_results::{Loss, Outcome};

/// What a wire returns for a request.
#[derive(Debug, Drop)]
pub enum WireReply {
    /// The entries of a readable reply of status 200. They need not match the request.
    Items(Vec<Outcome>),
    /// A status of the request as a whole, other than 200, and the reason that is given for it, if
    /// one is.
    Whole(u16, Option<Text>),
}

/// The way from a lane to an index. Requests are identified by number, from 1; a number is
/// outstanding from a `send` that returns `Ok` until its `receive`.
///
/// A wire may describe the outside: then each outside that fits it before a call leads, by that
/// call, to one that fits it afterwards. If it does not, `describes` says so, and `fits` has no
/// meaning.
///
/// Whether it describes the outside or not, `carries` says what each call passed over it. A caller
/// that is generic in its wire can say only of its own calls that they did.
pub trait Wire {
    /// The outstanding numbers.
    ghost out: { Self → List ℕ };

    /// Whether it describes the outside.
    ghost describes: { Self → Bool };

    /// The outsides that fit it.
    ghost fits: { Self → Outside → Type 0 };

    /// What it says of one exchange: the wire before it, what passed, and the wire after it.
    ghost carries: { Self → Exchange → Self → Type 0 };

    /// Sends the writes as the request with this number: at most 10,000 of them, with assigned
    /// versions, and at most 16,777,216 bytes of bulk text. After a fault the number is not
    /// outstanding, and the request counts as sent and lost.
    fn send(&mut self, number: u64, writes: &[Write]) -> Result<(), Loss>
        requires fresh { Mem number (out self.old) → ⊥ }
        requires few { length writes.now ≤ 10000 }
        requires dealt { AreDealt writes.now }
        requires bytes { length (text_of writes.now) ≤ 16777216 }
        ensures out { MatchResult result
            (λ _. out self.new ≡ number ∷ out self.old)
            (λ _. out self.new ≡ out self.old) }
        ensures describes { describes self.new ≡ describes self.old }
        ensures outside { MatchResult result
            (λ _. ShowsNext (describes self.old) fits self.old self.new number (SendsOn writes.now))
            (λ why. ShowsNext (describes self.old) fits self.old self.new number
            (ExchangesOn number writes.now (Lost why))) }
        ensures carries { MatchResult result
            (λ _. carries self.old (Sends number writes.now None) self.new)
            (λ why. carries self.old (Sends number writes.now (Some why)) self.new) };

    /// Waits for the answer to the request with this number, which is then no longer outstanding.
    fn receive(&mut self, number: u64) -> Result<WireReply, Loss>
        requires { Mem number (out self.old) }
        ensures out { out self.new ≡ without number (out self.old) }
        ensures describes { describes self.new ≡ describes self.old }
        ensures reply { IsWireReply result }
        ensures outside { Shows (describes self.old) fits self.old self.new
            (AnswersOn number (answer_of result)) }
        ensures carries { carries self.old (Receives number (answer_of result)) self.new };

    /// Whether something has arrived for the request with this number: its answer, the beginning of
    /// one, or the end of its connection. It does not wait, and it reads nothing. A wire that cannot
    /// tell returns true, since `receive` says what there is.
    fn has_answer(&self, _number: u64) -> bool {
        true
    }
}
