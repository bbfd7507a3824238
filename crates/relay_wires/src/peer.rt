//! What is at the far end of streams.
ghost use Rattle.std.specs.Prelude.{◌≡◌, ℕ, List, Bool, Option, Some, None, Ok, IsTrue, IsFalse};
ghost use Rattle.std.specs.Prelude.{MatchResult};
ghost use Rattle.relay_action.specs.declared.write.Write.{Write};
ghost use Rattle.relay_results.specs.Outside.{Outside, Answer, Sends, Answers, after};
ghost use Rattle.relay_http.specs.Connection.{HasNone};
ghost use Rattle.relay_wires.specs.Peers.{Serves, Drops};

use relay_action::ByteStream;
use std::alloc::AllocError;

/// What is at the far end of the streams of a wire: an index, or whatever else reads the requests
/// and writes the replies.
///
/// It may be described: then each outside that fits it before a call leads, by runs of requests
/// that were sent, to one that fits it afterwards, and what is left to read on the stream is honest:
/// a whole reply of status 200 whose entries match the request has the outcomes of runs of its
/// items. So a reply is not there before its request, and is not that of another. If it is not
/// described, `describes` says so, and `fits` has no meaning.
pub trait Peer<S: ByteStream> {
    /// Whether it is described.
    ghost describes: { Self → Bool };

    /// The outsides that fit it.
    ghost fits: { Self → Outside → Type 0 };

    /// What it does with the request of this number that was written, and with what is left to read
    /// then; no such if allocation failed.
    ghost does: { Self → Self → ℕ → Option (List ℕ) → Option (Option (List ℕ)) → Type 0 };

    /// Lets the far end have the request with this number, which was written on this stream, before
    /// its reply is read there. For a stream to another process there is nothing to do. If it is
    /// described, nothing of what was written is left for it afterwards. `AllocError`: allocation
    /// failed at the far end, the stream is dropped, and some items may have been run.
    fn hear(&mut self, number: u64, stream: S) -> Result<S, AllocError>
        ensures describes { describes self.new ≡ describes self.old }
        // A far end that is not described leaves the stream as it is.
        ensures silent { IsFalse (describes self.old) → result ≡ Ok stream }
        ensures took { IsTrue (describes self.old)
            → MatchResult result (λ s. HasNone (S.written s)) (λ _. Unit {0}) }
        ensures does { MatchResult result
            (λ s. does self.old self.new number (S.written stream) (Some (S.left s)))
            (λ _. does self.old self.new number (S.written stream) None) }
        ensures outside { IsTrue (describes self.old) → MatchResult result
            (λ s. Serves fits self.old self.new number (S.written stream) (S.left s))
            (λ _. Drops fits self.old self.new number (S.written stream)) };

    /// An outside that fits still fits once a further request was sent.
    ghost keeps_sent: { (p : Self) (o : Outside) (ws : List Write) → fits p o
        → fits p (after (Sends ws) o) };

    /// An outside that fits still fits once a request was answered.
    ghost keeps_answered: { (p : Self) (o : Outside) (place : ℕ) (a : Answer) → fits p o
        → fits p (after (Answers place a) o) };
}

/// A far end of which nothing is known, as that of a socket. No outside fits it.
#[derive(Drop)]
pub struct Unknown;

impl<S: ByteStream> Peer<S> for Unknown {
    ghost use Rattle.std.specs.Prelude.{false};

    ghost describes = { λ p. false };

    ghost fits = { λ p o. ⊥ };

    ghost does = { λ p q number written left. Unit {0} };

    fn hear(&mut self, _number: u64, stream: S) -> Result<S, AllocError> {
        Ok(stream)
    }

    ghost keeps_sent = { λ p o ws none. none };

    ghost keeps_answered = { λ p o place a none. none };
}
