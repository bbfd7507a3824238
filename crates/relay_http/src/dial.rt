//! Where streams come from.
ghost use Rattle.std.specs.Prelude.{◌≡◌, ℕ, is_ok, if◌then◌else◌, IfOk, IfErr};
ghost use Rattle.relay_action.specs.Streams.{one_more};
ghost use Rattle.relay_http.specs.Connection.{HasNone};

use relay_action::ByteStream;
use thiserror::Error;

/// Why no stream could be opened. The call is not repeated.
#[derive(Clone, Copy, Debug, PartialEq, Eq, Error)]
pub enum DialFault {
    /// The other end refused the connection.
    #[error("connection refused")]
    Refused,
    /// The other end did not respond within the time limit.
    #[error("connection timed out")]
    TimedOut,
    /// Another reason: the address is invalid or unknown, or cannot be reached.
    #[error("dial failed")]
    Unreachable,
}

/// Opens a stream to the index for each connection.
pub trait Dial<S: ByteStream> {
    ghost use Rattle.relay_http.specs.declared.dial.DialFault.{DialFault};

    /// How many of its calls failed; it saturates at 2^64 - 1.
    ghost failed: { Self → ℕ };

    /// How many calls were made; it saturates at 2^64 - 1.
    ghost dialled: { Self → ℕ };

    /// Holds of the dial after a call and the fault that the call returned, by what the dial shows
    /// of why it failed. A dial that shows nothing of that leaves it out.
    ghost tells: { Self → DialFault → Type 0 } = { λ _ _. Unit {0} };

    /// Opens a fresh stream, on which nothing was written. [`DialFault`]: none could be opened.
    fn dial(&mut self) -> Result<S, DialFault>
        ensures failed { failed self.new
            ≡ (if is_ok result then failed self.old else one_more (failed self.old)) }
        ensures dialled { dialled self.new ≡ one_more (dialled self.old) }
        ensures tells { IfErr result (λ f. tells self.new f) }
        ensures fresh { IfOk result (λ s. HasNone (S.written s)) };
}
