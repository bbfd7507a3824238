//! Byte streams, which show contracts what went through them if they can, and count failed calls.
ghost use Rattle.std.specs.Prelude.{◌≡◌, ◌<◌, ◌≤◌, ℕ, List, length, take, Option, IfOk, IfErr};
ghost use Rattle.std.specs.Prelude.{OnOk, OnErr, is_ok, if◌then◌else◌};
ghost use Rattle.std.specs.Io.KnownBytes.{append_known, prepend_known, IsAtEnd};
ghost use Rattle.relay_action.specs.Streams.{one_more, takes_some, FailedSince};

use thiserror::Error;

/// A call of a stream failed. It moved no bytes, and is not to be repeated.
#[derive(Clone, Copy, Debug, PartialEq, Eq, Error)]
#[error("stream failed")]
pub struct StreamFailed;

/// What contracts can see of a stream. A stream that shows no bytes has `None` here, for which the
/// clauses below hold trivially.
pub trait ByteStream {
    /// The bytes that are still to be read.
    ghost left: { Self → Option (List ℕ) };

    /// The bytes written so far.
    ghost written: { Self → Option (List ℕ) };

    /// The number of failed calls; it saturates at 2^64 - 1.
    ghost failed: { Self → ℕ };
}

/// A stream to read from.
pub trait ByteIn: ByteStream {
    /// Reads bytes into the front of the buffer, and returns how many. 0 means the end of the
    /// stream, unless the buffer is empty. After [`StreamFailed`] nothing was read.
    fn read(&mut self, buffer: &mut [u8]) -> Result<usize, StreamFailed>
        ensures bound { IfOk result (λ n. n ≤ length buffer.new) }
        ensures bytes { IfOk result
            (λ n. Self.left self.old ≡ prepend_known (take n buffer.new) (Self.left self.new)) }
        ensures end { IfOk result
            (λ n. n ≡ 0 → 0 < length buffer.new → IsAtEnd (Self.left self.old)) }
        ensures err { OnErr result (Self.left self.new ≡ Self.left self.old) }
        ensures count { Self.failed self.new ≡
            (if is_ok result then Self.failed self.old else one_more (Self.failed self.old)) }
        ensures written { Self.written self.new ≡ Self.written self.old };
}

/// A stream to write to.
pub trait ByteOut: ByteStream {
    /// Writes bytes from the front of a slice, and returns how many. Taking none of one or more
    /// bytes is a failure. After [`StreamFailed`] nothing was written.
    fn write(&mut self, bytes: &[u8]) -> Result<usize, StreamFailed>
        ensures bound { IfOk result (λ n. n ≤ length bytes.now) }
        ensures bytes { IfOk result
            (λ n. Self.written self.new ≡ append_known (Self.written self.old) (take n bytes.now)) }
        ensures err { OnErr result (Self.written self.new ≡ Self.written self.old) }
        ensures count { Self.failed self.new ≡
            (if takes_some result bytes.now then Self.failed self.old else one_more
            (Self.failed self.old)) }
        ensures left { Self.left self.new ≡ Self.left self.old };
}

/// Writes all the bytes. `Err(sent)`: a write failed after exactly the first `sent` bytes, which
/// are fewer than all. The failed write is not repeated.
#[tactic(auto, using(crate::proofs::Shown::append_known_piece))]
pub fn write_all<W: ByteOut>(out: &mut W, bytes: &[u8]) -> Result<(), usize>
    ensures ok { OnOk result (W.written out.new ≡ append_known (W.written out.old) bytes.now) }
    ensures sent { IfErr result (λ sent. (sent < length bytes.now)
        × (W.written out.new ≡ append_known (W.written out.old) (take sent bytes.now))) }
    ensures failed { OnErr result (FailedSince (W.failed out.old) (W.failed out.new)) }
    ensures once { OnErr result (W.failed out.new ≡ one_more (W.failed out.old)) }
    ensures succeeded { OnOk result (W.failed out.new ≡ W.failed out.old) }
    ensures left { W.left out.new ≡ W.left out.old }
{
    let mut sent = 0;
    while sent < bytes.len() {
        match out.write(&bytes[sent..]) {
            Ok(count) if count > 0 => sent += count,
            _ => return Err(sent),
        }
    }
    Ok(())
}
