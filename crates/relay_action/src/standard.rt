//! Streams over the readers and writers of `std`.
ghost use Rattle.std.specs.Prelude.{◌≡◌, ◌≤◌, length, None, IfOk, is_ok, if◌then◌else◌};
ghost use Rattle.std.specs.Io.KnownBytes.{ReadConsumes, WriteAppends};
ghost use Rattle.relay_action.specs.Streams.{one_more, takes_some};

use crate::stream::{ByteIn, ByteOut, ByteStream, StreamFailed};
use std::io;
use std::marker::Model;

/// A stream over a reader or a writer of `std`. It shows no bytes, since a device has none to show,
/// and counts the calls that failed. Each call makes one call of the reader or writer, any error of
/// which becomes [`StreamFailed`]. If the contract of the reader or writer says which bytes moved,
/// so does that of the stream.
#[derive(Drop)]
pub struct StdStream<T> {
    inner: T,
    failed: u64,
}

impl<T> Model for StdStream<T> {
    ghost use Rattle.std.specs.Prelude.{ℕ};

    ghost Value = { T × ℕ };

    ghost view = { λ s. (s.inner, s.failed) };
}

impl<T> StdStream<T> {
    /// A stream over a reader or a writer.
    pub fn new(inner: T) -> StdStream<T>
        ensures { result ≡ (inner, 0) }
    {
        StdStream { inner, failed: 0 }
    }

    /// The reader or writer.
    pub fn get_ref(&self) -> &T
        ensures { result.now ≡ self.now.0 }
    {
        &self.inner
    }

    fn fail(&mut self) -> StreamFailed
        ensures { self.new ≡ (self.old.0, one_more self.old.1) }
    {
        self.failed = self.failed.saturating_add(1);
        StreamFailed
    }
}

impl<T> ByteStream for StdStream<T> {
    ghost left = { λ s. None };

    ghost written = { λ s. None };

    ghost failed = { λ s. s.1 };
}

impl<R: io::Read> ByteIn for StdStream<R> {
    fn read(&mut self, buffer: &mut [u8]) -> Result<usize, StreamFailed>
        ensures bound { IfOk result (λ n. n ≤ length buffer.new) }
        ensures count { self.new.1 ≡ (if is_ok result then self.old.1 else one_more self.old.1) }
        ensures reader { ReadConsumes (R.remaining self.old.0) (R.remaining self.new.0) result
            buffer.new }
    {
        match self.inner.read(buffer) {
            Ok(count) => Ok(count),
            Err(_) => Err(self.fail()),
        }
    }
}

impl<W: io::Write> ByteOut for StdStream<W> {
    fn write(&mut self, bytes: &[u8]) -> Result<usize, StreamFailed>
        ensures bound { IfOk result (λ n. n ≤ length bytes.now) }
        ensures count { self.new.1 ≡
            (if takes_some result bytes.now then self.old.1 else one_more self.old.1) }
        ensures writer { WriteAppends (W.contents self.old.0) (W.contents self.new.0) result
            bytes.now }
    {
        match self.inner.write(bytes) {
            Ok(0) if !bytes.is_empty() => Err(self.fail()),
            Ok(count) => Ok(count),
            Err(_) => Err(self.fail()),
        }
    }
}
