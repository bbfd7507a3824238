//! Streams that can tell whether something arrived.
ghost use Rattle.std.specs.Prelude.{◌≡◌, false, IsTrue};
ghost use Rattle.relay_http.specs.Connection.{HasNone};

use relay_action::{ByteStream, MemStream, StdStream};
use std::io::ErrorKind;
use std::net::OpenStream;

/// A stream that can tell, without waiting, whether something has arrived that was not read.
pub trait Peek: ByteStream {
    /// Whether nothing has arrived that was not read: neither a byte nor the end of the stream. It
    /// does not wait, and it reads nothing. A stream that shows a byte that is left is not quiet.
    fn is_quiet(&self) -> bool
        ensures { IsTrue result → HasNone (Self.left self.now) };

    /// Whether the call that failed last ran out of time. A stream without a time limit says that
    /// it did not.
    fn has_timed_out(&self) -> bool {
        false
    }
}

impl Peek for MemStream {
    /// Never: all of its bytes have arrived, and the end after them.
    fn is_quiet(&self) -> bool
        ensures { result ≡ false }
    {
        false
    }
}

impl<T: OpenStream> Peek for StdStream<T> {
    /// Whether nothing has arrived that was not read. It asks the socket for a byte without waiting
    /// and without taking it. Any result other than "none yet" means that it is not quiet: a byte,
    /// the end, or an error.
    fn is_quiet(&self) -> bool {
        let socket = self.get_ref();
        if socket.set_nonblocking(true).is_err() {
            return false;
        }
        let quiet = match socket.peek(&mut [0; 1]) {
            Ok(_) => false,
            Err(error) => error.kind() == ErrorKind::WouldBlock,
        };
        quiet && socket.set_nonblocking(false).is_ok()
    }
}
