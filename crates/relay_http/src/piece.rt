//! The pieces of a message that are looked for at the front of the window.
ghost use Rattle.std.specs.Prelude.{◌≡◌, ◌<◌, ◌≤◌, ◌++◌, ℕ, List, Some, IfErr, Bool, length, Ok};
ghost use Rattle.std.specs.Prelude.{None, Err, IfOk, OnOk, OnErr, IsTrue, IsFalse, is_ok};
ghost use Rattle.std.specs.Prelude.{false, if◌then◌else◌, take};
ghost use Rattle.std.specs.Io.KnownBytes.{IsAtEnd};
ghost use Rattle.relay_action.specs.Streams.{one_more};
ghost use Rattle.relay_http.specs.Forms.{Fails};
ghost use Rattle.relay_http.specs.Steps.{Finds, Answers, pending};
ghost use Rattle.relay_http.specs.Connection.{is_read};
ghost use Rattle.relay_http.specs.Refusals.{PieceFault};
ghost use Rattle.relay_http.specs.Window.{window_size};

use crate::buffered::Buffered;
use crate::fault::HttpFault;
use memchr::memchr;
use relay_action::ByteIn;

/// A piece of a message, which ends with a line feed.
pub trait Piece: Copy {
    /// The bytes are this piece.
    ghost form: { List ℕ → Bool → Self → Type 0 };

    /// Its maximum length, in bytes.
    ghost size: { ℕ };

    /// The bytes break its grammar, whatever follows them.
    ghost breaks: { List ℕ → Type 0 };

    /// The bytes exceed one of its limits.
    ghost overruns: { List ℕ → Type 0 };

    /// Its maximum length, in bytes.
    fn most() -> usize
        ensures { (result ≡ Self.size) × (result ≤ window_size) };

    /// Looks for the piece at the front of the bytes, and returns it with its length. `None`: more
    /// bytes may complete one.
    fn find(buf: &[u8]) -> Result<Option<(Self, usize)>, HttpFault>
        requires { length buf.now ≤ window_size }
        ensures found { Finds Self.form buf.now result }
        ensures why { IfErr result
            (λ f. (more : List ℕ) → PieceFault Self.breaks Self.overruns (buf.now ++ more) f) }
        ensures none { result ≡ Ok None → length buf.now < Self.size };
}

impl<S: ByteIn + Drop> Buffered<S> {
    // Reads until a line feed arrives, the window has `most` bytes, or the stream ends. `false`: it
    // ended.
    fn fill_line(&mut self, most: usize) -> Result<bool, HttpFault>
        requires { (length self.old.window < most) × (most ≤ window_size) }
        ensures stands { OnOk result (pending S.left self.old ≡ pending S.left self.new) }
        ensures more { IfOk result
            (λ more. IsTrue more → length self.old.window < length self.new.window) }
        ensures longer { OnOk result (length self.old.window ≤ length self.new.window) }
        ensures ended { IfOk result (λ more. IsFalse more → IsAtEnd (S.left self.new.stream)) }
        ensures err { OnErr result (result ≡ Err HttpFault.Read) }
        ensures count { S.failed self.new.stream
            ≡ (if is_ok result then S.failed self.old.stream else one_more
            (S.failed self.old.stream)) }
        ensures written { S.written self.new.stream ≡ S.written self.old.stream }
    {
        'filling: loop {
            let before = self.window.as_slice().len();
            if self.fill()? == 0 {
                return Ok(false);
            }
            let bytes = self.window.as_slice();
            if bytes.len() >= most || memchr(b'\n', &bytes[before..]).is_some() {
                return Ok(true);
            }
        }
    }

    // Waits until a whole piece is at the front, and returns it with its length; it stays there. It
    // is parsed again only when a line feed arrives, the limit is reached or the stream ends, since
    // each piece ends with a line feed.
    pub(crate) fn await_piece<P: Piece>(&mut self) -> Result<(P, usize), HttpFault>
        ensures there { IfOk result (λ found. (found.1 ≤ length self.new.window)
            × P.form (take found.1 self.new.window) false found.0) }
        ensures stands { OnOk result (pending S.left self.old ≡ pending S.left self.new) }
        ensures fails { IfErr result
            (Fails P.form (pending S.left self.old) (S.left self.new.stream)) }
        ensures why { (stream : List ℕ) → pending S.left self.old ≡ Some stream
            → IfErr result (PieceFault P.breaks P.overruns stream) }
        ensures count { S.failed self.new.stream
            ≡ (if is_read result then one_more (S.failed self.old.stream) else S.failed
            self.old.stream) }
        ensures written { S.written self.new.stream ≡ S.written self.old.stream }
    {
        let mut ended = false;
        'reading: loop {
            match P::find(self.window.as_slice()) {
                Err(fault) => return Err(fault),
                Ok(Some(found)) => return Ok(found),
                Ok(None) => {}
            }
            if ended {
                return Err(HttpFault::Ended);
            }
            ended = !self.fill_line(P::most())?;
        }
    }

    // Reads a piece.
    pub(crate) fn read_piece<P: Piece>(&mut self) -> Result<P, HttpFault>
        ensures answer { Answers P.form (pending S.left self.old) (pending S.left self.new)
            (S.left self.new.stream) result }
        ensures why { (stream : List ℕ) → pending S.left self.old ≡ Some stream
            → IfErr result (PieceFault P.breaks P.overruns stream) }
        ensures count { S.failed self.new.stream
            ≡ (if is_read result then one_more (S.failed self.old.stream) else S.failed
            self.old.stream) }
        ensures written { S.written self.new.stream ≡ S.written self.old.stream }
    {
        match self.await_piece::<P>() {
            Ok(found) => {
                self.window.skip(found.1);
                Ok(found.0)
            }
            Err(fault) => Err(fault),
        }
    }
}
