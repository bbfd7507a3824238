//! A stream with a read-ahead window.
ghost use Rattle.std.specs.Prelude.{◌≡◌, ◌<◌, ◌≤◌, length, OnErr, OnOk, IfOk, Err};
ghost use Rattle.std.specs.Prelude.{if◌then◌else◌, is_ok};
ghost use Rattle.std.specs.Io.KnownBytes.{IsAtEnd};
ghost use Rattle.relay_action.specs.Streams.{one_more};
ghost use Rattle.relay_http.specs.Steps.{pending, Grown};
ghost use Rattle.relay_http.specs.Window.{window_size};

use crate::fault::HttpFault;
use crate::window::Window;
use relay_action::ByteIn;

/// A stream, and the window of what was read ahead of it.
#[derive(Drop)]
pub struct Buffered<S> {
    pub(crate) stream: S,
    pub(crate) window: Window,
}

impl<S: ByteIn + Drop> Buffered<S> {
    // Reads more bytes, and returns how many. 0 means the end of the stream.
    pub(crate) fn fill(&mut self) -> Result<usize, HttpFault>
        requires { length self.old.window < window_size }
        ensures bytes { IfOk result
            (Grown self.old.window self.new.window (S.left self.old.stream)
            (S.left self.new.stream)) }
        ensures bound { length self.new.window ≤ window_size }
        ensures err { OnErr result (result ≡ Err HttpFault.Read) }
        ensures count { S.failed self.new.stream
            ≡ (if is_ok result then S.failed self.old.stream else one_more
            (S.failed self.old.stream)) }
        ensures written { S.written self.new.stream ≡ S.written self.old.stream }
    {
        self.window
            .fill(&mut self.stream)
            .map_err(|_| HttpFault::Read)
    }

    // Fills the window if it is empty.
    pub(crate) fn ready(&mut self) -> Result<(), HttpFault>
        ensures stands { OnOk result (pending S.left self.new ≡ pending S.left self.old) }
        ensures end { OnOk result (length self.new.window ≡ 0 → IsAtEnd (S.left self.new.stream)) }
        ensures bound { length self.new.window ≤ window_size }
        ensures err { OnErr result (result ≡ Err HttpFault.Read) }
        ensures count { S.failed self.new.stream
            ≡ (if is_ok result then S.failed self.old.stream else one_more
            (S.failed self.old.stream)) }
        ensures written { S.written self.new.stream ≡ S.written self.old.stream }
    {
        if !self.window.as_slice().is_empty() {
            return Ok(());
        }
        self.fill()?;
        Ok(())
    }
}
