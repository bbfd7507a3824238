//! Where connections come from.
ghost use Rattle.std.specs.Prelude.{◌≡◌, IfOk, OnErr};
ghost use Rattle.relay_http.specs.Listening.{Listening, shown_by, HandsOut, after_failure};
ghost use Rattle.relay_http.specs.Listening.{with_done};

use relay_action::ByteStream;
use thiserror::Error;

/// No connection could be accepted. The call is not repeated.
#[derive(Clone, Copy, Debug, PartialEq, Eq, Error)]
#[error("accept failed")]
pub struct AcceptFailed;

/// Provides the streams of connections, one after another, and takes them back when the connections
/// are over.
pub trait Listen<S: ByteStream> {
    /// What it shows of the connections, and how many calls failed.
    ghost shows: { Self → Listening };

    /// Accepts the next connection, and returns its stream. [`AcceptFailed`]: none was accepted.
    fn accept(&mut self) -> Result<S, AcceptFailed>
        ensures ok { IfOk result
            (λ s. HandsOut (shows self.old) (shown_by (S.left s) (S.written s) (S.failed s))
            (shows self.new)) }
        ensures err { OnErr result (shows self.new ≡ after_failure (shows self.old)) };

    /// Takes back the stream of a connection that is over.
    fn close(&mut self, stream: S)
        ensures { shows self.new
            ≡ with_done (shows self.old)
            (shown_by (S.left stream) (S.written stream) (S.failed stream)) };
}
