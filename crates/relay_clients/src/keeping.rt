//! Services that keep answers whose clients have left.
use http_server::Service;

/// A service that may keep an answer whose client has left before it was sent. What it is told changes
/// nothing that its contract sees: it answers as before.
pub trait KeepsAnswers: Service {
    /// Whether it may keep its last answer. If so, it is told what becomes of it.
    fn may_keep(&self) -> bool;

    /// The client has left before its last answer was sent, or while it was.
    fn keep(&self);

    /// The last answer was sent.
    fn let_go(&self);
}
