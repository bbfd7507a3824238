//! What a connection goes by while it is served.
use std::net::SocketAddr;

/// What a server tells the threads that serve its connections, and what they tell it.
pub trait Signals {
    /// Whether no further request is taken.
    fn is_ending(&self) -> bool;

    /// Whether other connections wait for a thread that serves them.
    fn are_waiting(&self) -> bool;

    /// One more connection waits for a thread that serves it.
    fn add_waiting(&self);

    /// One connection no longer waits for a thread that serves it.
    fn take_waiting(&self);

    /// A connection was closed as soon as it was accepted, since too many are open.
    fn add_refused(&self);

    /// A request got this status before the service saw it: `http_server` refused it, it was too
    /// large as it was sent, or there was no room for it. `peer`: its connection's other end, if
    /// the system says it.
    fn note_refusal(&self, status: u16, peer: Option<SocketAddr>);

    /// No connection is accepted any more.
    fn shut(&self);
}
