//! Handing connections to the poller.
use crate::client::{Client, Turn};
use crate::signals::Signals;
use crossbeam_channel::Sender;
use mio::Waker;
use std::alloc::{AllocError, Global};
use std::sync::{Arc, Wait};

/// Puts a connection behind those that wait for a thread that serves them.
pub(crate) fn give<R: Wait, G: Signals>(
    rt: &R,
    ready: &Sender<Client, Global>,
    signals: &G,
    client: Client,
) {
    signals.add_waiting();
    if ready.send(rt, client).is_err() {
        signals.take_waiting();
    }
}

/// Hands connections to a `Poller`, and those that make place to the threads that serve. The poller works
/// until each of these handles is dropped.
#[derive(Drop)]
pub struct Parking {
    pub(crate) ready: Sender<Client, Global>,
    pub(crate) inbox: Sender<Client, Global>,
    pub(crate) waker: Arc<Waker, Global>,
}

impl Parking {
    /// Hands a connection to the poller. It is closed if the poller has ended, or allocation failed.
    pub fn park<R: Wait>(&self, rt: &R, client: Client) {
        if self.inbox.send(rt, client).is_ok() {
            // If this fails, the poller finds it at its next tick.
            let _ = self.waker.wake();
        }
    }

    /// Hands a connection on after a turn.
    pub fn pass_on<R: Wait, G: Signals>(&self, rt: &R, signals: &G, turn: Turn, client: Client) {
        match turn {
            Turn::Ended => {}
            Turn::Waits => give(rt, &self.ready, signals, client),
            Turn::Parks => self.park(rt, client),
        }
    }

    /// One more handle. `AllocError`: allocation failed.
    pub fn share(&self) -> Result<Parking, AllocError> {
        Ok(Parking {
            ready: self.ready.clone()?,
            inbox: self.inbox.clone()?,
            waker: Arc::try_clone(&self.waker)?,
        })
    }
}
