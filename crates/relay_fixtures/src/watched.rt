//! A wire with something done before each of its calls.
use relay_action::Write;
use relay_lane::{Loss, Wire, WireReply};

/// What is done before each call of a wire.
pub trait Watch {
    /// Before the request with this number is sent.
    fn before_send(&mut self, number: u64);

    /// Before the answer to the request with this number is waited for.
    fn before_receive(&mut self, number: u64);
}

/// A wire that wraps another, and keeps its promises.
#[derive(Drop)]
pub struct Watched<W, V> {
    pub wire: W,
    pub watch: V,
}

impl<W: Wire, V: Watch> Wire for Watched<W, V> {
    ghost out = { λ w. W.out w.wire };

    ghost describes = { λ w. W.describes w.wire };

    ghost fits = { λ w o. W.fits w.wire o };

    ghost carries = { λ v x w. W.carries v.wire x w.wire };

    fn send(&mut self, number: u64, writes: &[Write]) -> Result<(), Loss> {
        self.watch.before_send(number);
        self.wire.send(number, writes)
    }

    fn receive(&mut self, number: u64) -> Result<WireReply, Loss> {
        self.watch.before_receive(number);
        self.wire.receive(number)
    }
}
