//! A lane at work on a wire: what it holds is sent, repeated and settled, within a bound. It
//! depends on `relay_core`, and gets the way to an index (`Wire`) and the passing of time (`Pace`)
//! from outside.
//!
//! What is proved: whatever the wire returns or loses, everything that a closed lane holds is sent
//! and settled by a bounded number of requests; and for each outside that the wire describes,
//! delivery is sound at every moment, and complete once `drain` returns `Ok`.
#![tactic(auto)]

pub mod draining;
mod exchange;
pub mod laws;
pub mod pace;
mod turn;
pub mod wire;

pub use draining::{collect, drain, drain_next, make_room, pump, send_ready, settle_next};
pub use pace::{Pace, pass};
pub use relay_core::{
    Cause, Lane, NotFlying, RelayConfig, Report, Settled, Success, TakeFault, Totals,
};
pub use relay_results::Loss;
pub use wire::{Wire, WireReply};
