//! The stand-in index as the far end of a wire over HTTP, within one process (`LoopDial`,
//! `LoopEnd`, `LoopWire`), for tests and simulations. It depends on `relay_http` for what a
//! connection is, on `relay_index` for the index, and on `relay_wires` for what a far end is.
//!
//! What is proved: a `LoopEnd` is described, so that a wire over HTTP to it describes the outside.
//! Each request passes as bytes through both ends of a connection, is run once by the index, item
//! by item, and is answered honestly; what the wire returns for it is that result (`laws`).
#![tactic(auto)]

mod ends;
pub mod far_end;
pub mod laws;
pub mod loop_wire;
mod serving;
pub mod stream;

pub use far_end::{LoopDial, LoopEnd};
pub use loop_wire::{LoopWire, wire_to};
pub use relay_lane::{Loss, Wire, WireReply};
pub use relay_wires::{HttpWire, Peer};
pub use stream::LoopStream;
