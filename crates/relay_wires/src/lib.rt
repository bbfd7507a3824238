//! The way from a lane to an index over HTTP connections (`HttpWire`), whose streams a `Dial`
//! makes. It depends on `relay_lane` for what a wire is, on `relay_http` for connections and on
//! `relay_results` for the entries of replies.
//!
//! What is proved: an `HttpWire` writes the request for the writes that it is given, and returns
//! what the table of statuses says of the reply that was on that connection. If the far end of its
//! streams is described (`Peer`), it describes its outside.
#![tactic(auto)]

mod carrying;
pub mod http_wire;
pub mod numbered;
pub mod peer;
pub mod told;

pub use http_wire::HttpWire;
pub use peer::{Peer, Unknown};
pub use relay_http::{Dial, DialFault, Peek};
pub use relay_lane::{Loss, Wire, WireReply};
