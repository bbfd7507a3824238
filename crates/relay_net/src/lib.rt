//! TCP sockets behind the traits of the relay: `TcpDial` makes a connection to an index for each
//! stream that a wire over HTTP asks for, `TimedDial` limits the time of each message on it, `PatientDial`
//! keeps trying while the index is down, and `TcpListen` accepts the connections to a server. The streams of both are `StdStream`s of
//! `relay_action`, which can be asked whether something has arrived. It depends on `relay_http` for
//! what a dial and a listener are.
//!
//! No contract says what a socket sends or receives, or when it waits. What is promised is that a
//! failed call is returned as one, and counted.
#![tactic(auto)]

pub mod dial;
pub mod listen;
pub mod patient;
pub mod reach;
pub mod timed;

pub use dial::TcpDial;
pub use listen::TcpListen;
pub use patient::PatientDial;
pub use reach::{Reach, Sockets};
pub use timed::{Direction, TimedDial, TimedStream};
