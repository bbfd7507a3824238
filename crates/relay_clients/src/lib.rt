//! Connections of clients: the steps of an `http_server` over a socket, with any `Service` behind
//! it. A connection is served by any thread, until it waits for its peer or makes place for others;
//! then it goes to the poller, a thread that holds those that wait, and hands each on once its peer
//! has sent something or takes more. Refusals of `http_server` itself get the JSON body of every
//! other refusal.
#![tactic(auto)]

pub mod client;
pub mod entrance;
mod farewell;
mod keeping;
pub mod parking;
pub mod places;
pub mod poller;
mod refusing;
pub mod room;
pub mod signals;

pub use client::{Client, Turn};
pub use entrance::{Entrance, Origin};
pub use keeping::KeepsAnswers;
pub use parking::Parking;
pub use places::{CONNECTIONS, Place, Places};
pub use poller::{Poller, PollerParts};
pub use room::Room;
pub use signals::Signals;
