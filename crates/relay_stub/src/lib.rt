//! The stand-in index as a server: one bulk request on each of a given number of connections. It
//! depends on `relay_http` for connections and on `relay_index` for the index; the connections come
//! from a `Listen`. `listing` lists what an index applied, and `stub` is the function behind the
//! program's command.
//!
//! What is proved: the index goes through the requests in the order of their connections; the body
//! of a bulk request is served once, and what is written is its answer or a prefix of it. Whatever
//! bytes arrive, a connection is served or dropped, and the next one is accepted.
#![tactic(auto)]

pub mod command;
pub mod connection;
pub mod document;
pub mod listing;
pub mod stub;

pub use connection::serve_connection;
pub use relay_http::{AcceptFailed, Listen};
pub use stub::{ServeError, stub_serve};
