//! The front of a standing relay: a service of `http_server` that reads requests as clients of
//! OpenSearch send them, has their operations settled, and answers in OpenSearch's form. It takes
//! no clock, no socket and no thread: what settles the operations and makes ids is a parameter.
//!
//! `route` says what a request asks for, `lines` reads the operations of a bulk request, `said`
//! says of each how it ended, `items` writes that down, and `service` puts these together.
#![tactic(auto)]

pub mod again;
pub mod aside;
mod document;
pub mod ending;
pub mod face;
pub mod items;
pub mod lines;
mod metadata;
pub mod operation;
mod query;
pub mod refusal;
pub mod replying;
pub mod route;
pub mod said;
pub mod service;
pub mod settle;
pub mod targets;
mod text;

pub use again::{Asked, says_applied};
pub use ending::End;
pub use face::Face;
pub use operation::{AskedKind, Item, ItemFault};
pub use route::{Route, route_of};
pub use service::Front;
pub use settle::{Ids, Settle, Settled};
