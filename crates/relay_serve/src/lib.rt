//! The standing relay: a server that answers the requests of OpenSearch's clients once each of
//! their operations has ended. It is the function behind `relay serve`: lanes of `relay_threads`
//! that tell producers over the channels of `relay_receipts`, workers that each own a producer and
//! serve connections of `http_server` by the service of `relay_front`, and a thread that accepts them.
#![tactic(auto)]

mod batch;
pub mod board;
mod clerk;
mod counts;
mod entry;
pub mod epoch;
mod epochs;
mod input;
mod marks;
mod meeting;
mod memory;
mod metrics;
pub mod options;
mod producing;
mod recalling;
mod remembering;
mod report_file;
mod saying;
pub mod server;
mod settler;
mod started;
mod stopped;
mod tally;
mod terms;
mod timing;
mod totals;
mod watching;
mod wiring;
mod worker;
mod workers;

pub use epoch::{EpochSource, FileFault};
pub use options::{Listening, ServeLog, ServeOptions};
pub use server::serve;
