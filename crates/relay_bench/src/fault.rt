//! Why nothing was measured.
use relay_http::HttpFault;
use relay_results::ReplyFault;
use std::alloc::AllocError;
use std::io;
use thiserror::Error;

/// Why nothing was measured. The text of a variant is what the program prints.
#[derive(Clone, Copy, Debug, PartialEq, Eq, Error)]
pub enum BenchFault {
    /// The command line is invalid.
    #[error("usage: relay_bench queue SENDERS CAPACITY COUNT | relay_bench tell LANES PLACES COUNT | relay_bench replies TURNS < BODY | relay_bench lane HELD [DOCUMENTS] | relay_bench http-read PIECE TURNS < REPLY | relay_bench http-write WRITES BYTES TURNS")]
    Usage,
    /// A message was taken out of its sender's order, or some are missing.
    #[error("not all messages came in order")]
    Disorder,
    /// The input is not a reply.
    #[error("the input is not a reply: {0}")]
    Reply(ReplyFault),
    /// The input is a reply without items, so there is no time per item.
    #[error("the reply has no items")]
    NoItems,
    /// The input is not an HTTP reply, or a request could not be written.
    #[error("no message of HTTP: {0}")]
    Http(HttpFault),
    /// A lane did not take, send or apply what it was given.
    #[error("the lane did not do what it was given")]
    Lane,
    /// Allocation failed, or a thread could not be started.
    #[error("out of memory")]
    Memory,
    /// The arguments, the input, the output or the clock failed.
    #[error("a call of the system failed")]
    System,
}

impl From<AllocError> for BenchFault {
    fn from(_: AllocError) -> BenchFault {
        BenchFault::Memory
    }
}

impl From<io::Error> for BenchFault {
    fn from(_: io::Error) -> BenchFault {
        BenchFault::System
    }
}
