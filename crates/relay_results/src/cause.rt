//! Why an operation is reported.
use relay_action::Text;
use thiserror::Error;

/// Why a request has no reply that can be used. It is unknown whether the index received the
/// request, or ran it. A loss is printed as one word.
#[derive(Clone, Copy, Debug, PartialEq, Eq, Error)]
pub enum Loss {
    /// The address refused the connection.
    #[error("refused")]
    Refused,
    /// No connection could be opened for another reason.
    #[error("unreachable")]
    Unreachable,
    /// A connection was not opened, the request not sent, or its reply not received within the time
    /// limit.
    #[error("timeout")]
    TimedOut,
    /// The connection failed, or ended before the reply was complete.
    #[error("closed")]
    Closed,
    /// What arrived is no reply, or not one to this request.
    #[error("unreadable")]
    Unreadable,
    /// An allocation for the request or for its reply failed.
    #[error("memory")]
    Memory,
}

/// What became of the last request that carried an operation.
#[derive(Clone, Copy, Debug, PartialEq, Eq)]
pub enum LastTry {
    /// It has no reply.
    Lost(Loss),
    /// The request as a whole got this status.
    Whole(u16),
    /// The operation's item got this status.
    Item(u16),
}

/// Why an operation is reported. Contracts use this type itself, with each text seen as its bytes.
#[derive(Debug, PartialEq, Eq, Drop)]
pub enum Cause {
    /// The index refused the write.
    Refused {
        /// The status of the item.
        status: u16,
        /// The type of the item's error, or the empty text if it has none.
        kind: Text,
        /// The reason of the item's error, if it has one that is a string.
        reason: Option<Text>,
    },
    /// The request as a whole got a status that is not retried; 413 is one of these if the request
    /// had no other item.
    Request {
        /// The status.
        status: u16,
        /// The reason that the reply gives, if it gives one and the operation was the first of the
        /// request. It is kept once for all operations of a request.
        reason: Option<Text>,
    },
    /// A request that carried the operation met a stored version that is not below its own, and
    /// that no earlier request can have stored: it was the first one, or the reply states another
    /// version than the operation's own.
    Conflict {
        /// The stored version, if the reply states it.
        stored: Option<u64>,
        /// The reason of the item's error, if it has one that is a string.
        reason: Option<Text>,
    },
    /// All attempts are used up, and no answer settled the operation.
    GaveUp {
        /// The number of requests that carried the operation.
        sends: u32,
        /// What became of the last of them.
        last: LastTry,
    },
    /// The lane had no version left, and the operation was never sent.
    Spent,
}
