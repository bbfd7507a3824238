//! Why a message is not passed.
use thiserror::Error;

/// The other end of the queue is dropped. No contract says when this is returned.
#[derive(Clone, Copy, Debug, PartialEq, Eq, Error)]
#[error("Gone")]
pub struct Gone;

/// Why a put sent nothing.
#[derive(Clone, Copy, Debug, PartialEq, Eq, Error)]
pub enum PutRefusal {
    /// The taker is dropped. No contract says when this is returned.
    #[error("Gone")]
    Gone,
    /// This sender has put 2^40 messages, the maximum.
    #[error("Spent")]
    Spent,
}

/// Why an offer sent nothing.
#[derive(Clone, Copy, Debug, PartialEq, Eq, Error)]
pub enum OfferRefusal {
    /// The queue is full, or it is a tick and an earlier one has not been taken: a later offer may
    /// be sent. No contract says when this is returned.
    #[error("NotYet")]
    NotYet,
    /// The taker is dropped. No contract says when this is returned.
    #[error("Gone")]
    Gone,
    /// This sender has put 2^40 messages, the maximum.
    #[error("Spent")]
    Spent,
}
