//! The answers to an offer.

/// The answer to an offer: the first that applies, in this order.
#[derive(Clone, Copy, Debug, PartialEq, Eq)]
pub enum Offer {
    /// The batch has an item of that document.
    Busy,
    /// The batch is not empty, and it has reached the limit's count or one of the caps, including
    /// that of the item offered, or the item's bytes would exceed the limit.
    Closed,
    /// The item was added at the end.
    Added,
}
