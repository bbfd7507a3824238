//! The items of a batch, and its limits.
use relay_action::OpName;

/// The limits of a batch. No value is invalid: an empty batch takes any item.
#[derive(Clone, Copy, Debug, PartialEq, Eq)]
pub struct Limits {
    /// The maximum number of items, apart from their caps.
    pub count: u32,
    /// The maximum number of bytes of two or more items. A single item may have more.
    pub bytes: u64,
    /// How many ticks after its first item was taken a batch is ready even if it is not full.
    pub linger: u32,
}

/// The room that is left in a batch.
#[derive(Clone, Copy, Debug, PartialEq, Eq)]
pub struct Room {
    /// The number of items.
    pub items: u32,
    /// The number of bytes, of all these items together.
    pub bytes: u64,
}

/// An item of a batch: one operation to send.
#[derive(Clone, Copy, Debug, PartialEq, Eq)]
pub struct BatchItem {
    /// The operation's name.
    pub name: OpName,
    /// The lane's number for the document.
    pub doc: u64,
    /// The version that the operation was assigned.
    pub version: u64,
    /// The length of its lines in the text of the request, in bytes.
    pub bytes: u64,
    /// The maximum number of items in a batch that has this item, unless it is alone.
    pub cap: u32,
    /// The lane's clock when the operation was taken, in ticks.
    pub taken_at: u64,
}
