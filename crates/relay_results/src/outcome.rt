//! The entries of a reply.
ghost use Rattle.std.specs.Prelude.{◌≡◌, IfOk};

use relay_action::{ActionKind, Text};
use std::alloc::{AllocError, Global};
use std::fmt;
use std::marker::Model;

/// What a reply says of one item of a request (OpenSearch, bulk API, the entries of `items`).
#[derive(Debug, Drop)]
pub struct Outcome {
    /// The kind of the action: the name of the entry's only member.
    pub kind: ActionKind,
    /// The id of the document.
    pub id: Text,
    /// The status of the item; in a reply from 100 to 599.
    pub status: u16,
    /// The error of the item, if it has one.
    pub error: Option<ItemError>,
}

/// The error of an item. Contracts see it as its [`ErrorDetail`], which has an allocation of its own:
/// most items have no error, and an outcome is moved often.
#[derive(Drop)]
pub struct ItemError {
    detail: Box<ErrorDetail>,
}

impl Model for ItemError {
    ghost use Rattle.relay_results.specs.declared.outcome.ErrorDetail.{ErrorDetail};

    ghost Value = { ErrorDetail };

    ghost view = { λ e. e.detail.value };
}

/// What a reply says of an error (OpenSearch, bulk API, the member `error` of an entry).
#[derive(Debug, PartialEq, Eq, Drop)]
pub struct ErrorDetail {
    /// The type of the error, cut to at most 64 bytes. Empty if it is not a string.
    pub kind: Text,
    /// The reason, cut to at most 512 bytes. `None` if it is not a string.
    pub reason: Option<Text>,
    /// The version that the index has stored for the document, if the reason states it, as that of
    /// a version conflict does.
    pub stored: Option<u64>,
}

impl ErrorDetail {
    /// A copy. `AllocError`: allocation failed.
    pub fn copy(&self) -> Result<ErrorDetail, AllocError>
        ensures { IfOk result (λ e. e ≡ self.now) }
    {
        let reason = match &self.reason {
            Some(reason) => Some(reason.copy()?),
            None => None,
        };
        Ok(ErrorDetail {
            kind: self.kind.copy()?,
            reason,
            stored: self.stored,
        })
    }
}

impl ItemError {
    /// An error with this detail. `AllocError`: allocation failed, and the detail is dropped.
    pub fn new(alloc: Global, detail: ErrorDetail) -> Result<ItemError, AllocError>
        ensures { IfOk result (λ e. e ≡ detail) }
    {
        Ok(ItemError {
            detail: Box::new(alloc, detail)?,
        })
    }

    /// What the reply says of the error.
    pub fn detail(&self) -> &ErrorDetail
        ensures { result.now ≡ self.now }
    {
        &self.detail
    }

    /// The same, moved out of the error.
    pub fn into_detail(self) -> ErrorDetail
        ensures { result ≡ self }
    {
        Box::into_inner(self.detail)
    }

    /// A copy. `AllocError`: allocation failed.
    pub fn copy(&self, alloc: Global) -> Result<ItemError, AllocError>
        ensures { IfOk result (λ e. e ≡ self.now) }
    {
        ItemError::new(alloc, self.detail.copy()?)
    }
}

impl fmt::Debug for ItemError {
    fn fmt<W: fmt::Write>(&self, f: &mut fmt::Formatter<W>) -> fmt::Result {
        fmt::Debug::fmt(self.detail(), f)
    }
}
