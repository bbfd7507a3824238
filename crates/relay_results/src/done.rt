//! The result of one item of a request.
ghost use Rattle.std.specs.Prelude.{◌≡◌, IfOk, option_map, string_bytes};
ghost use Rattle.relay_results.specs.Replies.{reason_limit};
ghost use Rattle.relay_results.specs.Conflicts.{conflict_reason, front};
ghost use Rattle.relay_results.specs.Done.{error_by};

use crate::outcome::{ErrorDetail, ItemError, Outcome};
use crate::reading::{REASON_LIMIT, cut};
use relay_action::{ActionKind, DocKey, Text};
use std::alloc::{AllocError, Global};

/// The result of a write, as a reply states it.
#[derive(Clone, Copy, Debug, PartialEq, Eq)]
pub enum DoneResult {
    /// The source became a document that did not exist.
    Created,
    /// The source replaced that of a document.
    Updated,
    /// The document was removed.
    Deleted,
    /// There was no document to remove. The version is stored nevertheless.
    NotFound,
    /// The version was not above the stored one; nothing was done.
    Conflict,
    /// The write was refused; nothing was done.
    Refused,
}

/// The result of one item of a request.
#[derive(Debug, Drop)]
pub struct ItemDone {
    /// The document.
    pub key: DocKey,
    /// The kind of the action.
    pub kind: ActionKind,
    /// The status of the item.
    pub status: u16,
    /// The result of the write.
    pub result: DoneResult,
    /// The version that was stored, or 0 if nothing was done.
    pub version: u64,
    /// The number of writes that the index had applied before, over all documents, or 0 if nothing
    /// was done.
    pub seq: u64,
    /// The versions in the reason of the error, if the result is `Conflict` and the index states
    /// them.
    pub conflict: Option<VersionConflict>,
}

/// The versions of a conflict.
#[derive(Clone, Copy, Debug, PartialEq, Eq)]
pub struct VersionConflict {
    /// The version that the index has stored for the document.
    pub stored: u64,
    /// The version of the write.
    pub provided: u64,
}

impl DoneResult {
    ghost use Rattle.relay_results.specs.Done.{failure};

    // The type of the error, if nothing was done.
    pub(crate) fn failure(self) -> Option<&'static str>
        ensures { option_map (λ t. t.now) result ≡ failure self }
    {
        match self {
            DoneResult::Conflict => Some("version_conflict_engine_exception"),
            DoneResult::Refused => Some("scripted_refusal"),
            _ => None,
        }
    }
}

// The reason of a version conflict, in the words of OpenSearch.
pub(crate) fn conflict_reason(
    alloc: Global,
    id: &str,
    conflict: VersionConflict,
) -> Result<String, AllocError>
    ensures { IfOk result (λ s. string_bytes s ≡ conflict_reason id.now conflict) }
{
    let stored = conflict.stored;
    let provided = conflict.provided;
    format!(in alloc;
        "[{id}]: version conflict, current version [{stored}] is higher or equal to the one provided [{provided}]"
    )
}

// What an outcome keeps of the reason of a version conflict.
fn kept_reason(alloc: Global, id: &str, conflict: VersionConflict) -> Result<Text, AllocError>
    ensures { IfOk result (λ t. t ≡ front reason_limit (conflict_reason id.now conflict)) }
{
    let reason = conflict_reason(alloc, id, conflict)?;
    Text::new(alloc, cut(reason.as_str(), REASON_LIMIT))
}

// The error of an item with this id, of this type.
fn error_by(
    alloc: Global,
    id: &str,
    conflict: Option<VersionConflict>,
    kind: &str,
) -> Result<ErrorDetail, AllocError>
    ensures { IfOk result (λ e. e ≡ error_by id.now conflict kind.now) }
{
    let kind = Text::new(alloc, kind)?;
    match conflict {
        Some(conflict) => Ok(ErrorDetail {
            kind,
            reason: Some(kept_reason(alloc, id, conflict)?),
            stored: Some(conflict.stored),
        }),
        None => Ok(ErrorDetail {
            kind,
            reason: None,
            stored: None,
        }),
    }
}

impl ItemDone {
    ghost use Rattle.relay_results.specs.Done.{outcome_of};

    /// What a reply says of this item: its kind, id and status, and its error if the result is
    /// `Conflict` or `Refused`. `AllocError`: allocation failed.
    pub fn outcome(&self, alloc: Global) -> Result<Outcome, AllocError>
        ensures { IfOk result (λ o. o ≡ outcome_of self.now) }
    {
        let error = match self.result.failure() {
            Some(failure) => {
                let detail = error_by(alloc, self.key.id(), self.conflict, failure)?;
                Some(ItemError::new(alloc, detail)?)
            }
            None => None,
        };
        Ok(Outcome {
            kind: self.kind,
            id: Text::new(alloc, self.key.id())?,
            status: self.status,
            error,
        })
    }
}
