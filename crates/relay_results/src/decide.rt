//! The verdict on an item.
ghost use Rattle.std.specs.Prelude.{◌≡◌};
ghost use Rattle.relay_results.specs.Verdicts.{verdict_of};

use relay_action::ActionKind;

/// What the answer for an item means for its operation.
#[derive(Clone, Copy, Debug, PartialEq, Eq)]
pub enum ItemVerdict {
    /// The index applied the write: the operation is done.
    Applied,
    /// A repeat conflicts with its own version, since an earlier request had applied the write: the
    /// operation is done.
    Already,
    /// The stored version is not below the operation's own, and was stored by another write: the
    /// operation is reported.
    Conflict,
    /// The index was too busy: the operation is sent again.
    Retry,
    /// The index was too busy, and no attempt is left: the operation is reported.
    GaveUp,
    /// The index refused the write: the operation is reported.
    Refused,
}

/// The verdict on an item with this status, for an action of this kind. `may_be_own`: the item's
/// error states no stored version, or the operation's own. `sends` counts the requests that carried
/// the operation, including this one, and `attempts` those of them that count as tries, of which
/// `max` are allowed. The first of these that applies:
///
/// 1. 200 to 299 without an error, or 404 of a delete without an error: `Applied`.
/// 2. 409: `Already` if `sends` is at least 2 and `may_be_own`, otherwise `Conflict`.
/// 3. 429 or 503: `Retry` if `attempts` is below `max`, otherwise `GaveUp`.
/// 4. Anything else: `Refused`.
///
/// It does not allocate.
pub fn verdict(
    kind: ActionKind,
    status: u16,
    has_error: bool,
    may_be_own: bool,
    sends: u32,
    attempts: u32,
    max: u32,
) -> ItemVerdict
    ensures { result ≡ verdict_of kind status has_error may_be_own sends attempts max }
{
    match status {
        200..=299 if !has_error => ItemVerdict::Applied,
        404 if !has_error && kind == ActionKind::Delete => ItemVerdict::Applied,
        409 if sends >= 2 && may_be_own => ItemVerdict::Already,
        409 => ItemVerdict::Conflict,
        429 | 503 if attempts < max => ItemVerdict::Retry,
        429 | 503 => ItemVerdict::GaveUp,
        _ => ItemVerdict::Refused,
    }
}
