//! The stored version that the reason of an error states.
ghost use Rattle.std.specs.Prelude.{ℕ, List, Some, IfSome, IfNone, MatchOption, option_map};
ghost use Rattle.relay_results.specs.Stored.{SaysStored, IsLastMark, StatesStored};
ghost use Rattle.relay_results.specs.Ends.{HasNoEnd, IsEndedAt};

use crate::numeral::number_of;

// The words before a stored version.
const STORED_MARK: &str = "current version [";

/// The version that a reason states as stored: the number in the last `current version [N]`, if `N`
/// is a 64-bit number in decimal digits.
pub(crate) fn stored_in(reason: Option<&str>) -> Option<u64>
    ensures { SaysStored (option_map (λ t. t.now) reason.entry) result }
{
    match reason {
        Some(text) => stored_version(text),
        None => None,
    }
}

fn stored_version(text: &str) -> Option<u64>
    ensures { SaysStored (Some text.now) result }
{
    let after = after_mark(text)?;
    let digits = before_end(after)?;
    number_of(digits)
}

// What follows the last mark.
fn after_mark(text: &str) -> Option<&str>
    ensures some { IfSome result (λ after. (before : List ℕ) × IsLastMark text.now before after.now) }
    ensures none { IfNone result ((before after : List ℕ) → IsLastMark text.now before after → ⊥) }
{
    let (_, after) = text.rsplit_once(STORED_MARK)?;
    Some(after)
}

// What precedes the first `]`.
fn before_end(text: &str) -> Option<&str>
    ensures { MatchOption result (HasNoEnd text.now)
        (λ front. (back : List ℕ) × IsEndedAt text.now front.now back) }
{
    let (front, _) = text.split_once(']')?;
    Some(front)
}
