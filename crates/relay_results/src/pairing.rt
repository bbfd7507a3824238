//! Whether a reply matches a request.
ghost use Rattle.std.specs.Prelude.{◌≡◌, ◌↔◌, IsTrue};
ghost use Rattle.std.specs.List.{list_all, zip};
ghost use Rattle.relay_results.specs.Matching.{matches, is_entry_for, Matches};

use crate::outcome::Outcome;
use relay_action::Write;

// Whether an entry has the action kind and the id of a write.
fn is_entry_for(outcome: &Outcome, write: &Write) -> bool
    ensures { result ≡ is_entry_for outcome.now write.now }
{
    outcome.kind == write.action.kind() && outcome.id.as_str() == write.key.id()
}

// Whether each entry has the action kind and the id of the write at its position.
fn are_entries_for(outcomes: &[Outcome], writes: &[Write]) -> bool
    ensures { result ≡ list_all (λ p. is_entry_for p.0 p.1) (zip outcomes.now writes.now) }
{
    outcomes
        .iter()
        .zip(writes)
        .all(|(outcome, write)| is_entry_for(outcome, write))
}

/// Whether the entries of a reply match the writes of a request: there are as many, and at each
/// position the kind of action and the id are the same. Statuses are ignored. It does not allocate.
pub fn matches(outcomes: &[Outcome], writes: &[Write]) -> bool
    ensures value { result ≡ matches outcomes.now writes.now }
    ensures places { IsTrue result ↔ Matches outcomes.now writes.now }
{
    outcomes.len() == writes.len() && are_entries_for(outcomes, writes)
}
