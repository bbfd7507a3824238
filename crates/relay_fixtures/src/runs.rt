//! The items of a request, run on an index.
ghost use Rattle.std.specs.Prelude.{◌≡◌, ℕ, Some};
ghost use Rattle.relay_results.specs.Outside.{Outside, write_at};
ghost use Rattle.relay_index.specs.Runs.{Shows};
ghost use Rattle.relay_fixtures.specs.Runs.{IsSent, RanSome, entry_of, entries_of};

use relay_action::Write;
use relay_index::{Choice, Index};
use relay_results::Outcome;
use std::alloc::{AllocError, Global};

// Runs an item of a request.
fn run_one(alloc: Global, index: &mut Index, write: &Write) -> Result<Outcome, AllocError>
    ensures { (o : Outside) (number place : ℕ) → Shows o index.old
        → write_at o.requests number place ≡ Some write.now
        → RanSome number place index.new o (entry_of result) }
{
    let done = index.run(write, Choice::Run)?;
    done.outcome(alloc)
}

/// Runs the items of a request, in order. `AllocError`: allocation failed, and some of them may
/// have been run.
pub fn run_all(
    alloc: Global,
    index: &mut Index,
    writes: &[Write],
) -> Result<Vec<Outcome>, AllocError>
    ensures { (o : Outside) (number : ℕ) → Shows o index.old
        → IsSent number writes.now o
        → RanSome number 0 index.new o (entries_of result) }
{
    let mut entries = Vec::new(alloc);
    for write in writes {
        entries.reserve(1)?;
        let entry = run_one(alloc, index, write)?;
        entries.push_reserved(entry);
    }
    Ok(entries)
}
