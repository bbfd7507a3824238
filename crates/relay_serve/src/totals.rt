//! How many operations ended how, in all lanes and terms.
ghost use Rattle.std.specs.Prelude.{◌≡◌, IfOk, vec_len};
ghost use Rattle.relay_common.specs.Counts.{counts_line, total};

use relay_common::counts::add_counts;
use relay_threads::Summary;
use std::alloc::{AllocError, Global};

/// How many operations ended so. The numbers saturate at 2^64 - 1.
#[derive(Clone, Copy, Debug, PartialEq, Eq)]
pub(crate) struct Totals {
    /// The index applied them.
    pub(crate) applied: u64,
    /// An earlier request had applied them.
    pub(crate) already: u64,
    /// They are reported.
    pub(crate) reported: u64,
}

impl Totals {
    /// None ended.
    pub(crate) const NONE: Totals = Totals {
        applied: 0,
        already: 0,
        reported: 0,
    };
}

/// How many ended so, with those of all lanes of one more term.
pub(crate) fn count_all<W: Drop>(before: Totals, summary: Summary<W>) -> Totals
    ensures applied { result.applied ≡ total (λ s. s.applied) before.applied summary.lanes.items }
    ensures already { result.already ≡ total (λ s. s.already) before.already summary.lanes.items }
    ensures reported { result.reported
        ≡ total (λ s. vec_len s.reports) before.reported summary.lanes.items }
{
    let Totals {
        mut applied,
        mut already,
        mut reported,
    } = before;
    let Summary { lanes } = summary;
    'lanes: for lane in lanes {
        applied = applied.saturating_add(lane.applied);
        already = already.saturating_add(lane.already);
        let reports = lane.reports.len() as u64;
        reported = reported.saturating_add(reports);
    }
    Totals {
        applied,
        already,
        reported,
    }
}

/// The line with these counts.
pub(crate) fn counts_text(alloc: Global, totals: Totals) -> Result<Vec<u8>, AllocError>
    ensures { IfOk result (λ text. text.items
        ≡ counts_line totals.applied totals.already totals.reported) }
{
    let mut text = Vec::new(alloc);
    add_counts(&mut text, totals.applied, totals.already, totals.reported)?;
    Ok(text)
}
