//! The lines at the end of a run.
ghost use Rattle.std.specs.Prelude.{◌≡◌, ◌++◌, ◌*◌, ◌+◌, flat_map, IsPermutation};
ghost use Rattle.std.specs.Prelude.{OnOk, IfOk};
ghost use Rattle.relay_run.specs.Outcomes.{report_line, outcome_text, place_of, AreInOrder};

use relay_action::OpName;
use relay_common::counts::add_counts;
use relay_core::Report;
use relay_words::{add_cause, add_document, add_name};
use std::alloc::{AllocError, Global};

/// A line `report P:N INDEX/ID CAUSE` for each report, by producer and then by number, followed by
/// the line `applied A already B reported C`. The reports are sorted in that order. `AllocError`:
/// allocation failed.
pub fn outcome_text(
    alloc: Global,
    reports: &mut Vec<Report>,
    applied: u64,
    already: u64,
) -> Result<Vec<u8>, AllocError>
    ensures same { IsPermutation reports.old.items reports.new.items }
    ensures order { AreInOrder reports.new.items }
    ensures text { IfOk result
        (λ text. text.items ≡ outcome_text reports.new.items applied already) }
{
    sort_by_name(reports);
    let mut text = Vec::new(alloc);
    add_reports(&mut text, reports)?;
    add_counts(&mut text, applied, already, reports.len() as u64)?;
    Ok(text)
}

// The position of a name in the order, by producer and then by number.
fn place_of(name: OpName) -> u128
    ensures { result ≡ place_of name }
{
    name.producer as u128 * 18_446_744_073_709_551_616 + name.number as u128
}

fn sort_by_name(reports: &mut [Report])
    ensures same { IsPermutation reports.old reports.new }
    ensures order { AreInOrder reports.new }
{
    reports.sort_unstable_by_key(|report| place_of(report.name));
}

fn add_reports(text: &mut Vec<u8>, reports: &[Report]) -> Result<(), AllocError>
    ensures { OnOk result (text.new.items ≡ text.old.items ++ flat_map report_line reports.now) }
{
    'reports: for report in reports {
        add_report(text, report)?;
    }
    Ok(())
}

fn add_report(text: &mut Vec<u8>, report: &Report) -> Result<(), AllocError>
    ensures { OnOk result (text.new.items ≡ text.old.items ++ report_line report.now) }
{
    text.extend_from_slice(b"report ")?;
    add_name(text, report.name)?;
    text.extend_from_slice(b" ")?;
    add_document(text, &report.key)?;
    text.extend_from_slice(b" ")?;
    add_cause(text, &report.cause)?;
    text.extend_from_slice(b"\n")
}
