//! What the conflicts of a run most likely come from.
ghost use Rattle.std.specs.Prelude.{◌≡◌, ◌<◌, IfOk, OnOk};
ghost use Rattle.relay_run.specs.Saying.{IsSaid};
ghost use Rattle.relay_run.specs.Hints.{IsGreatestStored, IsHint, epoch_of, has_conflict, hint_for};
ghost use Rattle.relay_run.specs.Hints.{higher, is_conflict, reach_text, stored_by, stored_text};

use crate::saying::say;
use relay_action::ByteOut;
use relay_core::Report;
use relay_core::config::EPOCH_LIMIT;
use relay_results::Cause;
use relay_words::add_number;
use std::alloc::{AllocError, Global};

// The version that the index has stored, if this reports a conflict that states it.
fn stored_by(report: &Report) -> Option<u64>
    ensures { result ≡ stored_by report.now }
{
    match &report.cause {
        Cause::Conflict { stored, .. } => *stored,
        _ => None,
    }
}

fn is_conflict(report: &Report) -> bool
    ensures { result ≡ is_conflict report.now }
{
    matches!(&report.cause, Cause::Conflict { .. })
}

fn has_conflict(reports: &[Report]) -> bool
    ensures { result ≡ has_conflict reports.now }
{
    reports.iter().any(is_conflict)
}

fn higher(one: Option<u64>, other: Option<u64>) -> Option<u64>
    ensures { result ≡ higher one other }
{
    match (one, other) {
        (Some(one), Some(other)) => Some(one.max(other)),
        (None, other) => other,
        (one, None) => one,
    }
}

// The greatest version that one of the conflicts states.
fn greatest_stored(reports: &[Report]) -> Option<u64>
    ensures { IsGreatestStored reports.now result }
{
    let mut greatest = None;
    for report in reports {
        greatest = higher(greatest, stored_by(report));
    }
    greatest
}

// The epoch of a version.
fn epoch_of(version: u64) -> u64
    ensures { result ≡ epoch_of version }
{
    version.saturating_sub(1) / 1_099_511_627_776
}

fn said(alloc: Global, line: &[u8]) -> Result<Vec<u8>, AllocError>
    ensures { IfOk result (λ text. text.items ≡ line.now) }
{
    let mut text = Vec::new(alloc);
    text.extend_from_slice(line)?;
    Ok(text)
}

// The line if the index has a version of this epoch, which is a higher one.
fn reach_text(alloc: Global, epoch: u64) -> Result<Vec<u8>, AllocError>
    requires { epoch < 4194303 }
    ensures { IfOk result (λ text. text.items ≡ reach_text epoch) }
{
    let mut text = Vec::new(alloc);
    text.extend_from_slice(b"the index has versions of epoch ")?;
    add_number(&mut text, epoch)?;
    text.extend_from_slice(b": run again with --epoch ")?;
    add_number(&mut text, epoch + 1)?;
    text.extend_from_slice(b" or higher\n")?;
    Ok(text)
}

// The line if the greatest stored version is of the first epoch, and the run's is the second one.
fn stored_text(alloc: Global, stored: u64, epoch: u32) -> Result<Vec<u8>, AllocError>
    ensures { IfOk result (λ text. text.items ≡ stored_text stored epoch) }
{
    if stored <= epoch as u64 {
        return said(
            alloc,
            b"the index has versions of this epoch or of an earlier one: of another run in it, or of another writer\n",
        );
    }
    if stored < EPOCH_LIMIT as u64 {
        return reach_text(alloc, stored);
    }
    said(
        alloc,
        b"the index has versions that no epoch is above: of another writer\n",
    )
}

// The line for conflicts of which the greatest stored version is this one.
fn hint_for(alloc: Global, stored: Option<u64>, epoch: u32) -> Result<Vec<u8>, AllocError>
    ensures { IfOk result (λ text. text.items ≡ hint_for stored epoch) }
{
    match stored {
        Some(version) => stored_text(alloc, epoch_of(version), epoch),
        None => said(
            alloc,
            b"the index has versions that are not below those of this run: of a higher epoch, or of another writer\n",
        ),
    }
}

/// Says on `err`, in one line, what the conflicts among these reports of a run in this epoch most
/// likely come from: the epoch is not above that of a version which the index states, and then the
/// line names an epoch that is; or another writer is at work. Says nothing if there are none.
/// `AllocError`: allocation failed, and nothing was said.
pub fn say_hint<E: ByteOut>(
    alloc: Global,
    reports: &[Report],
    epoch: u32,
    err: &mut E,
) -> Result<(), AllocError>
    ensures { OnOk result (IsHint reports.now epoch
        (E.written err.old, E.failed err.old) (E.written err.new, E.failed err.new)) }
{
    if has_conflict(reports) {
        let text = hint_for(alloc, greatest_stored(reports), epoch)?;
        let _ = say(err, &text);
    }
    Ok(())
}
