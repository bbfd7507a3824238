//! The numbers of operations in a run that goes on with its inputs.
ghost use Rattle.std.specs.Prelude.{◌≡◌, ℕ, IfOk, map};
ghost use Rattle.relay_run.specs.Numbering.{name_on, report_on, settled_before, started_before};

use relay_action::{OpName, Text};
use relay_core::{Cause, Report};
use relay_resume::{INPUT_LIMIT, Mark};
use std::alloc::{AllocError, Global};

/// How many operations of each input were settled before the run. Those that it puts are numbered on
/// from there where they are named.
#[derive(Clone, Copy, Debug, PartialEq, Eq)]
pub struct Numbering {
    before: [u64; INPUT_LIMIT],
}

impl Numbering {
    /// Nothing was settled before.
    pub const NEW: Numbering = Numbering {
        before: [0; INPUT_LIMIT],
    };

    /// The inputs are read from these marks on.
    pub(crate) fn of(starts: &[Mark]) -> Numbering
        ensures { (p : ℕ) → settled_before result.before p ≡ started_before starts.now p }
    {
        let mut before = [0u64; INPUT_LIMIT];
        'starts: for place in 0..starts.len().min(INPUT_LIMIT) {
            before[place] = starts[place].count;
        }
        Numbering { before }
    }

    // How many operations of this producer's input were settled before.
    fn before(&self, producer: u32) -> u64
        ensures { result ≡ settled_before self.now.before producer }
    {
        match self.before.get(producer as usize) {
            Some(count) => *count,
            None => 0,
        }
    }

    /// The name of an operation with its number from the start of its input on. It saturates at
    /// `u64::MAX`.
    pub(crate) fn name(&self, name: OpName) -> OpName
        ensures { result ≡ name_on self.now.before name }
    {
        OpName {
            epoch: name.epoch,
            producer: name.producer,
            number: name.number.saturating_add(self.before(name.producer)),
        }
    }

    /// The same report under that name. `AllocError`: allocation failed.
    pub(crate) fn report(&self, report: &Report) -> Result<Report, AllocError>
        ensures { IfOk result (λ r. r ≡ report_on self.now.before report.now) }
    {
        Ok(Report {
            name: self.name(report.name),
            key: report.key.copy()?,
            cause: copy_cause(&report.cause)?,
        })
    }

    // A report under that name.
    fn renamed(&self, report: Report) -> Report
        ensures { result ≡ report_on self.now.before report }
    {
        let Report { name, key, cause } = report;
        Report {
            name: self.name(name),
            key,
            cause,
        }
    }

    /// These reports under those names, in the same order. `AllocError`: allocation failed.
    pub(crate) fn rename(
        &self,
        alloc: Global,
        reports: Vec<Report>,
    ) -> Result<Vec<Report>, AllocError>
        ensures { IfOk result (λ v. v.items ≡ map (report_on self.now.before) reports.items) }
    {
        let mut renamed = Vec::with_capacity(alloc, reports.len())?;
        for report in reports {
            renamed.push(self.renamed(report))?;
        }
        Ok(renamed)
    }
}

fn copy_text(text: &Option<Text>) -> Result<Option<Text>, AllocError>
    ensures { IfOk result (λ copy. copy ≡ text.now) }
{
    match text {
        Some(text) => Ok(Some(text.copy()?)),
        None => Ok(None),
    }
}

fn copy_cause(cause: &Cause) -> Result<Cause, AllocError>
    ensures { IfOk result (λ copy. copy ≡ cause.now) }
{
    match cause {
        Cause::Refused {
            status,
            kind,
            reason,
        } => Ok(Cause::Refused {
            status: *status,
            kind: kind.copy()?,
            reason: copy_text(reason)?,
        }),
        Cause::Request { status, reason } => Ok(Cause::Request {
            status: *status,
            reason: copy_text(reason)?,
        }),
        Cause::Conflict { stored, reason } => Ok(Cause::Conflict {
            stored: *stored,
            reason: copy_text(reason)?,
        }),
        Cause::GaveUp { sends, last } => Ok(Cause::GaveUp {
            sends: *sends,
            last: *last,
        }),
        Cause::Spent => Ok(Cause::Spent),
    }
}
