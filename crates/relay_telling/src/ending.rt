//! How an operation ended.
ghost use Rattle.std.specs.Prelude.{◌≡◌, IfOk};
ghost use Rattle.relay_telling.specs.Endings.{name_in};

use relay_action::{OpName, Text};
use relay_lane::{Cause, Report, Success};
use std::alloc::AllocError;

/// How an operation ended, as its lane tells its producer.
#[derive(Debug, Drop)]
pub enum Ending {
    /// The index applied it.
    Applied(Success),
    /// It was not applied, as far as its lane knows.
    Reported(Report),
}

impl Ending {
    /// The operation's name.
    pub fn name(&self) -> OpName
        ensures { result ≡ name_in self.now }
    {
        match self {
            Ending::Applied(success) => success.name,
            Ending::Reported(report) => report.name,
        }
    }
}

fn copy_text(text: &Option<Text>) -> Result<Option<Text>, AllocError>
    ensures { IfOk result (λ t. t ≡ text.now) }
{
    match text {
        Some(text) => Ok(Some(text.copy()?)),
        None => Ok(None),
    }
}

fn copy_cause(cause: &Cause) -> Result<Cause, AllocError>
    ensures { IfOk result (λ c. c ≡ cause.now) }
{
    match cause {
        Cause::Refused {
            status,
            kind,
            reason,
        } => Ok(Cause::Refused {
            status: *status,
            kind: kind.copy()?,
            reason: copy_text(reason)?,
        }),
        Cause::Request { status, reason } => Ok(Cause::Request {
            status: *status,
            reason: copy_text(reason)?,
        }),
        Cause::Conflict { stored, reason } => Ok(Cause::Conflict {
            stored: *stored,
            reason: copy_text(reason)?,
        }),
        Cause::GaveUp { sends, last } => Ok(Cause::GaveUp {
            sends: *sends,
            last: *last,
        }),
        Cause::Spent => Ok(Cause::Spent),
    }
}

// A copy of a report. `AllocError`: allocation failed.
pub(crate) fn copy_report(report: &Report) -> Result<Report, AllocError>
    ensures { IfOk result (λ r. r ≡ report.now) }
{
    Ok(Report {
        name: report.name,
        key: report.key.copy()?,
        cause: copy_cause(&report.cause)?,
    })
}
