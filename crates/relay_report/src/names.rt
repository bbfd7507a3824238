//! The operations that a report names.
ghost use Rattle.std.specs.Prelude.{◌≡◌, []};
ghost use Rattle.std.specs.Io.KnownBytes.{prepend_known};
ghost use Rattle.relay_report.specs.Names.{NamesNext, ReadsNames, ends_failed};
ghost use Rattle.relay_report.specs.Names.{line_fault};

use crate::line::read_name;
use relay_action::ByteIn;
use relay_ndjson::{InputFault, LineKind, LineReader};
use std::alloc::Global;
use thiserror::Error;

/// An operation that a report names, and the line that names it.
#[derive(Clone, Copy, Debug, PartialEq, Eq)]
pub struct Named {
    /// The producer, from 0.
    pub producer: u32,
    /// The number of the operation, from 1.
    pub number: u64,
    /// The line of the report, from 1.
    pub line: u64,
}

/// Why a report was not read to its end.
#[derive(Clone, Copy, Debug, PartialEq, Eq, Error)]
pub enum ReportFault {
    /// This line is not a line of a report, or is too long.
    #[error("line {line}: BadLine")]
    BadLine {
        /// The line, from 1.
        line: u64,
    },
    /// A read failed. It is not retried.
    #[error("read failed")]
    Read,
    /// An allocation failed.
    #[error("out of memory")]
    Memory,
}

/// Adds the operations that a report names to an empty vector, in the order of the lines. After a
/// fault those of the preceding lines were added.
pub fn read_names<R: ByteIn>(
    alloc: Global,
    report: &mut R,
    names: &mut Vec<Named>,
) -> Result<(), ReportFault>
    requires { names.old.items ≡ [] }
    ensures names { ReadsNames (R.left report.old) names.new.items result }
    ensures failed { R.failed report.new ≡ ends_failed result (R.failed report.old) }
{
    let mut lines = LineReader::new(alloc);
    'lines: loop {
        match next_name(alloc, report, &mut lines)? {
            Some(name) => match names.push(name) {
                Ok(()) => {}
                Err(_) => return Err(ReportFault::Memory),
            },
            None => return Ok(()),
        }
    }
}

// The operation that the next line of a report names, or `None` at the end.
fn next_name<R: ByteIn>(
    alloc: Global,
    report: &mut R,
    lines: &mut LineReader,
) -> Result<Option<Named>, ReportFault>
    ensures next { NamesNext (prepend_known lines.old.held (R.left report.old))
        (prepend_known lines.new.held (R.left report.new)) lines.old.count lines.new.count result }
    ensures failed { R.failed report.new ≡ ends_failed result (R.failed report.old) }
{
    let found = match lines.next(report) {
        Ok(found) => found,
        Err(fault) => return Err(line_fault(fault)),
    };
    if !found {
        return Ok(None);
    }
    let line = lines.count();
    match read_name(alloc, lines.text()) {
        Ok(Some(name)) => Ok(Some(Named {
            producer: name.producer,
            number: name.number,
            line,
        })),
        Ok(None) => Err(ReportFault::BadLine { line }),
        Err(_) => Err(ReportFault::Memory),
    }
}

fn line_fault(fault: InputFault) -> ReportFault
    ensures { result ≡ line_fault fault }
{
    match fault.kind {
        LineKind::Read => ReportFault::Read,
        LineKind::Memory => ReportFault::Memory,
        _ => ReportFault::BadLine { line: fault.line },
    }
}
