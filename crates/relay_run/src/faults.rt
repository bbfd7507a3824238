//! Files that were not put in full: their messages and exit statuses.
ghost use Rattle.std.specs.Prelude.{◌≡◌, ◌++◌, OnOk, OnErr};
ghost use Rattle.relay_ndjson.specs.Bulk.{Begins};
ghost use Rattle.relay_run.specs.Faults.{exit_of_file, file_fault_line, line_fault_text, rank};
ghost use Rattle.relay_run.specs.Faults.{worse};

use crate::feed::FeedFault;
use relay_ndjson::LineKind;
use relay_words::{Exit, add_number, exit_of_kind};
use std::alloc::AllocError;

/// Why not all operations of a file were put.
#[derive(Clone, Copy, Debug, PartialEq, Eq)]
pub enum FileFault {
    /// The file could not be opened. No operation was put.
    Open,
    /// What stopped it. All operations before it were put.
    Feed(FeedFault),
}

/// Adds the message: `FILE: open failed`, `FILE: read failed`, `FILE: out of memory`, `FILE: line
/// N: KIND` or `FILE: NumbersSpent`. A lane that is gone adds nothing, nor does a run that stopped:
/// they have their own messages.
/// `AllocError`: allocation failed, and the text is unchanged.
pub fn add_file_fault(text: &mut Vec<u8>, file: &str, fault: FileFault) -> Result<(), AllocError>
    ensures ok { OnOk result (text.new.items ≡ text.old.items ++ file_fault_line file.now fault) }
    ensures err { OnErr result (text.new.items ≡ text.old.items) }
{
    let length = text.len();
    let done = append_file_fault(text, file, fault);
    if done.is_err() {
        text.truncate(length);
    }
    done
}

// Appends the message. After an error, part of it may be there.
fn append_file_fault(text: &mut Vec<u8>, file: &str, fault: FileFault) -> Result<(), AllocError>
    ensures ok { OnOk result (text.new.items ≡ text.old.items ++ file_fault_line file.now fault) }
    ensures front { Begins text.old.items text.new.items }
{
    match fault {
        FileFault::Open => {
            text.extend_from_slice(file.as_bytes())?;
            text.extend_from_slice(b": open failed\n")
        }
        FileFault::Feed(FeedFault::Input(fault)) => {
            text.extend_from_slice(file.as_bytes())?;
            text.extend_from_slice(b": ")?;
            append_line_fault(text, fault.line, fault.kind)?;
            text.extend_from_slice(b"\n")
        }
        FileFault::Feed(FeedFault::NumbersSpent) => {
            text.extend_from_slice(file.as_bytes())?;
            text.extend_from_slice(b": NumbersSpent\n")
        }
        FileFault::Feed(FeedFault::LaneGone) => Ok(()),
        FileFault::Feed(FeedFault::Stopped) => Ok(()),
    }
}

// Appends what follows the name of the file. After an error, part of it may be there.
fn append_line_fault(text: &mut Vec<u8>, line: u64, kind: LineKind) -> Result<(), AllocError>
    ensures ok { OnOk result (text.new.items ≡ text.old.items ++ line_fault_text line kind) }
    ensures front { Begins text.old.items text.new.items }
{
    match kind {
        LineKind::Read => text.extend_from_slice(b"read failed"),
        LineKind::Memory => text.extend_from_slice(b"out of memory"),
        _ => {
            text.extend_from_slice(b"line ")?;
            add_number(text, line)?;
            text.extend_from_slice(b": ")?;
            text.extend_from_slice(kind.name().as_bytes())
        }
    }
}

/// The exit status for a file's fault. For a lane that is gone it is `Done`: the fault of
/// `Relay::finish` decides the exit status then. So it is for a run that stopped: its reason decides.
pub fn exit_of_file(fault: FileFault) -> Exit
    ensures { result ≡ exit_of_file fault }
{
    match fault {
        FileFault::Open => Exit::Device,
        FileFault::Feed(FeedFault::Input(fault)) => exit_of_kind(fault.kind),
        FileFault::Feed(FeedFault::NumbersSpent) => Exit::Input,
        FileFault::Feed(FeedFault::LaneGone) => Exit::Done,
        FileFault::Feed(FeedFault::Stopped) => Exit::Done,
    }
}

// The precedence of an exit status.
fn rank(exit: Exit) -> u8
    ensures { result ≡ rank exit }
{
    match exit {
        Exit::Done => 0,
        Exit::Reported => 1,
        Exit::Usage => 2,
        Exit::Input => 3,
        Exit::Device => 4,
        Exit::Memory => 5,
    }
}

/// The one of two exit statuses that takes precedence: a failed allocation over a device fault,
/// that over an input fault, and that over reports.
pub fn worse(one: Exit, other: Exit) -> Exit
    ensures { result ≡ worse one other }
{
    if rank(one) < rank(other) { other } else { one }
}
