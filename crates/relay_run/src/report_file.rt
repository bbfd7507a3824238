//! Opening the file in which the reports of a run are saved.
ghost use Rattle.std.specs.Prelude.{◌≡◌, IfOk, OnOk, vec_len};
ghost use Rattle.relay_run.specs.ReportFile.{AreNewHandles, exit_of_report_file, not_apart_text};
ghost use Rattle.relay_run.specs.ReportFile.{not_empty_text, report_file_text};
ghost use Rattle.relay_run.specs.Saying.{IsSaid, SaysTwo};

use crate::noting::reason_line;
use crate::saving::say_failed;
use crate::saying::say;
use crate::source::STANDARD_NAME;
use relay_action::{ByteOut, StdStream};
use relay_ndjson::LINE_LIMIT;
use relay_report::{LastLine, last_line};
use relay_words::Exit;
use std::alloc::{AllocError, Global};
use std::fs::{File, Metadata, OpenOptions};
use std::io::{ErrorKind, Read, Seek, SeekFrom, Write};
use std::os::unix::fs::MetadataExt;
use std::{fs, io};

/// The line about a file for the reports that a producer reads.
pub const NOT_APART: &str =
    "error: --report FILE has to be a file of its own: not '-', and none of those that are read\n";

/// The line about a file for the reports that is not empty.
pub const NOT_EMPTY: &str =
    "error: --report FILE is not empty: --append adds to it, and otherwise it has to be a new or an empty file\n";

/// The line about a file for invalid operations that is read, or takes the reports.
pub const NOT_APART_LEFT_OUT: &str =
    "error: --skip-invalid FILE has to be a file of its own: not '-', none of those that are read, and not that of --report\n";

/// The line about a file for invalid operations that is not empty.
pub const NOT_EMPTY_LEFT_OUT: &str =
    "error: --skip-invalid FILE is not empty: --append adds to it, and otherwise it has to be a new or an empty file\n";

/// An option that names a file to write.
#[derive(Clone, Copy, Debug, PartialEq, Eq)]
pub(crate) enum FileOption {
    /// `--report`.
    Report,
    /// `--skip-invalid`.
    SkipInvalid,
}

fn not_apart(option: FileOption) -> &'static str
    ensures { result.now ≡ not_apart_text option }
{
    match option {
        FileOption::Report => NOT_APART,
        FileOption::SkipInvalid => NOT_APART_LEFT_OUT,
    }
}

fn not_empty(option: FileOption) -> &'static str
    ensures { result.now ≡ not_empty_text option }
{
    match option {
        FileOption::Report => NOT_EMPTY,
        FileOption::SkipInvalid => NOT_EMPTY_LEFT_OUT,
    }
}

/// Why the file for the reports, or for invalid operations, was not opened.
#[derive(Clone, Copy, Debug, PartialEq, Eq)]
pub(crate) enum ReportFileFault {
    /// The system does not open or create it, or does not say what it is, for this reason.
    Open(ErrorKind),
    /// It is one of the files that are read, by whatever name.
    Input,
    /// It has a content, and nobody asked to add to it.
    Content,
    /// Its end could not be read or mended, for this reason.
    Mend(ErrorKind),
    /// An allocation failed.
    Memory,
}

impl From<AllocError> for ReportFileFault {
    ghost use Rattle.relay_run.specs.declared.report_file.ReportFileFault.{ReportFileFault};

    ghost from_gives = { λ _ fault. fault ≡ ReportFileFault.Memory };

    fn from(_error: AllocError) -> ReportFileFault {
        ReportFileFault::Memory
    }
}

/// Where a lane saves its reports.
#[derive(Drop)]
pub enum ReportFile {
    /// Nowhere: what is written is dropped.
    Nowhere,
    /// In a file, at its end.
    File(File),
}

impl Write for ReportFile {
    fn write(&mut self, buffer: &[u8]) -> io::Result<usize> {
        match self {
            ReportFile::Nowhere => Ok(buffer.len()),
            ReportFile::File(file) => file.write(buffer),
        }
    }

    fn flush(&mut self) -> io::Result<()> {
        Ok(())
    }
}

/// A stream into the file of the reports.
pub(crate) type ReportOut = StdStream<ReportFile>;

/// For each lane a handle of the file for the reports, or of none if they are not saved. Whatever is
/// written by one of them goes to the end of the file.
pub(crate) fn handles_of(
    alloc: Global,
    file: &Option<File>,
    lanes: u32,
) -> Result<Vec<ReportOut>, ReportFileFault>
    ensures count { IfOk result (λ v. vec_len v ≡ lanes) }
    ensures new { IfOk result (λ v. AreNewHandles v.items) }
{
    let mut handles = Vec::new(alloc);
    'lanes: for lane in 0..lanes {
        handles.reserve(1)?;
        let handle = StdStream::new(handle_of(file)?);
        handles.push_reserved(handle);
    }
    Ok(handles)
}

// One more handle.
fn handle_of(file: &Option<File>) -> Result<ReportFile, ReportFileFault> {
    let Some(file) = file else {
        return Ok(ReportFile::Nowhere);
    };
    match file.try_clone() {
        Ok(file) => Ok(ReportFile::File(file)),
        Err(error) => Err(ReportFileFault::Open(error.kind())),
    }
}

/// The name of standard input as a file, by which it can be compared with others.
const STANDARD_FILE: &str = "/dev/stdin";

/// Opens the file for the reports, or creates it. If they are added to what it has, its last line
/// is whole first: a part of a line is cut off. Nothing else is changed, and nothing is if the file
/// is refused. What is no regular file, such as a pipe, is opened as it is.
pub(crate) fn open_report(
    host: &HostRuntime,
    alloc: Global,
    name: &str,
    append: bool,
    files: &[String],
) -> Result<File, ReportFileFault> {
    let (file, metadata) = match open(host, name, append) {
        Ok(opened) => opened,
        Err(error) => return Err(ReportFileFault::Open(error.kind())),
    };
    if !metadata.is_file() {
        return Ok(file);
    }
    if is_among(host, &metadata, files) {
        return Err(ReportFileFault::Input);
    }
    if append {
        return mend(alloc, file, metadata.len());
    }
    if metadata.len() > 0 {
        return Err(ReportFileFault::Content);
    }
    Ok(file)
}

// Opens a file without changing what it has, and looks at what it is. What is added goes to its end.
fn open(host: &HostRuntime, name: &str, append: bool) -> Result<(File, Metadata), io::Error> {
    let mut how = OpenOptions::new();
    how.create(true).append(true).read(append);
    let file = how.open(host, name)?;
    let metadata = file.metadata()?;
    Ok((file, metadata))
}

// Whether one of the names is that of this file: the same device and the same inode.
fn is_among(host: &HostRuntime, file: &Metadata, names: &[String]) -> bool {
    for name in names {
        let path = if name.as_str() == STANDARD_NAME {
            STANDARD_FILE
        } else {
            name.as_str()
        };
        if let Ok(other) = fs::metadata(host, path) {
            if other.dev() == file.dev() && other.ino() == file.ino() {
                return true;
            }
        }
    }
    false
}

// Makes the last line of a report of this size whole, by cutting off a part of a line, or by adding
// a line feed. Lines that are longer than a line of a report can be are left.
fn mend(alloc: Global, file: File, size: u64) -> Result<File, ReportFileFault> {
    let mut file = file;
    let start = size.saturating_sub(LINE_LIMIT as u64 + 1);
    let text = end_of(alloc, &mut file, start)?;
    let Ok(last) = last_line(alloc, &text) else {
        return Err(ReportFileFault::Memory);
    };
    let mended = match last {
        LastLine::Ended => Ok(()),
        LastLine::Torn { whole } if whole > 0 || start == 0 => {
            file.set_len(start.saturating_add(whole as u64))
        }
        LastLine::Torn { .. } | LastLine::Unended => file.write_all(b"\n"),
    };
    match mended {
        Ok(()) => Ok(file),
        Err(error) => Err(ReportFileFault::Mend(error.kind())),
    }
}

// What a file has from this place on.
fn end_of(alloc: Global, file: &mut File, start: u64) -> Result<Vec<u8>, ReportFileFault> {
    let mut text = Vec::new(alloc);
    match read_from(file, start, &mut text) {
        Ok(_) => Ok(text),
        Err(error) if error.kind() == ErrorKind::OutOfMemory => Err(ReportFileFault::Memory),
        Err(error) => Err(ReportFileFault::Mend(error.kind())),
    }
}

fn read_from(file: &mut File, start: u64, text: &mut Vec<u8>) -> Result<usize, io::Error> {
    file.seek(SeekFrom::Start(start))?;
    file.read_to_end(text)
}

/// Writes why the file with this name, which this option names, was not opened, with the system's
/// reason beneath it, and returns the exit status. `AllocError`: an allocation failed, here or
/// before.
pub(crate) fn say_refused<E: ByteOut>(
    alloc: Global,
    option: FileOption,
    name: &str,
    fault: ReportFileFault,
    err: &mut E,
) -> Result<Exit, AllocError>
    ensures said { OnOk result
        (SaysTwo (report_file_text option name.now fault)
        (E.written err.old, E.failed err.old) (E.written err.new, E.failed err.new)) }
    ensures exit { IfOk result (λ end. end ≡ exit_of_report_file fault) }
{
    let exit = say_not_opened(alloc, option, name, fault, err)?;
    let beneath = reason_beneath(alloc, fault)?;
    let _ = say(err, &beneath);
    Ok(exit)
}

// The line with the system's reason for a fault; empty if there is none.
fn reason_beneath(alloc: Global, fault: ReportFileFault) -> Result<Vec<u8>, AllocError> {
    match fault {
        ReportFileFault::Open(reason) | ReportFileFault::Mend(reason) => {
            reason_line(alloc, reason)
        }
        ReportFileFault::Input | ReportFileFault::Content | ReportFileFault::Memory => {
            Ok(Vec::new(alloc))
        }
    }
}

// Writes why the file was not opened, and returns the exit status.
fn say_not_opened<E: ByteOut>(
    alloc: Global,
    option: FileOption,
    name: &str,
    fault: ReportFileFault,
    err: &mut E,
) -> Result<Exit, AllocError>
    ensures said { OnOk result (IsSaid (report_file_text option name.now fault)
        (E.written err.old, E.failed err.old) (E.written err.new, E.failed err.new)) }
    ensures exit { IfOk result (λ end. end ≡ exit_of_report_file fault) }
{
    match fault {
        ReportFileFault::Open(_) => say_failed(alloc, name, b"create", err),
        ReportFileFault::Mend(_) => say_failed(alloc, name, b"append", err),
        ReportFileFault::Input => Ok(say_usage(not_apart(option), err)),
        ReportFileFault::Content => Ok(say_usage(not_empty(option), err)),
        ReportFileFault::Memory => Err(AllocError),
    }
}

// Writes what is wrong with the command line, and returns the exit status.
fn say_usage<E: ByteOut>(text: &str, err: &mut E) -> Exit
    ensures said { IsSaid text.now
        (E.written err.old, E.failed err.old) (E.written err.new, E.failed err.new) }
    ensures exit { result ≡ Exit.Usage }
{
    let _ = say(err, text.as_bytes());
    Exit::Usage
}
