//! The file in which operations that are reported are set aside: lines of a bulk request, whole operations alone.
use relay_words::Exit;
use std::alloc::{AllocError, Global};
use std::fs::{File, OpenOptions, TryLockError};
use std::io;
use std::io::{Read, Seek, SeekFrom};

// How many bytes are read at once.
const BLOCK: usize = 65_536;

// The action lines that the relay writes begin so.
const INDEX: &[u8] = b"{\"index\":{\"_index\":";

const DELETE: &[u8] = b"{\"delete\":{\"_index\":";

/// Why the file was not opened. It has what it had.
#[derive(Clone, Copy, Debug, PartialEq, Eq)]
pub(crate) enum ReportFault {
    /// It could not be opened, read or written.
    Device,
    /// Another process has locked it.
    Locked,
    /// It holds something else than operations.
    Form,
    /// An allocation failed.
    Memory,
}

impl ReportFault {
    /// What is said of it.
    pub(crate) fn text(self) -> &'static str {
        match self {
            ReportFault::Device => "could not be opened, read or written",
            ReportFault::Locked => "is locked by another process",
            ReportFault::Form => "holds something else than operations that were set aside",
            ReportFault::Memory => "there is no memory to read it",
        }
    }

    /// The exit status.
    pub(crate) fn exit(self) -> Exit {
        match self {
            ReportFault::Memory => Exit::Memory,
            ReportFault::Form => Exit::Input,
            ReportFault::Device | ReportFault::Locked => Exit::Device,
        }
    }
}

impl From<AllocError> for ReportFault {
    fn from(_error: AllocError) -> ReportFault {
        ReportFault::Memory
    }
}

impl From<io::Error> for ReportFault {
    fn from(_error: io::Error) -> ReportFault {
        ReportFault::Device
    }
}

// How far a file was read: how many bytes are before the end of its last whole operation, and before
// the place that was reached; and what the line is that was begun.
#[derive(Clone, Copy)]
struct Reached {
    whole: u64,
    place: u64,
    // How many bytes of the line were read.
    column: usize,
    line: Line,
}

#[derive(Clone, Copy, Debug, PartialEq, Eq)]
enum Line {
    // An action line, which may be of an index or of a delete as far as it was read.
    Action { index: bool, delete: bool },
    // The source of an operation.
    Source,
}

const ANY_ACTION: Line = Line::Action {
    index: true,
    delete: true,
};

// Whether a byte at this place of a line goes with this front.
fn goes_with(front: &[u8], column: usize, byte: u8) -> bool {
    match front.get(column) {
        Some(wanted) => *wanted == byte,
        None => true,
    }
}

impl Reached {
    // Nothing was read.
    const NONE: Reached = Reached {
        whole: 0,
        place: 0,
        column: 0,
        line: ANY_ACTION,
    };

    // The line has ended. Returns whether it is one that the relay writes.
    fn end_line(&mut self) -> bool {
        let is_action = match self.line {
            Line::Action { index, delete } => {
                self.line = if index { Line::Source } else { ANY_ACTION };
                if !index {
                    self.whole = self.place;
                }
                (index && self.column >= INDEX.len()) || (delete && self.column >= DELETE.len())
            }
            Line::Source => {
                self.line = ANY_ACTION;
                self.whole = self.place;
                true
            }
        };
        self.column = 0;
        is_action
    }

    // One more byte was read. Returns whether what was read is what the relay writes.
    fn take(&mut self, byte: u8) -> bool {
        self.place = self.place.saturating_add(1);
        if byte == b'\n' {
            return self.end_line();
        }
        if let Line::Action { index, delete } = self.line {
            let index = index && goes_with(INDEX, self.column, byte);
            let delete = delete && goes_with(DELETE, self.column, byte);
            self.line = Line::Action { index, delete };
            if !index && !delete {
                return false;
            }
        }
        self.column = self.column.saturating_add(1);
        true
    }

    // These bytes were read. Returns whether what was read is what the relay writes.
    fn take_all(&mut self, bytes: &[u8]) -> bool {
        for byte in bytes {
            if !self.take(*byte) {
                return false;
            }
        }
        true
    }
}

// How many bytes are before the end of the last whole operation of a file.
fn whole_of(alloc: Global, file: &mut File) -> Result<u64, ReportFault> {
    let mut block = Vec::from_elem(alloc, 0u8, BLOCK)?;
    let mut reached = Reached::NONE;
    file.seek(SeekFrom::Start(0))?;
    // A file has an end, but no clause says so.
    for _ in 0..u64::MAX {
        let count = file.read(block.as_mut_slice())?;
        let Some(bytes) = block.get(..count) else {
            return Err(ReportFault::Device);
        };
        if bytes.is_empty() {
            break;
        }
        if !reached.take_all(bytes) {
            return Err(ReportFault::Form);
        }
    }
    Ok(reached.whole)
}

/// Opens the file, makes it if it is absent, and locks it until it is dropped. What is written goes to its
/// end. An operation that was torn when the relay was killed is cut off.
pub(crate) fn open_report(
    host: &HostRuntime,
    alloc: Global,
    path: &str,
) -> Result<File, ReportFault> {
    let mut how = OpenOptions::new();
    how.create(true).append(true).read(true);
    let mut file = how.open(host, path)?;
    match file.try_lock() {
        Ok(()) => {}
        Err(TryLockError::WouldBlock) => return Err(ReportFault::Locked),
        Err(TryLockError::Error(_)) => return Err(ReportFault::Device),
    }
    let metadata = file.metadata()?;
    if metadata.is_file() {
        let whole = whole_of(alloc, &mut file)?;
        if whole < metadata.len() {
            file.set_len(whole)?;
        }
    }
    Ok(file)
}
