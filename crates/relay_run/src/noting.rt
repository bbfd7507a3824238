//! What is said beneath the fault of a file: the system's reason, or what its line is about.
use crate::faults::FileFault;
use crate::feed::FeedFault;
use crate::source::Source;
use relay_ndjson::{InputFault, LineKind};
use relay_sift::{Kept, count_feeds, subject_kept};
use std::alloc::{AllocError, Global};
use std::fs::File;
use std::io;
use std::io::{ErrorKind, Read};
use std::sync::{Arc, Mutex, OnceLock};

/// What is known of a file that is read: why it could not be opened or read, and, unless it is a
/// regular file, which can be read again, what was read last.
#[derive(Drop)]
pub(crate) struct FileNote {
    reason: OnceLock<ErrorKind>,
    regular: Option<RegularFile>,
    // Only the thread that reads takes the lock, until that has ended.
    kept: Mutex<Kept>,
}

// A regular file, by its path.
#[derive(Drop)]
struct RegularFile {
    host: HostRuntime,
    path: String,
}

// The number of bytes that are read at a time.
const PIECE: usize = 65_536;

impl RegularFile {
    // What the file has up to the end of the line with this number, from 1, as far as that can be read
    // and is kept.
    fn read_again(&self, alloc: Global, number: u64) -> Result<Kept, AllocError> {
        let mut kept = Kept::new(alloc);
        let mut piece = Vec::from_elem(alloc, 0u8, PIECE)?;
        if let Ok(mut file) = File::open(&self.host, self.path.as_str()) {
            keep_lines(&mut file, &mut piece, number, &mut kept);
        }
        Ok(kept)
    }
}

// Reads a file in pieces until so many lines have ended, or it ends.
fn keep_lines(file: &mut File, piece: &mut [u8], number: u64, kept: &mut Kept) {
    let mut ended = 0u64;
    for _piece in 0..u64::MAX {
        let Some(feeds) = keep_piece(file, piece, kept) else {
            return;
        };
        ended = ended.saturating_add(feeds);
        if ended >= number {
            return;
        }
    }
}

// Reads once, and returns how many lines have ended in what was read. `None`: nothing was.
fn keep_piece(file: &mut File, piece: &mut [u8], kept: &mut Kept) -> Option<u64> {
    match file.read(piece) {
        Ok(count) if count > 0 => {
            kept.add(&piece[..count]);
            Some(count_feeds(&piece[..count]))
        }
        _ => None,
    }
}

/// A note that two threads hold.
pub(crate) type SharedNote = Arc<FileNote, Global>;

/// The line with a reason of the system's, beneath that of a fault. `AllocError`: allocation failed.
pub(crate) fn reason_line(alloc: Global, reason: ErrorKind) -> Result<Vec<u8>, AllocError> {
    let mut text = Vec::new(alloc);
    let line = format!(in alloc; "  {reason}\n")?;
    text.extend_from_slice(line.as_bytes())?;
    Ok(text)
}

impl FileNote {
    // Nothing is known yet.
    fn shared(alloc: Global, regular: Option<RegularFile>) -> Result<SharedNote, AllocError> {
        let note = FileNote {
            reason: OnceLock::new(),
            regular,
            kept: Mutex::new(Kept::new(alloc)),
        };
        Ok(Arc::new(alloc, note)?)
    }

    /// Nothing is known yet of this source, which has this name. `AllocError`: allocation failed.
    pub(crate) fn of_source(
        host: HostRuntime,
        alloc: Global,
        name: &str,
        source: &Source,
    ) -> Result<SharedNote, AllocError> {
        let regular = match source.size() {
            Some(_) => Some(RegularFile {
                host,
                path: String::from_str(alloc, name)?,
            }),
            None => None,
        };
        FileNote::shared(alloc, regular)
    }

    /// What is known of a file that could not be opened. `AllocError`: allocation failed.
    pub(crate) fn of_failed(alloc: Global, reason: ErrorKind) -> Result<SharedNote, AllocError> {
        let note = FileNote::shared(alloc, None)?;
        note.fail(reason);
        Ok(note)
    }

    // Notes why the file could not be opened, or read. The first reason is kept.
    fn fail(&self, reason: ErrorKind) {
        let _ = self.reason.try_set(reason);
    }

    /// Whether the file could not be opened or read.
    pub(crate) fn has_failed(&self) -> bool {
        self.reason.get().is_some()
    }

    // Notes what was read, unless it can be read again.
    fn keep(&self, piece: &[u8]) {
        if self.regular.is_some() {
            return;
        }
        if let Some(mut kept) = self.kept.try_lock() {
            kept.add(piece);
        }
    }

    // What is said beneath a fault of a line.
    fn subject_line(&self, alloc: Global, fault: InputFault) -> Result<Vec<u8>, AllocError> {
        if let Some(file) = &self.regular {
            return subject_kept(alloc, fault, &file.read_again(alloc, fault.line)?);
        }
        match self.kept.try_lock() {
            Some(kept) => subject_kept(alloc, fault, &*kept),
            None => Ok(Vec::new(alloc)),
        }
    }

    // The line with the reason, if there is one.
    fn reason_line(&self, alloc: Global) -> Result<Vec<u8>, AllocError> {
        match self.reason.get() {
            Some(reason) => reason_line(alloc, *reason),
            None => Ok(Vec::new(alloc)),
        }
    }

    /// What is said beneath this fault of the file: the system's reason if it could not be opened or
    /// read, and what its line is about if it has an action or a member that is not supported; with
    /// two blanks before it, and its line feed. Empty if there is nothing to say. `AllocError`:
    /// allocation failed.
    pub(crate) fn line(&self, alloc: Global, fault: FileFault) -> Result<Vec<u8>, AllocError> {
        let FileFault::Feed(FeedFault::Input(fault)) = fault else {
            return match fault {
                FileFault::Open => self.reason_line(alloc),
                _ => Ok(Vec::new(alloc)),
            };
        };
        if fault.kind == LineKind::Read {
            return self.reason_line(alloc);
        }
        self.subject_line(alloc, fault)
    }
}

/// A source that notes what is read, and why a read failed.
#[derive(Drop)]
pub(crate) struct NotedSource {
    source: Source,
    note: SharedNote,
}

impl NotedSource {
    /// The same source, which notes there.
    pub(crate) fn new(source: Source, note: SharedNote) -> NotedSource {
        NotedSource { source, note }
    }

    /// The size in bytes, as [`Source::size`].
    pub(crate) fn size(&self) -> Option<u64> {
        self.source.size()
    }

    /// The file, if it is a regular one.
    pub(crate) fn regular_file(&mut self) -> Option<&mut File> {
        if self.source.size().is_none() {
            return None;
        }
        match &mut self.source {
            Source::File(file) => Some(file),
            Source::Pipe(_) | Source::Standard(_) => None,
        }
    }
}

impl Read for NotedSource {
    fn read(&mut self, buffer: &mut [u8]) -> Result<usize, io::Error> {
        let result = self.source.read(buffer);
        match &result {
            Ok(count) => self.note.keep(&buffer[..*count]),
            Err(error) if error.kind() == ErrorKind::Interrupted => {}
            Err(error) => self.note.fail(error.kind()),
        }
        result
    }
}

/// A file to be read: its source, if it could be opened, and what is known of it.
#[derive(Drop)]
pub(crate) struct Opened {
    /// The source.
    pub source: Option<NotedSource>,
    /// What is known of it.
    pub note: SharedNote,
}
