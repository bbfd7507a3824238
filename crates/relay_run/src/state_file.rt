//! The file in which a run keeps its state.
ghost use Rattle.std.specs.Prelude.{◌≡◌, ◌≤◌, [], IfOk, IfSome, OnOk};
ghost use Rattle.relay_resume.specs.Texts.{state_text};
ghost use Rattle.relay_run.specs.Written.{MayWrite, and_written, past_if};

use http_server::Log;
use relay_action::Text;
use relay_keeping::MarkKeeper;
use relay_resume::{State, StateFault, read_state, write_state};
use relay_words::{add_number, number_of};
use std::alloc::{AllocError, Global};
use std::fs::{File, OpenOptions, TryLockError};
use std::io::{ErrorKind, Read, Write};
use std::marker::Model;
use std::snapshot::Snapshot;
use std::{fs, process};

// The front of each state.
const STATE_FRONT: &[u8] = b"{\"epoch\":";

// The length of the longest line of a number of 64 bits, in bytes.
const NUMBER_LIMIT: u64 = 21;

/// Why the state of a run cannot be used. Nothing was sent.
#[derive(Clone, Copy, Debug, PartialEq, Eq)]
pub(crate) enum StateFileFault {
    /// It, or a file beside it, could not be opened, read, written, synchronized or renamed, for this
    /// reason.
    Device(ErrorKind),
    /// Another run has it, in this process, if that is known.
    Locked(Option<u64>),
    /// What it holds is no state.
    Form,
    /// It holds the last epoch.
    Spent,
    /// An allocation failed.
    Memory,
}

impl From<AllocError> for StateFileFault {
    fn from(_error: AllocError) -> StateFileFault {
        StateFileFault::Memory
    }
}

/// A keeper of marks as it is when a state is written, for proofs only, if there is one by then.
pub(crate) type KeeperThen = Option<Snapshot<MarkKeeper>>;

/// The file of a state. No other run has it until this is dropped, or the process ends. Contracts see
/// what was written to it.
#[derive(Drop)]
pub(crate) struct StateFile {
    host: HostRuntime,
    path: String,
    // Where a new state is written before it takes the place of the old one.
    beside: String,
    // The directory of both.
    folder: String,
    // It is locked.
    _lock: File,
    // The texts that were written to it, each with the keeper of marks by then, for proofs only.
    written: Log<Vec<u8>, KeeperThen>,
}

impl Model for StateFile {
    ghost use Rattle.std.specs.Prelude.{List, map};
    ghost use Rattle.relay_run.specs.Written.{Written, past_if};

    ghost Value = { List Written };

    ghost view = { λ f. map (λ x. record {
      text = x.0.items;
      past = past_if (λ s. s.value) x.1;
    }) f.written.items };
}

// A name with this after it.
fn with_end(alloc: Global, name: &str, end: &str) -> Result<String, AllocError> {
    let mut text = String::from_str(alloc, name)?;
    text.push_str(end)?;
    Ok(text)
}

// The directory that a path is in.
fn folder_of(alloc: Global, path: &str) -> Result<String, AllocError> {
    match path.rfind('/') {
        Some(0) => String::from_str(alloc, "/"),
        Some(place) => String::from_str(alloc, &path[..place]),
        None => String::from_str(alloc, "."),
    }
}

// Reads at most 64 bytes at the front of a file, and returns how many they are; `None` if it cannot be
// read.
fn read_front(file: &mut File, bytes: &mut [u8; 64]) -> Option<usize>
    ensures { IfSome result (λ n. n ≤ 64) }
{
    let mut length = 0usize;
    'reads: while length < bytes.len() {
        match file.read(&mut bytes[length..]) {
            Ok(0) => break,
            Ok(count) => length += count,
            Err(_) => return None,
        }
    }
    Some(length)
}

// The process whose number a file holds, if it holds one.
fn holder_of(file: &mut File) -> Option<u64> {
    let mut bytes = [0u8; 64];
    let length = read_front(file, &mut bytes)?;
    match std::str::from_utf8(&bytes[..length]) {
        Ok(text) => number_of(text.trim()),
        Err(_) => None,
    }
}

// Whether a file may be written over that has this name: there is none, or it is what a run left there
// that ended while it wrote a state, of which a loss of power may leave zeros.
fn is_left(host: &HostRuntime, name: &str) -> bool {
    let Ok(mut file) = File::open(host, name) else {
        return true;
    };
    let mut bytes = [0u8; 64];
    match read_front(&mut file, &mut bytes) {
        Some(length) => {
            bytes[0] == 0 || STATE_FRONT.starts_with(&bytes[..length.min(STATE_FRONT.len())])
        }
        None => false,
    }
}

fn number_line(alloc: Global, number: u64) -> Result<Vec<u8>, AllocError> {
    let mut text = Vec::new(alloc);
    add_number(&mut text, number)?;
    text.push(b'\n')?;
    Ok(text)
}

// Locks the file with this name, and writes the number of this process into it. A file that is longer
// than such a number is another one.
fn lock(host: &HostRuntime, alloc: Global, name: &str) -> Result<File, StateFileFault> {
    let mut how = OpenOptions::new();
    how.read(true).write(true).create(true);
    let mut file = how
        .open(host, name)
        .map_err(|error| StateFileFault::Device(error.kind()))?;
    match file.try_lock() {
        Ok(()) => {}
        Err(TryLockError::WouldBlock) => return Err(StateFileFault::Locked(holder_of(&mut file))),
        Err(TryLockError::Error(error)) => return Err(StateFileFault::Device(error.kind())),
    }
    match file.metadata() {
        Ok(found) if found.len() <= NUMBER_LIMIT => {}
        Ok(_) => return Err(StateFileFault::Device(ErrorKind::AlreadyExists)),
        Err(error) => return Err(StateFileFault::Device(error.kind())),
    }
    let text = number_line(alloc, process::id(host.process()) as u64)?;
    match file.set_len(0).and_then(|_| file.write_all(&text)) {
        Ok(()) => Ok(file),
        Err(error) => Err(StateFileFault::Device(error.kind())),
    }
}

impl StateFile {
    /// Takes the file with this path, which need not be there: another run with it is refused from
    /// then on.
    pub(crate) fn lock(
        host: HostRuntime,
        alloc: Global,
        path: &str,
    ) -> Result<StateFile, StateFileFault>
        ensures { IfOk result (λ f. f ≡ []) }
    {
        let name = with_end(alloc, path, ".lock")?;
        let lock = lock(&host, alloc, name.as_str())?;
        let beside = with_end(alloc, path, ".new")?;
        if !is_left(&host, beside.as_str()) {
            return Err(StateFileFault::Device(ErrorKind::AlreadyExists));
        }
        Ok(StateFile {
            host,
            path: String::from_str(alloc, path)?,
            beside,
            folder: folder_of(alloc, path)?,
            _lock: lock,
            written: Log::new(),
        })
    }

    /// Its path.
    pub(crate) fn path(&self) -> &str {
        self.path.as_str()
    }

    /// The state that it holds, if it is there.
    pub(crate) fn read(&self, alloc: Global) -> Result<Option<State>, StateFileFault> {
        let bytes = match fs::read(&self.host, self.path.as_str()) {
            Ok(bytes) => bytes,
            Err(error) if error.kind() == ErrorKind::NotFound => return Ok(None),
            Err(error) if error.kind() == ErrorKind::OutOfMemory => {
                return Err(StateFileFault::Memory);
            }
            Err(error) => return Err(StateFileFault::Device(error.kind())),
        };
        match read_state(alloc, &bytes) {
            Ok(state) => Ok(Some(state)),
            Err(StateFault::Form) => Err(StateFileFault::Form),
            Err(StateFault::Memory) => Err(StateFileFault::Memory),
        }
    }

    /// Replaces what it holds by this state. It holds the old one or the new one at any moment, and the
    /// new one once this returns, also after a loss of power.
    pub(crate) fn replace(
        &mut self,
        alloc: Global,
        state: &State,
        then: &KeeperThen,
    ) -> Result<(), StateFileFault>
        ensures may { MayWrite (state_text state.now) (past_if (λ s. s.value) then.now) self.old self.new }
        ensures written { OnOk result (self.new
            ≡ and_written (state_text state.now) (past_if (λ s. s.value) then.now) self.old) }
    {
        let text = write_state(alloc, state)?;
        match self.replace_text(&text, then) {
            Ok(()) => Ok(()),
            Err(error) => Err(StateFileFault::Device(error)),
        }
    }

    fn replace_text(&mut self, text: &Vec<u8>, then: &KeeperThen) -> Result<(), ErrorKind>
        ensures { self.new ≡ and_written text.now.items (past_if (λ s. s.value) then.now) self.old }
    {
        self.write_beside(text, then)?;
        fs::rename(&self.host, self.beside.as_str(), self.path.as_str()).map_err(
            |error| error.kind(),
        )?;
        // Where directories cannot be synchronized, the name is as safe as the system keeps it.
        if let Ok(folder) = File::open(&self.host, self.folder.as_str()) {
            let _ = folder.sync_all();
        }
        Ok(())
    }

    // Writes this beside it, and synchronizes it. It counts as written even if that fails.
    fn write_beside(&mut self, text: &Vec<u8>, then: &KeeperThen) -> Result<(), ErrorKind>
        ensures { self.new ≡ and_written text.now.items (past_if (λ s. s.value) then.now) self.old }
    {
        self.written = self.written.and(text, then);
        let mut file = File::create(&self.host, self.beside.as_str()).map_err(
            |error| error.kind(),
        )?;
        file.write_all(text).map_err(|error| error.kind())?;
        file.sync_all().map_err(|error| error.kind())
    }
}
