//! The epoch of a server.
ghost use Rattle.std.specs.Prelude.{◌≤◌, IfOk, IfSome};

use relay_action::DocKey;
use relay_core::config::EPOCH_LIMIT;
use relay_words::{add_number, number_of};
use std::alloc::Global;
use std::fs::{File, OpenOptions, TryLockError};
use std::io::{Read, Seek, SeekFrom, Write};

/// Where a server's epoch comes from.
#[derive(Drop)]
pub enum EpochSource {
    /// The command line.
    Given(u32),
    /// A counter document of the index.
    Counter(DocKey),
    /// A file, by its path.
    File(String),
}

/// Why a file gives no epoch. Nothing was sent.
#[derive(Clone, Copy, Debug, PartialEq, Eq)]
pub enum FileFault {
    /// The file could not be opened, read, written or synchronized.
    Device,
    /// Another process has locked it: a server that runs in its epoch.
    Locked,
    /// What it holds is no epoch.
    Form,
    /// It holds the last epoch.
    Spent,
    /// An allocation failed.
    Memory,
}

impl FileFault {
    /// What is said of it.
    pub fn text(self) -> &'static str {
        match self {
            FileFault::Device => "could not be opened, read, written or synchronized",
            FileFault::Locked => "is locked by another process",
            FileFault::Form => "holds no number from 0 to 4194303",
            FileFault::Spent => "holds the last epoch, 4194303",
            FileFault::Memory => "there is no memory to read it",
        }
    }
}

// The epoch that a text holds. An empty one holds epoch 0: none was used yet.
fn epoch_in(text: &str) -> Option<u32>
    ensures { IfSome result (λ epoch. epoch ≤ 4194303) }
{
    let text = text.trim();
    if text.is_empty() {
        return Some(0);
    }
    match number_of(text) {
        Some(epoch) if epoch <= u64::from(EPOCH_LIMIT) => u32::try_from(epoch).ok(),
        _ => None,
    }
}

// The text of a file, of which at most 64 bytes are read.
fn read_epoch(file: &mut File) -> Result<u32, FileFault>
    ensures { IfOk result (λ epoch. epoch ≤ 4194303) }
{
    let mut bytes = [0u8; 64];
    let mut length = 0usize;
    'reads: while length < bytes.len() {
        match file.read(&mut bytes[length..]) {
            Ok(0) => break,
            Ok(count) => length += count,
            Err(_) => return Err(FileFault::Device),
        }
    }
    let Ok(text) = std::str::from_utf8(&bytes[..length]) else {
        return Err(FileFault::Form);
    };
    epoch_in(text).ok_or(FileFault::Form)
}

// Writes an epoch over what the file holds: always as many bytes, in one write.
fn write_epoch(alloc: Global, file: &mut File, epoch: u32) -> Result<(), FileFault> {
    let mut digits = Vec::new(alloc);
    add_number(&mut digits, u64::from(epoch)).map_err(|_| FileFault::Memory)?;
    let mut text = *b"0000000\n";
    let start = 7usize.saturating_sub(digits.len());
    for (place, digit) in digits.iter().enumerate() {
        if let Some(byte) = text.get_mut(start.saturating_add(place)) {
            *byte = *digit;
        }
    }
    if file.seek(SeekFrom::Start(0)).is_err() || file.write_all(&text).is_err() {
        return Err(FileFault::Device);
    }
    if file.set_len(8).is_err() || file.sync_all().is_err() {
        return Err(FileFault::Device);
    }
    Ok(())
}

// Has the system keep the name of a file that may be new. Where directories cannot be synchronized, it is
// as safe as the system keeps it.
fn sync_name(host: &HostRuntime, path: &str) {
    let folder = match path.rfind('/') {
        Some(0) => "/",
        Some(at) => path.get(..at).unwrap_or("."),
        None => ".",
    };
    if let Ok(folder) = File::open(host, folder) {
        let _ = folder.sync_all();
    }
}

/// Opens the file of the epoch, and locks it until it is dropped. One that is absent is made, and is
/// empty.
pub fn open_epoch(host: &HostRuntime, path: &str) -> Result<File, FileFault> {
    let mut options = OpenOptions::new();
    options.read(true).write(true).create(true);
    let file = options.open(host, path).map_err(|_| FileFault::Device)?;
    sync_name(host, path);
    match file.try_lock() {
        Ok(()) => Ok(file),
        Err(TryLockError::WouldBlock) => Err(FileFault::Locked),
        Err(TryLockError::Error(_)) => Err(FileFault::Device),
    }
}

/// Raises the epoch in a file by one, or to `floor` if that is more, and returns it once the system has
/// kept it. An empty file holds epoch 0.
pub fn raise_epoch(alloc: Global, file: &mut File, floor: u32) -> Result<u32, FileFault>
    ensures within { IfOk result (λ epoch. (1 ≤ epoch) × (epoch ≤ 4194303)) }
    ensures above { IfOk result (λ epoch. floor ≤ epoch) }
{
    if file.seek(SeekFrom::Start(0)).is_err() {
        return Err(FileFault::Device);
    }
    let old = read_epoch(file)?;
    let epoch = (old + 1).max(floor);
    if epoch > EPOCH_LIMIT {
        return Err(FileFault::Spent);
    }
    write_epoch(alloc, file, epoch)?;
    Ok(epoch)
}
