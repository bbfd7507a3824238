//! Files that are read, and why a read of them failed.
use crate::report::failed;
use relay_words::Exit;
use std::fs::File;
use std::io;
use std::io::{ErrorKind, Read};
use std::sync::OnceLock;

/// Why the first read that failed did so.
pub type Reason = OnceLock<ErrorKind>;

/// A file that notes why a read of it failed.
#[derive(Drop)]
pub struct NotedFile<'a> {
    file: File,
    reason: &'a Reason,
}

/// Opens a file that notes there why a read of it failed. If it cannot be opened, prints why and
/// returns the exit status.
pub fn open_noted<'a, R: Eprint>(
    rt: &R,
    host: HostRuntime,
    path: &str,
    reason: &'a Reason,
) -> Result<NotedFile<'a>, Exit> {
    match File::open(&host, path) {
        Ok(file) => Ok(NotedFile { file, reason }),
        Err(error) => Err(failed(rt, path, "open failed", Some(error.kind()))),
    }
}

impl NotedFile<'_> {
    /// Whether it is a regular file, which can be read twice.
    pub fn is_regular(&self) -> bool {
        match self.file.metadata() {
            Ok(metadata) => metadata.is_file(),
            Err(_) => false,
        }
    }
}

impl Read for NotedFile<'_> {
    fn read(&mut self, buffer: &mut [u8]) -> Result<usize, io::Error> {
        let result = self.file.read(buffer);
        if let Err(error) = &result {
            if error.kind() != ErrorKind::Interrupted {
                let _ = self.reason.try_set(error.kind());
            }
        }
        result
    }
}
