//! Where the operations of a producer are read from.
ghost use Rattle.std.specs.Prelude.{◌≡◌, IfOk, IsOk, IsTrue, bytes_eq, map, string_bytes};
ghost use Rattle.relay_run.specs.Sources.{is_standard, named_count, standard_name};

use std::alloc::Global;
use std::fs::File;
use std::io::Read;
use std::os::unix::fs::FileTypeExt;
use std::rt::Stdin;
use std::{fs, io};

/// The name of standard input. A file of this name is `./-`.
pub const STANDARD_NAME: &str = "-";

/// A file that was opened, or standard input. A read returns what has arrived, without waiting for
/// more once there is something.
#[derive(Drop)]
pub enum Source {
    /// A file that is no named pipe.
    File(File),
    /// A named pipe.
    Pipe(NamedPipe),
    /// Standard input.
    Standard(Stdin),
}

/// A named pipe, which the first read opens. That waits until a writer has opened it too.
#[derive(Drop)]
pub struct NamedPipe {
    host: HostRuntime,
    name: String,
    file: Option<File>,
}

impl Read for NamedPipe {
    fn read(&mut self, buffer: &mut [u8]) -> Result<usize, io::Error> {
        if let Some(file) = &mut self.file {
            return file.read(buffer);
        }
        let mut file = File::open(&self.host, self.name.as_str())?;
        let result = file.read(buffer);
        self.file = Some(file);
        result
    }
}

impl Read for Source {
    fn read(&mut self, buffer: &mut [u8]) -> Result<usize, io::Error> {
        match self {
            Source::File(file) => file.read(buffer),
            Source::Pipe(pipe) => pipe.read(buffer),
            Source::Standard(input) => input.read(buffer),
        }
    }
}

/// Standard input if the name is `-`, otherwise the file with this name. It does not wait: a named
/// pipe is opened by its first read. An error is the system's or a failed allocation, and only for
/// a file.
pub fn open_source(rt: &HostRuntime, alloc: Global, name: &str) -> Result<Source, io::Error>
    ensures standard { IsTrue (bytes_eq name.now standard_name) → IsOk result }
    ensures which { IfOk result (λ s. is_standard s ≡ bytes_eq name.now standard_name) }
{
    if name == STANDARD_NAME {
        return Ok(Source::Standard(rt.stdin()));
    }
    if !is_named_pipe(rt, name) {
        return Ok(Source::File(File::open(rt, name)?));
    }
    Ok(Source::Pipe(NamedPipe {
        host: *rt,
        name: String::from_str(alloc, name)?,
        file: None,
    }))
}

fn is_named_pipe(rt: &HostRuntime, name: &str) -> bool {
    match fs::metadata(rt, name) {
        Ok(metadata) => metadata.file_type().is_fifo(),
        Err(_) => false,
    }
}

impl Source {
    /// The size in bytes, if the system knows it; for a pipe and for standard input it does not.
    pub fn size(&self) -> Option<u64> {
        let Source::File(file) = self else {
            return None;
        };
        let metadata = file.metadata().ok()?;
        if metadata.is_file() {
            Some(metadata.len())
        } else {
            None
        }
    }
}

/// How many of the names equal this one.
pub fn count_named(names: &[String], wanted: &str) -> usize
    ensures { result ≡ named_count wanted.now (map string_bytes names.now) }
{
    names.iter().filter(|name| name.as_str() == wanted).count()
}
