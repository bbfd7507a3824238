//! Opening the files of a run.
ghost use Rattle.std.specs.Prelude.{◌≡◌, IfOk, length, vec_len};

use crate::noting::{FileNote, NotedSource, Opened, SharedNote};
use crate::pumping::Flow;
use crate::source::open_source;
use crate::stopping::{SharedStop, share_stop};
use crate::watching::share;
use relay_action::StdStream;
use relay_progress::{CountedReader, Shared};
use relay_resume::Mark;
use std::alloc::{AllocError, Global};
use std::io::ErrorKind;
use std::sync::{Arc, Wait};
use std::thread::Threads;
use std::time::Clock;

// Opens the file with this name, or standard input for `-`.
fn open_file(rt: &HostRuntime, alloc: Global, file: &str) -> Result<Opened, AllocError> {
    match open_source(rt, alloc, file) {
        Ok(source) => {
            let note = FileNote::of_source(*rt, alloc, file, &source)?;
            let source = NotedSource::new(source, Arc::try_clone(&note)?);
            Ok(Opened {
                source: Some(source),
                note,
            })
        }
        Err(error) if error.kind() == ErrorKind::OutOfMemory => Err(AllocError),
        Err(error) => Ok(Opened {
            source: None,
            note: FileNote::of_failed(alloc, error.kind())?,
        }),
    }
}

/// Opens the files, or standard input for `-`. `AllocError`: allocation failed.
pub(crate) fn open_files(
    rt: &HostRuntime,
    alloc: Global,
    files: &[String],
) -> Result<Vec<Opened>, AllocError>
    ensures { IfOk result (λ v. vec_len v ≡ length files.now) }
{
    let mut sources = Vec::new(alloc);
    for file in files {
        sources.push(open_file(rt, alloc, file.as_str())?)?;
    }
    Ok(sources)
}

/// The total size in bytes of what they have after these marks, if the size of each is known. A file
/// that could not be opened counts as empty.
pub(crate) fn whole_size(sources: &[Opened], starts: &[Mark]) -> Option<u64> {
    let mut size = 0u64;
    for opened in sources {
        if let Some(source) = &opened.source {
            size = size.saturating_add(source.size()?);
        }
    }
    for start in starts {
        size = size.saturating_sub(start.offset);
    }
    Some(size)
}

/// What is known of each of them. `AllocError`: there are too many handles.
pub(crate) fn notes_of(alloc: Global, sources: &[Opened]) -> Result<Vec<SharedNote>, AllocError>
    ensures { IfOk result (λ v. vec_len v ≡ length sources.now) }
{
    let mut notes = Vec::new(alloc);
    for opened in sources {
        notes.push(Arc::try_clone(&opened.note)?)?;
    }
    Ok(notes)
}

/// A counted reader of a file.
pub(crate) type Reader<R> = CountedReader<StdStream<Flow<R>>>;

/// What the readers of a run are told.
#[derive(Drop)]
pub(crate) struct ReaderOptions {
    /// Where what they read is counted, if it is.
    pub counts: Option<Shared>,
    /// What may stop them.
    pub stop: Option<SharedStop>,
    /// Whether it may stop them while they wait for a file.
    pub waits: bool,
}

/// A reader for each file that could be opened. `AllocError`: allocation failed.
pub(crate) fn make_readers<R>(
    rt: R,
    alloc: Global,
    sources: Vec<Opened>,
    options: &ReaderOptions,
) -> Result<Vec<Option<Reader<R>>>, AllocError>
where
    R: Threads + Wait + Clock + Copy + Send + 'static,
    ensures { IfOk result (λ v. vec_len v ≡ vec_len sources) }
{
    let mut readers = Vec::new(alloc);
    for opened in sources {
        readers.push(make_reader(rt, alloc, opened, options)?)?;
    }
    Ok(readers)
}

// A reader, if its file could be opened.
fn make_reader<R>(
    rt: R,
    alloc: Global,
    opened: Opened,
    options: &ReaderOptions,
) -> Result<Option<Reader<R>>, AllocError>
where
    R: Threads + Wait + Clock + Copy + Send + 'static,
{
    let Opened {
        source,
        note: _note,
    } = opened;
    let Some(source) = source else {
        return Ok(None);
    };
    let stop = share_stop(&options.stop)?;
    let source = Flow::new(rt, alloc, source, options.waits, stop)?;
    let counts = share(&options.counts)?;
    Ok(Some(CountedReader::new(StdStream::new(source), counts)))
}
