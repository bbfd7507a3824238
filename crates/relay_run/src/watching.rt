//! Showing the progress of a run while it works, in a separate thread.
use crossbeam_channel::{Receiver, Sender, bounded};
use relay_action::StdStream;
use relay_progress::{Counts, Log, Shared, Show, show_progress};
use std::alloc::{AllocError, Global};
use std::sync::{Arc, Wait};
use std::thread;
use std::thread::{JoinHandle, Threads};
use std::time::Clock;

/// The counts of a run, all of them the same.
#[derive(Drop)]
pub(crate) struct Counters {
    /// Those of the readers, if they are counted.
    pub readers: Option<Shared>,
    /// Those of the wires, and of the conflicts, if they are counted.
    pub wires: Option<Shared>,
    /// Those of the dials, if they are watched.
    pub dials: Option<Shared>,
}

/// The counts of a run: of everything if its progress is shown, of all but its readers if there is a
/// log, otherwise of its dials alone on a terminal, where trouble is always shown, and of nothing
/// elsewhere. `AllocError`: allocation failed.
pub(crate) fn counters_of(
    alloc: Global,
    progress: bool,
    log: Log,
    terminal: bool,
) -> Result<Counters, AllocError> {
    let logs = log != Log::None;
    let counts = if progress || logs || terminal {
        Some(Counts::shared(alloc)?)
    } else {
        None
    };
    let readers = if progress { share(&counts)? } else { None };
    let wires = if progress || logs {
        share(&counts)?
    } else {
        None
    };
    Ok(Counters {
        readers,
        wires,
        dials: counts,
    })
}

/// Another handle of the same counts. `AllocError`: there are too many handles.
pub(crate) fn share(counts: &Option<Shared>) -> Result<Option<Shared>, AllocError> {
    match counts {
        Some(counts) => Ok(Some(Arc::try_clone(counts)?)),
        None => Ok(None),
    }
}

/// A thread that shows the progress of a run until the run has ended.
pub(crate) struct Watch {
    ended: Sender<(), Global>,
    thread: JoinHandle<()>,
}

/// Starts such a thread, if there are counts; otherwise nothing is shown. `AllocError`: an
/// allocation for what it is given failed.
pub(crate) fn start_watch<R>(
    rt: R,
    host: HostRuntime,
    alloc: Global,
    show: Show,
    counts: Option<Shared>,
) -> Result<Option<Watch>, AllocError>
where
    R: Threads + Wait + Clock + Copy + Send + 'static,
{
    let Some(counts) = counts else {
        return Ok(None);
    };
    let (ended, waiting) = bounded(alloc, 1)?;
    match thread::spawn(
        &rt,
        move || say_progress(&rt, host, alloc, &show, &counts, &waiting),
    ) {
        Ok(thread) => Ok(Some(Watch { ended, thread })),
        Err(_) => Ok(None),
    }
}

// Shows the progress of a run on standard error.
fn say_progress<R: Wait + Clock>(
    rt: &R,
    host: HostRuntime,
    alloc: Global,
    show: &Show,
    counts: &Counts,
    ended: &Receiver<(), Global>,
) {
    let mut err = StdStream::new(host.stderr());
    show_progress(rt, alloc, show, counts, ended, &mut err);
}

/// Tells the thread, if there is one, that the run has ended, and waits until it has written the
/// last line.
pub(crate) fn stop_watch<R: Threads>(rt: &R, watch: Option<Watch>) {
    if let Some(watch) = watch {
        let Watch { ended, thread } = watch;
        drop(ended);
        thread.join(rt);
    }
}
