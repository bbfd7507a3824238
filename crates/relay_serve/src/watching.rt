//! Saying what goes wrong with the index while the server works, in a thread of its own.
use crate::board::{Shared, share};
use crate::options::{ServeLog, ServeOptions};
use crossbeam_channel::{Receiver, Sender, bounded};
use relay_action::StdStream;
use relay_progress::{Log, Show, show_progress};
use std::alloc::{AllocError, Global};
use std::sync::Wait;
use std::thread;
use std::thread::{JoinHandle, Threads};
use std::time::Clock;

/// A thread that says what goes wrong until the server has ended.
pub(crate) struct Watch {
    ended: Sender<(), Global>,
    thread: JoinHandle<()>,
}

// What is said of the lanes.
fn log_of(log: ServeLog) -> Log {
    match log {
        ServeLog::None => Log::None,
        ServeLog::Errors => Log::Errors,
        ServeLog::Events | ServeLog::Requests => Log::Events,
    }
}

fn say_until_ended<R: Wait + Clock>(
    rt: &R,
    host: HostRuntime,
    show: &Show,
    shared: &Shared,
    ended: &Receiver<(), Global>,
) {
    let mut err = StdStream::new(host.stderr());
    show_progress(rt, host.alloc(), show, &shared.index, ended, &mut err);
}

/// Starts such a thread, unless nothing is to be said, or it cannot be started. `AllocError`: allocation
/// failed.
pub(crate) fn start_watch<R>(
    rt: R,
    host: &HostRuntime,
    alloc: Global,
    options: &ServeOptions,
    epoch: u32,
    shared: &Shared,
) -> Result<Option<Watch>, AllocError>
where
    R: Threads + Wait + Clock + Copy + Send + 'static,
{
    if options.log == ServeLog::None {
        return Ok(None);
    }
    let show = Show {
        lines: false,
        over: false,
        address: String::from_str(alloc, options.to.as_str())?,
        size: None,
        log: log_of(options.log),
        epoch,
        lanes: options.config.lanes,
    };
    let (ended, waiting) = bounded(alloc, 1)?;
    let host = *host;
    let board = share(shared)?;
    match thread::spawn(&rt, move || {
        say_until_ended(&rt, host, &show, &board, &waiting)
    }) {
        Ok(thread) => Ok(Some(Watch { ended, thread })),
        Err(_) => Ok(None),
    }
}

/// Tells the thread, if there is one, that the server has ended, and waits until it has said all.
pub(crate) fn stop_watch<R: Threads>(rt: &R, watch: Option<Watch>) {
    if let Some(watch) = watch {
        let Watch { ended, thread } = watch;
        drop(ended);
        thread.join(rt);
    }
}
