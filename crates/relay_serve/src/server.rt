//! The server: where it listens, in which epochs it works, and what it says at the end.
ghost use Rattle.std.specs.Prelude.{◌≡◌, ◌+◌, IsTrue, string_bytes, true};
ghost use Rattle.relay_core.specs.Limits.{is_valid};
ghost use Rattle.relay_http.specs.WrittenRequest.{is_host};
ghost use Rattle.relay_serve.specs.Configs.{config_in};

use crate::board::{Board, Shared, share};
use crate::epochs::Epochs;
use crate::input::await_input;
use crate::options::{Listening, ServeOptions};
use crate::report_file::open_report;
use crate::saying::{say, say_line};
use crate::stopped::Stopped;
use crate::terms::{Broken, Terms, serve_terms};
use crate::totals::counts_text;
use crate::watching::{start_watch, stop_watch};
use crate::workers::Connections;
use relay_action::ByteOut;
use relay_clients::{Entrance, Poller, PollerParts};
use relay_threads::{FinishFaultKind, StartFault};
use relay_words::{Exit, add_number};
use std::alloc::{AllocError, Global};
use std::fs::File;
use std::hash::RandomState;
use std::net::TcpListener;
use std::sync::Wait;
use std::thread;
use std::thread::{JoinHandle, Threads};
use std::time::Clock;

// Where it listens, and in which epoch it works: a line for each entrance.
fn begun_text(alloc: Global, entrances: &[Entrance], epoch: u32) -> Result<Vec<u8>, AllocError> {
    let mut text = Vec::new(alloc);
    for entrance in entrances {
        text.extend_from_slice(b"listening on ")?;
        if let Some(address) = entrance.address() {
            text.extend_from_slice(address.to_string(alloc)?.as_bytes())?;
        }
        text.extend_from_slice(b", epoch ")?;
        add_number(&mut text, u64::from(epoch))?;
        text.push(b'\n')?;
    }
    Ok(text)
}

fn say_stopped<E: ByteOut>(stopped: Stopped, err: &mut E) -> Exit {
    match stopped {
        Stopped::Start(StartFault::Memory) => {
            say_line(err, "start: Memory");
            Exit::Memory
        }
        Stopped::Start(_) => {
            say_line(err, "start failed");
            Exit::Device
        }
        Stopped::Memory => {
            say_line(err, "out of memory");
            Exit::Memory
        }
        Stopped::Random => {
            say_line(err, "no random numbers");
            Exit::Device
        }
        Stopped::Untold => {
            say_line(err, "a lane could not tell a worker");
            Exit::Device
        }
        Stopped::Unknown => {
            say_line(err, "an answer was repeated that was not given");
            Exit::Device
        }
        Stopped::Finish(fault) => match fault.kind {
            FinishFaultKind::LaneMemory | FinishFaultKind::Memory => {
                say_line(err, "a lane ran out of memory");
                Exit::Memory
            }
            FinishFaultKind::LaneGone => {
                say_line(err, "a lane is gone");
                Exit::Device
            }
        },
    }
}

// Starts the thread that waits for the end of standard input. It is not joined: it may wait for
// longer than the server works.
fn spawn_input<R>(rt: R, host: &HostRuntime, shared: Shared) -> bool
where
    R: Threads + Wait + Clock + Copy + Send + 'static,
{
    let input = host.stdin();
    thread::spawn(&rt, move || await_input(&rt, input, &shared)).is_ok()
}

fn spawn_poller<R>(rt: R, poller: Poller, shared: Shared, idle: u64) -> Option<JoinHandle<()>>
where
    R: Threads + Wait + Clock + Copy + Send + 'static,
{
    thread::spawn(&rt, move || poller.run(&rt, &*shared, idle)).ok()
}

// Ends with what the terms have done. Returns the exit status.
fn finish<O: ByteOut, E: ByteOut>(
    alloc: Global,
    terms: Terms,
    broken: Option<Broken>,
    has_failed: bool,
    out: &mut O,
    err: &mut E,
) -> Result<Exit, AllocError> {
    match broken {
        Some(Broken::Term(stopped)) => return Ok(say_stopped(stopped, err)),
        Some(Broken::Epoch(exit)) => return Ok(exit),
        None => {}
    }
    let text = counts_text(alloc, terms.totals)?;
    say(out, text.as_slice());
    if has_failed {
        Ok(Exit::Device)
    } else {
        Ok(Exit::Done)
    }
}

// What is prepared before the first term: the connections, and the poller that gets them.
struct Prepared {
    poller: Poller,
    connections: Connections,
    shared: Shared,
}

// Prepares what the first term needs.
fn prepare(
    host: &HostRuntime,
    alloc: Global,
    options: &ServeOptions,
    entrances: Vec<Entrance>,
    report: Option<File>,
) -> Result<Prepared, Stopped> {
    let shared = Board::shared(host, alloc, options)?;
    let Ok(keys) = RandomState::new(host) else {
        return Err(Stopped::Random);
    };
    let parts = PollerParts {
        entrances,
        keys,
        places: shared.places.share()?,
        room: shared.room.share()?,
    };
    match Poller::new(host, alloc, parts) {
        Ok((poller, parking, next)) => Ok(Prepared {
            poller,
            connections: Connections {
                parking,
                next,
                report,
            },
            shared,
        }),
        Err(_) => Err(Stopped::Start(StartFault::Thread)),
    }
}

// Serves what comes to the poller, in this epoch first.
fn serve_prepared<R, O, E>(
    rt: R,
    host: &HostRuntime,
    options: &ServeOptions,
    prepared: Prepared,
    first: u32,
    epochs: &mut Epochs,
    out: &mut O,
    err: &mut E,
) -> Result<Exit, AllocError>
where
    R: Threads + Wait + Clock + Copy + Send + 'static,
    O: ByteOut,
    E: ByteOut,
    requires valid { is_valid (config_in 0 options.now.config) ≡ true }
    requires host { IsTrue (is_host (string_bytes options.now.to)) }
    requires floor { epochs.old.floor ≡ first + 1 }
{
    let alloc = host.alloc();
    let Prepared {
        poller,
        connections,
        shared,
    } = prepared;
    let (board, ended) = (share(&shared)?, share(&shared)?);
    let watch = start_watch(rt, host, alloc, options, first, &shared)?;
    let Some(polling) = spawn_poller(rt, poller, board, options.idle) else {
        stop_watch(&rt, watch);
        return Ok(say_stopped(Stopped::Start(StartFault::Thread), err));
    };
    if !spawn_input(rt, host, ended) {
        shared.fail();
    }
    let (terms, broken) = serve_terms(
        rt,
        host,
        alloc,
        options,
        first,
        epochs,
        &shared,
        &connections,
        err,
    );
    shared.end();
    drop(connections);
    polling.join(&rt);
    stop_watch(&rt, watch);
    finish(alloc, terms, broken, shared.has_failed(), out, err)
}

// Serves at these entrances, in this epoch first.
fn serve_at<R, O, E>(
    rt: R,
    host: &HostRuntime,
    options: &ServeOptions,
    entrances: Vec<Entrance>,
    report: Option<File>,
    first: u32,
    epochs: &mut Epochs,
    out: &mut O,
    err: &mut E,
) -> Result<Exit, AllocError>
where
    R: Threads + Wait + Clock + Copy + Send + 'static,
    O: ByteOut,
    E: ByteOut,
    requires valid { is_valid (config_in 0 options.now.config) ≡ true }
    requires host { IsTrue (is_host (string_bytes options.now.to)) }
    requires floor { epochs.old.floor ≡ first + 1 }
{
    let begun = begun_text(host.alloc(), &entrances, first)?;
    match prepare(host, host.alloc(), options, entrances, report) {
        Ok(prepared) => {
            say(err, begun.as_slice());
            serve_prepared(rt, host, options, prepared, first, epochs, out, err)
        }
        Err(stopped) => Ok(say_stopped(stopped, err)),
    }
}

// An entrance at each of these addresses. If one cannot be listened at, says so.
fn enter<E: ByteOut>(
    host: &HostRuntime,
    alloc: Global,
    listen: &[Listening],
    err: &mut E,
) -> Result<Vec<Entrance>, Exit> {
    let mut entrances = Vec::new(alloc);
    for listening in listen {
        let bound = TcpListener::bind(host, listening.address.as_str()).ok();
        let entrance = bound.and_then(|listener| Entrance::new(listener, listening.wait));
        let Some(entrance) = entrance else {
            say_line(err, "listen failed");
            return Err(Exit::Device);
        };
        if entrances.push(entrance).is_err() {
            return Err(say_stopped(Stopped::Memory, err));
        }
    }
    Ok(entrances)
}

// The file in which operations are set aside, if they are. If it cannot be opened, says why.
fn report_of<E: ByteOut>(
    host: &HostRuntime,
    alloc: Global,
    path: &Option<String>,
    err: &mut E,
) -> Result<Option<File>, Exit> {
    let Some(path) = path else {
        return Ok(None);
    };
    match open_report(host, alloc, path.as_str()) {
        Ok(file) => Ok(Some(file)),
        Err(fault) => {
            say(err, path.as_bytes());
            say(err, b": ");
            say_line(err, fault.text());
            Err(fault.exit())
        }
    }
}

/// Serves until the end of standard input or until a client on this machine has it stop, or until a lane
/// has failed. It says on `err` where it listens and in which epoch it works, and at the end the counts of
/// all lanes and terms on `out`.
pub fn serve<R, O, E>(
    rt: R,
    host: HostRuntime,
    options: &ServeOptions,
    out: &mut O,
    err: &mut E,
) -> Exit
where
    R: Threads + Wait + Clock + Copy + Send + 'static,
    O: ByteOut,
    E: ByteOut,
    requires valid { is_valid (config_in 0 options.now.config) ≡ true }
    requires host { IsTrue (is_host (string_bytes options.now.to)) }
{
    let alloc = host.alloc();
    let entrances = match enter(&host, alloc, &options.listen, err) {
        Ok(entrances) => entrances,
        Err(exit) => return exit,
    };
    let report = match report_of(&host, alloc, &options.report, err) {
        Ok(report) => report,
        Err(exit) => return exit,
    };
    let mut epochs = Epochs::new();
    let first = match epochs.next(&host, alloc, options, err) {
        Ok(epoch) => epoch,
        Err(exit) => return exit,
    };
    let served = serve_at(
        rt,
        &host,
        options,
        entrances,
        report,
        first,
        &mut epochs,
        out,
        err,
    );
    match served {
        Ok(exit) => exit,
        Err(_) => say_stopped(Stopped::Memory, err),
    }
}
