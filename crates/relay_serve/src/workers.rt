//! The threads of workers, from their start to their end.
ghost use Rattle.std.specs.Prelude.{◌≡◌, ◌<◌, ◌≤◌, IfOk, map, option_map, string_bytes};
ghost use Rattle.relay_producer.specs.Ends.{identities, open_puts, closed_puts};
ghost use Rattle.relay_serve.specs.Answering.{HaveServed, given_by, index_in};
ghost use Rattle.relay_serve.specs.Workers.{AreUnused, given_as, given_to, producer_in, receipts_in};

use crate::board::{Shared, share};
use crate::clerk::Clerk;
use crate::entry::Spoken;
use crate::options::ServeOptions;
use crate::producing::Making;
use crate::settler::Settler;
use crate::stopped::Stopped;
use crate::tally::Tally;
use crate::worker::{Left, Settings, Worker};
use crossbeam_channel::{Receiver, Sender, bounded};
use rand_pcg::Pcg64;
use relay_clients::{Client, Parking};
use relay_common::ticking::tick_until_ended;
use relay_producer::{ClosedControl, ClosedProducer, Control, Producer};
use relay_receipts::{ReceiptTake, WindowedProducer};
use relay_telling::Ending;
use relay_threads::StartFault;
use std::alloc::{AllocError, Global};
use std::fs::File;
use std::random::RandomSource;
use std::snapshot::Snapshot;
use std::sync::Wait;
use std::sync::atomic::AtomicU64;
use std::thread;
use std::thread::{Promise, PromisedHandle, Threads};
use std::time::Clock;
use uuid::ContextV7;

/// What a worker's thread was given, for proofs only.
#[derive(Drop)]
pub(crate) struct WorkerPromise {
    /// Its producer.
    pub(crate) producer: Snapshot<WindowedProducer<Ending>>,
    /// What it goes by.
    pub(crate) settings: Snapshot<Settings>,
}

impl Promise<Left> for WorkerPromise {
    ghost use Rattle.relay_serve.specs.Answering.{HasServed};
    ghost use Rattle.relay_serve.specs.Workers.{given_as};

    ghost kept_by = { λ p ended. HasServed (given_as p.settings.value p.producer.value) ended.0
        ended.1 ended.2 };
}

/// A worker in its thread.
pub(crate) type WorkerThread = PromisedHandle<Left, WorkerPromise>;

/// What workers that have ended leave, in their order: their producers, closed, their ends of the
/// channels of receipts, and what they gave to the memory and answered from it.
type AllLeft = (Vec<ClosedProducer>, Vec<ReceiptTake<Ending>>, Vec<Spoken>);

/// That, and the control.
type Ended = (AllLeft, ClosedControl);

/// Where workers get connections, where these go that wait for their clients, and where operations that
/// are reported are set aside, if they are.
#[derive(Drop)]
pub(crate) struct Connections {
    pub(crate) parking: Parking,
    pub(crate) next: Receiver<Client, Global>,
    pub(crate) report: Option<File>,
}

/// Each producer with its end of the channel of its receipts, and a window.
pub(crate) fn pair_up(
    alloc: Global,
    producers: Vec<Producer>,
    takes: Vec<ReceiptTake<Ending>>,
    window: u32,
) -> Result<Vec<WindowedProducer<Ending>>, AllocError>
    requires unused { AreUnused producers.items takes.items }
    requires window { (0 < window) × (window ≤ 65536) }
    ensures producers { IfOk result (λ v. map producer_in v.items ≡ producers.items) }
    ensures receipts { IfOk result (λ v. map receipts_in v.items ≡ takes.items) }
{
    let mut paired = Vec::new(alloc);
    let mut takes = takes.into_iter();
    'producers: for producer in producers {
        let Some(take) = takes.next() else {
            unreachable!();
        };
        paired.push(WindowedProducer::new(producer, take, window))?;
    }
    Ok(paired)
}

// A text of its own, if there is one.
fn own(alloc: Global, text: &Option<String>) -> Result<Option<String>, AllocError>
    ensures { IfOk result (λ own. option_map string_bytes own ≡ option_map string_bytes text.now) }
{
    match text {
        Some(text) => Ok(Some(String::from_str(alloc, text.as_str())?)),
        None => Ok(None),
    }
}

// Dice with a seed from the system. `None`: it gave no random bytes.
fn seed(host: &HostRuntime) -> Option<Pcg64> {
    let mut state = [0u8; 16];
    let mut stream = [0u8; 16];
    host.fill_bytes(&mut state).ok()?;
    host.fill_bytes(&mut stream).ok()?;
    Some(Pcg64::new(u128::from_le_bytes(state), u128::from_le_bytes(stream)))
}

// What a worker writes down, with a handle of its own of the file of the report.
fn make_clerk(
    host: &HostRuntime,
    alloc: Global,
    options: &ServeOptions,
    report: &Option<File>,
) -> Result<Clerk, Stopped> {
    let report = match report {
        Some(file) => match file.try_clone() {
            Ok(file) => Some(file),
            Err(_) => return Err(Stopped::Start(StartFault::Thread)),
        },
        None => None,
    };
    Ok(Clerk {
        host: *host,
        alloc,
        log: options.log,
        report,
        peer: None,
        is_local: false,
    })
}

// What a worker with this producer is given.
fn make_worker(
    host: &HostRuntime,
    alloc: Global,
    options: &ServeOptions,
    producer: WindowedProducer<Ending>,
    shared: &Shared,
    report: &Option<File>,
) -> Result<Worker, Stopped>
    ensures { IfOk result (λ w. given_as w.settings w.settler.producer
        ≡ given_by options.now.face (index_in options.now.index) producer) }
{
    let Some(dice) = seed(host) else {
        return Err(Stopped::Random);
    };
    let index = own(alloc, &options.index)?;
    let clerk = make_clerk(host, alloc, options, report)?;
    let board = share(shared)?;
    let other = share(shared)?;
    Ok(Worker {
        settings: Settings {
            face: options.face,
            index,
            idle: options.idle,
        },
        settler: Settler {
            alloc,
            producer,
            tally: Tally::new(board),
            within: options.within,
            waited: AtomicU64::new(0),
        },
        making: Making {
            alloc,
            ids: ContextV7::new(),
            dice,
        },
        clerk,
        shared: other,
    })
}

// Starts the thread of a worker, which drops `ended` at its end. `AllocError`: it could not be
// started.
fn spawn_worker<R>(
    rt: R,
    worker: Worker,
    next: Receiver<Client, Global>,
    parking: Parking,
    ended: Sender<(), Global>,
) -> Result<WorkerThread, AllocError>
where
    R: Threads + Wait + Clock + Copy + Send + 'static,
    ensures { IfOk result (λ h. given_to h ≡ given_as worker.settings worker.settler.producer) }
{
    let promise = WorkerPromise {
        producer: Snapshot::of(&worker.settler.producer),
        settings: Snapshot::of(&worker.settings),
    };
    Ok(thread::spawn_with(&rt, promise, move || {
        let _ended = ended;
        worker.work(&rt, &next, &parking)
    })?)
}

// Starts the thread of a worker with this producer.
fn start_worker<R>(
    rt: R,
    host: &HostRuntime,
    alloc: Global,
    options: &ServeOptions,
    producer: WindowedProducer<Ending>,
    shared: &Shared,
    connections: &Connections,
    ended: &Sender<(), Global>,
) -> Result<WorkerThread, Stopped>
where
    R: Threads + Wait + Clock + Copy + Send + 'static,
    ensures { IfOk result (λ h. given_to h
        ≡ given_by options.now.face (index_in options.now.index) producer) }
{
    let next = connections.next.clone()?;
    let parking = connections.parking.share()?;
    let ended = ended.clone()?;
    let worker = make_worker(host, alloc, options, producer, shared, &connections.report)?;
    match spawn_worker(rt, worker, next, parking, ended) {
        Ok(thread) => Ok(thread),
        Err(_) => Err(Stopped::Start(StartFault::Thread)),
    }
}

// Starts the workers. Each drops its clone of `ended` at its end.
fn spawn_workers<R>(
    rt: R,
    host: &HostRuntime,
    alloc: Global,
    options: &ServeOptions,
    producers: Vec<WindowedProducer<Ending>>,
    shared: &Shared,
    connections: &Connections,
    ended: Sender<(), Global>,
) -> Result<Vec<WorkerThread>, Stopped>
where
    R: Threads + Wait + Clock + Copy + Send + 'static,
    ensures { IfOk result (λ v. map given_to v.items
        ≡ map (given_by options.now.face (index_in options.now.index)) producers.items) }
{
    let mut threads = Vec::new(alloc);
    'producers: for producer in producers {
        threads.reserve(1)?;
        threads.push_reserved(start_worker(
            rt,
            host,
            alloc,
            options,
            producer,
            shared,
            connections,
            &ended,
        )?);
    }
    Ok(threads)
}

// Waits until each worker has ended, and returns what they leave.
fn join_all<R: Threads>(
    rt: &R,
    alloc: Global,
    threads: Vec<WorkerThread>,
) -> Result<AllLeft, AllocError>
    ensures { IfOk result (λ r. HaveServed (map given_to threads.items) r.0.items r.1.items r.2.items) }
{
    let mut closed = Vec::with_capacity(alloc, threads.len())?;
    let mut receipts = Vec::with_capacity(alloc, threads.len())?;
    let mut spoken = Vec::with_capacity(alloc, threads.len())?;
    'threads: for thread in threads {
        let (producer, take, said) = thread.join(rt);
        closed.push(producer)?;
        receipts.push(take)?;
        spoken.push(said)?;
    }
    Ok((closed, receipts, spoken))
}

/// Starts a worker for each of these producers, and waits until they have ended, while the lanes get
/// a tick every 100 ms. Then it closes the control. Returns what the workers leave, and the control.
pub(crate) fn run_workers<R>(
    rt: R,
    host: &HostRuntime,
    alloc: Global,
    options: &ServeOptions,
    producers: Vec<WindowedProducer<Ending>>,
    control: Control,
    shared: &Shared,
    connections: &Connections,
) -> Result<Ended, Stopped>
where
    R: Threads + Wait + Clock + Copy + Send + 'static,
    ensures served { IfOk result (λ r. HaveServed
        (map (given_by options.now.face (index_in options.now.index)) producers.items)
        r.0.0.items r.0.1.items r.0.2.items) }
    ensures control { IfOk result (λ r. identities (closed_puts r.1.ends)
        ≡ identities (open_puts control.ends)) }
{
    let mut control = control;
    let (ended, last) = bounded(alloc, 1)?;
    let threads = spawn_workers(
        rt,
        host,
        alloc,
        options,
        producers,
        shared,
        connections,
        ended,
    )?;
    tick_until_ended(&rt, &last, &mut control);
    let left = join_all(&rt, alloc, threads)?;
    Ok((left, control.close(&rt)))
}
