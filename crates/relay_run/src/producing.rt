//! The thread of a producer: it puts the operations of a stream, and closes.
ghost use Rattle.std.specs.Prelude.{◌≡◌, ◌⊎◌, List, map, option_map, string_bytes, IfErr, IfOk, vec_len};
ghost use Rattle.relay_ndjson.specs.Metadata.{bytes_given};
ghost use Rattle.relay_ndjson.specs.Operations.{Operation};
ghost use Rattle.relay_producer.specs.Ends.{identities, open_puts};
ghost use Rattle.relay_run.specs.Readers.{IsFedFrom, IsFed};
ghost use Rattle.relay_run.specs.Handles.{given_to, all_given, telling_of, given_telling, AllEndFed};
ghost use Rattle.relay_run.specs.Settling.{teller_of};

use crate::feed::{FeedFault, feed};
use crate::settling::Telling;
use crate::stopping::{SharedStop, share_stop};
use crossbeam_channel::Sender;
use relay_action::ByteIn;
use relay_ndjson::Input;
use relay_producer::{ClosedProducer, Producer};
use relay_threads::StartFault;
use std::alloc::{AllocError, Global};
use std::snapshot::Snapshot;
use std::sync::Wait;
use std::thread;
use std::thread::{Promise, PromisedHandle, Threads};

/// The state of a producer's thread at its end.
#[derive(Drop)]
pub struct FedProducer {
    /// The producer, which has closed.
    pub closed: ClosedProducer,
    /// Why it was not fed all of its stream; `None` if it was.
    pub fault: Option<FeedFault>,
    /// What its thread told by.
    pub telling: Telling,
}

/// What a producer's thread was given, for proofs only: the producer, its reader, the index, and what
/// it tells by.
#[derive(Drop)]
pub struct FedPromise<S> {
    /// The producer.
    pub producer: Snapshot<Producer>,
    /// Its reader, if it has one.
    pub reader: Snapshot<Option<S>>,
    /// The index of operations that do not name one.
    pub index: Snapshot<Option<String>>,
    /// What it tells by.
    pub telling: Snapshot<Telling>,
}

impl<S: ByteIn> Promise<FedProducer> for FedPromise<S> {
    ghost use Rattle.std.specs.Prelude.{option_map, string_bytes};
    ghost use Rattle.relay_run.specs.Readers.{IsFed};

    ghost kept_by = { λ p end. IsFed S.left S.failed (option_map string_bytes p.index.value)
        p.reader.value p.producer.value end.closed p.telling.value end.telling end.fault };
}

/// A producer in its thread.
pub type FedThread<S> = PromisedHandle<FedProducer, FedPromise<S>>;

// Puts the operations of a stream. Returns why not all were put, or `None` if they were.
fn feed_reader<R: Wait, S: ByteIn + Drop>(
    rt: &R,
    alloc: Global,
    reader: S,
    index: Option<&str>,
    producer: &mut Producer,
    stop: &Option<SharedStop>,
    telling: &mut Telling,
) -> Option<FeedFault>
    ensures fed { (ops : List Operation) × IsFedFrom S.left S.failed (bytes_given index.entry)
        (Some reader) ops producer.old producer.new telling.old
        telling.new
        result }
    ensures same { identities (open_puts producer.new.ends)
        ≡ identities (open_puts producer.old.ends) }
    ensures producer { producer.new.producer ≡ producer.old.producer }
{
    let mut input = Input::new(alloc, reader, index);
    match feed(rt, &mut input, producer, stop, telling) {
        Ok(()) => None,
        Err(fault) => Some(fault),
    }
}

// Puts the operations of a stream, if there is one. Returns why not all were put, or `None` if they
// were.
fn feed_given<R: Wait, S: ByteIn + Drop>(
    rt: &R,
    alloc: Global,
    reader: Option<S>,
    index: Option<&str>,
    producer: &mut Producer,
    stop: &Option<SharedStop>,
    telling: &mut Telling,
) -> Option<FeedFault>
    ensures fed { (ops : List Operation) × IsFedFrom S.left S.failed (bytes_given index.entry)
        reader ops producer.old producer.new telling.old
        telling.new
        result }
    ensures same { identities (open_puts producer.new.ends)
        ≡ identities (open_puts producer.old.ends) }
    ensures producer { producer.new.producer ≡ producer.old.producer }
{
    match reader {
        Some(reader) => feed_reader(rt, alloc, reader, index, producer, stop, telling),
        None => None,
    }
}

// Puts the operations of a stream, if there is one, and closes.
fn run_producer<R: Wait, S: ByteIn + Drop>(
    rt: &R,
    alloc: Global,
    reader: Option<S>,
    index: Option<String>,
    producer: Producer,
    stop: Option<SharedStop>,
    telling: Telling,
) -> FedProducer
    ensures fed { IsFed S.left S.failed (option_map string_bytes index) reader producer
        result.closed telling result.telling result.fault }
{
    let mut producer = producer;
    let mut telling = telling;
    let fault = feed_given(
        rt,
        alloc,
        reader,
        index.as_deref(),
        &mut producer,
        &stop,
        &mut telling,
    );
    telling.flush(rt);
    FedProducer {
        closed: producer.close(rt),
        fault,
        telling,
    }
}

// Starts the thread of a producer, which drops `ended` at its end. `AllocError`: it could not be
// started.
fn spawn_producer<R, S>(
    rt: R,
    alloc: Global,
    reader: Option<S>,
    index: Option<String>,
    producer: Producer,
    stop: Option<SharedStop>,
    telling: Telling,
    ended: Sender<(), Global>,
) -> Result<FedThread<S>, AllocError>
where
    R: Threads + Wait + Copy + Send + 'static,
    S: ByteIn + Drop + Send + 'static,
    ensures producer { IfOk result (λ h. h.promise.producer.value ≡ producer) }
    ensures reader { IfOk result (λ h. h.promise.reader.value ≡ reader) }
    ensures index { IfOk result (λ h. h.promise.index.value ≡ index) }
    ensures telling { IfOk result (λ h. h.promise.telling.value ≡ telling) }
{
    let promise = FedPromise {
        producer: Snapshot::of(&producer),
        reader: Snapshot::of(&reader),
        index: Snapshot::of(&index),
        telling: Snapshot::of(&telling),
    };
    Ok(thread::spawn_with(&rt, promise, move || {
        let _ended = ended;
        run_producer(&rt, alloc, reader, index, producer, stop, telling)
    })?)
}

// Starts that thread with copies of its own of what all of them are given. `Memory`: an allocation for
// these failed. `Thread`: it could not be started.
fn start_producer<R, S>(
    rt: R,
    alloc: Global,
    reader: Option<S>,
    index: Option<&str>,
    producer: Producer,
    stop: &Option<SharedStop>,
    telling: Telling,
    ended: &Sender<(), Global>,
) -> Result<FedThread<S>, StartFault>
where
    R: Threads + Wait + Copy + Send + 'static,
    S: ByteIn + Drop + Send + 'static,
    ensures producer { IfOk result (λ h. h.promise.producer.value ≡ producer) }
    ensures reader { IfOk result (λ h. h.promise.reader.value ≡ reader) }
    ensures index { IfOk result
        (λ h. option_map string_bytes h.promise.index.value ≡ bytes_given index.entry) }
    ensures telling { IfOk result (λ h. h.promise.telling.value ≡ telling) }
    ensures fault { IfErr result (λ e. (e ≡ StartFault.Memory) ⊎ (e ≡ StartFault.Thread)) }
{
    let own = own_text(alloc, index)?;
    let stop = share_stop(stop)?;
    let ended = ended.clone()?;
    match spawn_producer(rt, alloc, reader, own, producer, stop, telling, ended) {
        Ok(thread) => Ok(thread),
        Err(_) => Err(StartFault::Thread),
    }
}

/// An owned copy of a text, if there is one.
pub(crate) fn own_text(alloc: Global, text: Option<&str>) -> Result<Option<String>, AllocError>
    ensures { IfOk result (λ own. option_map string_bytes own ≡ bytes_given text.entry) }
{
    match text {
        Some(text) => Ok(Some(String::from_str(alloc, text)?)),
        None => Ok(None),
    }
}

/// Starts a thread for each producer, which puts the operations of the reader at its position, if
/// there is one, tells by what is at its position, and closes, unless the run is to stop before.
/// Operations without an index name get this index, if one is given. Each thread drops its clone of
/// `ended` at its end. `Memory`: an allocation for what a thread is given failed. `Thread`: one
/// could not be started. Threads that were started then continue.
pub(crate) fn spawn_producers<R, S>(
    rt: R,
    alloc: Global,
    readers: Vec<Option<S>>,
    index: Option<&str>,
    producers: Vec<Producer>,
    stop: &Option<SharedStop>,
    tellings: Vec<Telling>,
    ended: Sender<(), Global>,
) -> Result<Vec<FedThread<S>>, StartFault>
where
    R: Threads + Wait + Copy + Send + 'static,
    S: ByteIn + Drop + Send + 'static,
    requires tellings { vec_len tellings ≡ vec_len producers }
    ensures tellings { IfOk result (λ v. map telling_of v.items ≡ tellings.items) }
    ensures given { IfOk result
        (λ v. map given_to v.items
        ≡ all_given (bytes_given index.entry) readers.items producers.items) }
    ensures fault { IfErr result (λ e. (e ≡ StartFault.Memory) ⊎ (e ≡ StartFault.Thread)) }
{
    let mut threads = Vec::new(alloc);
    let mut readers = readers.into_iter();
    let mut tellings = tellings.into_iter();
    for producer in producers {
        let reader = readers.next().flatten();
        let Some(telling) = tellings.next() else {
            return Err(StartFault::Memory);
        };
        threads.reserve(1)?;
        match start_producer(rt, alloc, reader, index, producer, stop, telling, &ended) {
            Ok(thread) => threads.push_reserved(thread),
            Err(fault) => return Err(fault),
        }
    }
    Ok(threads)
}

/// Waits until each producer's thread has ended, and returns the closed producers, why each of them
/// was not fed everything, and what it told by, in order. `AllocError`: allocation failed.
pub(crate) fn join_producers<R: Threads, S: ByteIn + Drop + Send + 'static>(
    rt: &R,
    alloc: Global,
    threads: Vec<FedThread<S>>,
) -> Result<(Vec<ClosedProducer>, Vec<Option<FeedFault>>, Vec<Telling>), AllocError>
    ensures tellers { IfOk result (λ r. map teller_of r.2.items
        ≡ map teller_of (map telling_of threads.items)) }
    ensures fed { IfOk result
        (λ r. AllEndFed S.left S.failed (map given_telling threads.items) r.0.items r.2.items
        r.1.items) }
{
    let mut closed = Vec::with_capacity(alloc, threads.len())?;
    let mut faults = Vec::with_capacity(alloc, threads.len())?;
    let mut tellings = Vec::with_capacity(alloc, threads.len())?;
    for thread in threads {
        let fed = thread.join(rt);
        closed.push(fed.closed)?;
        faults.push(fed.fault)?;
        tellings.push(fed.telling)?;
    }
    Ok((closed, faults, tellings))
}
