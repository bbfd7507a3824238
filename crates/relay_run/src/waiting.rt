//! Running until everything is done, or until there is no more use in waiting for that.
ghost use Rattle.std.specs.Prelude.{◌≡◌, IfOk, IfSome, vec_len};
ghost use Rattle.relay_run.specs.Markings.{EndsAsTold};
ghost use Rattle.relay_threads.specs.Relay.{NoneOut};
ghost use Rattle.relay_run.specs.Places.{AllUntold};
ghost use Rattle.relay_run.specs.Saving.{AreNew};

use crate::producing::own_text;
use crate::run::{Ran, run};
use crate::settling::Telling;
use crate::stopping::{SharedStop, share_stop};
use crate::telling::SavingTell;
use crossbeam_channel::{Receiver, RecvTimeoutError, Sender, bounded};
use relay_action::{ByteIn, ByteOut};
use relay_lane::{Pace, RelayConfig, Wire};
use relay_threads::StartFault;
use std::alloc::{AllocError, Global};
use std::marker::Model;
use std::snapshot::Snapshot;
use std::sync::Wait;
use std::thread;
use std::thread::{Promise, Threads};
use std::time::{Clock, Duration, Instant};

// The time between two looks, in milliseconds.
const LOOK: u64 = 100;

/// How many producers a run in a thread of its own has, and what its threads tell by, for proofs.
#[derive(Drop)]
pub(crate) struct RanPromise<F: ByteOut> {
    producers: u32,
    inputs: Snapshot<Vec<Telling>>,
    tells: Snapshot<Vec<SavingTell<F>>>,
}

impl<W: Drop, F: ByteOut + Drop> Promise<Result<Ran<W, F>, StartFault>> for RanPromise<F> {
    ghost use Rattle.std.specs.Prelude.{◌≡◌, IfOk, vec_len};
    ghost use Rattle.relay_run.specs.Markings.{EndsAsTold};

    ghost kept_by = { λ p end. IfOk end (λ r. vec_len r.faults ≡ p.producers)
        × IfOk end (λ r. EndsAsTold p.inputs.value.items p.tells.value.items r.end
        r.inputs.items r.tells.items) };
}

/// What a run is given. No number is outstanding on its wires, and what its threads tell by was told
/// nothing. Contracts see its config, and what its threads tell by.
#[derive(Drop)]
pub(crate) struct Job<W: Wire, P, S, F: ByteOut> {
    config: RelayConfig,
    // A wire for each lane.
    wires: Vec<W>,
    // A pace for each lane.
    paces: Vec<P>,
    // What each lane tells by.
    tells: Vec<SavingTell<F>>,
    // What each producer tells by.
    inputs: Vec<Telling>,
    // A reader for each producer whose file could be opened.
    readers: Vec<Option<S>>,
}

impl<W: Wire, P, S, F: ByteOut> Model for Job<W, P, S, F> {
    ghost use Rattle.std.specs.Prelude.{◌≡◌, vec_len};
    ghost use Rattle.relay_threads.specs.Relay.{NoneOut};
    ghost use Rattle.relay_run.specs.Markings.{Jobs};
    ghost use Rattle.relay_run.specs.Places.{AllUntold};
    ghost use Rattle.relay_run.specs.Saving.{AreNew};

    ghost Value = { Jobs };

    ghost view = { λ j. record {
      config = j.config;
      tells = j.tells.items;
      inputs = j.inputs.items;
    } };

    ghost invariant = { λ j. NoneOut W.out j.wires.items × AreNew j.tells.items
        × (vec_len j.inputs ≡ j.config.producers) × AllUntold j.inputs.items };
}

impl<W: Wire, P, S, F: ByteOut> Job<W, P, S, F> {
    pub(crate) fn new(
        config: RelayConfig,
        wires: Vec<W>,
        paces: Vec<P>,
        tells: Vec<SavingTell<F>>,
        inputs: Vec<Telling>,
        readers: Vec<Option<S>>,
    ) -> Job<W, P, S, F>
        requires out { NoneOut W.out wires.items }
        requires new { AreNew tells.items × AllUntold inputs.items }
        requires inputs { vec_len inputs ≡ config.producers }
        ensures { result ≡ record { config = config; tells = tells.items; inputs = inputs.items } }
    {
        Job {
            config,
            wires,
            paces,
            tells,
            inputs,
            readers,
        }
    }

    // What a run of it in a thread of its own promises.
    fn promise(&self) -> RanPromise<F>
        ensures producers { result.producers ≡ self.now.config.producers }
        ensures inputs { result.inputs.value.items ≡ self.now.inputs }
        ensures tells { result.tells.value.items ≡ self.now.tells }
    {
        RanPromise {
            producers: self.config.producers,
            inputs: Snapshot::of(&self.inputs),
            tells: Snapshot::of(&self.tells),
        }
    }
}

// Runs it.
fn run_job<R, W, P, S, F>(
    rt: R,
    alloc: Global,
    job: Job<W, P, S, F>,
    index: Option<&str>,
    stop: &Option<SharedStop>,
) -> Result<Ran<W, F>, StartFault>
where
    R: Threads + Wait + Clock + Copy + Send + 'static,
    W: Wire + Drop + Send + 'static,
    P: Pace + Drop + Send + 'static,
    S: ByteIn + Drop + Send + 'static,
    F: ByteOut + Drop + Send + 'static,
    ensures count { IfOk result (λ r. vec_len r.faults ≡ job.config.producers) }
    ensures told { IfOk result (λ r. EndsAsTold job.inputs job.tells r.end r.inputs.items
        r.tells.items) }
{
    let Job {
        config,
        wires,
        paces,
        tells,
        inputs,
        readers,
    } = job;
    run(
        rt, alloc, config, wires, paces, tells, readers, index, stop, inputs,
    )
}

// What a run in a thread of its own goes by.
#[derive(Drop)]
struct Apart {
    index: Option<String>,
    stop: Option<SharedStop>,
    // It is dropped once the run has ended.
    ended: Sender<(), Global>,
}

// Runs it.
fn run_apart<R, W, P, S, F>(
    rt: &R,
    alloc: Global,
    job: Job<W, P, S, F>,
    apart: Apart,
) -> Result<Ran<W, F>, StartFault>
where
    R: Threads + Wait + Clock + Copy + Send + 'static,
    W: Wire + Drop + Send + 'static,
    P: Pace + Drop + Send + 'static,
    S: ByteIn + Drop + Send + 'static,
    F: ByteOut + Drop + Send + 'static,
    ensures count { IfOk result (λ r. vec_len r.faults ≡ job.config.producers) }
    ensures told { IfOk result (λ r. EndsAsTold job.inputs job.tells r.end r.inputs.items
        r.tells.items) }
{
    let Apart {
        index,
        stop,
        ended: _ended,
    } = apart;
    run_job(*rt, alloc, job, index.as_deref(), &stop)
}

// Starts it, and waits until it has ended, or there is no more use in that.
fn wait_for<R, W, P, S, F>(
    rt: R,
    alloc: Global,
    job: Job<W, P, S, F>,
    apart: Apart,
    waiting: &Receiver<(), Global>,
    stop: &SharedStop,
    limit: u32,
) -> Result<Option<Result<Ran<W, F>, StartFault>>, AllocError>
where
    R: Threads + Wait + Clock + Copy + Send + 'static,
    W: Wire + Drop + Send + 'static,
    P: Pace + Drop + Send + 'static,
    S: ByteIn + Drop + Send + 'static,
    F: ByteOut + Drop + Send + 'static,
    ensures count { IfOk result (λ o. IfSome o
        (λ ran. IfOk ran (λ r. vec_len r.faults ≡ job.config.producers))) }
    ensures told { IfOk result (λ o. IfSome o (λ ran. IfOk ran (λ r. EndsAsTold job.inputs
        job.tells r.end r.inputs.items r.tells.items))) }
{
    let promise = job.promise();
    let thread = thread::spawn_with(&rt, promise, move || run_apart(&rt, alloc, job, apart))?;
    if has_ended(&rt, waiting, stop, limit) {
        Ok(Some(thread.join(&rt)))
    } else {
        Ok(None)
    }
}

// What a run in a thread of its own goes by, and what waits for its end.
fn apart_of(
    alloc: Global,
    index: Option<&str>,
    stop: &Option<SharedStop>,
) -> Result<(Apart, Receiver<(), Global>), AllocError> {
    let index = own_text(alloc, index)?;
    let stop = share_stop(stop)?;
    let (ended, waiting) = bounded::<(), Global>(alloc, 1)?;
    let apart = Apart { index, stop, ended };
    Ok((apart, waiting))
}

/// Runs as [`run`]. With a limit, a run that was asked to take no more input is left once so many
/// seconds have passed in which no operation has ended; 0 seconds are no limit. `None`: it was left,
/// and goes on until the process ends. `AllocError`: allocation failed, or its thread could not be
/// started.
pub(crate) fn run_until<R, W, P, S, F>(
    rt: R,
    alloc: Global,
    job: Job<W, P, S, F>,
    index: Option<&str>,
    stop: &Option<SharedStop>,
    limit: Option<u32>,
) -> Result<Option<Result<Ran<W, F>, StartFault>>, AllocError>
where
    R: Threads + Wait + Clock + Copy + Send + 'static,
    W: Wire + Drop + Send + 'static,
    P: Pace + Drop + Send + 'static,
    S: ByteIn + Drop + Send + 'static,
    F: ByteOut + Drop + Send + 'static,
    ensures count { IfOk result (λ o. IfSome o
        (λ ran. IfOk ran (λ r. vec_len r.faults ≡ job.config.producers))) }
    ensures told { IfOk result (λ o. IfSome o (λ ran. IfOk ran (λ r. EndsAsTold job.inputs
        job.tells r.end r.inputs.items r.tells.items))) }
{
    let (Some(limit), Some(shared)) = (limit, stop) else {
        return Ok(Some(run_job(rt, alloc, job, index, stop)));
    };
    let (apart, waiting) = apart_of(alloc, index, stop)?;
    wait_for(rt, alloc, job, apart, &waiting, shared, limit)
}

// Waits until the run has ended, and returns true, or until there is no more use in that.
fn has_ended<R: Wait + Clock>(
    rt: &R,
    waiting: &Receiver<(), Global>,
    stop: &SharedStop,
    limit: u32,
) -> bool {
    let mut since = None;
    let mut ended = 0u64;
    'looks: for _ in rt.forever() {
        match waiting.recv_timeout(rt, Duration::from_millis(LOOK)) {
            Err(RecvTimeoutError::Disconnected) => return true,
            Err(RecvTimeoutError::Timeout) | Ok(()) => {}
        }
        let now = stop.ended();
        if !stop.is_asked() || now != ended || since.is_none() {
            ended = now;
            since = Instant::now(rt).ok();
        } else if is_over(rt, since, limit) {
            return false;
        }
    }
    unreachable!()
}

// Whether so many seconds have passed, as far as the clock can tell.
fn is_over<R: Clock>(rt: &R, since: Option<Instant>, limit: u32) -> bool {
    let Some(since) = since else {
        return false;
    };
    match since.elapsed(rt) {
        Ok(spent) => limit > 0 && spent >= Duration::from_secs(limit as u64),
        Err(_) => false,
    }
}
