//! Sending readers of operations through a relay.
ghost use Rattle.std.specs.Prelude.{◌≡◌, ◌≢◌, ◌⊎◌, ◌↔◌, [], ℕ, List, IfOk, IfErr, IsErrAnd};
ghost use Rattle.std.specs.Prelude.{Ok, Err, false, true, map, vec_len};
ghost use Rattle.relay_core.specs.Limits.{is_valid};
ghost use Rattle.relay_ndjson.specs.Metadata.{bytes_given};
ghost use Rattle.relay_ndjson.specs.Operations.{Operation};
ghost use Rattle.relay_queue.specs.Ends.{Queue};
ghost use Rattle.relay_producer.specs.declared.ends.ClosedEnd.{ClosedEnd};
ghost use Rattle.relay_threads.specs.Relay.{NoneOut};
ghost use Rattle.relay_threads.specs.DeliveryOfAll.{AllDelivered};
ghost use Rattle.relay_threads.specs.Together.{AreDeliveredTogether};
ghost use Rattle.relay_common.specs.Putting.{named_ops};
ghost use Rattle.relay_run.specs.Saving.{AreNew, AllSave, SayFailed, seat_of};
ghost use Rattle.relay_run.specs.Settling.{teller_of};
ghost use Rattle.relay_run.specs.Places.{AllUntold};
ghost use Rattle.relay_run.specs.Readers.{AreFedFrom};

use crate::feed::FeedFault;
use crate::producing::{join_producers, spawn_producers};
use crate::settling::Telling;
use crate::stopping::SharedStop;
use crate::telling::{SavingTell, have_failed};
use crossbeam_channel::bounded;
use relay_action::{ByteIn, ByteOut};
pub use relay_batch::Limits;
use relay_common::ticking::tick_until_ended;
pub use relay_lane::RelayConfig;
use relay_lane::{Pace, Wire};
use relay_threads::{FinishFault, Relay, StartFault, Summary};
use std::alloc::Global;
use std::sync::Wait;
use std::thread::Threads;
use std::time::Clock;

/// The outcome of a run.
#[derive(Drop)]
pub struct Ran<W, F: ByteOut> {
    /// Why each reader was not put in full, in order; `None` if it was.
    pub faults: Vec<Option<FeedFault>>,
    /// What the lanes have done.
    pub end: Result<Summary<W>, FinishFault>,
    /// What each lane told by, by lane. Empty without a summary.
    pub tells: Vec<SavingTell<F>>,
    /// Whether a write of a report failed for one of these.
    pub unsaved: bool,
    /// What each producer's thread told by, by producer.
    pub inputs: Vec<Telling>,
}

/// Starts a relay, has each producer put the operations of the reader at its position, if there is
/// one, and waits until everything is done. Operations without an index name get this index, if one
/// is given. Each lane gets a tick every 100 ms until the producers have ended. Once the stop has a
/// reason, if one is given, the producers read no more; what was put is then delivered as ever.
///
/// For each producer there are operations that it was fed, those at the front of its reader, and
/// its fault says why there were no more. Its thread tells where each operation ends that was read, by
/// what is at its position. If the relay ends with a summary, each lane took exactly
/// those of them on its documents, and delivered them: soundly and completely for each outside that
/// its wire fitted at the start. Over all lanes no operation is reported twice, and one assignment
/// of versions is used for all reports. Without a summary there is no promise about what was
/// delivered.
///
/// Each lane saves its reports by what it tells by, as soon as they arise. If the relay ends with a
/// summary, the file of each lane was given the lines of exactly the reports of that lane, those of
/// each producer in their order, unless a write failed.
///
/// What the threads told by is passed back at the end, with the ends of the channel that it had.
///
/// `StartFault`: `BadConfig` if the config is not valid, `WireCount` if there is not one wire, one
/// pace and one such teller for each lane; then nothing was started. `Thread`: a thread could not be started;
/// `Memory`: an allocation for what the threads are given failed. Threads that were started then
/// continue.
pub fn run<R, W, P, S, F>(
    rt: R,
    alloc: Global,
    config: RelayConfig,
    wires: Vec<W>,
    paces: Vec<P>,
    tells: Vec<SavingTell<F>>,
    readers: Vec<Option<S>>,
    index: Option<&str>,
    stop: &Option<SharedStop>,
    inputs: Vec<Telling>,
) -> Result<Ran<W, F>, StartFault>
where
    R: Threads + Wait + Clock + Copy + Send + 'static,
    W: Wire + Drop + Send + 'static,
    P: Pace + Drop + Send + 'static,
    S: ByteIn + Drop + Send + 'static,
    F: ByteOut + Drop + Send + 'static,
    requires out { NoneOut W.out wires.items }
    requires new { AreNew tells.items }
    requires untold { AllUntold inputs.items }
    requires inputs { vec_len inputs ≡ config.producers }
    ensures count { IfOk result (λ r. vec_len r.faults ≡ config.producers) }
    ensures bad_config { IsErrAnd result (λ e. e ≡ StartFault.BadConfig)
        ↔ (is_valid config ≡ false) }
    ensures wire_count { IsErrAnd result (λ e. e ≡ StartFault.WireCount) ↔ ((is_valid config ≡ true)
        × ((vec_len wires ≢ config.lanes) ⊎ ((vec_len paces ≢ config.lanes)
        ⊎ (vec_len tells ≢ config.lanes)))) }
    ensures delivered { IfOk result (λ r. (queues : List Queue) × (ops : ℕ → List Operation)
        × (rows : List (List ClosedEnd))
        × AreFedFrom S.left S.failed (bytes_given index.entry) queues config.epoch ops 0
        readers.items inputs.items r.inputs.items r.faults.items
        × IfOk r.end (λ s. AllDelivered W.describes W.fits W.carries config
        (λ p. named_ops config.epoch p 1 (ops p)) rows 0
        wires.items s.lanes.items)
        × IfOk r.end (λ s. AreDeliveredTogether W.describes W.fits config
        (λ p. named_ops config.epoch p 1 (ops p))
        wires.items s.lanes.items)) }
    ensures saved { IfOk result (λ r. IfOk r.end (λ s. AllSave r.tells.items s.lanes.items)) }
    ensures unsaved { IfOk result (λ r. SayFailed r.tells.items r.unsaved) }
    ensures tellers { IfOk result (λ r. map teller_of r.inputs.items
        ≡ map teller_of inputs.items) }
    ensures seats { IfOk result (λ r. IfOk r.end (λ _. map seat_of r.tells.items
        ≡ map seat_of tells.items)) }
{
    let (relay, producers, mut control) = Relay::start_telling(
        rt, alloc, config, wires, paces, tells,
    )?;
    let (ended, waiting) = bounded(alloc, 1)?;
    let threads = spawn_producers(rt, alloc, readers, index, producers, stop, inputs, ended)?;
    tick_until_ended(&rt, &waiting, &mut control);
    let (closed, faults, inputs) = join_producers(&rt, alloc, threads)?;
    let control = control.close(&rt);
    let (end, tells) = apart(alloc, relay.finish_telling(&rt, closed, control));
    let unsaved = have_failed(&tells);
    Ok(Ran {
        faults,
        end,
        tells,
        unsaved,
        inputs,
    })
}

// How a relay ended, and what its lanes told by: nothing after a fault.
fn apart<W: Drop, T: Drop>(
    alloc: Global,
    finished: Result<(Summary<W>, Vec<T>), FinishFault>,
) -> (Result<Summary<W>, FinishFault>, Vec<T>)
    ensures ok { IfOk finished (λ f. (result.0 ≡ Ok f.0) × (result.1.items ≡ f.1.items)) }
    ensures err { IfErr finished (λ e. (result.0 ≡ Err e) × (result.1.items ≡ [])) }
{
    match finished {
        Ok((summary, tells)) => (Ok(summary), tells),
        Err(fault) => (Err(fault), Vec::new(alloc)),
    }
}
