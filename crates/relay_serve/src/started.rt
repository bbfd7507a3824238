//! The lanes and the workers of a server, from their start to their end.
ghost use Rattle.std.specs.Prelude.{◌≡◌, ◌≤◌, IfOk, IsTrue, length, map, string_bytes, vec_len};
ghost use Rattle.relay_http.specs.WrittenRequest.{is_host};
ghost use Rattle.relay_telling.specs.New.{new_take, AreNewTells};
ghost use Rattle.relay_threads.specs.Relay.{AreNew, NoneOut, new_control};
ghost use Rattle.relay_wires.specs.Numbers.{numbers};
ghost use Rattle.relay_serve.specs.Answering.{index_in};
ghost use Rattle.relay_serve.specs.Configs.{config_in};
ghost use Rattle.relay_serve.specs.Delivered.{IsDelivered};
ghost use Rattle.relay_serve.specs.Workers.{channel_in, producer_in, receipts_in};

use crate::board::Shared;
use crate::meeting::meet_all;
use crate::options::ServeOptions;
use crate::recalling::recall_all;
use crate::stopped::Stopped;
use crate::wiring::{TcpWire, config_of, make_paces, make_wires, window_of};
use crate::workers::{Connections, pair_up, run_workers};
use relay_lane::Wire;
use relay_producer::{Control, Producer};
use relay_receipts::{ReceiptTake, TakenReceipts, WindowedProducer};
use relay_telling::{Ending, LaneTells, telling};
use relay_threads::{Relay, Summary};
use std::alloc::Global;
use std::sync::Wait;
use std::thread::Threads;
use std::time::Clock;

// The lanes that were started, and the handles of their senders: a producer for each worker, with
// its receipts, and the control.
type Started = (
    Relay<TcpWire, LaneTells>,
    Vec<WindowedProducer<Ending>>,
    Control,
);

// Starts the lanes in this epoch.
fn start<R>(
    rt: R,
    host: &HostRuntime,
    alloc: Global,
    options: &ServeOptions,
    epoch: u32,
    shared: &Shared,
) -> Result<Started, Stopped>
where
    R: Threads + Wait + Clock + Copy + Send + 'static,
    requires host { IsTrue (is_host (string_bytes options.now.to)) }
    requires lanes { options.now.config.lanes ≤ 8 }
    ensures config { IfOk result (λ r. r.0.config ≡ config_in epoch options.now.config) }
    ensures producers { IfOk result (λ r. AreNew r.0.queues epoch 0 (map producer_in r.1.items)) }
    ensures wires { IfOk result (λ r. NoneOut (λ w. numbers w.out) r.0.wires) }
    ensures count { IfOk result (λ r. vec_len r.1 ≡ r.0.config.producers) }
    ensures control { IfOk result (λ r. r.2 ≡ new_control r.0.queues r.0.config.producers) }
    ensures receipts { IfOk result (λ r. map receipts_in r.1.items
        ≡ map (new_take r.0.config.lanes) (map channel_in r.1.items)) }
    ensures tells { IfOk result (λ r. AreNewTells (map channel_in r.1.items) 0 r.0.tells) }
    ensures lanes { IfOk result (λ r. length r.0.tells ≡ r.0.config.lanes) }
{
    let config = config_of(options.config, epoch);
    let window = window_of(config.producers);
    let to = options.to.as_str();
    let wires = make_wires(*host, alloc, to, options.timeout, config, &shared.index)?;
    let paces = make_paces(*host, alloc, config.lanes)?;
    let (tells, takes) = telling(alloc, config.producers, config.lanes, window)?;
    let (relay, producers, control) = Relay::start_telling(rt, alloc, config, wires, paces, tells)?;
    let paired = pair_up(alloc, producers, takes, window)?;
    Ok((relay, paired, control))
}

/// Starts the lanes and the workers in this epoch, waits until the workers have ended, and then
/// until the lanes have.
///
/// If the lanes have finished, there are calls of clients for each worker that it has answered, one
/// after another: the calls of the connections that it served. Each response is the one to its
/// request for the ends of the writes that were settled for it; or it is repeated from the answer to
/// another call, of which it is said so, and which asked for the same. Each lane took exactly those of these
/// writes on its documents that were put, and delivered them as `Relay::finish` says, each lane and
/// all lanes together. It returns what the workers took from their channels. Whatever requests they
/// settled by which they put and took just that: an end of a write that says how it ended says what
/// the lane of its document told of that very operation, and is true.
pub(crate) fn serve_epoch<R>(
    rt: R,
    host: &HostRuntime,
    alloc: Global,
    options: &ServeOptions,
    epoch: u32,
    shared: &Shared,
    connections: &Connections,
) -> Result<(Summary<TcpWire>, Vec<TakenReceipts<Ending>>), Stopped>
where
    R: Threads + Wait + Clock + Copy + Send + 'static,
    requires host { IsTrue (is_host (string_bytes options.now.to)) }
    requires lanes { options.now.config.lanes ≤ 8 }
    ensures delivered { IfOk result (λ r. IsDelivered ⟦<TcpWire as Wire>⟧.describes
        ⟦<TcpWire as Wire>⟧.fits ⟦<TcpWire as Wire>⟧.carries (λ w. numbers w.out)
        options.now.face (index_in options.now.index) (config_in epoch options.now.config) r.1.items r.0.lanes.items) }
{
    let (relay, producers, control) = start(rt, host, alloc, options, epoch, shared)?;
    let ((closed, receipts, spoken), control) = run_workers(
        rt,
        host,
        alloc,
        options,
        producers,
        control,
        shared,
        connections,
    )?;
    let (summary, tells) = match relay.finish_telling(&rt, closed, control) {
        Ok(finished) => finished,
        Err(fault) => return Err(Stopped::Finish(fault)),
    };
    let taken = meet_all(alloc, receipts, tells)?;
    recall_all(spoken.as_slice())?;
    Ok((summary, taken))
}
