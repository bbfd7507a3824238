//! Starting a relay: a queue, a lane and a thread for each lane, and the handles of the senders.
ghost use Rattle.std.specs.Prelude.{◌≡◌, ◌≢◌, ◌+◌, ◌<◌, ◌≤◌, ◌⊎◌, ◌↔◌, []};
ghost use Rattle.std.specs.Prelude.{List, true, false, IfOk, IfErr, IsErrAnd, map, vec_len};
ghost use Rattle.relay_queue.specs.Ends.{Queue, fresh_puts};
ghost use Rattle.relay_core.specs.Limits.{is_valid};
ghost use Rattle.relay_threads.specs.Lanes.{queues_of, wires_of, tells_of, AreLanesOf};
ghost use Rattle.relay_threads.specs.Relay.{NoneOut, AreColumns, AreNew, new_control};

use crate::fault::StartFault;
use crate::relay::Relay;
use crate::rows::pop_each;
use crate::tell::{Tell, TellNobody};
use crate::thread::{LaneThread, spawn_lane};
use relay_lane::{Lane, Pace, RelayConfig, Wire};
use relay_producer::{Control, Producer};
use relay_queue::{LanePut, lane_queue};
use std::alloc::{AllocError, Global};
use std::sync::Wait;
use std::thread::Threads;

// A lane in its thread, and the senders' ends of its queue.
fn make_lane<R, W, P, T>(
    rt: R,
    alloc: Global,
    config: RelayConfig,
    wire: W,
    pace: P,
    tell: T,
) -> Result<(LaneThread<W, T>, Vec<LanePut>), StartFault>
where
    R: Threads + Wait + Copy + Send + 'static,
    W: Wire + Drop + Send + 'static,
    P: Pace + Drop + Send + 'static,
    T: Tell + Drop + Send + 'static,
    requires valid { is_valid config ≡ true }
    requires out { W.out wire ≡ [] }
    ensures config { IfOk result (λ r. r.0.promise.config.value ≡ config) }
    ensures senders { IfOk result (λ r. r.0.promise.take.value.senders ≡ config.producers + 1) }
    ensures wire { IfOk result (λ r. r.0.promise.wire.value ≡ wire) }
    ensures tell { IfOk result (λ r. r.0.promise.tell.value ≡ tell) }
    ensures puts { IfOk result
        (λ r. r.1.items ≡ fresh_puts r.0.promise.take.value.queue (config.producers + 1)) }
    ensures late { IfErr result (λ e. (e ≡ StartFault.Memory) ⊎ (e ≡ StartFault.Thread)) }
{
    let (take, puts) = lane_queue(alloc, config.capacity, config.producers + 1)?;
    let lane = Lane::new(alloc, config)?;
    let thread = spawn_lane(rt, config, take, lane, wire, pace, tell).map_err(
        |_| StartFault::Thread,
    )?;
    Ok((thread, puts))
}

// All lanes in their threads, and the senders' ends of each lane's queue.
fn make_lanes<R, W, P, T>(
    rt: R,
    alloc: Global,
    config: RelayConfig,
    wires: Vec<W>,
    paces: Vec<P>,
    tells: Vec<T>,
) -> Result<(Vec<LaneThread<W, T>>, Vec<Vec<LanePut>>), StartFault>
where
    R: Threads + Wait + Copy + Send + 'static,
    W: Wire + Drop + Send + 'static,
    P: Pace + Drop + Send + 'static,
    T: Tell + Drop + Send + 'static,
    requires valid { is_valid config ≡ true }
    requires out { NoneOut W.out wires.items }
    requires wires { vec_len wires ≡ config.lanes }
    requires paces { vec_len paces ≡ config.lanes }
    requires tells { vec_len tells ≡ config.lanes }
    ensures lanes { IfOk result (λ r. AreLanesOf config r.0.items) }
    ensures count { IfOk result (λ r. vec_len r.1 ≡ config.lanes) }
    ensures wires { IfOk result (λ r. wires_of r.0.items ≡ wires.items) }
    ensures tells { IfOk result (λ r. tells_of r.0.items ≡ tells.items) }
    ensures puts { IfOk result (λ r. map (λ c. c.items) r.1.items
        ≡ map (λ q. fresh_puts q (config.producers + 1)) (queues_of r.0.items)) }
    ensures late { IfErr result (λ e. (e ≡ StartFault.Memory) ⊎ (e ≡ StartFault.Thread)) }
{
    let mut lanes = Vec::new(alloc);
    let mut columns = Vec::new(alloc);
    let mut paces = paces.into_iter();
    let mut tells = tells.into_iter();
    for wire in wires {
        let Some(pace) = paces.next() else {
            unreachable!();
        };
        let Some(tell) = tells.next() else {
            unreachable!();
        };
        lanes.reserve(1)?;
        columns.reserve(1)?;
        let (lane, puts) = make_lane(rt, alloc, config, wire, pace, tell)?;
        lanes.push_reserved(lane);
        columns.push_reserved(puts);
    }
    Ok((lanes, columns))
}

// The handles of the senders, each over its ends of all queues.
fn deal(
    alloc: Global,
    epoch: u32,
    count: u32,
    columns: Vec<Vec<LanePut>>,
) -> Result<(Vec<Producer>, Control), AllocError>
    requires lanes { (0 < vec_len columns) × (vec_len columns ≤ 8) }
    requires columns { AreColumns (count + 1) (map (λ c. c.items) columns.items) }
    ensures count { IfOk result (λ r. vec_len r.0 ≡ count) }
    ensures producers { IfOk result (λ r. (queues : List Queue)
        → map (λ c. c.items) columns.items ≡ map (λ q. fresh_puts q (count + 1)) queues
        → AreNew queues epoch 0 r.0.items) }
    ensures control { IfOk result (λ r. (queues : List Queue)
        → map (λ c. c.items) columns.items ≡ map (λ q. fresh_puts q (count + 1)) queues
        → r.1 ≡ new_control queues count) }
{
    let mut columns = columns;
    let control = Control::new(alloc, count, pop_each(alloc, &mut columns)?)?;
    let mut producers = Vec::new(alloc);
    let mut left = count;
    while left > 0 {
        left -= 1;
        let puts = pop_each(alloc, &mut columns)?;
        let producer = Producer::new(alloc, epoch, left, puts)?;
        producers.insert(0, producer)?;
    }
    Ok((producers, control))
}

// Starts the lanes of a valid config, each with its wire, its pace and its `Tell`.
pub(crate) fn start_all<R, W, P, T>(
    rt: R,
    alloc: Global,
    config: RelayConfig,
    wires: Vec<W>,
    paces: Vec<P>,
    tells: Vec<T>,
) -> Result<(Relay<W, T>, Vec<Producer>, Control), StartFault>
where
    R: Threads + Wait + Copy + Send + 'static,
    W: Wire + Drop + Send + 'static,
    P: Pace + Drop + Send + 'static,
    T: Tell + Drop + Send + 'static,
    requires valid { is_valid config ≡ true }
    requires out { NoneOut W.out wires.items }
    requires wires { vec_len wires ≡ config.lanes }
    requires paces { vec_len paces ≡ config.lanes }
    requires tells { vec_len tells ≡ config.lanes }
    ensures config { IfOk result (λ r. r.0.config ≡ config) }
    ensures wires { IfOk result (λ r. r.0.wires ≡ wires.items) }
    ensures tells { IfOk result (λ r. r.0.tells ≡ tells.items) }
    ensures producers { IfOk result (λ r. AreNew r.0.queues config.epoch 0 r.1.items) }
    ensures count { IfOk result (λ r. vec_len r.1 ≡ config.producers) }
    ensures control { IfOk result (λ r. r.2 ≡ new_control r.0.queues config.producers) }
    ensures late { IfErr result (λ e. (e ≡ StartFault.Memory) ⊎ (e ≡ StartFault.Thread)) }
{
    let ends = Vec::with_capacity(alloc, wires.len())?;
    let tell_places = Vec::with_capacity(alloc, wires.len())?;
    let rows = Vec::with_capacity(alloc, config.producers as usize + 1)?;
    let (lanes, columns) = make_lanes(rt, alloc, config, wires, paces, tells)?;
    let (producers, control) = deal(alloc, config.epoch, config.producers, columns)?;
    let relay = Relay {
        alloc,
        config,
        lanes,
        ends,
        tells: tell_places,
        rows,
    };
    Ok((relay, producers, control))
}

impl<W: Wire + Drop + Send + 'static> Relay<W> {
    /// Starts a relay: for each lane its own queue, a fresh lane, and a thread that works with the
    /// wire and the pace at the lane's position; and the handles of the senders, which are the
    /// producers, numbered from 0, and the control. There is no lock between lanes.
    ///
    /// The caller must make sure that the epoch of the config is above those of all earlier relays
    /// over the same documents, and that the previous relay has ended.
    ///
    /// If it fails, wires and paces are dropped, and lanes that were started end by themselves.
    pub fn start<R, P>(
        rt: R,
        alloc: Global,
        config: RelayConfig,
        wires: Vec<W>,
        paces: Vec<P>,
    ) -> Result<(Relay<W>, Vec<Producer>, Control), StartFault>
    where
        R: Threads + Wait + Copy + Send + 'static,
        P: Pace + Drop + Send + 'static,
        requires { NoneOut W.out wires.items }
        ensures config { IfOk result (λ r. r.0.config ≡ config) }
        ensures wires { IfOk result (λ r. r.0.wires ≡ wires.items) }
        ensures producers { IfOk result (λ r. AreNew r.0.queues config.epoch 0 r.1.items) }
        ensures count { IfOk result (λ r. vec_len r.1 ≡ config.producers) }
        ensures control { IfOk result (λ r. r.2 ≡ new_control r.0.queues config.producers) }
        ensures bad_config { IsErrAnd result (λ e. e ≡ StartFault.BadConfig)
            ↔ (is_valid config ≡ false) }
        ensures wire_count { IsErrAnd result (λ e. e ≡ StartFault.WireCount)
            ↔ ((is_valid config ≡ true)
            × ((vec_len wires ≢ config.lanes) ⊎ (vec_len paces ≢ config.lanes))) }
    {
        if !config.valid() {
            return Err(StartFault::BadConfig);
        }
        let lanes = config.lanes as usize;
        if wires.len() != lanes || paces.len() != lanes {
            return Err(StartFault::WireCount);
        }
        let tells = vec![in alloc; TellNobody; lanes]?;
        start_all(rt, alloc, config, wires, paces, tells)
    }
}
