//! Relays from start to finish.
ghost use Rattle.std.specs.Prelude.{◌≡◌, [], ◌∷◌, IfOk, vec_len};
ghost use Rattle.std.specs.Option.{option_to_list};
ghost use Rattle.relay_producer.specs.Ends.{identities, open_puts};
ghost use Rattle.relay_threads.specs.Relay.{NoneOut, AreNew, new_control};
ghost use Rattle.relay_wires.specs.Numbers.{numbers};
ghost use Rattle.relay_threads_tests.specs.Handles.{open_names, closed_names};

use crate::gates::{AheadWire, GateWire, LANES, ahead_of, gate_of};
use crate::operations::{AtOnce, action_of, is_whole, key_of, losing_wire};
use crate::told::{Summing, Sums, new_sums};
use relay_batch::Limits;
use relay_fixtures::config::LIMITS;
use relay_fixtures::index_wire::{IndexWire, Way, wire_of};
use relay_fixtures::{config, keys};
use relay_index::{Index, Script};
use relay_lane::{Pace, RelayConfig, Wire};
use relay_loop::{LoopEnd, LoopWire, wire_to};
use relay_producer::{ClosedProducer, Control, Producer};
use relay_threads::{FinishFault, LaneSummary, Relay, StartFault, Summary, Tell};
use std::alloc::{AllocError, Global};
use std::process::Abort;
use std::sync::atomic::{AtomicU32, Ordering};
use std::sync::{Arc, Wait};
use std::thread::Threads;
use std::time::Clock;

/// One lane that holds four operations, two producers, a queue of one place, and three attempts.
pub const CONFIG: RelayConfig = RelayConfig {
    producers: 2,
    capacity: 1,
    max_held: 4,
    limits: Limits {
        linger: 3,
        ..LIMITS
    },
    ..config::CONFIG
};

// Requests of two operations, four of them in flight.
const FOUR_IN_FLIGHT: RelayConfig = RelayConfig {
    max_held: 16,
    limits: Limits {
        count: 2,
        linger: 3,
        ..LIMITS
    },
    in_flight: 4,
    ..CONFIG
};

/// Why a run failed.
#[derive(Clone, Copy, Debug, PartialEq, Eq)]
pub enum RunFault {
    Memory,
    NotPut,
    Start(StartFault),
    Finish(FinishFault),
}

// Puts an operation on a document, and returns whether it went to this lane.
fn put_to<R: Wait>(rt: &R, alloc: Global, producer: &mut Producer, id: usize, lane: u32) -> bool
    ensures { identities (open_puts producer.new.ends) ≡ identities (open_puts producer.old.ends) }
{
    let Ok(id) = format!(in alloc; "{id}") else {
        return false;
    };
    let Some(key) = keys::key_of(alloc, "books", id.as_str()) else {
        return false;
    };
    let Some(action) = action_of(alloc, 1) else {
        return false;
    };
    match producer.put(rt, key, action) {
        Ok(receipt) => receipt.lane == lane,
        Err(_) => false,
    }
}

// Puts an operation, and returns whether it was put under its number.
fn put_one<R: Wait>(rt: &R, alloc: Global, producer: &mut Producer, number: u32, count: u64) -> bool
    ensures { identities (open_puts producer.new.ends) ≡ identities (open_puts producer.old.ends) }
{
    let Some(key) = key_of(alloc, number, count) else {
        return false;
    };
    let Some(action) = action_of(alloc, count) else {
        return false;
    };
    match producer.put(rt, key, action) {
        Ok(receipt) => receipt.name.number == count && receipt.name.producer == number,
        Err(_) => false,
    }
}

// Puts this many operations by each producer, and counts them. Returns whether all were put.
fn put_all<R: Wait>(
    rt: &R,
    alloc: Global,
    producers: &mut Vec<Producer>,
    count: u64,
    puts: &AtomicU32,
) -> bool
    ensures { open_names producers.new.items ≡ open_names producers.old.items }
{
    for sent in 0..count {
        for p in 0..producers.len() {
            let number = u32::try_from(p).unwrap_or(0);
            if !put_one(rt, alloc, &mut producers[p], number, sent.saturating_add(1)) {
                return false;
            }
            let _ = puts.fetch_add(1, Ordering::SeqCst);
        }
    }
    true
}

/// The lanes of the documents `0` to `7` of the index `books`, among eight.
const LANE_OF: [u32; 8] = [6, 1, 0, 3, 2, 5, 4, 7];

// Puts an operation on each of eight documents, one for each lane, and returns whether each went to
// its lane, and none was found gone.
fn put_eight<R: Wait>(rt: &R, alloc: Global, producers: &mut Vec<Producer>) -> bool
    ensures { open_names producers.new.items ≡ open_names producers.old.items }
{
    for id in 0..8usize {
        for p in 0..producers.len() {
            if !put_to(rt, alloc, &mut producers[p], id, LANE_OF[id]) || producers[p].gone() != 0 {
                return false;
            }
        }
    }
    true
}

// Puts one operation to each of eight lanes, or else operations by each producer, and returns
// whether all went well.
fn put_some<R: Wait>(
    rt: &R,
    alloc: Global,
    lanes: u32,
    producers: &mut Vec<Producer>,
    count: u64,
    puts: &AtomicU32,
) -> bool
    ensures { open_names producers.new.items ≡ open_names producers.old.items }
{
    if lanes == LANES {
        put_eight(rt, alloc, producers)
    } else {
        put_all(rt, alloc, producers, count, puts)
    }
}

// Closes the producers.
fn close_all<R: Wait>(
    rt: &R,
    alloc: Global,
    producers: Vec<Producer>,
) -> Result<Vec<ClosedProducer>, AllocError>
    ensures { IfOk result (λ v. closed_names v.items ≡ open_names producers.items) }
{
    let mut closed = Vec::new(alloc);
    for producer in producers {
        closed.reserve(1)?;
        closed.push_reserved(producer.close(rt));
    }
    Ok(closed)
}

// A relay that was started, to its finish: each producer puts this many operations, which are
// counted.
fn run<R, W, T>(
    rt: R,
    alloc: Global,
    relay: Relay<W, T>,
    producers: Vec<Producer>,
    control: Control,
    lanes: u32,
    count: u64,
    puts: &AtomicU32,
) -> Result<Summary<W>, RunFault>
where
    R: Threads + Wait + Copy + Send + 'static,
    W: Wire + Drop + Send + 'static,
    T: Tell + Drop + Send + 'static,
    requires producers { AreNew relay.queues relay.config.epoch 0 producers.items }
    requires count { vec_len producers ≡ relay.config.producers }
    requires control { control ≡ new_control relay.queues relay.config.producers }
{
    let mut producers = producers;
    let put = put_some(&rt, alloc, lanes, &mut producers, count, puts);
    let Ok(closed) = close_all(&rt, alloc, producers) else {
        return Err(RunFault::Memory);
    };
    match relay.finish(&rt, closed, control.close(&rt)) {
        Ok(summary) if put => Ok(summary),
        Ok(_) => Err(RunFault::NotPut),
        Err(fault) => Err(RunFault::Finish(fault)),
    }
}

// A relay from start to finish that tells nobody.
fn run_all<R, W, P>(
    rt: R,
    alloc: Global,
    config: RelayConfig,
    wires: Vec<W>,
    paces: Vec<P>,
    count: u64,
    puts: &AtomicU32,
) -> Result<Summary<W>, RunFault>
where
    R: Threads + Wait + Copy + Send + 'static,
    W: Wire + Drop + Send + 'static,
    P: Pace + Drop + Send + 'static,
    requires { NoneOut W.out wires.items }
{
    match Relay::start(rt, alloc, config, wires, paces) {
        Ok((relay, producers, control)) => {
            run(
                rt,
                alloc,
                relay,
                producers,
                control,
                config.lanes,
                count,
                puts,
            )
        }
        Err(fault) => Err(RunFault::Start(fault)),
    }
}

// A list of one.
fn one<T: Drop>(alloc: Global, x: T) -> Result<Vec<T>, AllocError>
    ensures { IfOk result (λ v. v.items ≡ x ∷ []) }
{
    let mut all = Vec::with_capacity(alloc, 1)?;
    all.push_reserved(x);
    Ok(all)
}

// Whether a lane took 200 operations, applied them all, and lost a reply.
fn all_applied<W>(lane: &LaneSummary<W>) -> bool {
    lane.taken == 200
        && lane.already > 0
        && lane.applied.saturating_add(lane.already) == 200
        && lane.reports.is_empty()
}

/// A relay of one wire.
pub fn run_one<R, W>(
    rt: R,
    alloc: Global,
    config: RelayConfig,
    wire: W,
    count: u64,
    puts: &AtomicU32,
) -> Result<Summary<W>, RunFault>
where
    R: Threads + Wait + Copy + Send + 'static,
    W: Wire + Drop + Send + 'static,
    requires { W.out wire ≡ [] }
{
    let Ok(wires) = one(alloc, wire) else {
        return Err(RunFault::Memory);
    };
    let Ok(paces) = one(alloc, AtOnce) else {
        return Err(RunFault::Memory);
    };
    run_all(rt, alloc, config, wires, paces, count, puts)
}

// A relay of one wire, whose lane tells how operations ended.
fn run_telling<R, W>(
    rt: R,
    alloc: Global,
    wire: W,
    tell: Summing,
    count: u64,
) -> Result<Summary<W>, RunFault>
where
    R: Threads + Wait + Copy + Send + 'static,
    W: Wire + Drop + Send + 'static,
    requires { W.out wire ≡ [] }
{
    let Ok(wires) = one(alloc, wire) else {
        return Err(RunFault::Memory);
    };
    let Ok(paces) = one(alloc, AtOnce) else {
        return Err(RunFault::Memory);
    };
    let Ok(tells) = one(alloc, tell) else {
        return Err(RunFault::Memory);
    };
    let puts = AtomicU32::new(0);
    match Relay::start_telling(rt, alloc, CONFIG, wires, paces, tells) {
        Ok((relay, producers, control)) => {
            run(
                rt,
                alloc,
                relay,
                producers,
                control,
                CONFIG.lanes,
                count,
                &puts,
            )
        }
        Err(fault) => Err(RunFault::Start(fault)),
    }
}

/// A relay of one wire, whose lane tells how operations ended, and the sums over that.
pub fn run_summing<R, W>(
    rt: R,
    alloc: Global,
    wire: W,
    count: u64,
) -> Result<(Summary<W>, Arc<Sums>), RunFault>
where
    R: Threads + Wait + Copy + Send + 'static,
    W: Wire + Drop + Send + 'static,
    requires { W.out wire ≡ [] }
{
    let Ok((sums, tell)) = new_sums(alloc) else {
        return Err(RunFault::Memory);
    };
    let summary = run_telling(rt, alloc, wire, tell, count)?;
    Ok((summary, sums))
}

// The wire of the only lane of a summary, if that has applied everything.
fn wire_of_all<W>(summary: &Summary<W>) -> Option<&W> {
    match summary.lanes.as_slice() {
        [lane] if all_applied(lane) => Some(&lane.wire),
        _ => None,
    }
}

// Whether the summary is of one lane, whose index is complete.
fn is_delivered(alloc: Global, summary: &Summary<IndexWire>) -> Option<bool> {
    is_whole(alloc, &wire_of_all(summary)?.index)
}

#[test]
fn two_producers(rt: HostRuntime) {
    let alloc = rt.alloc();
    let wire = losing_wire(alloc);
    let summary = run_one(rt, alloc, CONFIG, wire, 100, &AtomicU32::new(0)).expect(&rt, "a run");
    assert!(rt; is_delivered(alloc, &summary) == Some(true));
}

// Whether these are the sums over operations of two producers, each numbered from 1 to 100, of
// which each was passed on once as applied, some of them as applied by an earlier request.
fn are_all(sums: &Sums, already: u64) -> bool {
    already > 0
        && sums.successes.load(Ordering::SeqCst) == 200
        && sums.numbers.load(Ordering::SeqCst) == 2 * 5050
        && sums.already.load(Ordering::SeqCst) == already
        && sums.reports.load(Ordering::SeqCst) == 0
        && sums.ends.load(Ordering::SeqCst) == 1
}

// Whether the only lane of the summary applied everything, and passed that on.
fn is_passed_on<W>(summary: &Summary<W>, sums: &Sums) -> bool {
    match summary.lanes.as_slice() {
        [lane] => all_applied(lane) && are_all(sums, lane.already),
        _ => false,
    }
}

#[test]
fn successes_are_passed_on(rt: HostRuntime) {
    let alloc = rt.alloc();
    let (summary, sums) = run_summing(rt, alloc, losing_wire(alloc), 100).expect(&rt, "a run");
    assert!(rt; is_passed_on(&summary, &sums));
}

// Whether every operation was reported, and each report was passed on.
fn is_reported<W>(summary: &Summary<W>, sums: &Sums) -> bool {
    match summary.lanes.as_slice() {
        [lane] => {
            lane.reports.len() == 200
                && sums.successes.load(Ordering::SeqCst) == 0
                && sums.reports.load(Ordering::SeqCst) == 200
                && sums.ends.load(Ordering::SeqCst) == 1
        }
        _ => false,
    }
}

#[test]
fn reports_are_passed_on(rt: HostRuntime) {
    let alloc = rt.alloc();
    let wire = wire_of(alloc, Way::Whole(400));
    let (summary, sums) = run_summing(rt, alloc, wire, 100).expect(&rt, "a run");
    assert!(rt; is_reported(&summary, &sums));
}

// A wire to its own index, whose first reply is lost.
fn loop_wire(rt: &(impl Abort + AllocGlobal)) -> LoopWire
    ensures { numbers result.out ≡ [] }
{
    let mut end = LoopEnd::new(rt.alloc(), Index::new(rt.alloc()), Script::new(rt.alloc()));
    end.lose(1).expect(rt, "memory");
    wire_to(rt.alloc(), end, 16).expect(rt, "memory")
}

// Whether a relay with a config and such a wire delivers what its producers put.
fn delivers_over_http<R>(rt: R, config: RelayConfig) -> Option<bool>
where
    R: Threads + Wait + Abort + AllocGlobal + Copy + Send + 'static,
{
    let wire = loop_wire(&rt);
    let ran = run_one(rt, rt.alloc(), config, wire, 100, &AtomicU32::new(0));
    let summary = ran.expect(&rt, "a run");
    is_whole(rt.alloc(), wire_of_all(&summary)?.peer().index())
}

#[test]
fn two_producers_over_http(rt: HostRuntime) {
    assert!(rt; delivers_over_http(rt, CONFIG) == Some(true));
}

#[test]
fn two_producers_with_four_in_flight(rt: HostRuntime) {
    assert!(rt; delivers_over_http(rt, FOUR_IN_FLIGHT) == Some(true));
}

// The fault at the start of a relay that has one wire, and a config with this many lanes.
fn fault_of<R>(rt: R, alloc: Global, lanes: u32) -> Option<StartFault>
where
    R: Threads + Wait + Copy + Send + 'static,
{
    let config = RelayConfig { lanes, ..CONFIG };
    let wire = losing_wire(alloc);
    match run_one(rt, alloc, config, wire, 1, &AtomicU32::new(0)) {
        Err(RunFault::Start(fault)) => Some(fault),
        _ => None,
    }
}

#[test]
fn start_faults(rt: HostRuntime) {
    for (lanes, fault) in [(0, StartFault::BadConfig), (2, StartFault::WireCount)] {
        assert!(rt; fault_of(rt, rt.alloc(), lanes) == Some(fault));
    }
}

// A gate for each lane.
fn gates<C: Clock + Copy>(alloc: Global, clock: C) -> Result<Vec<GateWire<C>>, AllocError>
    ensures { IfOk result (λ v. NoneOut (λ w. option_to_list w.wire.flying) v.items) }
{
    let flags = Arc::new(alloc, AtomicU32::new(0))?;
    let mut wires = Vec::new(alloc);
    for _ in 0..LANES {
        wires.push(gate_of(alloc, clock, Arc::try_clone(&flags)?))?;
    }
    Ok(wires)
}

// A relay of eight lanes, to which one producer puts an operation for each lane.
fn run_eight<R>(rt: R) -> Summary<GateWire<R>>
where
    R: Threads + Wait + Clock + Abort + AllocGlobal + Copy + Send + 'static,
{
    let config = RelayConfig {
        lanes: LANES,
        producers: 1,
        ..CONFIG
    };
    let wires = gates(rt.alloc(), rt).expect(&rt, "memory");
    let paces = vec![in rt.alloc(); AtOnce; 8].expect(&rt, "memory");
    run_all(rt, rt.alloc(), config, wires, paces, 1, &AtomicU32::new(0)).expect(&rt, "a run")
}

// Whether each lane took one operation, and saw that all eight had sent.
fn all_passed<C: Clock>(summary: &Summary<GateWire<C>>) -> bool {
    for lane in &summary.lanes {
        if lane.taken != 1 || !lane.wire.watch.passed {
            return false;
        }
    }
    summary.lanes.len() == 8
}

#[test]
fn eight_lanes_at_once(rt: HostRuntime) {
    assert!(rt; all_passed(&run_eight(rt)));
}

// A relay of one lane whose requests carry two operations, to which one producer puts four.
fn run_ahead<R>(rt: R) -> Summary<AheadWire<R>>
where
    R: Threads + Wait + Clock + Abort + AllocGlobal + Copy + Send + 'static,
{
    let config = RelayConfig {
        producers: 1,
        in_flight: 1,
        ..FOUR_IN_FLIGHT
    };
    let puts = Arc::new(rt.alloc(), AtomicU32::new(0)).expect(&rt, "memory");
    let seen = Arc::try_clone(&puts).expect(&rt, "a handle");
    let wire = ahead_of(rt.alloc(), rt, seen);
    run_one(rt, rt.alloc(), config, wire, 4, &puts).expect(&rt, "a run")
}

// Whether a lane took four operations, the third before the reply to the first two came.
fn took_ahead<C: Clock>(summary: &Summary<AheadWire<C>>) -> bool {
    match summary.lanes.as_slice() {
        [lane] => lane.taken == 4 && lane.wire.watch.passed,
        _ => false,
    }
}

// The queue has one place, so the fourth is put only once the lane has taken the third.
#[test]
fn messages_are_taken_in_flight(rt: HostRuntime) {
    assert!(rt; took_ahead(&run_ahead(rt)));
}
