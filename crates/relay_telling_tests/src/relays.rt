//! Relays from start to finish, whose producers keep windows and are told how their operations
//! ended.
ghost use Rattle.std.specs.Prelude.{◌≡◌, ◌<◌, ◌≤◌, IfSome, IfOk};
ghost use Rattle.std.specs.Option.{option_to_list};
ghost use Rattle.relay_producer.specs.Ends.{identities, open_puts};
ghost use Rattle.relay_threads.specs.Relay.{NoneOut, ends_of};
ghost use Rattle.relay_telling_tests.specs.Handles.{HaveNotPut, HaveNotTaken};
ghost use Rattle.relay_telling_tests.specs.Handles.{new_names, open_names, closed_names};
ghost use Rattle.relay_telling_tests.specs.Handles.{names_from};

use relay_action::DocKey;
use relay_fixtures::index_wire::{IndexWire, Way, wire_of};
use relay_lane::{Pace, RelayConfig};
use relay_producer::{ClosedProducer, Control, Producer};
use relay_receipts::{ReceiptTake, WindowedProducer};
use relay_telling::{Ending, LaneTells, telling};
use relay_threads::{Relay, Summary};
use std::alloc::{AllocError, Global};
use std::process::Abort;
use std::sync::Wait;
use std::thread::Threads;

/// A pace that does not wait.
#[derive(Clone, Copy, Drop)]
pub struct AtOnce;

impl Pace for AtOnce {
    ghost use Rattle.std.specs.Prelude.{None};

    ghost paused = { λ n. None };

    fn pause(&mut self, _ticks: u64) {}

    fn passed(&mut self) -> u64 {
        0
    }

    fn begin(&mut self) {}

    fn rest(&mut self) {}
}

/// The document of a producer under this number.
pub fn key_of(rt: &(impl Abort + AllocGlobal), producer: u32, document: u64) -> DocKey {
    let id = format!(in rt.alloc(); "{producer}-{document}").expect(rt, "memory");
    DocKey::new(rt.alloc(), "books", id.as_str()).expect(rt, "a key")
}

// A wire to an index of its own for each of these.
fn wires(alloc: Global, ways: &[Way]) -> Result<Vec<IndexWire>, AllocError>
    ensures { IfOk result (λ v. NoneOut (λ w. option_to_list w.flying) v.items) }
{
    let mut wires = Vec::new(alloc);
    for way in ways {
        wires.push(wire_of(alloc, *way))?;
    }
    Ok(wires)
}

// The lanes in their threads, and the handles of the senders.
fn launch<R>(
    rt: R,
    alloc: Global,
    config: RelayConfig,
    ways: &[Way],
    tells: Vec<LaneTells>,
) -> Option<(Relay<IndexWire, LaneTells>, Vec<Producer>, Control)>
where
    R: Threads + Wait + Copy + Send + 'static,
    ensures fresh { IfSome result (λ r. HaveNotPut r.1.items) }
    ensures producers { IfSome result
        (λ r. new_names r.1.items ≡ names_from r.0.queues 0 r.0.config.producers) }
    ensures control { IfSome result
        (λ r. identities (open_puts r.2.ends) ≡ ends_of r.0.queues r.0.config.producers) }
{
    let Ok(wires) = wires(alloc, ways) else {
        return None;
    };
    let Ok(paces) = vec![in alloc; AtOnce; ways.len()] else {
        return None;
    };
    match Relay::start_telling(rt, alloc, config, wires, paces, tells) {
        Ok(started) => Some(started),
        Err(_) => None,
    }
}

// Each producer with its end of its channel.
fn windowed(
    alloc: Global,
    producers: Vec<Producer>,
    takes: Vec<ReceiptTake<Ending>>,
    window: u32,
) -> Option<Vec<WindowedProducer<Ending>>>
    requires window { (0 < window) × (window ≤ 65536) }
    requires producers { HaveNotPut producers.items }
    requires takes { HaveNotTaken takes.items }
    ensures { IfSome result (λ v. open_names v.items ≡ new_names producers.items) }
{
    let mut all = Vec::new(alloc);
    let mut takes = takes.into_iter();
    for producer in producers {
        all.push(WindowedProducer::new(producer, takes.next()?, window))
            .ok()?;
    }
    Some(all)
}

/// Starts a relay with a lane for each of these wires, and returns it with its producers and its
/// control. `None`: it did not start.
pub fn start<R>(
    rt: R,
    alloc: Global,
    config: RelayConfig,
    ways: &[Way],
    window: u32,
) -> Option<
    (
        Relay<IndexWire, LaneTells>,
        Vec<WindowedProducer<Ending>>,
        Control,
    ),
>
where
    R: Threads + Wait + Copy + Send + 'static,
    requires window { (0 < window) × (window ≤ 65536) }
    requires lanes { config.lanes ≤ 8 }
    ensures producers { IfSome result
        (λ r. open_names r.1.items ≡ names_from r.0.queues 0 r.0.config.producers) }
    ensures control { IfSome result
        (λ r. identities (open_puts r.2.ends) ≡ ends_of r.0.queues r.0.config.producers) }
{
    let Ok((tells, takes)) = telling(alloc, config.producers, config.lanes, window) else {
        return None;
    };
    let (relay, producers, control) = launch(rt, alloc, config, ways, tells)?;
    let producers = windowed(alloc, producers, takes, window)?;
    Some((relay, producers, control))
}

// Closes the producers, and returns them with their ends of their channels.
fn close_all<R: Wait>(
    rt: &R,
    alloc: Global,
    producers: Vec<WindowedProducer<Ending>>,
) -> Option<(Vec<ClosedProducer>, Vec<ReceiptTake<Ending>>)>
    ensures { IfSome result (λ r. closed_names r.0.items ≡ open_names producers.items) }
{
    let mut closed = Vec::new(alloc);
    let mut takes = Vec::new(alloc);
    for producer in producers {
        let (producer, take) = producer.close(rt);
        closed.push(producer).ok()?;
        takes.push(take).ok()?;
    }
    Some((closed, takes))
}

/// Closes the producers and the control, and waits until the lanes have ended and dropped what they
/// told by. Returns what the lanes have done, and the producers' ends of their channels, from which
/// nothing was taken meanwhile.
pub fn finish<R: Threads + Wait>(
    rt: &R,
    alloc: Global,
    relay: Relay<IndexWire, LaneTells>,
    producers: Vec<WindowedProducer<Ending>>,
    control: Control,
) -> Option<(Summary<IndexWire>, Vec<ReceiptTake<Ending>>)>
    requires producers { open_names producers.items
        ≡ names_from relay.queues 0 relay.config.producers }
    requires control { identities (open_puts control.ends)
        ≡ ends_of relay.queues relay.config.producers }
{
    let (closed, takes) = close_all(rt, alloc, producers)?;
    let summary = relay.finish(rt, closed, control.close(rt)).ok()?;
    Some((summary, takes))
}

/// How many operations the lanes took.
pub fn count_taken(summary: &Summary<IndexWire>) -> u64 {
    let mut taken = 0u64;
    for lane in &summary.lanes {
        taken = taken.saturating_add(lane.taken);
    }
    taken
}
