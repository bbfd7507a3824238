//! A program over `relay_api`: it puts operations, waits for their receipts and ends.
#![tactic(auto)]

ghost use Rattle.std.specs.Prelude.{◌≡◌};
ghost use Rattle.relay_producer.specs.Ends.{identities, open_puts};

use relay_api::{
    Action, DocKey, Ending, Index, Limits, LoopEnd, Pace, ReceiptTake, Relay, RelayConfig, Script,
    SleepPace, WindowedProducer, telling, wire_to,
};
use std::alloc::Global;
use std::sync::Wait;
use std::thread::Threads;

const COUNT: u32 = 10; // operations, all open at once

const CONFIG: RelayConfig = RelayConfig {
    lanes: 1,
    producers: 1,
    capacity: 16,
    max_held: 16,
    limits: Limits {
        count: 10,
        bytes: 4_096,
        linger: 0,
    },
    attempts: 8,
    give_up_after: None,
    in_flight: 1,
    epoch: 1,
    deal: 1_000_000,
};

fn put_all<R: Wait>(rt: &R, alloc: Global, to: &mut WindowedProducer<Ending>) -> Option<()>
    ensures { identities (open_puts to.new.producer.ends)
        ≡ identities (open_puts to.old.producer.ends) }
{
    for id in 0..COUNT {
        let id = format!(in alloc; "{id}").ok()?;
        let key = DocKey::new(alloc, "books", id.as_str()).ok()?;
        to.put(rt, key, Action::index(alloc, "{}").ok()?).ok()?;
    }
    Some(())
}

fn count_applied<R: Wait>(rt: &R, receipts: &mut ReceiptTake<Ending>) -> Option<u32> {
    let mut applied = 0u32;
    for _ in 0..COUNT {
        if let Some(Ending::Applied(_)) = receipts.take(rt).ok()?.told {
            applied = applied.saturating_add(1);
        }
    }
    Some(applied)
}

fn deliver<R, P>(rt: R, alloc: Global, paces: Option<Vec<P>>) -> Option<u32>
where
    R: Threads + Wait + Copy + Send + 'static,
    P: Pace + Drop + Send + 'static,
{
    let (tells, mut takes) = telling(alloc, 1, 1, COUNT).ok()?;
    let index = LoopEnd::new(alloc, Index::new(alloc), Script::new(alloc));
    let wires = Vec::from_array(alloc, [wire_to(alloc, index, 16).ok()?]).ok()?;
    let (relay, mut producers, control) = Relay::start_telling(
        rt, alloc, CONFIG, wires, paces?, tells,
    ).ok()?;
    let mut producer = WindowedProducer::new(producers.pop()?, takes.pop()?, COUNT);
    put_all(&rt, alloc, &mut producer)?;
    let (producer, mut receipts) = producer.close(&rt);
    let control = control.close(&rt);
    let applied = count_applied(&rt, &mut receipts)?;
    let closed = Vec::from_array(alloc, [producer]).ok()?;
    relay.finish(&rt, closed, control).ok()?;
    Some(applied)
}

fn main(rt: HostRuntime) {
    let paces = Vec::from_array(rt.alloc(), [SleepPace::new(rt)]).ok();
    let applied = deliver(rt, rt.alloc(), paces).unwrap_or(0);
    let _ = println!(rt; "{applied} operations were applied");
}
