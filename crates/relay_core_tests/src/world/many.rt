//! Sixteen producers and eight lanes together, and a world over an index that already has writes.
use crate::world::script::{THREE, accepts, world_of};
use relay_action::{Action, DocKey, List};
use relay_batch::Limits;
use relay_core::RelayConfig;
use relay_index::Choice;
use relay_world::{Event, World};
use std::alloc::Global;
use std::process::Abort;

const PRODUCERS: u32 = 16;

const LANES: u32 = 8;

const IDS: [&str; 8] = ["0", "1", "2", "3", "4", "5", "6", "7"];

/// The maximum number of lanes and producers, and batches that close by their count.
const MOST: RelayConfig = RelayConfig {
    lanes: LANES,
    producers: PRODUCERS,
    capacity: 100,
    max_held: 100,
    limits: Limits {
        count: 2,
        bytes: 4_096,
        linger: 0,
    },
    ..THREE
};

/// Each producer puts a delete of each document.
fn puts_all(rt: &impl Abort, alloc: Global, world: &mut World) {
    for producer in 0..PRODUCERS {
        for id in IDS {
            let key = DocKey::new(alloc, "books", id).expect(rt, "a key");
            assert!(rt; accepts(world, Event::Put(producer, key, Action::delete())));
        }
    }
}

/// Closes each sender at each lane.
fn closes_all(rt: &impl Abort, world: &mut World) {
    for lane in 0..LANES {
        for sender in 0..17u32 {
            assert!(rt; accepts(world, Event::Close(sender, lane)));
        }
    }
}

/// Each lane takes what is queued for it.
fn takes_all(world: &mut World) {
    for lane in 0..LANES {
        for _ in 0..100u32 {
            let _ = accepts(world, Event::Take(lane));
        }
    }
}

/// Runs the items of a request; the reply of the first request is lost, and each other one arrives.
fn answer(alloc: Global, world: &mut World, number: u64) -> bool {
    for item in 1..3u64 {
        let _ = accepts(world, Event::Run(number, item, Choice::Run));
    }
    let event = if number == 1 {
        Event::Lost(number)
    } else {
        Event::Reply(number, List::of(Vec::new(alloc)))
    };
    accepts(world, event)
}

/// Sends what each lane may send, until none has anything to send, and returns the number of
/// requests by then.
fn works(alloc: Global, world: &mut World, before: u64) -> u64 {
    let mut number = before;
    for _ in 0..200u32 {
        for lane in 0..LANES {
            if accepts(world, Event::Send(lane)) {
                number = number.saturating_add(1);
                let _ = answer(alloc, world, number);
            }
        }
    }
    number
}

fn count_applied(rt: &impl Abort, alloc: Global, world: &World, id: &str) -> usize {
    let key = DocKey::new(alloc, "books", id).expect(rt, "a key");
    world.names(&key).len()
}

/// How many operations were accepted from all producers, and how many writes were applied to all
/// documents.
fn counted(rt: &impl Abort, alloc: Global, world: &World) -> (usize, usize) {
    let mut accepted: usize = 0;
    for producer in 0..PRODUCERS {
        accepted = accepted.saturating_add(world.accepted(producer).len());
    }
    let mut applied: usize = 0;
    for id in IDS {
        applied = applied.saturating_add(count_applied(rt, alloc, world, id));
    }
    (accepted, applied)
}

/// The control ticks at each lane.
fn ticks_all(rt: &impl Abort, world: &mut World) {
    for lane in 0..LANES {
        assert!(rt; accepts(world, Event::Tick(lane)));
    }
}

// Everything is put, taken and sent; the reply of request 1 is lost, so its operations are sent once
// more, a tick later. All senders close, the world is finished once that is taken and not before, and
// each operation was accepted and applied once.
#[test]
fn eight_lanes(rt: HostRuntime) {
    let alloc = rt.alloc();
    let world = world_of(&rt, alloc, MOST);
    puts_all(&rt, alloc, world);
    takes_all(world);
    let requests = works(alloc, world, 0);
    ticks_all(&rt, world);
    takes_all(world);
    assert!(rt; works(alloc, world, requests) > requests);
    closes_all(&rt, world);
    assert!(rt; !world.finished());
    takes_all(world);
    assert!(rt; world.finished() && counted(&rt, alloc, world) == (128, 128));
}
