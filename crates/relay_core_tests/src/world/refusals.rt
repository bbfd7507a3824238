//! Events, with any one of their allocations refused (`make refusals`): the refusal changes
//! nothing, and the event succeeds when it is repeated.
use crate::world::script::{
    Ends, Row, Says, THREE, accepts, ends_with, event_of, events_of, is_said,
};
use crate::world::worked::{APPLIED_BUT_GIVEN_UP, GIVEN_UP, THREE_APPLIED, THREE_THEN_ONE, TWO};
use relay_action::{Action, DocKey};
use relay_core::RelayConfig;
use relay_fixtures::keys::key_of;
use relay_index::Index;
use relay_world::{Event, StepAnswer, World};
use std::alloc::{AllocError, Global};
use std::mem;
use std::process::Abort;

fn world_of(alloc: Global, config: RelayConfig) -> Option<World> {
    if !config.valid() {
        return None;
    }
    match World::new(alloc, config, Index::new(alloc)) {
        Ok(world) => Some(world),
        Err(AllocError) => World::new(alloc, config, Index::new(alloc)).ok(),
    }
}

/// A document with a long id, and one with a long source, in two requests, and a restart.
const LONG: &[(Row<'static>, Says)] = &[
    (
        Row::Put(0, "a document of more than thirty-eight bytes", ""),
        Says::Named(1),
    ),
    (
        Row::Put(
            0,
            "1",
            "{\"a\":\"a source of more than thirty-eight bytes\"}",
        ),
        Says::Named(2),
    ),
    (Row::Tick(0), Says::Ok),
    (Row::Flush(0), Says::Ok),
    (Row::Take(0), Says::Ok),
    (Row::Take(0), Says::Ok),
    (Row::Take(0), Says::Ok),
    (Row::Take(0), Says::Ok),
    (Row::Send(0), Says::Request(1)),
    (Row::Run(1, 1), Says::Status(404)),
    (Row::Refuse(1, 2, 429), Says::Status(429)),
    (Row::Reply(1, &[1, 1]), Says::Counts([1, 0, 0, 1])),
    (Row::Tick(0), Says::Ok),
    (Row::Take(0), Says::Ok),
    (Row::Send(0), Says::Request(2)),
    (Row::Run(2, 1), Says::Status(201)),
    (Row::Reply(2, &[]), Says::Counts([1, 0, 0, 0])),
    (Row::Close(0, 0), Says::Ok),
    (Row::Restart(1), Says::Ok),
    (Row::Put(0, "1", "{}"), Says::Name(1, 0, 1)),
    (Row::Take(0), Says::Ok),
];

/// What is seen of a world: how many operations were accepted now and before the restart, reported
/// and applied, with how many names, how many items were sent, and whether it is finished.
type Seen = ([usize; 5], usize, bool);

fn count_sent(world: &World) -> usize {
    let mut count = 0usize;
    for request in 1..4u64 {
        for item in 1..4u64 {
            if world.sent(request, item).is_some() {
                count = count.saturating_add(1);
            }
        }
    }
    count
}

fn seen(world: &World, key: &DocKey) -> Seen {
    let counts = [
        world.accepted(0).len(),
        world.accepted_in(0, 0).len(),
        world.reports(0).len(),
        world.applied(key).len(),
        world.names(key).len(),
    ];
    (counts, count_sent(world), world.finished())
}

fn says_so(world: &mut World, event: &Event, says: Says) -> bool {
    match world.step(event) {
        Ok(answer) => is_said(answer, says),
        Err(AllocError) => false,
    }
}

// Whether an event gets the expected answer, by a second call if an allocation of the first failed
// and it changed nothing. One that the world refuses gets its answer by the first call.
fn steps(world: &mut World, event: &Event, says: Says, key: &DocKey) -> bool {
    let before = seen(world, key);
    match world.step(event) {
        Ok(answer) => is_said(answer, says),
        Err(AllocError) => {
            !matches!(says, Says::No(_))
                && seen(world, key) == before
                && says_so(world, event, says)
        }
    }
}

fn event_again(alloc: Global, row: &Row<'_>) -> Option<Event> {
    match event_of(alloc, row) {
        Ok(event) => Some(event),
        Err(_) => event_of(alloc, row).ok(),
    }
}

// The same for the event of a row.
fn steps_row(alloc: Global, world: &mut World, row: &Row<'_>, says: Says, key: &DocKey) -> bool {
    let Some(event) = event_again(alloc, row) else {
        return false;
    };
    let good = steps(world, &event, says, key);
    mem::forget(event);
    good
}

fn steps_through(alloc: Global, world: &mut World, rows: &[(Row<'_>, Says)], key: &DocKey) -> bool {
    for (row, says) in rows {
        if !steps_row(alloc, world, row, *says, key) {
            return false;
        }
    }
    true
}

fn keys_of(world: &World) -> Option<Vec<DocKey>> {
    match world.keys() {
        Ok(keys) => Some(keys),
        Err(AllocError) => world.keys().ok(),
    }
}

// Rows get the expected answers, and this many documents have writes then.
fn steps_rows(rt: &impl Abort, alloc: Global, rows: &[(Row<'_>, Says)], documents: usize) {
    let mut world = world_of(alloc, THREE).expect(rt, "a world");
    let key = key_of(alloc, "b", "1").expect(rt, "a key");
    assert!(rt; steps_through(alloc, &mut world, rows, &key));
    let keys = keys_of(&world).expect(rt, "keys");
    assert!(rt; keys.len() == documents && world.applied(&key).len() == 1);
    mem::forget((world, key, keys));
}

#[test]
fn refused_steps(rt: HostRuntime) {
    steps_rows(&rt, rt.alloc(), LONG, 2);
    steps_rows(&rt, rt.alloc(), THREE_THEN_ONE, 3);
}

// Plays events. If one is refused, it continues with that one.
fn runs(world: &mut World, events: &[Event]) -> Option<bool> {
    match world.run(events) {
        Ok(_) => Some(true),
        Err((count, AllocError)) => {
            let rest = events.get(count as usize..)?;
            let end = world.run(rest).ok()?;
            Some(end.done.saturating_add(end.refused) == rest.len() as u64)
        }
    }
}

fn events_again(alloc: Global, rows: &[(Row<'_>, Says)]) -> Option<Vec<Event>> {
    match events_of(alloc, rows) {
        Ok(events) => Some(events),
        Err(_) => events_of(alloc, rows).ok(),
    }
}

// The events of rows leave a world with this many accepted operations, and with this outcome.
fn runs_rows(
    rt: &impl Abort,
    alloc: Global,
    config: RelayConfig,
    rows: &[(Row<'_>, Says)],
    accepted: usize,
    ends: Ends,
    finished: bool,
) {
    let events = events_again(alloc, rows).expect(rt, "events");
    let mut world = world_of(alloc, config).expect(rt, "a world");
    assert!(rt; runs(&mut world, events.as_slice()) == Some(true));
    let (applied, reports) = ends;
    assert!(rt; ends_with(alloc, &world, applied, reports, finished) == Ok(true));
    assert!(rt; world.accepted(0).len() == accepted);
    mem::forget((events, world));
}

#[test]
fn refused_schedules(rt: HostRuntime) {
    let alloc = rt.alloc();
    runs_rows(&rt, alloc, THREE, THREE_THEN_ONE, 3, THREE_APPLIED, true);
    runs_rows(&rt, alloc, TWO, GIVEN_UP, 2, APPLIED_BUT_GIVEN_UP, false);
}

/// A producer puts a delete of a document.
fn puts(alloc: Global, world: &mut World, id: &str) -> Result<(), AllocError> {
    let Ok(key) = DocKey::new(alloc, "b", id) else {
        return Err(AllocError);
    };
    let event = Event::Put(0, key, Action::delete());
    let answer = world.step(&event);
    mem::forget(event);
    answer?;
    Ok(())
}

/// Two operations of producer 0, of which one is in flight and one queued then.
fn sends_one_of_two(alloc: Global, world: &mut World) -> Result<(), AllocError> {
    puts(alloc, world, "1")?;
    puts(alloc, world, "2")?;
    world.step(&Event::Take(0))?;
    world.step(&Event::Send(0))?;
    Ok(())
}

/// Whether a world has those two.
fn is_in_flight(world: &World) -> bool {
    world.accepted(0).len() == 2
        && world.accepted_in(1, 0).is_empty()
        && world.sent(1, 1).is_some()
        && world.sent(1, 2).is_none()
}

/// Whether a world with those two is restarted in epoch 1, or an allocation was refused and it is
/// unchanged.
fn restarts_or_stays(world: &mut World) -> bool {
    match world.step(&Event::Restart(1)) {
        Ok(answer) => {
            answer == StepAnswer::Done
                && world.accepted(0).is_empty()
                && world.accepted_in(0, 0).len() == 2
        }
        Err(_) => is_in_flight(world) && accepts(world, Event::Take(0)),
    }
}

// The test ends if an allocation is refused before the restart.
#[test]
fn restart_out_of_memory(rt: HostRuntime) {
    assert!(rt; THREE.valid());
    if let Ok(mut world) = World::new(rt.alloc(), THREE, Index::new(rt.alloc())) {
        if sends_one_of_two(rt.alloc(), &mut world).is_ok() {
            assert!(rt; restarts_or_stays(&mut world));
        }
        mem::forget(world);
    }
}
