//! Tables of events and their answers, and the world on which they are played.
use relay_action::{ActionFault, DocKey, List, OpName};
use relay_core::{Cause, RelayConfig, Report, Settled};
use relay_fixtures::config::CONFIG;
use relay_fixtures::desk::action_of;
use relay_index::{Choice, Index};
use relay_world::{Event, Refusal, StepAnswer, World};
use std::alloc::Global;
use std::mem;
use std::process::Abort;

/// One lane and one producer, queues of ten, batches of ten documents and 4,096 bytes that are sent
/// immediately, three attempts, and a thousand versions.
pub const THREE: RelayConfig = RelayConfig {
    deal: 1_000,
    ..CONFIG
};

/// An event; documents are of the index `b`, and without a source it deletes.
#[derive(Clone, Copy)]
pub enum Row<'a> {
    Put(u32, &'a str, &'a str),
    Close(u32, u32),
    Tick(u32),
    Flush(u32),
    Take(u32),
    Send(u32),
    Run(u64, u64),
    Refuse(u64, u64, u16),
    Reply(u64, &'a [u64]),
    Whole(u64, u16),
    Lost(u64),
    Restart(u32),
}

/// The name of an operation: epoch, producer and number.
pub type Name = (u32, u32, u64);

/// The answer to an event. For a put it is a name, or a number of producer 0 in epoch 0; for a
/// settled request the counts applied, already, reported and retried.
#[derive(Clone, Copy)]
pub enum Says {
    No(Refusal),
    Named(u64),
    Name(u32, u32, u64),
    Request(u64),
    Status(u16),
    Counts([u32; 4]),
    Ok,
}

fn put_of(alloc: Global, producer: u32, id: &str, source: &str) -> Result<Event, ActionFault> {
    let key = DocKey::new(alloc, "b", id)?;
    Ok(Event::Put(producer, key, action_of(alloc, source)?))
}

/// The event of a row.
pub fn event_of(alloc: Global, row: &Row<'_>) -> Result<Event, ActionFault> {
    Ok(match *row {
        Row::Put(producer, id, source) => put_of(alloc, producer, id, source)?,
        Row::Close(sender, lane) => Event::Close(sender, lane),
        Row::Tick(lane) => Event::Tick(lane),
        Row::Flush(lane) => Event::Flush(lane),
        Row::Take(lane) => Event::Take(lane),
        Row::Send(lane) => Event::Send(lane),
        Row::Run(request, item) => Event::Run(request, item, Choice::Run),
        Row::Refuse(request, item, status) => Event::Run(request, item, Choice::Refuse(status)),
        Row::Reply(request, picks) => match Vec::from_slice(alloc, picks) {
            Ok(picks) => Event::Reply(request, List::of(picks)),
            Err(_) => return Err(ActionFault::Memory),
        },
        Row::Whole(request, status) => Event::Whole(request, status),
        Row::Lost(request) => Event::Lost(request),
        Row::Restart(epoch) => Event::Restart(epoch),
    })
}

/// Whether an operation has this name.
pub fn is_named(name: OpName, wanted: Name) -> bool {
    (name.epoch, name.producer, name.number) == wanted
}

fn counts_of(settled: Settled) -> [u32; 4] {
    [
        settled.applied,
        settled.already,
        settled.reported,
        settled.retried,
    ]
}

/// Whether an answer is the one in a row.
pub fn is_said(answer: StepAnswer, says: Says) -> bool {
    match (answer, says) {
        (StepAnswer::Refused(refusal), Says::No(wanted)) => refusal == wanted,
        (StepAnswer::Put(name), Says::Named(number)) => is_named(name, (0, 0, number)),
        (StepAnswer::Put(name), Says::Name(epoch, producer, number)) => {
            is_named(name, (epoch, producer, number))
        }
        (StepAnswer::Sent(request), Says::Request(number)) => request == number,
        (StepAnswer::Ran(status), Says::Status(wanted)) => status == wanted,
        (StepAnswer::Settled(settled), Says::Counts(counts)) => {
            settled.matched && counts_of(settled) == counts
        }
        (StepAnswer::Done, Says::Ok) => true,
        _ => false,
    }
}

/// A world with a config, which must be valid, over an index. It is leaked: to prove that a world can
/// be dropped costs more than the rest of a test.
pub fn world_over<'a>(
    rt: &impl Abort,
    alloc: Global,
    config: RelayConfig,
    index: Index,
) -> &'a mut World {
    assert!(rt; config.valid());
    let world = World::new(alloc, config, index).expect(rt, "memory");
    Box::leak(Box::new(alloc, world).expect(rt, "memory"))
}

/// The same over a fresh index.
pub fn world_of<'a>(rt: &impl Abort, alloc: Global, config: RelayConfig) -> &'a mut World {
    world_over(rt, alloc, config, Index::new(alloc))
}

// Plays a row, and returns whether it is answered as it says.
fn plays(rt: &impl Abort, alloc: Global, world: &mut World, row: &Row<'_>, says: Says) -> bool {
    let event = event_of(alloc, row).expect(rt, "an event");
    let answer = world.step(&event).expect(rt, "memory");
    mem::forget(event);
    is_said(answer, says)
}

/// Plays rows, and returns whether each is answered as it says.
pub fn played(rt: &impl Abort, alloc: Global, world: &mut World, rows: &[(Row<'_>, Says)]) -> bool {
    for (row, says) in rows {
        if !plays(rt, alloc, world, row, *says) {
            return false;
        }
    }
    true
}

/// Whether an event was accepted.
pub fn accepts(world: &mut World, event: Event) -> bool {
    let answer = world.step(&event);
    mem::forget(event);
    match answer {
        Ok(StepAnswer::Refused(_)) => false,
        Ok(_) => true,
        Err(_) => false,
    }
}

/// A report of lane 0: the number of its operation, and its cause.
#[derive(Clone, Copy)]
pub enum Given {
    Refused(u64, u16),
    Rejected(u64, u16),
    Conflict(u64),
    GaveUp(u64, u32),
    Spent(u64),
}

pub fn is_given(report: &Report, given: Given) -> bool {
    let number = report.name.number;
    match (&report.cause, given) {
        (Cause::Refused { status, .. }, Given::Refused(n, wanted)) => {
            number == n && *status == wanted
        }
        (Cause::Request { status, .. }, Given::Rejected(n, wanted)) => number == n
            && *status == wanted,
        (Cause::Conflict { .. }, Given::Conflict(n)) => number == n,
        (Cause::GaveUp { sends, .. }, Given::GaveUp(n, wanted)) => number == n && *sends == wanted,
        (Cause::Spent, Given::Spent(n)) => number == n,
        _ => false,
    }
}

fn have_numbers(names: &[OpName], numbers: &[u64]) -> bool {
    for (name, number) in names.iter().zip(numbers) {
        if name.number != *number {
            return false;
        }
    }
    names.len() == numbers.len()
}

/// Whether a document has writes of these operations, by their numbers.
fn has_applied(
    alloc: Global,
    world: &World,
    id: &str,
    numbers: &[u64],
) -> Result<bool, ActionFault> {
    let key = DocKey::new(alloc, "b", id)?;
    let applied = world.applied(&key).len();
    Ok(have_numbers(world.names(&key), numbers) && applied == numbers.len())
}

/// Whether a world has these documents with these operations applied, these reports of lane 0, and
/// is finished or not.
pub fn ends_with(
    alloc: Global,
    world: &World,
    applied: &[(&str, &[u64])],
    reports: &[Given],
    finished: bool,
) -> Result<bool, ActionFault> {
    let mut good = world.finished() == finished && world.reports(0).len() == reports.len();
    for (id, numbers) in applied {
        good = good && has_applied(alloc, world, id, numbers)?;
    }
    for (report, given) in world.reports(0).iter().zip(reports) {
        good = good && is_given(report, *given);
    }
    Ok(good)
}

/// What becomes of a script: the operations applied to documents, and the reports.
pub type Ends = (&'static [(&'static str, &'static [u64])], &'static [Given]);

/// A config, the rows of a script in two parts, what becomes of it, and whether the world is finished
/// then.
pub type Script = (
    RelayConfig,
    [&'static [(Row<'static>, Says)]; 2],
    Ends,
    bool,
);

/// Whether a fresh world answers the rows of a script as they say, and then ends like it.
pub fn lasts(rt: &impl Abort, alloc: Global, script: &Script) -> bool {
    let (config, [rows, more], (applied, reports), finished) = *script;
    let world = world_of(rt, alloc, config);
    played(rt, alloc, world, rows)
        && played(rt, alloc, world, more)
        && ends_with(alloc, world, applied, reports, finished).expect(rt, "keys")
}

fn add(alloc: Global, events: &mut Vec<Event>, row: &Row<'_>) -> Result<(), ActionFault> {
    match events.push(event_of(alloc, row)?) {
        Ok(()) => Ok(()),
        Err(_) => Err(ActionFault::Memory),
    }
}

fn add_all(
    alloc: Global,
    events: &mut Vec<Event>,
    rows: &[(Row<'_>, Says)],
) -> Result<(), ActionFault> {
    for (row, _) in rows {
        add(alloc, events, row)?;
    }
    Ok(())
}

/// The events of rows.
pub fn events_of(alloc: Global, rows: &[(Row<'_>, Says)]) -> Result<Vec<Event>, ActionFault> {
    let mut events = Vec::new(alloc);
    match add_all(alloc, &mut events, rows) {
        Ok(()) => Ok(events),
        Err(fault) => Err(fault),
    }
}

/// How many events of these rows a fresh world with a config accepts in one run, and how many it
/// refuses.
pub fn run_of(
    rt: &impl Abort,
    alloc: Global,
    config: RelayConfig,
    rows: &[(Row<'_>, Says)],
) -> (u64, u64) {
    let events = events_of(alloc, rows).expect(rt, "events");
    let world = world_of(rt, alloc, config);
    let end = world.run(events.as_slice()).expect(rt, "memory");
    (end.done, end.refused)
}
