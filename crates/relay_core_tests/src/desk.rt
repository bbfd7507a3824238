//! A lane on which a schedule is played, step by step.
use relay_action::{Action, ActionKind, Body, DocKey, Mail, Op, Text};
use relay_batch::Limits;
use relay_core::{Cause, Lane, NotFlying, RelayConfig, Settled, TakeFault, Totals};
use relay_results::{ErrorDetail, ItemError, Loss, Outcome};
use std::alloc::Global;
use std::mem;
use std::process::Abort;

/// Batches of ten documents and 4,096 bytes that are sent immediately.
pub const LIMITS: Limits = Limits {
    count: 10,
    bytes: 4_096,
    linger: 0,
};

/// One lane and one producer, with those batches.
pub const CONFIG: RelayConfig = RelayConfig {
    lanes: 1,
    producers: 1,
    capacity: 10,
    max_held: 10,
    limits: LIMITS,
    attempts: 3,
    give_up_after: None,
    in_flight: 1,
    epoch: 0,
    deal: 1_099_511_627_775,
};

/// An entry of a reply, by its id and status.
#[derive(Clone, Copy)]
pub enum Entry<'a> {
    Index(&'a str, u16),
    /// An index with the error `scripted_refusal`.
    Failed(&'a str, u16),
    /// An index that conflicts, with an error that states this stored version.
    Stated(&'a str, u64),
    Delete(&'a str, u16),
}

/// A step of a schedule, and its result. Counts are applied, already, reported and retried.
#[derive(Clone, Copy)]
pub enum Step<'a> {
    /// Takes the next operation, with this id; without a source it deletes.
    Put(&'a str, &'a str),
    /// The same, and it is not taken.
    NotTaken(TakeFault),
    /// This many ticks pass.
    Ticks(u32),
    /// A tick that comes as a message.
    Tick,
    Flush,
    /// A sender closes.
    Close(u32),
    /// Forms the next request, with these ids and versions.
    Sends(&'a [(&'a str, u64)]),
    SendsNone,
    /// Whether the next request is still being gathered.
    Gathers(bool),
    /// Answers the last request with these entries, which match.
    Items(&'a [Entry<'a>], [u32; 4]),
    /// They do not match.
    NoMatch(&'a [Entry<'a>], [u32; 4]),
    Whole(u16, [u32; 4]),
    Lost([u32; 4]),
    /// No request with the last number is in flight.
    NotFlying,
    /// How many ticks until one is due; 99 if none is eligible.
    DueIn(u64),
    /// How many are held.
    Held(u32),
    Finished(bool),
    Totals(Totals),
}

// A lane, how many operations were put, and the last request.
#[derive(Drop)]
struct Desk {
    lane: Lane,
    puts: u64,
    last: u64,
}

fn new_lane(rt: &impl Abort, alloc: Global, config: RelayConfig) -> Lane {
    assert!(rt; config.valid());
    Lane::new(alloc, config).expect(rt, "memory")
}

/// A lane with a config, which must be valid. It is leaked: to prove that a lane can be dropped
/// costs more than the rest of a test.
pub fn lane_of<'a>(rt: &impl Abort, alloc: Global, config: RelayConfig) -> &'a mut Lane {
    let lane = Box::new(alloc, new_lane(rt, alloc, config));
    Box::leak(lane.expect(rt, "memory"))
}

// Takes a message of a sender. Returns the fault, if it is not taken.
fn take(
    rt: &impl Abort,
    lane: &mut Lane,
    sender: u32,
    number: u64,
    body: Body,
) -> Option<TakeFault> {
    assert!(rt; sender < lane.senders());
    let mail = Mail {
        sender,
        number,
        body,
    };
    let Err((fault, back)) = lane.take(mail) else {
        return None;
    };
    mem::forget(back);
    Some(fault)
}

/// Puts an operation of the first producer; without a source it deletes. Returns the fault, if it
/// is not taken.
pub fn put(
    rt: &impl Abort,
    alloc: Global,
    lane: &mut Lane,
    number: u64,
    id: &str,
    source: &str,
) -> Option<TakeFault> {
    let action = if source.is_empty() {
        Action::delete()
    } else {
        Action::index(alloc, source).expect(rt, "an action")
    };
    let op = Op {
        epoch: 0,
        producer: 0,
        number,
        key: DocKey::new(alloc, "b", id).expect(rt, "a key"),
        action,
    };
    take(rt, lane, 0, number, Body::Put(op))
}

/// Puts operations of the first producer, by their numbers, ids and sources; each is taken.
pub fn put_each(rt: &impl Abort, alloc: Global, lane: &mut Lane, rows: &[(u64, &str, &str)]) {
    for (number, id, source) in rows {
        assert!(rt; put(rt, alloc, lane, *number, *id, *source).is_none());
    }
}

// The error of an entry, if it has one.
fn error_of(rt: &impl Abort, alloc: Global, entry: &Entry<'_>) -> Option<ItemError> {
    let (kind, stored) = match *entry {
        Entry::Failed(_, _) => ("scripted_refusal", None),
        Entry::Stated(_, stored) => ("version_conflict_engine_exception", Some(stored)),
        _ => return None,
    };
    let detail = ErrorDetail {
        kind: Text::new(alloc, kind).expect(rt, "memory"),
        reason: None,
        stored,
    };
    Some(ItemError::new(alloc, detail).expect(rt, "memory"))
}

fn outcome_of(rt: &impl Abort, alloc: Global, entry: &Entry<'_>) -> Outcome {
    let (kind, id, status) = match *entry {
        Entry::Index(id, status) | Entry::Failed(id, status) => (ActionKind::Index, id, status),
        Entry::Stated(id, _) => (ActionKind::Index, id, 409),
        Entry::Delete(id, status) => (ActionKind::Delete, id, status),
    };
    Outcome {
        kind,
        id: Text::new(alloc, id).expect(rt, "memory"),
        status,
        error: error_of(rt, alloc, entry),
    }
}

/// The entries of a reply.
pub fn outcomes_of(rt: &impl Abort, alloc: Global, entries: &[Entry<'_>]) -> Vec<Outcome> {
    let mut outcomes = Vec::new(alloc);
    for entry in entries {
        outcomes
            .push(outcome_of(rt, alloc, entry))
            .expect(rt, "memory");
    }
    outcomes
}

// Whether a request in flight has these ids and versions, in its writes and in its items.
fn carries(lane: &Lane, number: u64, wanted: &[(&str, u64)]) -> bool {
    let Some(writes) = lane.writes(number) else {
        return false;
    };
    let Some(items) = lane.items(number) else {
        return false;
    };
    if writes.len() != wanted.len() || items.len() != wanted.len() {
        return false;
    }
    for i in 0..wanted.len() {
        let (id, version) = wanted[i];
        let (write, item) = (&writes[i], &items[i]);
        if write.key.id() != id || write.version != version || item.version != version {
            return false;
        }
    }
    true
}

fn are_counts(answer: Result<Settled, NotFlying>, counts: &[u32; 4], matched: bool) -> bool {
    match answer {
        Ok(found) => {
            found
                == Settled {
                    applied: counts[0],
                    already: counts[1],
                    reported: counts[2],
                    retried: counts[3],
                    matched,
                }
        }
        Err(NotFlying) => false,
    }
}

// Whether the next request is as expected.
fn sends(rt: &impl Abort, desk: &mut Desk, wanted: &[(&str, u64)]) -> bool {
    if !desk.lane.has_batch() {
        return false;
    }
    let next = desk.last.saturating_add(1);
    desk.last = desk
        .lane
        .request()
        .expect(rt, "memory")
        .expect(rt, "a request");
    desk.last == next && carries(&desk.lane, next, wanted)
}

fn looks(rt: &impl Abort, desk: &mut Desk, step: &Step<'_>) -> bool {
    match step {
        Step::Sends(wanted) => sends(rt, desk, *wanted),
        Step::SendsNone => {
            !desk.lane.has_batch() && desk.lane.request().expect(rt, "memory").is_none()
        }
        Step::Gathers(wanted) => desk.lane.is_gathering() == *wanted,
        Step::DueIn(ticks) => desk.lane.due_in().unwrap_or(99) == *ticks,
        Step::Held(count) => desk.lane.held() == *count,
        Step::Finished(wanted) => desk.lane.finished() == *wanted,
        Step::Totals(wanted) => desk.lane.totals() == *wanted,
        _ => false,
    }
}

// Whether no request with this number is in flight.
fn is_not_flying(alloc: Global, lane: &mut Lane, number: u64) -> bool {
    lane.lost(number, Loss::Closed).is_err()
        && lane.whole(number, 503, None).is_err()
        && lane.reply(number, Vec::new(alloc)).is_err()
        && lane.writes(number).is_none()
        && lane.items(number).is_none()
}

fn answers(rt: &impl Abort, alloc: Global, desk: &mut Desk, step: &Step<'_>) -> bool {
    let last = desk.last;
    match step {
        Step::Items(entries, counts) => are_counts(
            desk.lane.reply(last, outcomes_of(rt, alloc, *entries)),
            counts,
            true,
        ),
        Step::NoMatch(entries, counts) => are_counts(
            desk.lane.reply(last, outcomes_of(rt, alloc, *entries)),
            counts,
            false,
        ),
        Step::Whole(status, counts) if *status != 200 => {
            are_counts(desk.lane.whole(last, *status, None), counts, true)
        }
        Step::Lost(counts) => are_counts(desk.lane.lost(last, Loss::Closed), counts, true),
        Step::NotFlying => is_not_flying(alloc, &mut desk.lane, last),
        _ => looks(rt, desk, step),
    }
}

fn plays(rt: &impl Abort, alloc: Global, desk: &mut Desk, step: &Step<'_>) -> bool {
    match step {
        Step::Put(id, source) => {
            desk.puts = desk.puts.saturating_add(1);
            put(rt, alloc, &mut desk.lane, desk.puts, *id, *source).is_none()
        }
        Step::NotTaken(fault) => put(rt, alloc, &mut desk.lane, 0, "x", "") == Some(*fault),
        Step::Ticks(count) => {
            for _ in 0..*count {
                desk.lane.tick();
            }
            true
        }
        Step::Tick => take(rt, &mut desk.lane, 0, 0, Body::Tick).is_none(),
        Step::Flush => take(rt, &mut desk.lane, 0, 0, Body::Flush).is_none(),
        Step::Close(sender) => take(rt, &mut desk.lane, *sender, 0, Body::Done).is_none(),
        _ => answers(rt, alloc, desk, step),
    }
}

// A stored version below 100, or 0 if there is none.
fn small(stored: Option<u64>) -> u32 {
    stored.unwrap_or(0).min(99) as u32
}

// A report as numbers: its operation, the position of its cause in the list of causes, and the
// status, the sends or the stored version in it.
fn reported(lane: &Lane, place: usize) -> (u64, u8, u32) {
    match lane.reports().get(place) {
        Some(report) => match &report.cause {
            Cause::Refused { status, .. } => (report.name.number, 1, *status as u32),
            Cause::Request { status, .. } => (report.name.number, 2, *status as u32),
            Cause::Conflict { stored, .. } => (report.name.number, 3, small(*stored)),
            Cause::GaveUp { sends, .. } => (report.name.number, 4, *sends),
            Cause::Spent => (report.name.number, 5, 0),
        },
        None => (0, 0, 0),
    }
}

// Whether a lane has exactly these reports, in order.
fn has_reports(lane: &Lane, reports: &[(u64, u8, u32)]) -> bool {
    for i in 0..reports.len() {
        if reported(lane, i) != reports[i] {
            return false;
        }
    }
    lane.reports().len() == reports.len()
}

// Plays steps: each has its result.
fn play_each(rt: &impl Abort, alloc: Global, desk: &mut Desk, steps: &[Step<'_>]) {
    for i in 0..steps.len() {
        assert!(rt; plays(rt, alloc, desk, &steps[i]), "step {i}");
    }
}

/// Plays steps on a fresh lane: each has its result, and the lane then has these reports, and
/// returns as many at its end.
pub fn goes(
    rt: &impl Abort,
    alloc: Global,
    config: RelayConfig,
    steps: &[Step<'_>],
    reports: &[(u64, u8, u32)],
) {
    let mut desk = Desk {
        lane: new_lane(rt, alloc, config),
        puts: 0,
        last: 0,
    };
    play_each(rt, alloc, &mut desk, steps);
    assert!(rt; has_reports(&desk.lane, reports));
    assert!(rt; desk.lane.into_reports().len() == reports.len());
}
