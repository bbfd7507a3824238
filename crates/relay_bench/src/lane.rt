//! A lane that holds many operations: they are taken, and requests are formed and answered until
//! 500 operations, or all, were applied.
ghost use Rattle.std.specs.Prelude.{◌<◌, ◌≤◌, ◌^◌, IfOk};

use crate::fault::BenchFault;
use crate::rate::{capped, nanoseconds_since};
use relay_action::{Action, Body, DocKey, Mail, Op, Text, Write};
use relay_batch::Limits;
use relay_core::{Lane, RelayConfig};
use relay_results::Outcome;
use std::alloc::Global;
use std::time::{Clock, Instant};

/// The maximum number of operations in a request.
pub const BATCH: u32 = 500;

// The source of each operation, of 100 bytes.
const SOURCE: &str =
    "{\"title\":\"A document of one hundred bytes, as a service may hand it over\",\"year\":2026,\"tags\":[\"a\",\"b\"]}";

/// The times of a lane's calls.
#[derive(Clone, Copy, Debug, PartialEq, Eq)]
pub struct LaneTimes {
    /// The number of operations that the requests carried, all of which were applied.
    pub sent: u32,
    /// The time of all takes in nanoseconds, at most 10^18.
    pub take: u64,
    /// The time of all requests in nanoseconds, at most 10^18.
    pub request: u64,
    /// The time of all replies in nanoseconds, at most 10^18.
    pub reply: u64,
    /// The time of one query for the first due tick in nanoseconds, at most 10^18.
    pub due: u64,
}

// The message that puts the operation with this number on one of `documents` documents.
fn mail_of(alloc: Global, number: u64, documents: u32) -> Result<Mail, BenchFault>
    requires { 0 < documents }
{
    let id = format!(in alloc; "{}", number % documents as u64)?;
    let Ok(key) = DocKey::new(alloc, "books", id.as_str()) else {
        return Err(BenchFault::Memory);
    };
    let Ok(action) = Action::index(alloc, SOURCE) else {
        return Err(BenchFault::Memory);
    };
    Ok(Mail {
        sender: 0,
        number,
        body: Body::Put(Op {
            epoch: 0,
            producer: 0,
            number,
            key,
            action,
        }),
    })
}

fn mails_of(alloc: Global, count: u32, documents: u32) -> Result<Vec<Mail>, BenchFault>
    requires { 0 < documents }
{
    let mut mails = Vec::new(alloc);
    for number in 0..count {
        let mail = mail_of(alloc, number as u64 + 1, documents)?;
        if mails.push(mail).is_err() {
            return Err(BenchFault::Memory);
        }
    }
    Ok(mails)
}

fn take_all(lane: &mut Lane, mails: Vec<Mail>) -> Result<(), BenchFault> {
    for mail in mails {
        if mail.sender >= lane.senders() || lane.take(mail).is_err() {
            return Err(BenchFault::Lane);
        }
    }
    Ok(())
}

// The entries of a reply in which each write was applied.
fn applied(alloc: Global, writes: &[Write]) -> Result<Vec<Outcome>, BenchFault> {
    let mut outcomes = Vec::new(alloc);
    for write in writes {
        let outcome = Outcome {
            kind: write.action.kind(),
            id: Text::new(alloc, write.key.id())?,
            status: 201,
            error: None,
        };
        if outcomes.push(outcome).is_err() {
            return Err(BenchFault::Memory);
        }
    }
    Ok(outcomes)
}

// Answers a request so that all of its writes were applied, and returns their number and the time.
fn answer<R: Clock>(
    rt: &R,
    alloc: Global,
    lane: &mut Lane,
    number: u64,
) -> Result<(u32, u64), BenchFault>
    ensures { IfOk result (λ r. r.1 ≤ 10 ^ 18) }
{
    let Some(writes) = lane.writes(number) else {
        return Err(BenchFault::Lane);
    };
    let outcomes = applied(alloc, writes)?;
    let start = Instant::now(rt)?;
    let Ok(settled) = lane.reply(number, outcomes) else {
        return Err(BenchFault::Lane);
    };
    let nanoseconds = nanoseconds_since(rt, start)?;
    Ok((settled.applied, nanoseconds))
}

// Forms a request and answers it, and returns the number of its operations and the times of the
// request and the reply.
fn exchange<R: Clock>(rt: &R, alloc: Global, lane: &mut Lane) -> Result<(u32, u64, u64), BenchFault>
    ensures { IfOk result (λ r. (r.1 ≤ 10 ^ 18) × (r.2 ≤ 10 ^ 18)) }
{
    let start = Instant::now(rt)?;
    let Some(number) = lane.request()? else {
        return Err(BenchFault::Lane);
    };
    let request = nanoseconds_since(rt, start)?;
    let (sent, reply) = answer(rt, alloc, lane, number)?;
    Ok((sent, request, reply))
}

// Forms and answers requests until `wanted` operations were sent, and returns their number and the
// times of all requests and all replies.
fn exchange_all<R: Clock>(
    rt: &R,
    alloc: Global,
    lane: &mut Lane,
    wanted: u32,
) -> Result<(u32, u64, u64), BenchFault>
    ensures { IfOk result (λ r. (r.1 ≤ 10 ^ 18) × (r.2 ≤ 10 ^ 18)) }
{
    let mut sent = 0u32;
    let mut requests = 0u64;
    let mut replies = 0u64;
    for _ in 0..wanted {
        if sent < wanted {
            let (more, request, reply) = exchange(rt, alloc, lane)?;
            sent = sent.saturating_add(more);
            requests = requests.saturating_add(request);
            replies = replies.saturating_add(reply);
        }
    }
    Ok((sent, capped(requests), capped(replies)))
}

// Takes the operations, and forms and answers requests until 500 of them, or all, were sent.
fn drive<R: Clock>(
    rt: &R,
    alloc: Global,
    lane: &mut Lane,
    mails: Vec<Mail>,
    wanted: u32,
) -> Result<LaneTimes, BenchFault>
    ensures { IfOk result
        (λ t. (t.take ≤ 10 ^ 18) × (t.request ≤ 10 ^ 18) × (t.reply ≤ 10 ^ 18)
        × (t.due ≤ 10 ^ 18)) }
{
    let start = Instant::now(rt)?;
    take_all(lane, mails)?;
    let take = nanoseconds_since(rt, start)?;
    let start = Instant::now(rt)?;
    let first = lane.due_in();
    let due = nanoseconds_since(rt, start)?;
    if first != Some(0) {
        return Err(BenchFault::Lane);
    }
    let (sent, request, reply) = exchange_all(rt, alloc, lane, wanted)?;
    Ok(LaneTimes {
        sent,
        take,
        request,
        reply,
        due,
    })
}

/// Measures a lane that takes and holds operations of 100 bytes each on this many documents.
pub fn measure<R: Clock>(
    rt: &R,
    alloc: Global,
    held: u32,
    documents: u32,
) -> Result<LaneTimes, BenchFault>
    requires { 0 < documents }
    ensures { IfOk result
        (λ t. (t.take ≤ 10 ^ 18) × (t.request ≤ 10 ^ 18) × (t.reply ≤ 10 ^ 18)
        × (t.due ≤ 10 ^ 18)) }
{
    let config = RelayConfig {
        lanes: 1,
        producers: 1,
        capacity: 1,
        max_held: held,
        limits: Limits {
            count: BATCH,
            bytes: 16_777_216,
            linger: 0,
        },
        attempts: 3,
        give_up_after: None,
        in_flight: 1,
        epoch: 0,
        deal: 1_099_511_627_775,
    };
    if !config.valid() {
        return Err(BenchFault::Usage);
    }
    let mails = mails_of(alloc, held, documents)?;
    let mut lane = Lane::new(alloc, config)?;
    drive(rt, alloc, &mut lane, mails, held.min(BATCH))
}
