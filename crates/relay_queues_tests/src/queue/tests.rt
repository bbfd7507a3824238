//! The queue between threads, and its refusals.
ghost use Rattle.std.specs.Prelude.{◌≡◌, ◌≢◌, ◌<◌, ◌≤◌, IfOk, IfSome, All};
ghost use Rattle.relay_queue.specs.Ends.{Queue};

use relay_action::{Action, ActionFault, Body, DocKey, Mail, Op};
use relay_queue::{
    ClosedPut, Gone, LanePut, LaneTake, OfferRefusal, PutRefusal, Taken, lane_queue,
};
use std::alloc::{AllocError, Global};
use std::snapshot::Snapshot;
use std::sync::Wait;
use std::test::Fail;
use std::thread;
use std::thread::{Promise, PromisedHandle, Threads};
use std::time::{Clock, Duration};

// A sender's thread promises that the closed end which it returns belongs to the queue of its end.
#[derive(Drop)]
struct SendPromise {
    put: Snapshot<LanePut>,
}

impl Promise<Option<ClosedPut>> for SendPromise {
    ghost kept_by = { λ p r. IfSome r (λ c. c.queue ≡ p.put.value.queue) };
}

type SendThread = PromisedHandle<Option<ClosedPut>, SendPromise>;

// A document; it tries once more if an allocation fails.
fn document(alloc: Global) -> Result<DocKey, ActionFault> {
    match DocKey::new(alloc, "books", "1") {
        Ok(key) => Ok(key),
        Err(_) => DocKey::new(alloc, "books", "1"),
    }
}

// What a sender puts as its message with this number: an operation, and every third time a tick.
fn body_of(alloc: Global, sender: u32, number: u64) -> Result<Body, ActionFault>
    ensures { IfOk result (λ b. b ≢ Body.Done) }
{
    if number % 3 == 0 {
        return Ok(Body::Tick);
    }
    let key = document(alloc)?;
    Ok(Body::Put(Op {
        epoch: 0,
        producer: sender,
        number,
        key,
        action: Action::delete(),
    }))
}

// Whether a message is the one of this number that its sender put, or its Done after `count` others.
fn is_message(mail: &Mail, number: u64, count: u64) -> bool {
    mail.number == number
        && match &mail.body {
            Body::Put(op) => {
                number <= count
                    && number % 3 != 0
                    && op.producer == mail.sender
                    && op.number == number
            }
            Body::Tick => number <= count && number % 3 == 0,
            Body::Flush => false,
            Body::Done => number > count,
        }
}

// Waits, puts `count` messages, each of which must return its number, and closes.
fn send_all<R: Wait + Clock>(
    rt: &R,
    alloc: Global,
    mut put: LanePut,
    sender: u32,
    count: u64,
    delay: u64,
) -> Option<ClosedPut>
    ensures { IfSome result (λ c. c.queue ≡ put.queue) }
{
    thread::sleep(rt, Duration::from_millis(delay));
    for sent in 0..count {
        let Ok(body) = body_of(alloc, sender, sent + 1) else {
            return None;
        };
        match put.put(rt, body) {
            Ok(number) => {
                if number != sent + 1 {
                    return None;
                }
            }
            Err(_) => return None,
        }
    }
    match put.close(rt) {
        Ok(closed) => Some(closed),
        Err(_) => None,
    }
}

// Starts a thread for each sender.
fn start_all<R: Threads + Wait + Clock + Copy + Send + 'static>(
    rt: R,
    alloc: Global,
    mut puts: Vec<LanePut>,
    count: u64,
    delay: u64,
) -> Result<Vec<SendThread>, AllocError>
    ensures { IfOk result (λ threads. (queue : Queue) → All (λ p. p.queue ≡ queue) puts.items
        → All (λ t. t.promise.put.value.queue ≡ queue) threads.items) }
{
    let mut threads = Vec::new(alloc);
    while let Some(put) = puts.pop() {
        let sender = u32::try_from(puts.len()).unwrap_or(0);
        let promise = SendPromise {
            put: Snapshot::of(&put),
        };
        let thread = thread::spawn_with(&rt, promise, move || {
            send_all(&rt, alloc, put, sender, count, delay)
        })?;
        threads.push(thread)?;
    }
    Ok(threads)
}

// Whether a message is its sender's Done; `None` if it is not the next one of its sender.
fn is_done(mail: &Mail, next: &mut Vec<u64>, count: u64) -> Option<bool> {
    let number = next.get_mut(mail.sender as usize)?;
    if !is_message(mail, *number, count) {
        return None;
    }
    *number = number.saturating_add(1);
    Some(mail.number > count)
}

// Takes a message, and returns the same for it.
fn take_one<R: Wait>(rt: &R, take: &mut LaneTake, next: &mut Vec<u64>, count: u64) -> Option<bool>
    ensures { take.new.queue ≡ take.old.queue }
{
    match take.take(rt) {
        Ok(mail) => is_done(&mail, next, count),
        Err(Gone) => None,
    }
}

// Takes until each sender has closed, and returns whether each message was the next one of its
// sender.
fn take_all<R: Wait>(rt: &R, take: &mut LaneTake, next: &mut Vec<u64>, count: u64) -> bool
    ensures { take.new.queue ≡ take.old.queue }
{
    let mut open = next.len();
    for _ in rt.forever() {
        if open == 0 {
            return true;
        }
        match take_one(rt, take, next, count) {
            Some(true) => open = open.saturating_sub(1),
            Some(false) => {}
            None => return false,
        }
    }
    unreachable!()
}

// Joins each thread and meets its closed end; the number of them, if all were met.
fn meet_all<R: Threads>(rt: &R, mut taken: Taken, mut threads: Vec<SendThread>) -> Option<usize>
    requires { All (λ t. t.promise.put.value.queue ≡ taken.queue) threads.items }
{
    let mut met = 0usize;
    while let Some(thread) = threads.pop() {
        let Some(closed) = thread.join(rt) else {
            return None;
        };
        taken = taken.meet(closed);
        met = met.saturating_add(1);
    }
    Some(met)
}

// How many milliseconds each side waits before its first call.
#[derive(Clone, Copy)]
struct Delays {
    send: u64,
    take: u64,
}

// A whole run over a queue of one place; the number of senders that were met, if each message was
// in order.
fn run<R: Threads + Wait + Clock + Copy + Send + 'static>(
    rt: R,
    alloc: Global,
    senders: u32,
    count: u64,
    delays: Delays,
) -> Result<Option<usize>, AllocError>
    requires senders { (0 < senders) × (senders ≤ 17) }
{
    let (mut take, puts) = lane_queue(alloc, 1, senders)?;
    let threads = start_all(rt, alloc, puts, count, delays.send)?;
    let mut next = Vec::from_elem(alloc, 1u64, senders as usize)?;
    thread::sleep(&rt, Duration::from_millis(delays.take));
    let is_in_order = take_all(&rt, &mut take, &mut next, count);
    let met = meet_all(&rt, take.end(), threads);
    Ok(if is_in_order { met } else { None })
}

// Whether a run, which is tried once more if an allocation fails, met all senders.
fn meets_all<R: Threads + Wait + Clock + Copy + Send + 'static>(
    rt: R,
    alloc: Global,
    senders: u32,
    count: u64,
    delays: Delays,
) -> bool
    requires senders { (0 < senders) × (senders ≤ 17) }
{
    let met = match run(rt, alloc, senders, count, delays) {
        Ok(met) => met,
        Err(AllocError) => run(rt, alloc, senders, count, delays).unwrap_or(None),
    };
    met == Some(senders as usize)
}

const AT_ONCE: u64 = 0;

// Much longer than an end tries before it sleeps.
const LATE: u64 = 50;

#[test]
fn in_threads(rt: HostRuntime) {
    let delays = Delays {
        send: AT_ONCE,
        take: AT_ONCE,
    };
    for (senders, count) in [(2u32, 100u64), (17, 20)] {
        assert!(rt; meets_all(rt, rt.alloc(), senders, count, delays));
    }
}

#[test]
fn a_take_of_an_empty_queue_waits(rt: HostRuntime) {
    let delays = Delays {
        send: LATE,
        take: AT_ONCE,
    };
    assert!(rt; meets_all(rt, rt.alloc(), 1, 1, delays));
}

#[test]
fn a_put_to_a_full_queue_waits(rt: HostRuntime) {
    let delays = Delays {
        send: AT_ONCE,
        take: LATE,
    };
    assert!(rt; meets_all(rt, rt.alloc(), 2, 2, delays));
}

// A queue; it tries once more if an allocation fails.
fn made(alloc: Global, capacity: u32, senders: u32) -> Result<(LaneTake, Vec<LanePut>), AllocError>
    requires capacity { (0 < capacity) × (capacity ≤ 65536) }
    requires senders { (0 < senders) × (senders ≤ 17) }
{
    match lane_queue(alloc, capacity, senders) {
        Ok(ends) => Ok(ends),
        Err(AllocError) => lane_queue(alloc, capacity, senders),
    }
}

// What a message says.
#[derive(Clone, Copy, PartialEq, Eq)]
enum Said {
    Put,
    Tick,
    Flush,
    Done,
}

fn said_of(body: &Body) -> Said {
    match body {
        Body::Put(_) => Said::Put,
        Body::Tick => Said::Tick,
        Body::Flush => Said::Flush,
        Body::Done => Said::Done,
    }
}

// The sender and the number of the next message, and its content; `None` if all senders are gone.
fn next_of<R: Wait>(rt: &R, take: &mut LaneTake) -> Option<(u32, u64, Said)> {
    match take.take(rt) {
        Ok(mail) => Some((mail.sender, mail.number, said_of(&mail.body))),
        Err(Gone) => None,
    }
}

// Whether a taker takes these messages, one after another, and then finds all senders gone.
fn takes<R: Wait>(rt: &R, take: &mut LaneTake, rows: &[(u32, u64, Said)]) -> bool {
    for row in rows {
        if next_of(rt, take) != Some(*row) {
            return false;
        }
    }
    next_of(rt, take).is_none()
}

// Whether a sender puts a tick and a flush as its first two messages, and closes.
fn closes_after_two<R: Wait>(rt: &R, mut put: LanePut) -> bool {
    let first = put.put(rt, Body::Tick).ok();
    let second = put.put(rt, Body::Flush).ok();
    put.close(rt).is_ok() && (first, second) == (Some(1), Some(2))
}

// Whether each sender does.
fn close_after_two<R: Wait>(rt: &R, puts: Vec<LanePut>) -> bool {
    let mut good = true;
    for put in puts {
        good = closes_after_two(rt, put) && good;
    }
    good
}

#[test]
fn in_one_thread(rt: HostRuntime) -> Result<(), Fail> {
    let (mut take, puts) = made(rt.alloc(), 65_536, 1)?;
    let rows = [(0, 1, Said::Tick), (0, 2, Said::Flush), (0, 3, Said::Done)];
    assert!(rt; close_after_two(&rt, puts) && takes(&rt, &mut take, &rows));
    Ok(())
}

// The result of a put, if it finds the taker gone.
fn given_back<R: Wait>(rt: &R, put: &mut LanePut, body: Body) -> Option<Said>
    requires { body ≢ Body.Done }
{
    match put.put(rt, body) {
        Err((PutRefusal::Gone, back)) => Some(said_of(&back)),
        _ => None,
    }
}

// Whether a sender finds the taker gone when it puts, when it closes, and when it puts after that.
fn finds_gone<R: Wait>(rt: &R, mut put: LanePut) -> bool {
    if given_back(rt, &mut put, Body::Flush) != Some(Said::Flush) {
        return false;
    }
    match put.close(rt) {
        Ok(_) => false,
        Err((Gone, mut back)) => given_back(rt, &mut back, Body::Tick) == Some(Said::Tick),
    }
}

// How many senders find the taker gone, if all do.
fn count_gone<R: Wait>(rt: &R, puts: Vec<LanePut>) -> Option<usize> {
    let count = puts.len();
    for put in puts {
        if !finds_gone(rt, put) {
            return None;
        }
    }
    Some(count)
}

#[test]
fn after_the_taker(rt: HostRuntime) -> Result<(), Fail> {
    let (take, puts) = made(rt.alloc(), 3, 2)?;
    drop(take.end());
    assert!(rt; count_gone(&rt, puts) == Some(2));
    Ok(())
}

// Whether each sender puts a tick as its first message, and is then dropped.
fn put_one_each<R: Wait>(rt: &R, puts: Vec<LanePut>) -> bool {
    let mut good = true;
    for mut put in puts {
        good = good && put.put(rt, Body::Tick).ok() == Some(1);
    }
    good
}

// Each further call also reports that the senders are gone.
#[test]
fn after_the_senders(rt: HostRuntime) -> Result<(), Fail> {
    let (mut take, puts) = made(rt.alloc(), 4, 2)?;
    let rows = [(0, 1, Said::Tick), (1, 1, Said::Tick)];
    assert!(rt; put_one_each(&rt, puts) && takes(&rt, &mut take, &rows));
    assert!(rt; next_of(&rt, &mut take).is_none());
    Ok(())
}

// The result of a look at the queue: the next message as numbers, nothing, or that all senders are
// gone.
fn seen<R: Wait>(rt: &R, take: &mut LaneTake) -> Result<Option<(u32, u64, Said)>, Gone> {
    match take.try_take(rt)? {
        Some(mail) => Ok(Some((mail.sender, mail.number, said_of(&mail.body)))),
        None => Ok(None),
    }
}

// Whether looks at the queue find nothing, then a tick, then nothing.
fn sees_a_tick<R: Wait>(rt: &R, take: &mut LaneTake, put: &mut LanePut) -> bool {
    seen(rt, take) == Ok(None)
        && put.put(rt, Body::Tick).ok() == Some(1)
        && seen(rt, take) == Ok(Some((0, 1, Said::Tick)))
        && seen(rt, take) == Ok(None)
}

// Whether each sender's tick is seen, and then that all senders are gone.
fn sees_each<R: Wait>(rt: &R, take: &mut LaneTake, puts: Vec<LanePut>) -> bool {
    let mut good = true;
    for mut put in puts {
        good = good && sees_a_tick(rt, take, &mut put);
    }
    good && seen(rt, take) == Err(Gone)
}

// A look at the queue does not wait.
#[test]
fn without_a_wait(rt: HostRuntime) -> Result<(), Fail> {
    let (mut take, puts) = made(rt.alloc(), 4, 1)?;
    assert!(rt; sees_each(&rt, &mut take, puts));
    Ok(())
}

// Whether an offer of a tick, or of a flush, is refused for now.
fn is_not_yet<R: Wait>(rt: &R, put: &mut LanePut, tick: bool) -> bool {
    let body = if tick { Body::Tick } else { Body::Flush };
    matches!(put.offer(rt, body), Err((OfferRefusal::NotYet, _)))
}

// Whether a tick, or a flush, is sent as the message with this number.
fn is_sent_as<R: Wait>(rt: &R, put: &mut LanePut, tick: bool, number: u64) -> bool {
    let body = if tick { Body::Tick } else { Body::Flush };
    matches!(put.offer(rt, body), Ok(found) if found == number)
}

// Whether a tick, or a flush, is taken next.
fn takes_one<R: Wait>(rt: &R, take: &mut LaneTake, tick: bool) -> bool {
    match take.try_take(rt) {
        Ok(Some(mail)) => matches!(mail.body, Body::Tick) == tick,
        _ => false,
    }
}

// With two places: a second tick is refused until the first one was taken, and a flush if there is
// no room.
fn offers<R: Wait>(rt: &R, take: &mut LaneTake, put: &mut LanePut) -> bool {
    is_sent_as(rt, put, true, 1)
        && is_not_yet(rt, put, true)
        && is_sent_as(rt, put, false, 2)
        && is_not_yet(rt, put, false)
        && takes_one(rt, take, true)
        && is_sent_as(rt, put, true, 3)
        && is_not_yet(rt, put, true)
        && takes_one(rt, take, false)
        && is_not_yet(rt, put, true)
        && is_sent_as(rt, put, false, 4)
        && takes_one(rt, take, true)
        && takes_one(rt, take, false)
}

// An offer waits neither for room nor for the taker, and at most one tick is queued.
#[test]
fn offers_that_do_not_wait(rt: HostRuntime) -> Result<(), Fail> {
    let (mut take, puts) = made(rt.alloc(), 2, 1)?;
    let mut offered = false;
    for mut put in puts {
        offered = offers(&rt, &mut take, &mut put);
    }
    assert!(rt; offered);
    Ok(())
}
