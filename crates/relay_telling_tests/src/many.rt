//! Many producers with windows, told by lanes in threads.
ghost use Rattle.std.specs.Prelude.{◌≡◌};
ghost use Rattle.relay_producer.specs.Ends.{identities, open_puts};
ghost use Rattle.relay_telling_tests.specs.Handles.{open_names};

use crate::relays::{count_taken, finish, key_of, start};
use relay_action::{Action, DocKey};
use relay_batch::Limits;
use relay_fixtures::config::{CONFIG, LIMITS};
use relay_fixtures::index_wire::Way;
use relay_lane::RelayConfig;
use relay_producer::{Control, Receipt};
use relay_receipts::{Notice, ReceiptTake, WindowedProducer};
use relay_telling::Ending;
use std::process::Abort;
use std::sync::Wait;
use std::thread;
use std::thread::Threads;

const PRODUCERS: u32 = 256;

const LANES: u32 = 8;

const WINDOW: u32 = 4;

/// The number of operations that each producer puts.
const COUNT: u32 = 20;

/// The number of its documents, where replies are lost.
const DOCUMENTS: u64 = 5;

/// The lane whose index refuses every request.
const REFUSED: u32 = 7;

// Requests have ten operations, or fewer after three ticks. No operation is given up.
const MANY: RelayConfig = RelayConfig {
    lanes: LANES,
    producers: PRODUCERS,
    limits: Limits {
        linger: 3,
        ..LIMITS
    },
    attempts: 32,
    ..CONFIG
};

/// How an operation ended, as its producer was told.
#[derive(Clone, Copy, PartialEq, Eq)]
struct Told {
    /// The operation, and the lane that told it.
    receipt: Receipt,
    reported: bool,
}

/// What a producer put, and what it was told.
#[derive(Drop)]
struct Heard {
    producer: u32,
    /// The receipts of its puts, in order.
    put: Vec<Receipt>,
    /// In the order in which it was told.
    told: Vec<Told>,
    /// How many lanes said that they tell no more.
    lasts: u32,
}

fn nothing_heard(rt: &(impl Abort + AllocGlobal)) -> Vec<Heard> {
    let mut all = Vec::new(rt.alloc());
    for producer in 0..PRODUCERS {
        let heard = Heard {
            producer,
            put: Vec::new(rt.alloc()),
            told: Vec::new(rt.alloc()),
            lasts: 0,
        };
        all.push(heard).expect(rt, "memory");
    }
    all
}

// The document of the next operation: one of its own, or one of five in turn.
fn next_key(rt: &(impl Abort + AllocGlobal), heard: &Heard, loses: bool) -> DocKey {
    let put = heard.put.len() as u64;
    let document = if loses { put % DOCUMENTS } else { put };
    key_of(rt, heard.producer, document)
}

fn note(rt: &impl Abort, heard: &mut Heard, notice: &Notice<Ending>) {
    let Some(ending) = &notice.told else {
        heard.lasts = heard.lasts.saturating_add(1);
        return;
    };
    let receipt = Receipt {
        name: ending.name(),
        lane: notice.lane,
    };
    let reported = matches!(ending, Ending::Reported(_));
    heard
        .told
        .push(Told { receipt, reported })
        .expect(rt, "memory");
}

// Takes a receipt. The control ticks until there is one: the lanes wait for more operations, and
// pause after a lost reply, by their ticks.
fn take_one<R: Wait + Abort>(
    rt: &R,
    producer: &mut WindowedProducer<Ending>,
    control: &mut Control,
) -> Notice<Ending>
    ensures producer { producer.new.producer ≡ producer.old.producer }
    ensures control { identities (open_puts control.new.ends)
        ≡ identities (open_puts control.old.ends) }
{
    for _ in rt.forever() {
        if let Some(notice) = producer.try_take(rt).expect(rt, "a lane that tells") {
            return notice;
        }
        let _ = control.tick(rt);
        thread::yield_now();
    }
    unreachable!()
}

// Puts as many operations as the window has; with a full window it takes a receipt first.
fn put_some<R: Wait + Abort + AllocGlobal>(
    rt: &R,
    producer: &mut WindowedProducer<Ending>,
    control: &mut Control,
    heard: &mut Heard,
    loses: bool,
)
    ensures producer { identities (open_puts producer.new.producer.ends)
        ≡ identities (open_puts producer.old.producer.ends) }
    ensures control { identities (open_puts control.new.ends)
        ≡ identities (open_puts control.old.ends) }
{
    for _ in 0..WINDOW {
        if producer.pending() == WINDOW {
            note(rt, heard, &take_one(rt, producer, control));
        }
        let key = next_key(rt, heard, loses);
        let receipt = producer.put(rt, key, Action::delete()).expect(rt, "a put");
        heard.put.push(receipt).expect(rt, "memory");
    }
}

// Each producer puts its operations, as many in turn as its window has.
fn put_all<R: Wait + Abort + AllocGlobal>(
    rt: &R,
    producers: &mut Vec<WindowedProducer<Ending>>,
    control: &mut Control,
    all: &mut Vec<Heard>,
    loses: bool,
)
    ensures producers { open_names producers.new.items ≡ open_names producers.old.items }
    ensures control { identities (open_puts control.new.ends)
        ≡ identities (open_puts control.old.ends) }
{
    for _ in 0..COUNT / WINDOW {
        for p in 0..producers.len() {
            let heard = all.get_mut(p).expect(rt, "a producer");
            put_some(rt, &mut producers[p], control, heard, loses);
        }
    }
}

// Takes what is still queued: at most the window, and a last notice of each lane.
fn take_rest<R: Wait + Abort>(rt: &R, take: &mut ReceiptTake<Ending>, heard: &mut Heard) {
    for _ in 0..=WINDOW + LANES {
        let Ok(notice) = take.take(rt) else {
            return;
        };
        note(rt, heard, &notice);
    }
    panic!(rt; "it is told more")
}

fn take_all<R: Wait + Abort>(rt: &R, takes: &mut Vec<ReceiptTake<Ending>>, all: &mut Vec<Heard>) {
    for p in 0..takes.len() {
        let heard = all.get_mut(p).expect(rt, "a producer");
        take_rest(rt, &mut takes[p], heard);
    }
}

// Whether a producer was told once of each of its operations by the lane of its receipt, of those
// of the refusing lane as reported, and by each lane that it tells no more.
fn is_whole(heard: &Heard) -> bool {
    for receipt in &heard.put {
        let told = Told {
            receipt: *receipt,
            reported: receipt.lane == REFUSED,
        };
        if !heard.told.contains(&told) {
            return false;
        }
    }
    heard.put.len() == 20 && heard.told.len() == 20 && heard.lasts == LANES
}

// Whether two endings came in the order of the puts, if they had to: a lane settles what it holds
// of a document in this order, and everything if each request is answered.
fn may_follow(earlier: &Told, later: &Told, loses: bool) -> bool {
    let (a, b) = (earlier.receipt, later.receipt);
    let tied = !loses || a.name.number % DOCUMENTS == b.name.number % DOCUMENTS;
    a.lane != b.lane || !tied || a.name.number < b.name.number
}

fn is_ordered(told: &[Told], loses: bool) -> bool {
    for (place, later) in told.iter().enumerate() {
        for earlier in &told[..place] {
            if !may_follow(earlier, later, loses) {
                return false;
            }
        }
    }
    true
}

fn are_told(all: &[Heard], loses: bool) -> bool {
    for heard in all {
        if !is_whole(heard) || !is_ordered(&heard.told, loses) {
            return false;
        }
    }
    all.len() == 256
}

// A relay from start to finish. The lanes end before what they tell last is taken. Whether each
// producer was told of its operations, and how many the lanes took.
fn run_many<R>(rt: R, loses: bool) -> (bool, u64)
where
    R: Threads + Wait + Abort + AllocGlobal + Copy + Send + 'static,
{
    let way = if loses { Way::LosesEach(5) } else { Way::Runs };
    let ways = [way, way, way, way, way, way, way, Way::Whole(400)];
    let mut all = nothing_heard(&rt);
    let started = start(rt, rt.alloc(), MANY, &ways, WINDOW);
    let (relay, mut producers, mut control) = started.expect(&rt, "a relay");
    put_all(&rt, &mut producers, &mut control, &mut all, loses);
    let finished = finish(&rt, rt.alloc(), relay, producers, control);
    let (summary, mut takes) = finished.expect(&rt, "an end");
    take_all(&rt, &mut takes, &mut all);
    (are_told(&all, loses), count_taken(&summary))
}

#[test]
fn many_are_told(rt: HostRuntime) {
    for loses in [false, true] {
        assert!(rt; run_many(rt, loses) == (true, 256 * 20));
    }
}
