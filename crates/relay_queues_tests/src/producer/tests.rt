//! What producers and the control send, and what they find gone.
ghost use Rattle.std.specs.Prelude.{◌<◌, ◌≤◌};

use crate::producer::lanes::{Lanes, Said, document, make, takes};
use relay_action::{Action, OpName};
use relay_producer::{Control, Producer, PutFaultKind, Receipt};
use relay_queue::LaneTake;
use std::alloc::Global;
use std::process::Abort;
use std::sync::Wait;
use std::thread::Threads;
use std::time::{Clock, Duration};
use std::{mem, thread};

// The ids of 8 documents of the index `books`, and the lane of each among 8, computed independently
// with FNV-1a. With two lanes the even ids belong to lane 0.
const IDS: [&str; 8] = ["0", "1", "2", "3", "4", "5", "6", "7"];

const LANE_OF: [u32; 8] = [6, 1, 0, 3, 2, 5, 4, 7];

// Whether a delete of the document is put under this name, to this lane.
fn puts<R: Wait>(
    rt: &R,
    alloc: Global,
    producer: &mut Producer,
    name: OpName,
    id: &str,
    lane: u32,
) -> bool {
    let Some(key) = document(alloc, id) else {
        return false;
    };
    match producer.put(rt, key, Action::delete()) {
        Ok(receipt) => receipt == Receipt { name, lane },
        Err(_) => false,
    }
}

// Whether the lane of the document is found gone, and the key and the action are returned.
fn finds_gone<R: Wait>(rt: &R, alloc: Global, producer: &mut Producer, id: &str) -> bool {
    let Some(key) = document(alloc, id) else {
        return false;
    };
    match producer.put(rt, key, Action::delete()) {
        Ok(_) => false,
        Err(fault) => {
            fault.kind == PutFaultKind::LaneGone
                && fault.key.index() == "books"
                && fault.key.id() == id
                && matches!(&fault.action, Action::Delete)
        }
    }
}

// Whether a producer puts a delete of each document, in reverse order if `back`.
fn puts_all<R: Wait>(
    rt: &R,
    alloc: Global,
    producer: &mut Producer,
    sender: u32,
    back: bool,
) -> bool {
    let mut good = true;
    for turn in 0..8usize {
        let at = if back { 7 - turn } else { turn };
        let name = OpName {
            epoch: 0,
            producer: sender,
            number: turn as u64 + 1,
        };
        good = good && puts(rt, alloc, producer, name, IDS[at], LANE_OF[at]);
    }
    good
}

// Whether the taker takes these messages.
fn takes_rows<R: Wait>(rt: &R, take: &mut LaneTake, rows: &[(u32, u64, Said)]) -> bool {
    let mut good = true;
    for (sender, number, said) in rows {
        good = good && takes(rt, take, *sender, *number, *said);
    }
    good
}

// Whether the taker of a document's lane takes the operation of each producer, the control's tick
// and flush, and each Done.
fn takes_lane<R: Wait>(rt: &R, take: &mut LaneTake, document: u64) -> bool {
    let rows = [
        (0u32, 1u64, Said::Put(document.wrapping_add(1))),
        (1, 1, Said::Put(8u64.wrapping_sub(document))),
        (2, 1, Said::Tick),
        (2, 2, Said::Flush),
        (0, 2, Said::Done),
        (1, 2, Said::Done),
        (2, 3, Said::Done),
    ];
    takes_rows(rt, take, &rows)
}

// The document of each of the 8 lanes.
const BY_LANE: [u64; 8] = [2, 1, 4, 3, 6, 5, 0, 7];

// The same for the taker of each of 8 lanes.
fn takes_all<R: Wait>(rt: &R, all: &mut Vec<LaneTake>) -> bool {
    let mut good = all.len() == 8;
    for (take, document) in all.iter_mut().zip(BY_LANE) {
        good = good && takes_lane(rt, take, document);
    }
    good
}

// Two producers and the control of the same lanes.
#[derive(Drop)]
struct Senders {
    first: Producer,
    second: Producer,
    control: Control,
}

// Lanes of 16 places each, and their senders.
fn start(rt: &impl Abort, alloc: Global, lanes: u32) -> (Vec<LaneTake>, Senders)
    requires { (0 < lanes) × (lanes ≤ 8) }
{
    let Lanes {
        takes,
        first,
        second,
        control,
    } = make(alloc, lanes, 16).expect(rt, "memory");
    let senders = Senders {
        first: Producer::new(alloc, 0, 0, first).expect(rt, "memory"),
        second: Producer::new(alloc, 0, 1, second).expect(rt, "memory"),
        control: Control::new(alloc, 2, control).expect(rt, "memory"),
    };
    (takes, senders)
}

// Whether two producers put to each of 8 lanes, one in order and one in reverse, the control sends
// to all, and each of the three closes with no lane gone.
fn send_to_all<R: Wait>(rt: &R, alloc: Global, senders: Senders) -> bool {
    let Senders {
        mut first,
        mut second,
        mut control,
    } = senders;
    let put = puts_all(rt, alloc, &mut first, 0, false)
        && puts_all(rt, alloc, &mut second, 1, true);
    let told = (control.tick(rt), control.flush(rt)) == (8, 8);
    let open = (first.gone(), second.gone(), control.gone());
    let first = first.close(rt).gone();
    let second = second.close(rt).gone();
    let control = control.close(rt).gone();
    put && told && open == (0, 0, 0) && (first, second, control) == (0, 0, 0)
}

// Whether all do, and each taker takes its part.
fn send_to_eight<R: Wait + Abort>(rt: &R, alloc: Global) -> bool {
    let (mut takes, senders) = start(rt, alloc, 8);
    let good = send_to_all(rt, alloc, senders) && takes_all(rt, &mut takes);
    mem::forget(takes);
    good
}

#[test]
fn two_producers_and_the_control(rt: HostRuntime) {
    assert!(rt; send_to_eight(&rt, rt.alloc()));
}

fn name_of(number: u64) -> OpName {
    OpName {
        epoch: 0,
        producer: 0,
        number,
    }
}

// Whether a producer finds the second of two lanes gone, and still puts to the first one.
fn goes_round<R: Wait>(rt: &R, alloc: Global, producer: &mut Producer) -> bool {
    producer.gone() == 0
        && finds_gone(rt, alloc, producer, "1")
        && producer.gone() == 1
        && puts(rt, alloc, producer, name_of(1), "0", 0)
        && finds_gone(rt, alloc, producer, "3")
        && puts(rt, alloc, producer, name_of(2), "2", 0)
        && producer.gone() == 1
}

// Whether the second of two lanes is found gone: by one producer at a put, by the control at a
// tick, and by the other producer at its close.
fn find_gone<R: Wait>(rt: &R, alloc: Global, senders: Senders) -> bool {
    let Senders {
        mut first,
        second,
        mut control,
    } = senders;
    let found = goes_round(rt, alloc, &mut first);
    let first = first.close(rt).gone();
    let told = (control.tick(rt), control.gone(), control.flush(rt)) == (1, 1, 1);
    let control = control.close(rt).gone();
    let unknown = second.gone() == 0;
    let second = second.close(rt).gone();
    found && told && unknown && (first, second, control) == (1, 1, 1)
}

// What the first lane's taker takes.
const FIRST_LANE: [(u32, u64, Said); 7] = [
    (0, 1, Said::Put(1)),
    (0, 2, Said::Put(2)),
    (0, 3, Said::Done),
    (2, 1, Said::Tick),
    (2, 2, Said::Flush),
    (2, 3, Said::Done),
    (1, 1, Said::Done),
];

// Whether they do if the taker of the second lane is dropped, and the other one takes what was
// sent.
fn send_to_one_of_two<R: Wait + Abort>(rt: &R, alloc: Global) -> bool {
    let (mut takes, senders) = start(rt, alloc, 2);
    let dropped = takes.pop().is_some();
    let found = find_gone(rt, alloc, senders);
    let good = match takes.first_mut() {
        Some(take) => dropped && found && takes_rows(rt, take, &FIRST_LANE),
        None => false,
    };
    mem::forget(takes);
    good
}

#[test]
fn a_lane_whose_taker_is_dropped(rt: HostRuntime) {
    assert!(rt; send_to_one_of_two(&rt, rt.alloc()));
}

// How many operations the waiting producer puts.
const COUNT: u64 = 20;

// Waits much longer than an end tries before it sleeps, and takes until the producer closes.
fn take_late<R: Wait + Clock>(rt: &R, take: &mut LaneTake) -> bool {
    thread::sleep(rt, Duration::from_millis(50));
    let mut good = true;
    for number in 1..COUNT + 1 {
        good = good && takes(rt, take, 0, number, Said::Put(number));
    }
    good && takes(rt, take, 0, COUNT + 1, Said::Done)
}

// Whether a producer puts each operation, and closes.
fn put_and_close<R: Wait>(rt: &R, alloc: Global, mut producer: Producer) -> bool {
    let mut good = true;
    for turn in 0..COUNT {
        good = good && puts(rt, alloc, &mut producer, name_of(turn + 1), "0", 0);
    }
    good && producer.close(rt).gone() == 0
}

// Whether a thread takes all that was put by a producer that had to wait at a queue of one place.
fn waits<R>(rt: R, alloc: Global) -> bool
where
    R: Threads + Wait + Clock + Abort + Copy + Send + 'static,
{
    let Lanes {
        mut takes,
        first,
        second: _,
        control: _,
    } = make(alloc, 1, 1).expect(&rt, "memory");
    let producer = Producer::new(alloc, 0, 0, first).expect(&rt, "memory");
    let mut take = takes.pop().expect(&rt, "a taker");
    let child = thread::spawn(&rt, move || take_late(&rt, &mut take)).expect(&rt, "a thread");
    let good = put_and_close(&rt, alloc, producer);
    child.join(&rt) && good
}

#[test]
fn a_put_to_a_full_queue_waits(rt: HostRuntime) {
    assert!(rt; waits(rt, rt.alloc()));
}
