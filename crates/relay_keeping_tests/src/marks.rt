//! What producers and lanes tell, and the marks.
use relay_action::OpName;
use relay_core::Success;
use relay_keeping::{InputTelling, LaneTelling, MarkEnds, MarkKeeper, keep_marks};
use relay_resume::{Mark, Place};
use std::process::Abort;
use std::sync::Wait;
use std::thread;
use std::thread::Threads;
use std::time::{Clock, Duration};

pub const START: Mark = Mark {
    offset: 100,
    line: 4,
    count: 2,
};

/// The mark after so many operations, each of which is one line of four bytes.
pub fn after(count: u64) -> Mark {
    Mark {
        offset: count.saturating_mul(4).saturating_add(START.offset),
        line: count.saturating_add(START.line),
        count: count.saturating_add(START.count),
    }
}

/// The place after so many operations.
pub fn place_after(count: u64) -> Place {
    START.place_behind(count, count.saturating_mul(4))
}

pub fn name_of(producer: u32, number: u64) -> OpName {
    OpName {
        epoch: 1,
        producer,
        number,
    }
}

pub fn success_of(producer: u32, number: u64) -> Success {
    Success {
        name: name_of(producer, number),
        version: 7,
        status: Some(201),
    }
}

fn new_ends(rt: &(impl Abort + AllocGlobal)) -> MarkEnds {
    keep_marks(rt.alloc(), &[START, START], 2, 64).expect(rt, "memory")
}

/// Takes what is queued.
pub fn follow<R: Wait>(rt: &R, keeper: &mut MarkKeeper) {
    for _ in rt.forever() {
        match keeper.try_follow(rt) {
            Ok(true) => {}
            _ => return,
        }
    }
}

// Something that is told, or a mark after all that was told.
#[derive(Clone, Copy)]
enum Step {
    // This producer puts the operation with this number.
    Put(usize, u64),
    // This producer sends what it has put.
    Flush(usize),
    // A lane tells that this operation of a producer was applied.
    Applied(usize, u32, u64),
    // A lane tells that this operation of a producer was reported, and whether that failed.
    Reported(usize, u32, u64, bool),
    // So many operations of this producer are before its mark.
    Mark(u32, u64),
}

const STEPS: &[Step] = &[
    Step::Mark(0, 0),
    Step::Mark(1, 0),
    Step::Put(0, 1),
    // It is settled before its place is sent.
    Step::Applied(1, 0, 1),
    Step::Mark(0, 0),
    Step::Flush(0),
    Step::Mark(0, 1),
    Step::Mark(1, 0),
    Step::Put(1, 1),
    Step::Put(1, 2),
    Step::Flush(1),
    Step::Mark(1, 0),
    Step::Reported(0, 1, 2, false),
    Step::Mark(1, 0),
    Step::Reported(1, 1, 1, true),
    Step::Mark(1, 0),
    Step::Reported(1, 1, 1, false),
    Step::Mark(1, 2),
    Step::Mark(0, 1),
    // Names of producers that have no input.
    Step::Applied(0, 2, 1),
    Step::Mark(0, 1),
    Step::Mark(1, 2),
];

pub fn input_at<'a>(
    rt: &impl Abort,
    ends: &'a mut MarkEnds,
    producer: usize,
) -> &'a mut InputTelling {
    ends.inputs.get_mut(producer).expect(rt, "an input")
}

pub fn lane_at<'a>(rt: &impl Abort, ends: &'a mut MarkEnds, lane: usize) -> &'a mut LaneTelling {
    ends.lanes.get_mut(lane).expect(rt, "a lane")
}

fn is_right<R: Wait + Abort>(rt: &R, ends: &mut MarkEnds, step: Step) -> bool {
    match step {
        Step::Put(producer, number) => input_at(rt, ends, producer).put(rt, place_after(number)),
        Step::Flush(producer) => input_at(rt, ends, producer).flush(rt),
        Step::Applied(lane, producer, number) => {
            lane_at(rt, ends, lane).applied(rt, &[success_of(producer, number)]);
        }
        Step::Reported(lane, producer, number, failed) => {
            lane_at(rt, ends, lane).reported(rt, name_of(producer, number), failed);
        }
        Step::Mark(producer, count) => {
            follow(rt, &mut ends.keeper);
            return ends.keeper.mark(producer) == Some(after(count));
        }
    }
    true
}

#[test]
fn each_step(rt: HostRuntime) {
    let mut ends = new_ends(&rt);
    for step in STEPS {
        assert!(rt; is_right(&rt, &mut ends, *step));
    }
    assert!(rt; ends.keeper.mark(2).is_none());
}

const COUNT: u64 = 2_000;

// Puts operations, and sends what is left of them.
fn put_all<R: Wait>(rt: &R, input: &mut InputTelling) {
    for number in 0..COUNT {
        input.put(rt, place_after(number + 1));
    }
    if input.has_unsent() {
        input.flush(rt);
    }
}

// Tells of each second operation of both producers, of the odd numbers as applied, and of the even
// ones as reported.
fn settle_all<R: Wait>(rt: &R, lane: &mut LaneTelling, is_odd: bool) {
    for number in 1..COUNT + 1 {
        for producer in 0..2u32 {
            if is_odd && number % 2 == 1 {
                lane.applied(rt, &[success_of(producer, number)]);
            }
            if !is_odd && number % 2 == 0 {
                let failed = producer == 1 && number == COUNT;
                lane.reported(rt, name_of(producer, number), failed);
            }
        }
    }
}

// Takes what is told until all ends are dropped.
fn follow_to_the_end<R: Wait + Clock>(rt: &R, keeper: &mut MarkKeeper) {
    for _ in rt.forever() {
        match keeper.try_follow(rt) {
            Ok(true) => {}
            Ok(false) => thread::sleep(rt, Duration::from_millis(1)),
            Err(_) => return,
        }
    }
}

fn run<R>(rt: R, ends: MarkEnds) -> (Option<Mark>, Option<Mark>)
where
    R: Threads + Wait + Clock + Abort + AllocGlobal + Copy + Send + 'static,
{
    let MarkEnds {
        mut keeper,
        inputs,
        lanes,
    } = ends;
    let mut threads = Vec::new(rt.alloc());
    for input in inputs {
        let mut input = input;
        let thread = thread::spawn(&rt, move || put_all(&rt, &mut input));
        threads
            .push(thread.expect(&rt, "a thread"))
            .expect(&rt, "memory");
    }
    let mut is_odd = false;
    for lane in lanes {
        let mut lane = lane;
        is_odd = !is_odd;
        let odd = is_odd;
        let thread = thread::spawn(&rt, move || settle_all(&rt, &mut lane, odd));
        threads
            .push(thread.expect(&rt, "a thread"))
            .expect(&rt, "memory");
    }
    follow_to_the_end(&rt, &mut keeper);
    for thread in threads {
        thread.join(&rt);
    }
    (keeper.mark(0), keeper.mark(1))
}

// Two producers and two lanes tell in threads. The report of the last operation of producer 1 is not
// saved.
#[test]
fn four_threads(rt: HostRuntime) {
    let ends = new_ends(&rt);
    let (first, second) = run(rt, ends);
    assert!(rt; first == Some(after(COUNT)));
    assert!(rt; second == Some(after(COUNT - 1)));
}

// A producer's end is dropped before it has sent its places.
#[test]
fn dropped_producer(rt: HostRuntime) {
    let mut ends = new_ends(&rt);
    for step in [Step::Put(1, 1), Step::Applied(0, 1, 1)] {
        assert!(rt; is_right(&rt, &mut ends, step));
    }
    drop(ends.inputs.pop());
    assert!(rt; is_right(&rt, &mut ends, Step::Mark(1, 0)));
}

// Nothing waits for a keeper that is dropped.
#[test]
fn dropped_keeper(rt: HostRuntime) {
    let MarkEnds {
        keeper,
        mut inputs,
        mut lanes,
    } = new_ends(&rt);
    drop(keeper);
    put_all(&rt, inputs.get_mut(0).expect(&rt, "an input"));
    settle_all(&rt, lanes.get_mut(0).expect(&rt, "a lane"), true);
}

// Those that tell nobody do nothing.
#[test]
fn silent(rt: HostRuntime) {
    put_all(&rt, &mut InputTelling::silent(rt.alloc(), START));
    settle_all(&rt, &mut LaneTelling::silent(rt.alloc()), true);
}
