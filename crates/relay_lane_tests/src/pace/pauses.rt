//! What a pace counts, and for how long it pauses.

use crate::pace::times::Set;
use relay_lane::Pace;
use relay_pace::SleepPace;
use std::sync::atomic::{AtomicU64, Ordering};

// What is done with a pace.
#[derive(Clone, Copy)]
enum Step {
    // This many milliseconds pass.
    Wait(u64),
    // It pauses for this many ticks.
    Pause(u64),
    // It is asked how many passed.
    Passed(u64),
    // Operations are refused.
    Begin,
    // It rests.
    Rest,
}

// What the clock reads after these steps, if each returns what it should.
fn plays(is_read: bool, steps: &[Step]) -> Option<u64> {
    let millis = AtomicU64::new(0);
    let mut pace = SleepPace::new(Set {
        millis: &millis,
        is_read,
    });
    for step in steps {
        match *step {
            Step::Wait(passed) => {
                millis.fetch_add(passed, Ordering::SeqCst);
            }
            Step::Pause(ticks) => pace.pause(ticks),
            Step::Passed(wanted) => {
                if pace.passed() != wanted || pace.keeps_time() != is_read {
                    return None;
                }
            }
            Step::Begin => pace.begin(),
            Step::Rest => pace.rest(),
        }
    }
    Some(millis.load(Ordering::SeqCst))
}

// A tick is 100 ms: the first of a pause is the running one. After a refusal it begins anew, and the
// ticks after that are 10 ms shorter until this is made up for.
const READ: &[(&[Step], u64)] = &[
    (&[Step::Passed(0), Step::Pause(1)], 100),
    (&[Step::Passed(0), Step::Pause(0)], 0),
    (&[Step::Passed(0), Step::Wait(30), Step::Pause(3)], 300),
    (
        &[
            Step::Passed(0),
            Step::Wait(99),
            Step::Passed(0),
            Step::Wait(1),
            Step::Passed(1),
        ],
        100,
    ),
    (
        &[
            Step::Passed(0),
            Step::Wait(730),
            Step::Passed(7),
            Step::Pause(1),
        ],
        800,
    ),
    (
        &[Step::Passed(0), Step::Wait(30), Step::Begin, Step::Pause(1)],
        130,
    ),
    (
        &[
            Step::Passed(0),
            Step::Wait(30),
            Step::Begin,
            Step::Wait(99),
            Step::Passed(0),
        ],
        129,
    ),
    (
        &[
            Step::Passed(0),
            Step::Wait(30),
            Step::Begin,
            Step::Wait(100),
            Step::Passed(1),
            Step::Wait(89),
            Step::Passed(0),
            Step::Wait(1),
            Step::Passed(1),
        ],
        220,
    ),
    (
        &[Step::Passed(0), Step::Rest, Step::Rest, Step::Pause(2)],
        200,
    ),
];

// If the clock cannot be read, no tick is counted, and each of a pause is slept for.
const UNREAD: &[(&[Step], u64)] = &[
    (&[Step::Passed(0), Step::Pause(1)], 100),
    (
        &[
            Step::Passed(0),
            Step::Wait(730),
            Step::Passed(0),
            Step::Pause(2),
        ],
        930,
    ),
    (&[Step::Passed(0), Step::Rest, Step::Pause(1)], 101),
];

#[test]
fn pauses_last(rt: HostRuntime) {
    for (steps, wanted) in READ {
        assert!(rt; plays(true, *steps) == Some(*wanted), "{wanted}");
    }
}

#[test]
fn pauses_last_without_a_clock(rt: HostRuntime) {
    for (steps, wanted) in UNREAD {
        assert!(rt; plays(false, *steps) == Some(*wanted), "{wanted}");
    }
}
