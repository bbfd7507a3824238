//! Dials that try again, by a clock that advances while they wait.

ghost use Rattle.std.specs.Prelude.{None};

use relay_action::ByteStream;
use relay_net::PatientDial;
use relay_wires::{Dial, DialFault};
use std::io;
use std::io::ErrorKind;
use std::sync::atomic::{AtomicU64, Ordering};
use std::time::{Clock, Duration};

// A clock that counts the seconds slept by it, and those that are added to it. It can be one that
// cannot be read.
#[derive(Clone, Copy)]
struct Slept<'a> {
    seconds: &'a AtomicU64,
    is_read: bool,
}

impl Clock for Slept<'_> {
    fn monotonic(&self) -> Result<Duration, io::Error> {
        if self.is_read {
            Ok(Duration::from_secs(self.seconds.load(Ordering::SeqCst)))
        } else {
            Err(io::Error::from(ErrorKind::Unsupported))
        }
    }

    fn since_1970(&self) -> Result<Duration, io::Error> {
        Err(io::Error::from(ErrorKind::Unsupported))
    }

    fn sleep(&self, duration: Duration) {
        self.seconds.fetch_add(duration.as_secs(), Ordering::SeqCst);
    }
}

// A dial that fails this many times, and takes this many seconds each time.
#[derive(Drop)]
struct Failing<'a> {
    failures: u32,
    cost: u64,
    seconds: &'a AtomicU64,
    failed: u64,
    dialled: u64,
}

// A stream that shows nothing.
#[derive(Drop)]
struct Nothing;

impl ByteStream for Nothing {
    ghost left = { λ s. None };

    ghost written = { λ s. None };

    ghost failed = { λ s. 0 };
}

impl Dial<Nothing> for Failing<'_> {
    ghost failed = { λ d. d.failed };

    ghost dialled = { λ d. d.dialled };

    fn dial(&mut self) -> Result<Nothing, DialFault> {
        self.dialled = self.dialled.saturating_add(1);
        self.seconds.fetch_add(self.cost, Ordering::SeqCst);
        if self.failures == 0 {
            return Ok(Nothing);
        }
        self.failures -= 1;
        self.failed = self.failed.saturating_add(1);
        Err(if self.failures == 0 {
            DialFault::TimedOut
        } else {
            DialFault::Refused
        })
    }
}

// Whether a dial that fails this many times returns a stream in the end, and after how many
// seconds.
fn dials(patience: u32, failures: u32, cost: u64, is_read: bool) -> (bool, u64) {
    let seconds = AtomicU64::new(0);
    let clock = Slept {
        seconds: &seconds,
        is_read,
    };
    let failing = Failing {
        failures,
        cost,
        seconds: &seconds,
        failed: 0,
        dialled: 0,
    };
    let made = PatientDial::new(failing, clock, patience).dial().is_ok();
    (made, seconds.load(Ordering::SeqCst))
}

// How patient it is, how often the dial fails, the seconds of a try, whether the clock can be read,
// and whether there is a stream, after how many seconds.
const ROWS: &[(u32, u32, u64, bool, (bool, u64))] = &[
    (0, 0, 0, true, (true, 0)),
    (0, 1, 0, true, (false, 0)),
    (3, 0, 0, true, (true, 0)),
    (3, 3, 0, true, (true, 3)),
    (3, 4, 0, true, (false, 3)),
    (3, 3, 0, false, (true, 3)),
    (3, 4, 0, false, (false, 3)),
    (10, 100, 4, true, (false, 14)),
    (10, 100, 10, true, (false, 10)),
];

#[test]
fn tries_until_the_time_is_over(rt: HostRuntime) {
    for (patience, failures, cost, is_read, wanted) in ROWS {
        let found = dials(*patience, *failures, *cost, *is_read);
        assert!(rt;
            found == *wanted,
            "patience {patience}, failures {failures}"
        );
    }
}

// The fault of a dial that fails this many times, after more tries than it has patience for.
fn fault_of(patience: u32, failures: u32) -> Option<DialFault> {
    let seconds = AtomicU64::new(0);
    let clock = Slept {
        seconds: &seconds,
        is_read: true,
    };
    let failing = Failing {
        failures,
        cost: 0,
        seconds: &seconds,
        failed: 0,
        dialled: 0,
    };
    PatientDial::new(failing, clock, patience).dial().err()
}

// Each failure of the dial is a refusal, but its last, which is a time-out: what is told is why the
// last try failed.
#[test]
fn tells_why_the_last_try_failed(rt: HostRuntime) {
    assert!(rt; fault_of(3, 0) == None);
    assert!(rt; fault_of(3, 5) == Some(DialFault::Refused));
    assert!(rt; fault_of(3, 4) == Some(DialFault::TimedOut));
    assert!(rt; fault_of(0, 1) == Some(DialFault::TimedOut));
}
