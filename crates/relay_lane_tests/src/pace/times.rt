//! A clock that is set, and the time by it.

use relay_clock::Timer;
use std::io;
use std::io::ErrorKind;
use std::sync::atomic::{AtomicU64, Ordering};
use std::time::{Clock, Duration};

/// A clock of milliseconds, which advances by what is slept by it. It can be one that cannot be
/// read.
#[derive(Clone, Copy)]
pub struct Set<'a> {
    /// The milliseconds that it reads.
    pub millis: &'a AtomicU64,
    /// Whether it can be read.
    pub is_read: bool,
}

impl Clock for Set<'_> {
    fn monotonic(&self) -> Result<Duration, io::Error> {
        if self.is_read {
            Ok(Duration::from_millis(self.millis.load(Ordering::SeqCst)))
        } else {
            Err(io::Error::from(ErrorKind::Unsupported))
        }
    }

    fn since_1970(&self) -> Result<Duration, io::Error> {
        Err(io::Error::from(ErrorKind::Unsupported))
    }

    fn sleep(&self, duration: Duration) {
        let millis = duration.as_secs().wrapping_mul(1000);
        let rest = duration.subsec_millis() as u64;
        self.millis
            .fetch_add(millis.wrapping_add(rest), Ordering::SeqCst);
    }
}

// What a timer by this clock says when it is asked first, after this many milliseconds, after a
// sleep of that many, and when the clock was set back; and what the clock reads before that.
fn times(is_read: bool, passed: u64, slept: u64) -> ([Duration; 4], u64) {
    let millis = AtomicU64::new(500);
    let mut timer = Timer::new(Set {
        millis: &millis,
        is_read,
    });
    let first = timer.now();
    millis.fetch_add(passed, Ordering::SeqCst);
    let second = timer.now();
    timer.sleep(Duration::from_millis(slept));
    let third = timer.now();
    let read = millis.load(Ordering::SeqCst);
    millis.store(1, Ordering::SeqCst);
    ([first, second, third, timer.now()], read)
}

// Whether the clock can be read, the milliseconds that pass and that are slept, and what is said.
const ROWS: &[(bool, u64, u64, [u64; 4], u64)] = &[
    (true, 0, 0, [0, 0, 0, 0], 500),
    (true, 30, 0, [0, 30, 30, 30], 530),
    (true, 30, 12, [0, 30, 42, 42], 542),
    (false, 30, 12, [0, 0, 12, 12], 542),
];

#[test]
fn tells_the_time(rt: HostRuntime) {
    for (is_read, passed, slept, wanted, read) in ROWS {
        let (found, reads) = times(*is_read, *passed, *slept);
        let [first, second, third, last] = *wanted;
        let wanted = [
            Duration::from_millis(first),
            Duration::from_millis(second),
            Duration::from_millis(third),
            Duration::from_millis(last),
        ];
        assert!(rt; found == wanted && reads == *read, "{passed} and {slept}");
    }
}
