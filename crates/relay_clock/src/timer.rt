//! The time by a clock, and what was slept by it.
ghost use Rattle.std.specs.Prelude.{◌≡◌, ◌+◌, ◌≤◌, min, false, IsTrue};
ghost use Rattle.std.specs.Duration.{as_nanos, max_nanos};
ghost use Rattle.relay_clock.specs.Timing.{once_more};

use std::marker::Model;
use std::thread;
use std::time::{Clock, Duration, Instant};

/// The time since a clock was read first, which never goes back: it is what the clock reads, or
/// what was known before and slept since, if that is more. So if the clock cannot be read, it is
/// what was slept.
///
/// Contracts see the time and how long was slept in all, in nanoseconds, and whether the clock could
/// be read; both saturate at the longest `Duration`. They also see how often it was asked for the
/// time, a count that saturates at 2^64 - 1.
#[derive(Drop)]
pub struct Timer<C: Clock> {
    clock: C,
    // When the clock was read first, and the time by then.
    start: Option<Instant>,
    before: Duration,
    time: Duration,
    slept: Duration,
    asked: u64,
}

impl<C: Clock> Model for Timer<C> {
    ghost use Rattle.std.specs.Prelude.{is_some};
    ghost use Rattle.std.specs.Duration.{as_nanos};
    ghost use Rattle.relay_clock.specs.Timing.{Timing};

    ghost Value = { Timing };

    ghost view = { λ t. record {
      time = as_nanos t.time;
      slept = as_nanos t.slept;
      reads = is_some t.start;
      asked = t.asked;
    } };
}

impl<C: Clock> Timer<C> {
    /// A timer by this clock, which is not read before it is asked for the time.
    pub fn new(clock: C) -> Timer<C>
        ensures { result ≡ record { time = 0; slept = 0; reads = false; asked = 0 } }
    {
        Timer {
            clock,
            start: None,
            before: Duration::ZERO,
            time: Duration::ZERO,
            slept: Duration::ZERO,
            asked: 0,
        }
    }

    /// Whether the clock could be read.
    pub fn reads(&self) -> bool
        ensures { result ≡ self.now.reads }
    {
        self.start.is_some()
    }

    /// The time when the clock was read last, and what was slept since.
    pub fn time(&self) -> Duration
        ensures { as_nanos result ≡ self.now.time }
    {
        self.time
    }

    /// The time now.
    pub fn now(&mut self) -> Duration
        ensures time { as_nanos result ≡ self.new.time }
        ensures later { self.old.time ≤ self.new.time }
        ensures slept { self.new.slept ≡ self.old.slept }
        ensures reads { IsTrue self.old.reads → IsTrue self.new.reads }
        ensures asked { self.new.asked ≡ once_more self.old.asked }
    {
        self.asked = self.asked.saturating_add(1);
        if let Some(read) = self.read() {
            self.time = self.time.max(read);
        }
        self.time
    }

    // The time that the clock reads. `None`: it cannot be read.
    fn read(&mut self) -> Option<Duration>
        ensures time { self.new.time ≡ self.old.time }
        ensures slept { self.new.slept ≡ self.old.slept }
        ensures reads { IsTrue self.old.reads → IsTrue self.new.reads }
        ensures asked { self.new.asked ≡ self.old.asked }
    {
        if self.start.is_none() {
            self.start = Instant::now(&self.clock).ok();
            self.before = self.time;
        }
        let passed = self.start?.elapsed(&self.clock).ok()?;
        Some(self.before.saturating_add(passed))
    }

    /// Sleeps for this long by the clock.
    pub fn sleep(&mut self, length: Duration)
        ensures { self.new ≡ record self.old {
          time = min (self.old.time + as_nanos length) max_nanos;
          slept = min (self.old.slept + as_nanos length) max_nanos;
        } }
    {
        thread::sleep(&self.clock, length);
        self.time = self.time.saturating_add(length);
        self.slept = self.slept.saturating_add(length);
    }
}
