//! Ticks by a clock.
ghost use Rattle.std.specs.Prelude.{◌≡◌, ◌*◌, ◌/◌, ◌≤◌, false, min};
ghost use Rattle.std.specs.Duration.{as_nanos};
ghost use Rattle.relay_pace.specs.Pacing.{tick, most_ticks, ended, pause_from};

use relay_clock::Timer;
use relay_lane::Pace;
use std::marker::Model;
use std::time::{Clock, Duration};

/// The length of a tick in milliseconds.
pub const TICK: u64 = 100;

/// By how many milliseconds a tick is shorter while the clock of a lane is behind.
const MADE_UP: u64 = 10;

/// How many ticks a second has, and how many nanoseconds a tick.
const TICKS_A_SECOND: u64 = 10;

const NANOS_A_TICK: u32 = 100_000_000;

// The length of a tick.
fn one_tick() -> Duration
    ensures { as_nanos result ≡ tick }
{
    Duration::from_millis(TICK)
}

// The length of this many ticks.
fn length_of(ticks: u64) -> Duration
    ensures { as_nanos result ≡ ticks * tick }
{
    let rest = (ticks % TICKS_A_SECOND) as u32;
    Duration::new(ticks / TICKS_A_SECOND, rest * NANOS_A_TICK)
}

// How many whole ticks this is.
fn ticks_in(length: Duration) -> u64
    ensures { result ≡ min (as_nanos length / tick) most_ticks }
{
    let rest = length.subsec_nanos() / NANOS_A_TICK;
    length
        .as_secs()
        .saturating_mul(TICKS_A_SECOND)
        .saturating_add(rest as u64)
}

/// A pace of ticks of 100 ms by a clock, if it can be read. It counts every tick that passes, so
/// that the clock of a lane follows it: it is behind by less than two ticks whenever it is asked.
#[derive(Drop)]
pub struct SleepPace<C: Clock> {
    timer: Timer<C>,
    // How many ticks it let pass.
    ticks: u64,
    // By how much ticks were made longer and not yet made up for, at most one tick.
    behind: Duration,
}

impl<C: Clock> Model for SleepPace<C> {
    ghost use Rattle.std.specs.Prelude.{◌≤◌, ◌+◌, ◌*◌};
    ghost use Rattle.std.specs.Duration.{as_nanos};
    ghost use Rattle.relay_pace.specs.Pacing.{Pacing, tick};

    ghost Value = { Pacing };

    ghost view = { λ p. record {
      time = p.timer.time;
      slept = p.timer.slept;
      reads = p.timer.reads;
      asked = p.timer.asked;
      ticks = p.ticks;
      behind = as_nanos p.behind;
    } };

    ghost invariant = { λ p. (as_nanos p.behind ≤ tick) × (p.ticks * tick + as_nanos p.behind ≤ p.timer.time) };
}

impl<C: Clock> SleepPace<C> {
    /// A pace by this clock.
    pub fn new(clock: C) -> SleepPace<C>
        ensures { result ≡ record {
          time = 0;
          slept = 0;
          reads = false;
          asked = 0;
          ticks = 0;
          behind = 0;
        } }
    {
        SleepPace {
            timer: Timer::new(clock),
            ticks: 0,
            behind: Duration::ZERO,
        }
    }

    // When the ticks that were let pass have ended.
    fn ended(&self) -> Duration
        ensures { as_nanos result ≡ ended self.now }
    {
        length_of(self.ticks).saturating_add(self.behind)
    }

    // How long a pause of this many ticks takes from now on, after which so many are counted.
    fn pause_from(&self, now: Duration, ticks: u64, counted: u64) -> Duration
        ensures { as_nanos result ≡ pause_from (as_nanos now) ticks
            (record self.now { ticks = counted }) }
    {
        if self.timer.reads() {
            length_of(counted)
                .saturating_add(self.behind)
                .saturating_sub(now)
        } else {
            length_of(ticks)
        }
    }
}

impl<C: Clock> Pace for SleepPace<C> {
    ghost use Rattle.std.specs.Prelude.{Some};
    ghost use Rattle.relay_lane.specs.Turns.{Paused};
    ghost use Rattle.relay_pace.specs.Pacing.{rest, PausedBy, CountedBy, BegunBy, after_sleep, Follows};

    ghost paused = { λ p. Some p.ticks };

    /// Sleeps until this many ticks have passed, of which the first is the running one. If the
    /// clock cannot be read, it sleeps for as long as they take.
    fn pause(&mut self, ticks: u64)
        ensures paused { Paused ticks (Some self.old.ticks) (Some self.new.ticks) }
        ensures slept { PausedBy ticks self.old self.new }
        // All the ticks that it let pass have ended.
        ensures over { ended self.new ≤ self.new.time }
    {
        let now = self.timer.now();
        let counted = self.ticks.saturating_add(ticks);
        let length = self.pause_from(now, ticks, counted);
        self.timer.sleep(length);
        self.ticks = counted;
    }

    /// How many ticks have ended by the clock. While the clock of the lane is behind, ticks are a
    /// little shorter.
    fn passed(&mut self) -> u64
        ensures paused { Paused result (Some self.old.ticks) (Some self.new.ticks) }
        ensures counted { CountedBy result self.old self.new }
        // All the ticks that it let pass have ended, and it is less than two behind.
        ensures over { ended self.new ≤ self.new.time }
        ensures follows { Follows self.new }
    {
        let time = self.timer.now();
        if !self.timer.reads() {
            return 0;
        }
        let ticks = ticks_in(time.saturating_sub(self.ended()));
        if ticks > 0 {
            self.ticks = self.ticks.saturating_add(ticks);
            self.behind = self.behind.saturating_sub(Duration::from_millis(MADE_UP));
        }
        ticks
    }

    /// Whether the clock could be read: otherwise ticks are counted as they come.
    fn keeps_time(&self) -> bool
        ensures { result ≡ self.now.reads }
    {
        self.timer.reads()
    }

    /// The running tick begins anew, unless ticks have been made longer by a whole tick and this
    /// has not been made up for.
    fn begin(&mut self)
        ensures begun { BegunBy self.old self.new }
        ensures over { ended self.new ≤ self.new.time }
    {
        let now = self.timer.now();
        let ran = now.saturating_sub(self.ended());
        let longer = ran.min(one_tick().saturating_sub(self.behind));
        self.behind = self.behind.saturating_add(longer);
    }

    /// Sleeps a millisecond.
    fn rest(&mut self)
        ensures { self.new ≡ after_sleep rest self.old }
    {
        self.timer.sleep(Duration::from_millis(1));
    }
}
