//! Connections with a time limit for each exchange.
ghost use Rattle.std.specs.Prelude.{◌≡◌, ◌+◌, ◌*◌, ◌≤◌, length, None, Some, false, is_ok, if◌then◌else◌};
ghost use Rattle.std.specs.Prelude.{IfOk, IfErr, OnOk};
ghost use Rattle.std.specs.Duration.{as_nanos};
ghost use Rattle.relay_action.specs.Streams.{one_more, takes_some};
ghost use Rattle.relay_clock.specs.Timing.{once_more};
ghost use Rattle.relay_http.specs.Connection.{HasNone};

use relay_action::{ByteIn, ByteOut, ByteStream, StdStream, StreamFailed};
use relay_clock::Timer;
use relay_http::{Dial, DialFault, Peek};
use std::io::{Read, Write};
use std::marker::Model;
use std::net::OpenStream;
use std::time::{Clock, Duration};

/// The direction in which a connection is used.
#[derive(Clone, Copy, Debug, PartialEq, Eq)]
pub enum Direction {
    /// A message is read.
    Reading,
    /// A message is written.
    Writing,
}

/// A connection on which a whole message has to be read, or written, within a number of seconds.
/// The time starts with the first read after a write, and with the first write after a read. So a
/// peer that sends a byte now and then does not hold it for longer; but a call that was made in time
/// may wait for a twentieth of the limit longer. If the clock cannot be read, only each call is
/// limited, as the connection itself is.
///
/// Contracts see the limit, the direction of the message and when it began, the time, whether a
/// call that failed was late, and how many calls failed; the count saturates at 2^64 - 1.
#[derive(Drop)]
pub struct TimedStream<T, C: Clock> {
    stream: StdStream<T>,
    timer: Timer<C>,
    limit: u32,
    direction: Option<Direction>,
    began: Duration,
    failed: u64,
    // Whether no time was left when a call failed last.
    late: bool,
    // How long the system was told that a read may wait, and a write. 0: it was not told.
    read_for: Duration,
    write_for: Duration,
}

impl<T, C: Clock> Model for TimedStream<T, C> {
    ghost use Rattle.std.specs.Duration.{as_nanos};
    ghost use Rattle.relay_net.specs.Timing.{Timed};

    ghost Value = { Timed };

    ghost view = { λ s. record {
      limit = s.limit;
      direction = s.direction;
      began = as_nanos s.began;
      time = s.timer.time;
      asked = s.timer.asked;
      late = s.late;
      failed = s.failed;
    } };
}

impl<T, C: Clock> TimedStream<T, C> {
    ghost use Rattle.relay_net.specs.Timing.{Timed, Moves, is_late, left_of};

    /// A connection with this limit in seconds for each message, by this clock, or 0 for none.
    pub fn new(stream: StdStream<T>, clock: C, limit: u32) -> TimedStream<T, C>
        ensures { result ≡ record {
          limit = limit;
          direction = None;
          began = 0;
          time = 0;
          asked = 0;
          late = false;
          failed = 0;
        } }
    {
        TimedStream {
            stream,
            timer: Timer::new(clock),
            limit,
            direction: None,
            began: Duration::ZERO,
            failed: 0,
            late: false,
            read_for: Duration::ZERO,
            write_for: Duration::ZERO,
        }
    }

    // Reads the clock for a call in this direction, with which a message begins if the last one went
    // the other way.
    fn turn(&mut self, direction: Direction)
        ensures moves { Moves direction self.old self.new }
        ensures asked { self.new.asked ≡ once_more self.old.asked }
        ensures late { self.new.late ≡ self.old.late }
        ensures failed { self.new.failed ≡ self.old.failed }
    {
        let now = self.timer.now();
        if self.direction != Some(direction) {
            self.direction = Some(direction);
            self.began = now;
        }
    }

    // How much time the message has left, without a limit none.
    fn left(&self) -> Duration
        ensures { as_nanos result ≡ left_of self.now }
    {
        let spent = self.timer.time().saturating_sub(self.began);
        Duration::from_secs(self.limit as u64).saturating_sub(spent)
    }

    // Whether there is a limit, and no time is left within it: a limit below a millisecond means
    // none to a socket.
    fn is_late(&self) -> bool
        ensures { result ≡ is_late self.now }
    {
        self.limit > 0 && self.left() < Duration::from_millis(1)
    }

    // How long the system was told that a call in this direction may wait.
    fn told(&self, direction: Direction) -> Duration {
        match direction {
            Direction::Reading => self.read_for,
            Direction::Writing => self.write_for,
        }
    }

    // Whether the system need not be told again for a call in this direction: it was told to wait
    // for as long as the message has left, and for no more than a twentieth of the limit beyond.
    fn is_told(&self, direction: Direction) -> bool {
        let told = self.told(direction);
        let left = self.left();
        let beyond = Duration::from_millis(self.limit as u64 * 50);
        told >= left && told.saturating_sub(left) <= beyond
    }

    // Notes how long the system was told that a call in this direction may wait.
    fn note(&mut self, direction: Direction, time: Duration)
        ensures { self.new ≡ self.old }
    {
        match direction {
            Direction::Reading => self.read_for = time,
            Direction::Writing => self.write_for = time,
        }
    }

    // Counts a failed call in this direction.
    fn fail(&mut self, direction: Direction) -> StreamFailed
        ensures moves { Moves direction self.old self.new }
        ensures asked { self.new.asked ≡ once_more self.old.asked }
        ensures late { self.new.late ≡ is_late self.new }
        ensures failed { self.new.failed ≡ one_more self.old.failed }
    {
        self.turn(direction);
        self.late = self.is_late();
        self.failed = self.failed.saturating_add(1);
        StreamFailed
    }
}

impl<T: OpenStream, C: Clock> TimedStream<T, C> {
    ghost use Rattle.relay_net.specs.Timing.{Timed, Moves, is_late};
    ghost use Rattle.std.specs.Prelude.{IsTrue};

    // Whether there is time for a call in this direction, which then may wait for no longer.
    fn has_time(&mut self, direction: Direction) -> bool
        ensures moves { Moves direction self.old self.new }
        ensures asked { self.new.asked ≡ once_more self.old.asked }
        ensures late { self.new.late ≡ self.old.late }
        ensures failed { self.new.failed ≡ self.old.failed }
        ensures in_time { IsTrue result → is_late self.new ≡ false }
    {
        self.turn(direction);
        if self.limit == 0 {
            return true;
        }
        if self.is_late() {
            return false;
        }
        self.is_told(direction) || self.tell(direction)
    }

    // Tells the system that a call in this direction may wait for as long as the message has left,
    // and returns whether it took that.
    fn tell(&mut self, direction: Direction) -> bool
        ensures { self.new ≡ self.old }
    {
        let left = self.left();
        let socket = self.stream.get_ref();
        let told = match direction {
            Direction::Reading => socket.set_read_timeout(Some(left)).is_ok(),
            Direction::Writing => socket.set_write_timeout(Some(left)).is_ok(),
        };
        if told {
            self.note(direction, left);
        }
        told
    }
}

impl<T, C: Clock> ByteStream for TimedStream<T, C> {
    ghost use Rattle.std.specs.Prelude.{None};

    ghost left = { λ s. None };

    ghost written = { λ s. None };

    ghost failed = { λ s. s.failed };
}

impl<T: OpenStream + Read, C: Clock> ByteIn for TimedStream<T, C> {
    ghost use Rattle.relay_net.specs.Timing.{Moves, is_late};
    ghost use Rattle.relay_net.specs.declared.timed.Direction.TheVariants.{Reading};

    /// Reads as [`StdStream`] does. It fails if the message is not read within the limit.
    fn read(&mut self, buffer: &mut [u8]) -> Result<usize, StreamFailed>
        ensures bound { IfOk result (λ n. n ≤ length buffer.new) }
        ensures count { self.new.failed
            ≡ (if is_ok result then self.old.failed else one_more self.old.failed) }
        ensures moves { Moves Reading self.old self.new }
        // The clock was asked before the call, and after one that failed.
        ensures asked { self.new.asked ≡ (if is_ok result then once_more self.old.asked
            else once_more (once_more self.old.asked)) }
        // The call was made while time was left.
        ensures in_time { OnOk result (is_late self.new ≡ false) }
        ensures late { self.new.late ≡ (if is_ok result then self.old.late else is_late self.new) }
    {
        if !self.has_time(Direction::Reading) {
            return Err(self.fail(Direction::Reading));
        }
        match self.stream.read(buffer) {
            Ok(count) => Ok(count),
            Err(_) => Err(self.fail(Direction::Reading)),
        }
    }
}

impl<T: OpenStream + Write, C: Clock> ByteOut for TimedStream<T, C> {
    ghost use Rattle.relay_net.specs.Timing.{Moves, is_late};
    ghost use Rattle.relay_net.specs.declared.timed.Direction.TheVariants.{Writing};

    /// Writes as [`StdStream`] does. It fails if the message is not written within the limit.
    fn write(&mut self, bytes: &[u8]) -> Result<usize, StreamFailed>
        ensures bound { IfOk result (λ n. n ≤ length bytes.now) }
        ensures count { self.new.failed
            ≡ (if takes_some result bytes.now then self.old.failed else one_more self.old.failed) }
        ensures moves { Moves Writing self.old self.new }
        // The clock was asked before the call, and after one that failed.
        ensures asked { self.new.asked ≡ (if is_ok result then once_more self.old.asked
            else once_more (once_more self.old.asked)) }
        // The call was made while time was left.
        ensures in_time { OnOk result (is_late self.new ≡ false) }
        ensures late { self.new.late ≡ (if is_ok result then self.old.late else is_late self.new) }
    {
        if !self.has_time(Direction::Writing) {
            return Err(self.fail(Direction::Writing));
        }
        match self.stream.write(bytes) {
            Ok(0) if !bytes.is_empty() => Err(self.fail(Direction::Writing)),
            Ok(count) => Ok(count),
            Err(_) => Err(self.fail(Direction::Writing)),
        }
    }
}

impl<T: OpenStream, C: Clock> Peek for TimedStream<T, C> {
    /// As for the stream inside, whatever time is left.
    fn is_quiet(&self) -> bool {
        self.stream.is_quiet()
    }

    /// Whether the message had no time left when a call failed last.
    fn has_timed_out(&self) -> bool
        ensures { result ≡ self.now.late }
    {
        self.late
    }
}

/// A dial whose connections have a time limit for each message. Contracts see the dial inside and
/// the limit in seconds.
#[derive(Drop)]
pub struct TimedDial<D, C: Clock> {
    dial: D,
    clock: C,
    limit: u32,
}

impl<D, C: Clock> Model for TimedDial<D, C> {
    ghost use Rattle.std.specs.Prelude.{ℕ};

    ghost Value = { D × ℕ };

    ghost view = { λ t. (t.dial, t.limit) };
}

impl<D, C: Clock> TimedDial<D, C> {
    /// A dial with this limit in seconds, by this clock, or 0 for none.
    pub fn new(dial: D, clock: C, limit: u32) -> TimedDial<D, C>
        ensures { result ≡ (dial, limit) }
    {
        TimedDial { dial, clock, limit }
    }
}

impl<T, D: Dial<StdStream<T>>, C: Clock + Copy> Dial<TimedStream<T, C>> for TimedDial<D, C> {
    ghost failed = { λ t. D.failed t.0 };

    ghost dialled = { λ t. D.dialled t.0 };

    ghost tells = { λ t f. D.tells t.0 f };

    /// A connection of the dial inside, with the limit. `DialFault`: that of the dial inside.
    fn dial(&mut self) -> Result<TimedStream<T, C>, DialFault>
        ensures failed { D.failed self.new.0
            ≡ (if is_ok result then D.failed self.old.0 else one_more (D.failed self.old.0)) }
        ensures dialled { D.dialled self.new.0 ≡ one_more (D.dialled self.old.0) }
        ensures limit { self.new.1 ≡ self.old.1 }
        ensures limited { IfOk result (λ s. s.limit ≡ self.old.1) }
        ensures tells { IfErr result (λ f. D.tells self.new.0 f) }
    {
        let stream = self.dial.dial()?;
        Ok(TimedStream::new(stream, self.clock, self.limit))
    }
}
