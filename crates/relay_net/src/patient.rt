//! Dials that wait for an index that is down.
ghost use Rattle.std.specs.Prelude.{◌≡◌, ◌+◌, ◌-◌, ◌*◌, ◌≤◌, ◌↔◌, IsTrue, is_ok, is_err, if◌then◌else◌};
ghost use Rattle.std.specs.Prelude.{IfOk, IfErr, OnErr, false};
ghost use Rattle.std.specs.Duration.{as_nanos};
ghost use Rattle.relay_action.specs.Streams.{one_more, FailedSince};
ghost use Rattle.relay_http.specs.Connection.{HasNone};
ghost use Rattle.relay_net.specs.Retrying.{second, Retried};

use relay_action::ByteStream;
use relay_clock::Timer;
use relay_http::{Dial, DialFault};
use std::marker::Model;
use std::time::{Clock, Duration};

/// A dial that keeps trying, once a second, until a number of seconds has passed. Contracts see the
/// dial that it uses, for how many seconds it tries, how many calls failed and how many were made,
/// and its timer; the counts saturate at 2^64 - 1. A call counts once, however often it tries.
#[derive(Drop)]
pub struct PatientDial<D, C: Clock> {
    dial: D,
    timer: Timer<C>,
    patience: u32,
    failed: u64,
    dialled: u64,
}

impl<D, C: Clock> Model for PatientDial<D, C> {
    ghost use Rattle.std.specs.Prelude.{ℕ};
    ghost use Rattle.relay_clock.specs.Timing.{Timing};

    ghost Value = { D × ℕ × ℕ × ℕ × Timing };

    ghost view = { λ p. (p.dial, p.patience, p.failed, p.dialled, p.timer) };
}

impl<D, C: Clock> PatientDial<D, C> {
    /// A dial that tries this one for `patience` seconds, by this clock. With 0 it tries once.
    pub fn new(dial: D, clock: C, patience: u32) -> PatientDial<D, C>
        ensures { result ≡ (
          dial,
          patience,
          0,
          0,
          record { time = 0; slept = 0; reads = false; asked = 0 },
        ) }
    {
        PatientDial {
            dial,
            timer: Timer::new(clock),
            patience,
            failed: 0,
            dialled: 0,
        }
    }

    fn fail(&mut self, fault: DialFault) -> DialFault
        ensures state { self.new
            ≡ (self.old.0, self.old.1, one_more self.old.2, self.old.3, self.old.4) }
        ensures fault { result ≡ fault }
    {
        self.failed = self.failed.saturating_add(1);
        fault
    }

    // Whether the patience of a call that began then is used up.
    fn is_over(&mut self, start: Duration) -> bool
        ensures same { (self.new.0 ≡ self.old.0) × (self.new.1 ≡ self.old.1)
            × (self.new.2 ≡ self.old.2) × (self.new.3 ≡ self.old.3) }
        ensures slept { self.new.4.slept ≡ self.old.4.slept }
        ensures over { IsTrue result ↔ (self.old.1 * second ≤ self.new.4.time - as_nanos start) }
    {
        let spent = self.timer.now().saturating_sub(start);
        spent >= Duration::from_secs(self.patience as u64)
    }
}

impl<S: ByteStream, D: Dial<S>, C: Clock> Dial<S> for PatientDial<D, C> {
    ghost failed = { λ p. p.2 };

    ghost dialled = { λ p. p.3 };

    ghost tells = { λ p f. D.tells p.0 f };

    /// The first stream that a try of the dial returns. The first try is made immediately, and at
    /// most `patience` more follow, each a second after the previous one, as long as the seconds
    /// since the start of the call are below `patience`. If the clock cannot be read, only their
    /// number is limited.
    ///
    /// `DialFault`: each try failed; that of the last one.
    fn dial(&mut self) -> Result<S, DialFault>
        ensures count { self.new.2 ≡ (if is_ok result then self.old.2 else one_more self.old.2) }
        ensures dialled { self.new.3 ≡ one_more self.old.3 }
        ensures fresh { IfOk result (λ s. HasNone (S.written s)) }
        ensures patience { self.new.1 ≡ self.old.1 }
        ensures failed { OnErr result (FailedSince (D.failed self.old.0) (D.failed self.new.0)) }
        ensures tries { D.failed self.new.0 ≤ D.failed self.old.0 + self.old.1 + 1 }
        ensures tells { IfErr result (λ f. D.tells self.new.0 f) }
        ensures retried { Retried self.old.1 (is_err result) (D.dialled self.old.0)
            (D.dialled self.new.0) self.old.4 self.new.4 }
    {
        self.dialled = self.dialled.saturating_add(1);
        let start = self.timer.now();
        let mut fault = match self.dial.dial() {
            Ok(stream) => return Ok(stream),
            Err(fault) => fault,
        };
        'tries: for _ in 0..self.patience {
            if self.is_over(start) {
                break;
            }
            self.timer.sleep(Duration::from_secs(1));
            match self.dial.dial() {
                Ok(stream) => return Ok(stream),
                Err(last) => fault = last,
            }
        }
        Err(self.fail(fault))
    }
}
