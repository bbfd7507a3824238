//! An epoch from the counter that the index keeps.
ghost use Rattle.std.specs.Prelude.{◌≡◌};

use relay_action::DocKey;
use relay_epoch::{EpochFault, LAST_EPOCH, Patience, take_epoch};
use relay_net::{TcpDial, TimedDial, TimedStream};
use relay_target::document_target;
use serde_json::json;
use std::alloc::{AllocError, Global};
use std::marker::Model;
use std::net::TcpStream;
use std::time::{Clock, Duration, Instant, SystemTime, UNIX_EPOCH};
use std::{fs, process, thread};

const _: () = prove!(LAST_EPOCH == relay_core::config::EPOCH_LIMIT);

/// A patience of a number of seconds: it waits a second before each further try, of which there are
/// at most as many, and ends once they are over.
#[derive(Drop)]
pub struct Seconds<C: Clock> {
    clock: C,
    start: Option<Instant>,
    limit: u32,
    left: u32,
}

impl<C: Clock> Model for Seconds<C> {
    ghost use Rattle.std.specs.Prelude.{ℕ};

    ghost Value = { ℕ × ℕ };

    ghost view = { λ s. (s.limit, s.left) };
}

impl<C: Clock> Seconds<C> {
    /// A patience of this many seconds from now on, by this clock.
    pub fn new(clock: C, limit: u32) -> Seconds<C>
        ensures { result ≡ (limit, limit) }
    {
        let start = Instant::now(&clock).ok();
        Seconds {
            clock,
            start,
            limit,
            left: limit,
        }
    }

    // Whether the seconds are over, as far as the clock can tell.
    fn is_over(&self) -> bool {
        let Some(start) = self.start else {
            return false;
        };
        match start.elapsed(&self.clock) {
            Ok(spent) => spent >= Duration::from_secs(self.limit as u64),
            Err(_) => false,
        }
    }
}

impl<C: Clock> Patience for Seconds<C> {
    ghost left = { λ s. s.1 };

    ghost over = { λ s. Unit {0} };

    /// Sleeps for a second, unless all tries are used or the seconds are over.
    fn again(&mut self) -> bool {
        if self.left == 0 || self.is_over() {
            return false;
        }
        self.left -= 1;
        thread::sleep(&self.clock, Duration::from_secs(1));
        true
    }
}

// The name of this machine, or the empty text if it is not known.
fn machine_name(rt: &HostRuntime, alloc: Global) -> Result<String, AllocError> {
    match fs::read_to_string(rt, "/proc/sys/kernel/hostname") {
        Ok(name) => String::from_str(alloc, name.as_str().trim()),
        Err(_) => Ok(String::new(alloc)),
    }
}

// Milliseconds since 1970, or 0 if the clock cannot be read.
fn milliseconds<C: Clock>(clock: &C) -> u64 {
    let Ok(now) = SystemTime::now(clock) else {
        return 0;
    };
    match now.duration_since(UNIX_EPOCH) {
        Ok(since) => u64::try_from(since.as_millis()).unwrap_or(u64::MAX),
        Err(_) => 0,
    }
}

// What the counter document says of this run: the machine, the process, when it started, in
// milliseconds since 1970, and the address that it writes to.
fn runner_text(rt: &HostRuntime, alloc: Global, to: &str) -> Result<String, AllocError> {
    let machine = machine_name(rt, alloc)?;
    let host = machine.as_str();
    let process = process::id(rt.process()) as u64;
    let start = milliseconds(rt);
    let value = json!(in alloc; {"host": host, "process": process, "start": start, "to": to})?;
    value.to_string(alloc)
}

/// An epoch from the counter document at this address: connecting may take `timeout` seconds, and
/// so may a whole message; what may pass is tried again for `patience` seconds.
pub fn lease(
    rt: HostRuntime,
    alloc: Global,
    counter: &DocKey,
    to: &str,
    timeout: u32,
    patience: u32,
) -> Result<u32, EpochFault> {
    let Ok(target) = document_target(alloc, counter) else {
        return Err(EpochFault::Memory);
    };
    let Ok(body) = runner_text(&rt, alloc, to) else {
        return Err(EpochFault::Memory);
    };
    let Ok(address) = String::from_str(alloc, to) else {
        return Err(EpochFault::Memory);
    };
    let dial = TcpDial::new(rt, address).with_timeout(timeout);
    let mut dial = TimedDial::new(dial, rt, timeout);
    let mut patience = Seconds::new(rt, patience);
    take_epoch::<TimedStream<TcpStream, HostRuntime>, _, _>(
        alloc,
        &mut dial,
        &mut patience,
        to,
        target.as_str(),
        body.as_str(),
    )
}
