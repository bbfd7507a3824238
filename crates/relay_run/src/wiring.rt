//! The dials, wires and paces of the lanes of a run.
ghost use Rattle.std.specs.Prelude.{◌≡◌, IfOk, IsTrue, None, string_bytes, vec_len};
ghost use Rattle.relay_http.specs.WrittenRequest.{is_host};
ghost use Rattle.relay_threads.specs.Relay.{NoneOut};
ghost use Rattle.relay_wires.specs.Numbers.{numbers};
ghost use Rattle.relay_run.specs.Wires.{AreNewWires};

use crate::options::RunOptions;
use crate::watching::share;
use relay_net::{PatientDial, TcpDial, TimedDial, TimedStream};
use relay_pace::SleepPace;
use relay_progress::{CountedDial, CountedWire, Shared};
use relay_wires::{HttpWire, Unknown};
use std::alloc::{AllocError, Global};
use std::net::TcpStream;

/// A dial over TCP that waits for an index that is down, and limits the time of each message.
type RunDial = PatientDial<TimedDial<CountedDial<HostRuntime>, HostRuntime>, HostRuntime>;

/// A wire over TCP.
type TcpWire = HttpWire<TimedStream<TcpStream, HostRuntime>, RunDial, Unknown>;

/// A counted wire over TCP.
pub(crate) type RunWire = CountedWire<TcpWire>;

/// A pace that sleeps.
pub(crate) type RunPace = SleepPace<HostRuntime>;

// The dial to the index.
fn make_dial(
    rt: HostRuntime,
    alloc: Global,
    options: &RunOptions,
    counts: &Option<Shared>,
) -> Result<RunDial, AllocError>
    ensures address { IfOk result (λ d. d.0.0.0 ≡ string_bytes options.now.to) }
    ensures timeout { IfOk result (λ d. (d.0.0.3 ≡ options.now.timeout)
        × (d.0.1 ≡ options.now.timeout)) }
    ensures patience { IfOk result (λ d. d.1 ≡ options.now.patience) }
    ensures fresh { IfOk result (λ d. (d.0.0.1 ≡ 0) × (d.0.0.2 ≡ 0) × (d.0.0.4 ≡ None)
        × (d.2 ≡ 0) × (d.3 ≡ 0)) }
{
    let address = String::from_str(alloc, options.to.as_str())?;
    let dial = TcpDial::new(rt, address).with_timeout(options.timeout);
    let dial = CountedDial::new(dial, share(counts)?);
    let dial = TimedDial::new(dial, rt, options.timeout);
    Ok(PatientDial::new(dial, rt, options.patience))
}

/// A wire to the index for each lane, with as many places in flight as the config has.
pub(crate) fn make_wires(
    rt: HostRuntime,
    alloc: Global,
    options: &RunOptions,
    counts: &Option<Shared>,
) -> Result<Vec<TcpWire>, AllocError>
    requires { IsTrue (is_host (string_bytes options.now.to)) }
    ensures count { IfOk result (λ v. vec_len v ≡ options.now.config.lanes) }
    ensures out { IfOk result (λ v. NoneOut (λ w. numbers w.out) v.items) }
    ensures new { IfOk result (λ v. AreNewWires (string_bytes options.now.to)
        options.now.config.in_flight v.items) }
{
    let to = options.to.as_str();
    let mut wires = Vec::new(alloc);
    'lanes: for lane in 0..options.config.lanes {
        let dial = make_dial(rt, alloc, options, counts)?;
        wires.push(HttpWire::new(
            alloc,
            dial,
            Unknown,
            String::from_str(alloc, to)?,
            options.config.in_flight,
        )?)?;
    }
    Ok(wires)
}

/// The same wires, counted.
pub(crate) fn count_wires(
    alloc: Global,
    wires: Vec<TcpWire>,
    counts: &Option<Shared>,
) -> Result<Vec<RunWire>, AllocError>
    requires { NoneOut (λ w. numbers w.out) wires.items }
    ensures same { IfOk result (λ v. v.items ≡ wires.items) }
    ensures out { IfOk result (λ v. NoneOut (λ w. numbers w.out) v.items) }
{
    let mut counted = Vec::new(alloc);
    for wire in wires {
        counted.push(CountedWire::new(alloc, wire, share(counts)?))?;
    }
    Ok(counted)
}

/// A pace for each lane.
pub(crate) fn make_paces(
    rt: HostRuntime,
    alloc: Global,
    lanes: u32,
) -> Result<Vec<RunPace>, AllocError>
    ensures { IfOk result (λ v. vec_len v ≡ lanes) }
{
    let mut paces = Vec::new(alloc);
    'lanes: for lane in 0..lanes {
        paces.push(SleepPace::new(rt))?;
    }
    Ok(paces)
}
