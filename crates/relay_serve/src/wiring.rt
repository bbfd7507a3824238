//! The config, the wires and the paces of the lanes of a server.
ghost use Rattle.std.specs.Prelude.{◌≡◌, ◌*◌, ◌<◌, ◌≤◌, [], IfOk, IsTrue, vec_len};
ghost use Rattle.relay_http.specs.WrittenRequest.{is_host};
ghost use Rattle.relay_threads.specs.Relay.{NoneOut};
ghost use Rattle.relay_wires.specs.Numbers.{numbers};
ghost use Rattle.relay_serve.specs.Configs.{config_in, window_of};

use relay_lane::RelayConfig;
use relay_net::{TcpDial, TimedDial, TimedStream};
use relay_pace::SleepPace;
use relay_progress::{CountedDial, CountedWire, Shared};
use relay_wires::{HttpWire, Unknown};
use std::alloc::{AllocError, Global};
use std::net::TcpStream;
use std::sync::Arc;

/// The maximum number of operations of a worker that may be open, if there are few workers.
const WINDOW: u32 = 1_024;

/// The number of operations of all workers that may be open.
const OPEN_LIMIT: u32 = 65_000;

/// A dial over TCP that is counted, and limits the time of each message.
type ServeDial = TimedDial<CountedDial<HostRuntime>, HostRuntime>;

/// A wire over TCP.
type SocketWire = HttpWire<TimedStream<TcpStream, HostRuntime>, ServeDial, Unknown>;

/// One that is counted.
pub(crate) type TcpWire = CountedWire<SocketWire>;

/// The window of each of so many workers. All of them together may have at most 65,000 operations open.
pub(crate) fn window_of(workers: u32) -> u32
    ensures value { result ≡ window_of workers }
    ensures within { (0 < result) × (result ≤ 65536) }
    ensures all { 0 < workers → workers ≤ 65000 → result * workers ≤ 65000 }
{
    WINDOW.min(OPEN_LIMIT / workers.max(1)).max(1)
}

/// The config of the lanes: a queue holds all operations that the workers may have open, so that no
/// put waits for a lane, and a lane takes them all.
pub(crate) fn config_of(config: RelayConfig, epoch: u32) -> RelayConfig
    ensures { result ≡ config_in epoch config }
{
    let open = window_of(config.producers).saturating_mul(config.producers);
    RelayConfig {
        capacity: open.saturating_add(16).min(65_536),
        max_held: 65_536,
        epoch,
        ..config
    }
}

// The dial to the index.
fn make_dial(
    host: HostRuntime,
    alloc: Global,
    to: &str,
    timeout: u32,
    counts: &Shared,
) -> Result<ServeDial, AllocError>
    ensures address { IfOk result (λ d. d.0.0 ≡ to.entry.now) }
    ensures timeout { IfOk result (λ d. (d.0.3 ≡ timeout) × (d.1 ≡ timeout)) }
{
    let address = String::from_str(alloc, to)?;
    let dial = TcpDial::new(host, address).with_timeout(timeout);
    let dial = CountedDial::new(dial, Some(Arc::try_clone(counts)?));
    Ok(TimedDial::new(dial, host, timeout))
}

// A wire to the index.
fn make_wire(
    host: HostRuntime,
    alloc: Global,
    to: &str,
    timeout: u32,
    in_flight: u32,
    counts: &Shared,
) -> Result<TcpWire, AllocError>
    requires { IsTrue (is_host to.now) }
    ensures { IfOk result (λ w. numbers w.out ≡ []) }
{
    let dial = make_dial(host, alloc, to, timeout, counts)?;
    let to = String::from_str(alloc, to)?;
    let wire = HttpWire::new(alloc, dial, Unknown, to, in_flight)?;
    Ok(CountedWire::new(alloc, wire, Some(Arc::try_clone(counts)?)))
}

/// A wire to the index for each lane, with as many places in flight as the config has.
pub(crate) fn make_wires(
    host: HostRuntime,
    alloc: Global,
    to: &str,
    timeout: u32,
    config: RelayConfig,
    counts: &Shared,
) -> Result<Vec<TcpWire>, AllocError>
    requires { IsTrue (is_host to.now) }
    ensures count { IfOk result (λ v. vec_len v ≡ config.lanes) }
    ensures out { IfOk result (λ v. NoneOut (λ w. numbers w.out) v.items) }
{
    let mut wires = Vec::new(alloc);
    'lanes: for lane in 0..config.lanes {
        wires.push(make_wire(host, alloc, to, timeout, config.in_flight, counts)?)?;
    }
    Ok(wires)
}

/// A pace for each lane.
pub(crate) fn make_paces(
    host: HostRuntime,
    alloc: Global,
    lanes: u32,
) -> Result<Vec<SleepPace<HostRuntime>>, AllocError>
    ensures { IfOk result (λ v. vec_len v ≡ lanes) }
{
    let mut paces = Vec::new(alloc);
    'lanes: for lane in 0..lanes {
        paces.push(SleepPace::new(host))?;
    }
    Ok(paces)
}
