//! Making connections.
ghost use Rattle.std.specs.Prelude.{◌≡◌, ◌*◌, None, Some, string_bytes};
ghost use Rattle.relay_action.specs.Streams.{one_more};
ghost use Rattle.relay_net.specs.Faults.{dial_fault, Tells};
ghost use Rattle.relay_net.specs.Waiting.{limit_nanos};

use crate::reach::{Reach, Sockets, try_in_turn};
use relay_action::StdStream;
use relay_http::{Dial, DialFault};
use std::io::ErrorKind;
use std::marker::Model;
use std::net::Net;
use std::time::Duration;

/// Makes connections to one address over a network: TCP, if these are the [`Sockets`] of the
/// system. Contracts see the address, how many calls failed and how many were made, for how many
/// seconds a call of a connection may wait (0 for no limit), why the last call failed, and the
/// network; the counts saturate at 2^64 - 1.
#[derive(Drop)]
pub struct TcpDial<N: Reach> {
    net: N,
    address: String,
    failed: u64,
    dialled: u64,
    timeout: u32,
    fault: Option<ErrorKind>,
}

impl<N: Reach> Model for TcpDial<N> {
    ghost use Rattle.std.specs.Prelude.{ℕ, List, Option, string_bytes};
    ghost use Rattle.std.specs.declared.io.ErrorKind.{ErrorKind};

    ghost Value = { List ℕ × ℕ × ℕ × ℕ × Option ErrorKind × N };

    ghost view = { λ d. (string_bytes d.address, d.failed, d.dialled, d.timeout, d.fault, d.net) };
}

impl<R: Net> TcpDial<Sockets<R>> {
    /// A dial to this address, `HOST:PORT`: an IP address, in brackets if it is of version 6, or a
    /// host name, and a port. Nothing is looked up before the first call of `dial`. There is no
    /// limit to how long a call may wait.
    pub fn new(net: R, address: String) -> TcpDial<Sockets<R>>
        ensures { (result.0 ≡ string_bytes address) × (result.1 ≡ 0) × (result.2 ≡ 0)
            × (result.3 ≡ 0) × (result.4 ≡ None) }
    {
        TcpDial::over(Sockets::new(net), address)
    }
}

impl<N: Reach> TcpDial<N> {
    /// The same over this network.
    pub fn over(net: N, address: String) -> TcpDial<N>
        ensures { result ≡ (string_bytes address, 0, 0, 0, None, net) }
    {
        TcpDial {
            net,
            address,
            failed: 0,
            dialled: 0,
            timeout: 0,
            fault: None,
        }
    }

    /// The same, with a limit in seconds, or 0 for none. A connection that takes longer to be made
    /// fails, and so does a read or a write on a connection that waits longer. If a name has
    /// several addresses, the limit applies to each of them.
    pub fn with_timeout(self, seconds: u32) -> TcpDial<N>
        ensures { result ≡ (self.0, self.1, self.2, seconds, self.4, self.5) }
    {
        let mut dial = self;
        dial.timeout = seconds;
        dial
    }

    /// Why the last call of `dial` failed; `None` before the first call and after one that did not
    /// fail.
    pub fn fault(&self) -> Option<ErrorKind>
        ensures { result ≡ self.now.4 }
    {
        self.fault
    }

    fn fail(&mut self, fault: ErrorKind) -> DialFault
        ensures state { self.new
            ≡ (self.old.0, one_more self.old.1, self.old.2, self.old.3, Some fault, self.old.5) }
        ensures fault { result ≡ dial_fault fault }
    {
        self.failed = self.failed.saturating_add(1);
        self.fault = Some(fault);
        fault_of(fault)
    }
}

// What a dial reports for an error of this kind.
fn fault_of(kind: ErrorKind) -> DialFault
    ensures { result ≡ dial_fault kind }
{
    match kind {
        ErrorKind::ConnectionRefused => DialFault::Refused,
        ErrorKind::TimedOut | ErrorKind::WouldBlock => DialFault::TimedOut,
        _ => DialFault::Unreachable,
    }
}

impl<N: Reach> Dial<StdStream<N::Stream>> for TcpDial<N> {
    ghost use Rattle.std.specs.Prelude.{is_ok, if◌then◌else◌, IfOk};
    ghost use Rattle.relay_net.specs.Reaching.{Reached};
    ghost use Rattle.relay_net.specs.Faults.{IsWhy};

    ghost failed = { λ d. d.1 };

    ghost dialled = { λ d. d.2 };

    ghost tells = { λ d f. IsWhy d.4 f };

    /// A connection to the address. If its name has several addresses, they are tried in turn, and
    /// the first that responds is taken. It may wait for the other end, as long as the system does,
    /// or within the limit.
    ///
    /// `DialFault`: the address is invalid, its name is unknown, none responds, the system has no
    /// socket left, or the limit cannot be set.
    fn dial(&mut self) -> Result<StdStream<N::Stream>, DialFault>
        ensures count { self.new.1 ≡ (if is_ok result then self.old.1 else one_more self.old.1) }
        ensures dialled { self.new.2 ≡ one_more self.old.2 }
        ensures address { self.new.0 ≡ self.old.0 }
        ensures timeout { self.new.3 ≡ self.old.3 }
        // The name was looked up, and its addresses were tried in turn, each within the limit, until
        // one responded or all had failed.
        ensures reached { Reached self.old.0 (self.old.3 * 1000000000) (N.did self.old.5)
            (N.did self.new.5) self.new.4 }
        // Why it failed, if it did, and what is reported is that.
        ensures fault { Tells self.new.4 result }
        ensures fresh { IfOk result (λ s. s.1 ≡ 0) }
    {
        self.dialled = self.dialled.saturating_add(1);
        let limit = limit_of(self.timeout);
        match try_in_turn(&mut self.net, self.address.as_str(), limit) {
            Ok(stream) => {
                self.fault = None;
                Ok(StdStream::new(stream))
            }
            Err(fault) => Err(self.fail(fault)),
        }
    }
}

// The limit for this many seconds.
fn limit_of(seconds: u32) -> Option<Duration>
    ensures { limit_nanos result ≡ seconds * 1000000000 }
{
    match seconds {
        0 => None,
        _ => Some(Duration::from_secs(seconds as u64)),
    }
}
