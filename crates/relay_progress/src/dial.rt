//! A watched dial.
ghost use Rattle.std.specs.Prelude.{◌≡◌};
ghost use Rattle.relay_progress.specs.Troubles.{loss_of, trouble_of};

use crate::counts::{Shared, Trouble};
use relay_action::StdStream;
use relay_http::{Dial, DialFault};
use relay_lane::Loss;
use relay_net::{Sockets, TcpDial};
use std::io::ErrorKind;
use std::marker::Model;
use std::net::Net;

/// A dial over TCP that records how its last call ended, if it has counts. It keeps the promises of
/// the dial inside, which is what contracts see.
#[derive(Drop)]
pub struct CountedDial<R: Net> {
    dial: TcpDial<Sockets<R>>,
    counts: Option<Shared>,
}

impl<R: Net> Model for CountedDial<R> {
    ghost use Rattle.std.specs.Prelude.{ℕ, List, Option};
    ghost use Rattle.std.specs.declared.io.ErrorKind.{ErrorKind};
    ghost use Rattle.relay_net.specs.declared.reach.Sockets.{Sockets};

    ghost Value = { List ℕ × ℕ × ℕ × ℕ × Option ErrorKind × Sockets R };

    ghost view = { λ d. d.dial };
}

impl<R: Net> CountedDial<R> {
    /// A dial that records in these counts how each call ended.
    pub fn new(dial: TcpDial<Sockets<R>>, counts: Option<Shared>) -> CountedDial<R>
        ensures { result ≡ dial }
    {
        CountedDial { dial, counts }
    }
}

impl<R: Net> Dial<StdStream<R::Stream>> for CountedDial<R> {
    ghost use Rattle.relay_net.specs.Faults.{IsWhy};

    ghost failed = { λ d. d.1 };

    ghost dialled = { λ d. d.2 };

    ghost tells = { λ d f. IsWhy d.4 f };

    fn dial(&mut self) -> Result<StdStream<R::Stream>, DialFault> {
        let result = self.dial.dial();
        if let Some(counts) = &self.counts {
            counts.set_trouble(trouble_of(self.dial.fault()));
        }
        if let (Some(counts), Err(fault)) = (&self.counts, &result) {
            counts.note_failure(loss_of(*fault));
        }
        result
    }
}

// What a call of the dial shows about connections.
fn trouble_of(fault: Option<ErrorKind>) -> Trouble
    ensures { result ≡ trouble_of fault }
{
    match fault {
        None => Trouble::None,
        Some(ErrorKind::ConnectionRefused) => Trouble::Refused,
        Some(ErrorKind::TimedOut) => Trouble::TimedOut,
        Some(_) => Trouble::Other,
    }
}

// Why a request is lost for which there is no connection.
fn loss_of(fault: DialFault) -> Loss
    ensures { result ≡ loss_of fault }
{
    match fault {
        DialFault::Refused => Loss::Refused,
        DialFault::TimedOut => Loss::TimedOut,
        DialFault::Unreachable => Loss::Unreachable,
    }
}
