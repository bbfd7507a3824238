//! Reaching one of the addresses of a name.
ghost use Rattle.std.specs.Prelude.{◌≡◌, List, Option, [], ◌∷◌, MatchOption};
ghost use Rattle.std.specs.Net.ToAddrs.{host_addrs};
ghost use Rattle.relay_net.specs.Reaching.{Deed, LooksUp, Connects, and_then_did, addresses_of, failure_of, Reached};
ghost use Rattle.relay_net.specs.Waiting.{limit_nanos};

use std::io;
use std::io::ErrorKind;
use std::net::{HostAddrs, Net, OpenStream, SocketAddr, TcpStream, ToSocketAddrs};
use std::time::Duration;

/// What a dial needs of a network: it looks names up, and connects to addresses.
pub trait Reach {
    /// A connection.
    type Stream;

    /// What it did so far, in order; `None` if it does not show it.
    ghost did: { Self → Option (List Deed) };

    /// The addresses of a name: `HOST:PORT`, as [`TcpDial::new`](crate::TcpDial::new) has it. The
    /// error says why there are none to be found.
    fn look_up(&mut self, name: &str) -> Result<HostAddrs, ErrorKind>
        ensures { did self.new
            ≡ and_then_did (did self.old) (LooksUp name.now (addresses_of result) ∷ []) };

    /// A connection to this address. If there is a limit, it fails if it takes longer to be made,
    /// and so does a read or a write on it that waits longer. The error says why it failed.
    fn connect(
        &mut self,
        address: SocketAddr,
        limit: Option<Duration>,
    ) -> Result<Self::Stream, ErrorKind>
        ensures { did self.new
            ≡ and_then_did (did self.old)
            (Connects address (limit_nanos limit) (failure_of result) ∷ []) };
}

/// The sockets of the system. It does not show what it did.
#[derive(Drop)]
pub struct Sockets<R> {
    net: R,
}

impl<R> Sockets<R> {
    /// The sockets that this handle opens.
    pub fn new(net: R) -> Sockets<R>
        ensures { result.net ≡ net }
    {
        Sockets { net }
    }
}

impl<R: Net> Reach for Sockets<R> {
    type Stream = R::Stream;

    ghost use Rattle.std.specs.Prelude.{None};

    ghost did = { λ s. None };

    fn look_up(&mut self, name: &str) -> Result<HostAddrs, ErrorKind> {
        match name.to_socket_addrs(&self.net) {
            Ok(found) => Ok(found),
            Err(error) => Err(error.kind()),
        }
    }

    /// What is written is sent immediately, without waiting for more (Nagle's algorithm, RFC 896,
    /// is off).
    fn connect(
        &mut self,
        address: SocketAddr,
        limit: Option<Duration>,
    ) -> Result<R::Stream, ErrorKind> {
        match open(&self.net, address, limit) {
            Ok(stream) => Ok(stream),
            Err(error) => Err(error.kind()),
        }
    }
}

// A connection to this address, with this limit.
fn open<R: Net>(
    net: &R,
    address: SocketAddr,
    limit: Option<Duration>,
) -> Result<R::Stream, io::Error> {
    let stream = match limit {
        Some(limit) => TcpStream::connect_timeout(net, &address, limit)?,
        None => TcpStream::connect(net, address)?,
    };
    if limit.is_some() {
        stream.set_read_timeout(limit)?;
        stream.set_write_timeout(limit)?;
    }
    stream.set_nodelay(true)?;
    Ok(stream)
}

// The next of these addresses.
fn next_address(addresses: &mut HostAddrs) -> Option<SocketAddr>
    ensures { MatchOption result (host_addrs addresses.old ≡ [])
        (λ a. host_addrs addresses.old ≡ a ∷ host_addrs addresses.new) }
{
    addresses.next()
}

/// A connection to the first address of the name that accepts one. Its addresses are tried in turn,
/// each with this limit. The error says why the last one failed, or why there is none.
pub(crate) fn try_in_turn<N: Reach>(
    net: &mut N,
    name: &str,
    limit: Option<Duration>,
) -> Result<N::Stream, ErrorKind>
    ensures { Reached name.now (limit_nanos limit) (N.did net.old) (N.did net.new)
        (failure_of result) }
{
    let mut addresses = match net.look_up(name) {
        Ok(found) => found,
        Err(why) => return Err(why),
    };
    let mut why = ErrorKind::InvalidInput;
    'tries: while let Some(address) = next_address(&mut addresses) {
        match net.connect(address, limit) {
            Ok(stream) => return Ok(stream),
            Err(reason) => why = reason,
        }
    }
    Err(why)
}
