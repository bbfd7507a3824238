//! Accepting connections.
ghost use Rattle.std.specs.Prelude.{◌≡◌, IfOk};

use relay_action::StdStream;
use relay_http::{AcceptFailed, Listen};
use std::io;
use std::marker::Model;
use std::net::{Net, OpenListener, OpenStream, SocketAddr, TcpListener};

/// Accepts the connections to one address over TCP. Contracts see how many it accepted and how many
/// calls failed, and nothing of the bytes of a connection; the counts saturate at 2^64 - 1.
#[derive(Drop)]
pub struct TcpListen<R: Net> {
    listener: R::Listener,
    accepted: u64,
    failed: u64,
}

impl<R: Net> Model for TcpListen<R> {
    ghost use Rattle.std.specs.Prelude.{ℕ};

    ghost Value = { ℕ × ℕ };

    ghost view = { λ l. (l.accepted, l.failed) };
}

impl<R: Net> TcpListen<R> {
    /// Listens on this address, `HOST:PORT`: an IP address, in brackets if it is of version 6, or a
    /// host name, and a port; with port 0 the system chooses one. From here on connections may
    /// arrive, and wait to be accepted. Any error is the system's: the address is invalid or not
    /// one of this machine's, or another program is listening on it.
    pub fn bind(net: &R, address: &str) -> Result<TcpListen<R>, io::Error>
        ensures { IfOk result (λ l. l ≡ (0, 0)) }
    {
        let listener = TcpListener::bind(net, address)?;
        Ok(TcpListen {
            listener,
            accepted: 0,
            failed: 0,
        })
    }

    /// Where it listens, with the port that the system chose if none was asked for. An error is the
    /// system's.
    pub fn local_addr(&self) -> Result<SocketAddr, io::Error> {
        self.listener.local_addr()
    }
}

impl<R: Net> Listen<StdStream<R::Stream>> for TcpListen<R> {
    ghost use Rattle.relay_http.specs.Listening.{unseen};

    ghost shows = { λ l. unseen l.0 l.1 };

    /// The next connection. It waits until one arrives.
    fn accept(&mut self) -> Result<StdStream<R::Stream>, AcceptFailed> {
        match self.listener.accept() {
            Ok((stream, _)) => {
                self.accepted = self.accepted.saturating_add(1);
                Ok(StdStream::new(stream))
            }
            Err(_) => {
                self.failed = self.failed.saturating_add(1);
                Err(AcceptFailed)
            }
        }
    }

    /// Closes the connection.
    fn close(&mut self, stream: StdStream<R::Stream>) {
        drop(stream);
    }
}
