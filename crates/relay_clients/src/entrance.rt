//! Where connections come from.
use std::io::ErrorKind;
use std::net::{OpenListener, SocketAddr, TcpListener, TcpStream};
use std::os::fd::{AsRawFd, RawFd};

/// What is known of a connection by the listener that it came to.
#[derive(Clone, Copy, Debug, PartialEq, Eq)]
pub struct Origin {
    /// Whether the listener has a loopback address, so that only this machine reaches it.
    pub is_local: bool,
    /// For how many milliseconds a request waits for room before it is refused. `None`: without end.
    pub wait: Option<u64>,
}

/// A listener, and what is known of its connections.
#[derive(Drop)]
pub struct Entrance {
    listener: TcpListener,
    origin: Origin,
    // Whether connections may wait.
    is_ready: bool,
}

impl Entrance {
    /// An entrance at a listener. `None`: the system does not say where that is, or has it block.
    pub fn new(listener: TcpListener, wait: Option<u64>) -> Option<Entrance> {
        let address = listener.local_addr().ok()?;
        listener.set_nonblocking(true).ok()?;
        let is_local = address.ip().is_loopback();
        Some(Entrance {
            listener,
            origin: Origin { is_local, wait },
            is_ready: true,
        })
    }

    /// Where it is.
    pub fn address(&self) -> Option<SocketAddr> {
        self.listener.local_addr().ok()
    }

    /// The descriptor of its socket.
    pub(crate) fn descriptor(&self) -> RawFd {
        self.listener.as_raw_fd()
    }

    /// What is known of its connections.
    pub(crate) fn origin(&self) -> Origin {
        self.origin
    }

    /// Connections may wait.
    pub(crate) fn set_ready(&mut self) {
        self.is_ready = true;
    }

    /// The next connection, if one waits and can be taken now.
    pub(crate) fn accept(&mut self) -> Option<TcpStream> {
        if !self.is_ready {
            return None;
        }
        match self.listener.accept() {
            Ok((stream, _)) => Some(stream),
            Err(error) => {
                // For another reason, such as that there is no descriptor left, it is tried again.
                self.is_ready = error.kind() != ErrorKind::WouldBlock;
                None
            }
        }
    }
}
