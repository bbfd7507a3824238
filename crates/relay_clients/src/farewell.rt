//! How a connection ends in good order: its last answers are sent, then its own side is shut, and
//! what its peer still sends is dropped for a while. A socket that is closed with bytes unread is
//! reset, and then the peer may lose the answer.
use crate::client::is_past;
use std::io;
use std::io::{ErrorKind, Read, Write};
use std::net::{OpenStream, TcpStream};
use std::time::{Clock, Instant};

// How many bytes are dropped at most.
const DROPPED: u64 = 536_870_912;

// For how many milliseconds bytes are dropped at most.
const DROPPING: u64 = 10_000;

// After how many milliseconds without a byte the socket is closed.
const QUIET: u64 = 1_000;

// The same once the server ends.
const END_QUIET: u64 = 50;

// How many pieces are read at a time at most.
const PIECES: u32 = 4;

/// What is sent last on a connection, and what was dropped since.
#[derive(Drop)]
pub(crate) struct Farewell {
    message: Vec<u8>,
    sent: usize,
    // When its own side was shut, and when bytes came last.
    shut: Option<Instant>,
    moved: Option<Instant>,
    dropped: u64,
}

impl Farewell {
    /// These bytes are to be sent.
    pub(crate) fn new(message: Vec<u8>) -> Farewell {
        Farewell {
            message,
            sent: 0,
            shut: None,
            moved: None,
            dropped: 0,
        }
    }

    /// Whether all is sent.
    pub(crate) fn is_sent(&self) -> bool {
        self.sent >= self.message.len()
    }

    /// Sends some of what is left. Returns how many bytes went. `Err`: the socket failed, or took nothing.
    pub(crate) fn send(&mut self, stream: &mut TcpStream) -> io::Result<usize> {
        let Some((_, rest)) = self.message.as_slice().split_at_checked(self.sent) else {
            return Err(ErrorKind::WriteZero.into());
        };
        match stream.write(rest) {
            Ok(0) => Err(ErrorKind::WriteZero.into()),
            Ok(count) => {
                self.sent = self.sent.saturating_add(count);
                Ok(count)
            }
            Err(error) => Err(error),
        }
    }

    /// Its own side was shut.
    pub(crate) fn begin<R: Clock>(&mut self, rt: &R) {
        self.shut = Instant::now(rt).ok();
        self.moved = self.shut;
    }

    /// Drops what has come, by way of a buffer. The socket does not block. Returns whether more may
    /// come.
    pub(crate) fn drop_some<R: Clock>(
        &mut self,
        rt: &R,
        stream: &mut TcpStream,
        buffer: &mut [u8],
    ) -> bool {
        for _ in 0..PIECES {
            match stream.read(buffer) {
                Ok(count) if count > 0 => {
                    self.dropped = self.dropped.saturating_add(count as u64);
                    self.moved = Instant::now(rt).ok();
                }
                Ok(_) => return false,
                Err(error) if error.kind() == ErrorKind::WouldBlock => return true,
                Err(_) => return false,
            }
            if self.dropped >= DROPPED {
                return false;
            }
        }
        true
    }

    /// Whether nothing came for a while, or bytes came for long enough.
    pub(crate) fn is_over<R: Clock>(&self, rt: &R, is_ending: bool) -> bool {
        let quiet = if is_ending { END_QUIET } else { QUIET };
        is_past(rt, self.moved, quiet) || is_past(rt, self.shut, DROPPING)
    }
}
