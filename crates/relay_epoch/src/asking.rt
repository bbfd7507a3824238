//! One request for an epoch on a fresh stream.
ghost use Rattle.std.specs.Prelude.{◌≡◌, IsTrue};
ghost use Rattle.relay_http.specs.Connection.{fresh, is_open};
ghost use Rattle.relay_http.specs.Listening.{shown_by};
ghost use Rattle.relay_epoch.specs.Asking.{Asks, HearsFrom, HearsOn, heard_fault};

use crate::answer::epoch_of;
use crate::fault::EpochFault;
use relay_action::{ByteIn, ByteOut, write_all};
use relay_http::{Conn, HttpFault};
use std::alloc::Global;

// What a fault of reading the reply means.
fn heard_fault(fault: HttpFault) -> EpochFault
    ensures { result ≡ heard_fault fault }
{
    match fault {
        HttpFault::Memory => EpochFault::Memory,
        _ => EpochFault::Unreachable,
    }
}

// Reads the reply, and the epoch in it.
fn read_epoch<S: ByteIn + Drop>(alloc: Global, conn: &mut Conn<S>) -> Result<u32, EpochFault>
    requires { IsTrue (is_open conn.old.phase) }
    ensures { HearsFrom conn.old conn.new result }
{
    match conn.read_reply(alloc) {
        Ok(reply) => epoch_of(alloc, reply.status, reply.body.as_slice()),
        Err(fault) => Err(heard_fault(fault)),
    }
}

// Reads the reply on a stream, and returns the epoch in it and the stream.
fn hear<S: ByteIn + Drop>(alloc: Global, stream: S) -> (Result<u32, EpochFault>, S)
    ensures { HearsOn (shown_by (S.left stream) (S.written stream) (S.failed stream))
        (shown_by (S.left result.1) (S.written result.1) (S.failed result.1)) result.0 }
{
    match Conn::new(alloc, stream) {
        Ok(mut conn) => {
            let outcome = read_epoch(alloc, &mut conn);
            (outcome, conn.into_stream())
        }
        Err((_, stream)) => (Err(EpochFault::Memory), stream),
    }
}

/// Writes this message to a fresh stream, reads the reply to it, and returns the epoch that the
/// reply gives, as [`epoch_of`] reads it, and the stream.
///
/// `Unreachable`: a call of the stream failed, or what arrived is not a reply. The other faults are
/// those of [`epoch_of`].
pub fn ask<S: ByteIn + ByteOut + Drop>(
    alloc: Global,
    stream: S,
    message: &[u8],
) -> (Result<u32, EpochFault>, S)
    ensures { Asks message.now (shown_by (S.left stream) (S.written stream) (S.failed stream))
        (shown_by (S.left result.1) (S.written result.1) (S.failed result.1)) result.0 }
{
    let mut stream = stream;
    match write_all(&mut stream, message) {
        Ok(()) => hear(alloc, stream),
        Err(_) => (Err(EpochFault::Unreachable), stream),
    }
}
