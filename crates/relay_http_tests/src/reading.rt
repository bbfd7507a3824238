//! Helpers that read from a connection over bytes.
ghost use Rattle.std.specs.Prelude.{◌<◌};

use relay_action::MemStream;
use relay_http::{Conn, HttpFault, HttpReply, HttpRequest};
use std::alloc::{AllocError, Global};
use std::process::Abort;

/// How many bytes arrive at a time in the tests: one, a few, or all.
pub const PIECES: [usize; 3] = [1, 7, 100_000];

/// The contents of a reply, or the fault.
pub type Reply<'a> = Result<(u16, &'a [u8], bool), HttpFault>;

/// The contents of a request (whether it is for the bulk API, the body, whether another may
/// follow), or the fault.
pub type Request<'a> = Result<Option<(bool, &'a [u8], bool)>, HttpFault>;

/// A connection over bytes that arrive a few at a time; its stream takes `room` bytes, and one of
/// its calls fails, unless that is 0.
pub fn over_failing(
    alloc: Global,
    bytes: &[u8],
    piece: usize,
    room: usize,
    fail_at: u64,
) -> Result<Conn<MemStream>, AllocError>
    requires { 0 < piece }
{
    let stream = MemStream::new(alloc, bytes.to_vec(alloc)?, room, piece, fail_at)?;
    match Conn::new(alloc, stream) {
        Ok(conn) => Ok(conn),
        Err((failed, _)) => Err(failed),
    }
}

/// A connection over bytes that arrive a few at a time; its stream takes 1,000 bytes.
pub fn over(rt: &impl Abort, alloc: Global, bytes: &[u8], piece: usize) -> Conn<MemStream>
    requires { 0 < piece }
{
    over_failing(alloc, bytes, piece, 1000, 0).expect(rt, "memory")
}

// Whether what was read is this reply.
fn is_reply(read: &Result<HttpReply, HttpFault>, wanted: Reply) -> bool {
    match read {
        Ok(reply) => match wanted {
            Ok((status, body, keep)) => {
                reply.status == status && reply.body.as_slice() == body && reply.keep == keep
            }
            Err(_) => false,
        },
        Err(fault) => wanted == Err(*fault),
    }
}

// Whether what was read is this request.
fn is_request(read: &Result<Option<HttpRequest>, HttpFault>, wanted: Request) -> bool {
    match read {
        Ok(Some(request)) => match wanted {
            Ok(Some((bulk, body, keep))) => {
                request.bulk == bulk && request.body.as_slice() == body && request.keep == keep
            }
            _ => false,
        },
        Ok(None) => matches!(wanted, Ok(None)),
        Err(fault) => matches!(wanted, Err(other) if other == *fault),
    }
}

/// Whether the next reply is this one.
pub fn gives_reply(alloc: Global, conn: &mut Conn<MemStream>, wanted: Reply) -> bool {
    let read = conn.read_reply(alloc);
    is_reply(&read, wanted)
}

/// Whether the next request is this one.
pub fn gives_request(alloc: Global, conn: &mut Conn<MemStream>, wanted: Request) -> bool {
    let read = conn.read_request(alloc);
    is_request(&read, wanted)
}

/// Whether these bytes are read as this reply, and the connection is broken after a fault or a
/// reply that does not keep it.
pub fn reads_reply(
    rt: &impl Abort,
    alloc: Global,
    bytes: &[u8],
    piece: usize,
    wanted: Reply,
) -> bool
    requires { 0 < piece }
{
    let mut conn = over(rt, alloc, bytes, piece);
    let lasts = matches!(wanted, Ok((_, _, true)));
    gives_reply(alloc, &mut conn, wanted)
        && (lasts || gives_reply(alloc, &mut conn, Err(HttpFault::Broken)))
        && conn.is_open() == lasts
}

/// Whether these bytes are read as this request, and nothing more is read after a fault or a
/// request that does not keep the connection.
pub fn reads_request(
    rt: &impl Abort,
    alloc: Global,
    bytes: &[u8],
    piece: usize,
    wanted: Request,
) -> bool
    requires { 0 < piece }
{
    let mut conn = over(rt, alloc, bytes, piece);
    let lasts = matches!(wanted, Ok(Some((_, _, true))) | Ok(None));
    gives_request(alloc, &mut conn, wanted)
        && (lasts || gives_request(alloc, &mut conn, Err(HttpFault::Broken)))
        && conn.is_open() == lasts
}

/// Whether each row is read as its reply, in pieces of each size.
pub fn reads_replies(rt: &impl Abort, alloc: Global, rows: &[(&[u8], Reply)]) -> bool {
    for piece in PIECES {
        for (bytes, wanted) in rows {
            if !reads_reply(rt, alloc, *bytes, piece, *wanted) {
                return false;
            }
        }
    }
    true
}

/// Whether each row is read as its request, in pieces of each size.
pub fn reads_requests(rt: &impl Abort, alloc: Global, rows: &[(&[u8], Request)]) -> bool {
    for piece in PIECES {
        for (bytes, wanted) in rows {
            if !reads_request(rt, alloc, *bytes, piece, *wanted) {
                return false;
            }
        }
    }
    true
}
