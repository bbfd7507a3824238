//! Reading or writing HTTP messages over streams in memory, many times.
ghost use Rattle.std.specs.Prelude.{◌<◌, ◌≤◌, ◌^◌, IfOk, length};
ghost use Rattle.relay_ndjson.specs.Bulk.{text_of};

use crate::fault::BenchFault;
use crate::rate::{capped, nanoseconds_since};
use relay_action::{Action, DocKey, MemStream, Write};
use relay_http::{Conn, REQUEST_LIMIT};
use relay_ndjson::bulk_len;
use std::alloc::Global;
use std::time::{Clock, Instant};

// More bytes than any request head has.
const HEAD_ROOM: usize = 1024;

// The maximum number of bytes that a write to a stream moves.
const PIECE: usize = 65_536;

/// The result of reading a reply many times.
#[derive(Clone, Copy, Debug, PartialEq, Eq)]
pub struct Read {
    /// The status.
    pub status: u16,
    /// The length of the body, in bytes.
    pub bytes: usize,
    /// The time of all readings in nanoseconds, at most 10^18.
    pub nanoseconds: u64,
}

fn connect(
    alloc: Global,
    input: Vec<u8>,
    room: usize,
    piece: usize,
) -> Result<Conn<MemStream>, BenchFault>
    requires { 0 < piece }
{
    let stream = MemStream::new(alloc, input, room, piece, 0)?;
    match Conn::new(alloc, stream) {
        Ok(conn) => Ok(conn),
        Err(_) => Err(BenchFault::Memory),
    }
}

// Reads the reply in these bytes, of which `piece` arrive at a time. The time is that of making the
// connection and of the call, without copying the bytes.
fn read_once<R: Clock>(
    rt: &R,
    alloc: Global,
    bytes: &[u8],
    piece: usize,
) -> Result<Read, BenchFault>
    requires { 0 < piece }
    ensures { IfOk result (λ r. r.nanoseconds ≤ 10 ^ 18) }
{
    let input = bytes.to_vec(alloc)?;
    let start = Instant::now(rt)?;
    let mut conn = connect(alloc, input, 0, piece)?;
    let reply = match conn.read_reply(alloc) {
        Ok(reply) => reply,
        Err(fault) => return Err(BenchFault::Http(fault)),
    };
    let nanoseconds = nanoseconds_since(rt, start)?;
    Ok(Read {
        status: reply.status,
        bytes: reply.body.len(),
        nanoseconds,
    })
}

/// Reads the reply in these bytes `turns` times.
pub fn measure_read<R: Clock>(
    rt: &R,
    alloc: Global,
    bytes: &[u8],
    piece: usize,
    turns: u64,
) -> Result<Read, BenchFault>
    requires { 0 < piece }
    ensures { IfOk result (λ r. r.nanoseconds ≤ 10 ^ 18) }
{
    let mut last = Read {
        status: 0,
        bytes: 0,
        nanoseconds: 0,
    };
    for _turn in 0..turns {
        let read = read_once(rt, alloc, bytes, piece)?;
        last = Read {
            nanoseconds: last.nanoseconds.saturating_add(read.nanoseconds),
            ..read
        };
    }
    Ok(Read {
        nanoseconds: capped(last.nanoseconds),
        ..last
    })
}

// A write that indexes a source.
fn write_of(alloc: Global, number: u64, source: &str) -> Result<Write, BenchFault> {
    let id = format!(in alloc; "{number}")?;
    let Ok(key) = DocKey::new(alloc, "books", id.as_str()) else {
        return Err(BenchFault::Memory);
    };
    let Ok(action) = Action::index(alloc, source) else {
        return Err(BenchFault::Memory);
    };
    Ok(Write {
        key,
        version: number,
        action,
    })
}

// Writes with sources of this size.
fn writes_of(alloc: Global, count: u32, size: usize) -> Result<Vec<Write>, BenchFault> {
    let mut source = String::new(alloc);
    for _byte in 0..size {
        source.push('x')?;
    }
    let mut writes = Vec::new(alloc);
    for number in 0..count {
        let write = write_of(alloc, number as u64 + 1, source.as_str())?;
        if writes.push(write).is_err() {
            return Err(BenchFault::Memory);
        }
    }
    Ok(writes)
}

// Writes the request with these writes once. The time is that of the call.
fn write_once<R: Clock>(
    rt: &R,
    alloc: Global,
    writes: &[Write],
    room: usize,
) -> Result<u64, BenchFault>
    requires few { length writes.now ≤ 10000 }
    requires size { length (text_of writes.now) ≤ 16777216 }
    ensures { IfOk result (λ n. n ≤ 10 ^ 18) }
{
    let mut conn = connect(alloc, Vec::new(alloc), room, PIECE)?;
    let start = Instant::now(rt)?;
    match conn.write_request(alloc, "127.0.0.1:9200", writes) {
        Ok(()) => nanoseconds_since(rt, start),
        Err(fault) => Err(BenchFault::Http(fault)),
    }
}

/// Writes a request many times, with `count` writes whose sources have `size` bytes each, and
/// returns the length of its body and the time of all turns in nanoseconds, at most 10^18. There
/// may be at most 10,000 writes, whose text is within the limit of a request.
pub fn measure_write<R: Clock>(
    rt: &R,
    alloc: Global,
    count: u32,
    size: usize,
    turns: u64,
) -> Result<(u64, u64), BenchFault>
    ensures { IfOk result (λ r. r.1 ≤ 10 ^ 18) }
{
    let writes = writes_of(alloc, count, size)?;
    if writes.len() > 10_000 {
        return Err(BenchFault::Usage);
    }
    let bytes = bulk_len(writes.as_slice());
    if bytes > REQUEST_LIMIT as u64 {
        return Err(BenchFault::Usage);
    }
    let room = bytes as usize + HEAD_ROOM;
    let mut nanoseconds = 0u64;
    for _turn in 0..turns {
        let turn = write_once(rt, alloc, writes.as_slice(), room)?;
        nanoseconds = nanoseconds.saturating_add(turn);
    }
    Ok((bytes, capped(nanoseconds)))
}
