//! An announced length does not allocate before its bytes arrive, and the whole body of a request
//! is never in memory.
ghost use Rattle.std.specs.Prelude.{None};

use crate::large::writes_of;
use crate::reading::{reads_reply, reads_request};
use relay_action::{ByteOut, ByteStream, StreamFailed, Write};
use relay_http::{Conn, HttpFault};
use relay_ndjson::bulk_len;
use std::alloc::Global;
use std::fs;
use std::process::Abort;
use std::rt::Files;

// The maximum memory that these tests may use, in kilobytes: half of the smallest announced length.
const ROOM: u64 = 8_192;

// The memory of this process, in kilobytes: current and peak.
#[derive(Clone, Copy)]
struct Memory {
    size: u64,
    peak: u64,
}

// The kilobytes on the line with this name.
fn kilobytes(status: &str, name: &str) -> Option<u64> {
    let line = status.lines().find(|line| line.starts_with(name))?;
    line.split_ascii_whitespace().nth(1)?.parse().ok()
}

fn measure(rt: &(impl Files + AllocGlobal + Abort)) -> Memory {
    let status = fs::read_to_string(rt, "/proc/self/status").expect(
        rt,
        "the status of the process",
    );
    Memory {
        size: kilobytes(status.as_str(), "VmSize:").expect(rt, "a size"),
        peak: kilobytes(status.as_str(), "VmPeak:").expect(rt, "a peak"),
    }
}

const REPLIES: &[&[u8]] = &[
    b"HTTP/1.1 200 OK\r\nContent-Length: 67108864\r\n\r\n",
    b"HTTP/1.1 200 OK\r\nTransfer-Encoding: chunked\r\n\r\n3ffffff\r\n",
];

const REQUEST: &[u8] = b"POST /_bulk HTTP/1.1\r\nContent-Length: 16777216\r\n\r\n";

// Whether each of these messages, whose length is announced and whose body does not arrive, has
// ended.
fn have_ended(rt: &impl Abort, alloc: Global) -> bool {
    for reply in REPLIES {
        if !reads_reply(rt, alloc, *reply, 100_000, Err(HttpFault::Ended)) {
            return false;
        }
    }
    reads_request(rt, alloc, REQUEST, 100_000, Err(HttpFault::Ended))
}

#[test]
fn lengths_without_bodies(rt: HostRuntime) {
    let before = measure(&rt);
    assert!(rt;
        before.peak < before.size.saturating_add(ROOM),
        "what was held before hides what is taken now"
    );
    assert!(rt; have_ended(&rt, rt.alloc()));
    assert!(rt; measure(&rt).peak < before.peak.saturating_add(ROOM));
}

// A stream that accepts what is written and keeps nothing.
#[derive(Drop)]
struct Sink;

impl ByteStream for Sink {
    ghost left = { λ s. None };

    ghost written = { λ s. None };

    ghost failed = { λ s. 0 };
}

impl ByteOut for Sink {
    fn write(&mut self, bytes: &[u8]) -> Result<usize, StreamFailed> {
        Ok(bytes.len())
    }
}

// Whether a request of about 16 MiB with these writes is written.
fn is_written(rt: &impl Abort, alloc: Global, writes: &[Write]) -> bool {
    assert!(rt; writes.len() <= 10_000);
    let bytes = bulk_len(writes);
    assert!(rt; bytes >= 16_000_000 && bytes <= 16_777_216);
    let mut conn = Conn::new(alloc, Sink).ok().expect(rt, "memory");
    conn.write_request(alloc, "a", writes).is_ok()
}

#[test]
fn a_large_request(rt: HostRuntime) {
    let writes = writes_of(rt.alloc(), 10_000, 1_590).expect(&rt, "memory");
    let before = measure(&rt);
    assert!(rt;
        before.peak < before.size.saturating_add(ROOM),
        "what was held before hides what is taken now"
    );
    assert!(rt; is_written(&rt, rt.alloc(), writes.as_slice()));
    assert!(rt; measure(&rt).peak < before.peak.saturating_add(ROOM));
}
