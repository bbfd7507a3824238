//! Streams in memory, dialled one after another.
ghost use Rattle.std.specs.Prelude.{◌≡◌, [], Ok, IfSome};

use relay_action::MemStream;
use relay_http::is_host;
use relay_lane::{Loss, WireReply};
use relay_wires::{Dial, DialFault, HttpWire, Unknown};
use std::alloc::Global;
use std::process::Abort;

/// A reply after which the connection may be used again.
pub const BUSY: &[u8] = b"HTTP/1.1 503 Busy\r\nContent-Length: 0\r\n\r\n";

/// What is dialled: streams that return these bytes, one after another, with room for writes, that
/// move a few bytes at a time; which call of the first of them fails; and which dial fails, counted
/// from 1 (0: none). A dial when no stream is left fails, too.
#[derive(Drop)]
pub struct Streams<'a> {
    pub alloc: Global,
    pub inputs: &'a [&'a [u8]],
    pub room: usize,
    pub piece: usize,
    pub first_fails_at: u64,
    pub fail_at: usize,
    calls: usize,
    next: usize,
    failed: u64,
    dialled: u64,
}

impl Streams<'_> {
    // The next of them, if there is one and it can be allocated.
    fn stream(&mut self) -> Option<MemStream>
        ensures failed { self.new.failed ≡ self.old.failed }
        ensures dialled { self.new.dialled ≡ self.old.dialled }
        ensures fresh { IfSome result (λ s. s.written ≡ []) }
    {
        let input = self.inputs.get(self.next)?;
        let fails_at = if self.next == 0 {
            self.first_fails_at
        } else {
            0
        };
        self.next = self.next.saturating_add(1);
        let bytes = input.to_vec(self.alloc).ok()?;
        MemStream::new(self.alloc, bytes, self.room, self.piece.max(1), fails_at).ok()
    }
}

impl Dial<MemStream> for Streams<'_> {
    ghost failed = { λ d. d.failed };

    ghost dialled = { λ d. d.dialled };

    fn dial(&mut self) -> Result<MemStream, DialFault> {
        self.calls = self.calls.saturating_add(1);
        self.dialled = self.dialled.saturating_add(1);
        let mut fault = DialFault::Refused;
        if self.calls != self.fail_at {
            if let Some(stream) = self.stream() {
                return Ok(stream);
            }
            fault = DialFault::Unreachable;
        }
        self.failed = self.failed.saturating_add(1);
        Err(fault)
    }
}

/// Whether a request was answered.
pub fn is_answered(answer: Result<WireReply, Loss>) -> bool {
    answer.is_ok()
}

/// A wire over such streams.
pub type Wired<'a> = HttpWire<MemStream, Streams<'a>, Unknown>;

// Streams with these bytes that move 7 at a time, and do not fail.
fn streams_of<'a>(alloc: Global, inputs: &'a [&'a [u8]]) -> Streams<'a> {
    Streams {
        alloc,
        inputs,
        room: 1000,
        piece: 7,
        first_fails_at: 0,
        fail_at: 0,
        calls: 0,
        next: 0,
        failed: 0,
        dialled: 0,
    }
}

// A wire to a host over these streams, with at most `most` requests outstanding.
fn wired_over<'a>(alloc: Global, streams: Streams<'a>, most: u32) -> Option<Wired<'a>>
    ensures { IfSome result (λ w. w.out ≡ []) }
{
    let host = format!(in alloc; "127.0.0.1:9200").ok()?;
    if !is_host(host.as_str()) {
        return None;
    }
    HttpWire::new(alloc, streams, Unknown, host, most).ok()
}

/// A wire to a host, with at most `most` requests outstanding, over streams with these bytes.
pub fn wired<'a>(
    alloc: Global,
    inputs: &'a [&'a [u8]],
    room: usize,
    fail_at: usize,
    most: u32,
) -> Option<Wired<'a>>
    ensures { IfSome result (λ w. w.out ≡ []) }
{
    let streams = Streams {
        room,
        fail_at,
        ..streams_of(alloc, inputs)
    };
    wired_over(alloc, streams, most)
}

/// A wire to a host, with at most one request outstanding, over streams with these bytes that move
/// a few at a time, of the first of which one call fails; 0 means none.
pub fn wired_failing<'a>(
    rt: &impl Abort,
    alloc: Global,
    inputs: &'a [&'a [u8]],
    piece: usize,
    first_fails_at: u64,
) -> Wired<'a>
    ensures { result.out ≡ [] }
{
    let streams = Streams {
        piece,
        first_fails_at,
        ..streams_of(alloc, inputs)
    };
    wired_over(alloc, streams, 1).expect(rt, "memory")
}
