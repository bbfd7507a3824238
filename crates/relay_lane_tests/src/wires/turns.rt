//! Streams that return a reply once a request was written, dialled one after another.
ghost use Rattle.std.specs.Prelude.{◌≡◌, [], None, Ok};

use relay_action::{ByteIn, ByteOut, ByteStream, StreamFailed};
use relay_http::is_host;
use relay_wires::{Dial, DialFault, HttpWire, Peek, Unknown};
use std::alloc::Global;
use std::process::Abort;

/// What arrives on a stream: something after each request, and its end after the last.
pub type Turns<'a> = &'a [&'a [u8]];

/// A stream on which the bytes of a turn arrive when a request is written, and the end with those
/// of the last. A read returns at most `piece` of those that arrived. It takes each write in full,
/// and shows no bytes.
#[derive(Drop)]
pub struct TurnStream<'a> {
    turns: Turns<'a>,
    piece: usize,
    next: usize,
    came: &'a [u8],
    writing: bool,
}

impl ByteStream for TurnStream<'_> {
    ghost left = { λ s. None };

    ghost written = { λ s. None };

    ghost failed = { λ s. 0 };
}

impl ByteIn for TurnStream<'_> {
    fn read(&mut self, buffer: &mut [u8]) -> Result<usize, StreamFailed> {
        self.writing = false;
        let count = buffer.len().min(self.piece).min(self.came.len());
        buffer[..count].copy_from_slice(&self.came[..count]);
        self.came = &self.came[count..];
        Ok(count)
    }
}

impl ByteOut for TurnStream<'_> {
    fn write(&mut self, bytes: &[u8]) -> Result<usize, StreamFailed> {
        // Unrequested bytes are read first, so that they are noticed if they are taken for a reply.
        if !self.writing && self.came.is_empty() {
            if let Some(turn) = self.turns.get(self.next) {
                self.came = *turn;
            }
            self.next = self.next.saturating_add(1);
        }
        self.writing = true;
        Ok(bytes.len())
    }
}

impl Peek for TurnStream<'_> {
    fn is_quiet(&self) -> bool {
        self.came.is_empty() && self.next < self.turns.len()
    }
}

/// What is dialled: streams with these turns, one after another. A dial after the last fails.
#[derive(Drop)]
pub struct TurnDial<'a> {
    streams: &'a [Turns<'a>],
    piece: usize,
    next: usize,
    failed: u64,
    dialled: u64,
}

impl<'a> Dial<TurnStream<'a>> for TurnDial<'a> {
    ghost failed = { λ d. d.failed };

    ghost dialled = { λ d. d.dialled };

    fn dial(&mut self) -> Result<TurnStream<'a>, DialFault> {
        self.dialled = self.dialled.saturating_add(1);
        if let Some(turns) = self.streams.get(self.next) {
            self.next = self.next.saturating_add(1);
            return Ok(TurnStream {
                turns: *turns,
                piece: self.piece,
                next: 0,
                came: &[],
                writing: false,
            });
        }
        self.failed = self.failed.saturating_add(1);
        Err(DialFault::TimedOut)
    }
}

/// A wire over streams with these turns, whose reads return a few bytes at a time.
pub fn turned<'a>(
    rt: &impl Abort,
    alloc: Global,
    streams: &'a [Turns<'a>],
    piece: usize,
    most: u32,
) -> HttpWire<TurnStream<'a>, TurnDial<'a>, Unknown>
    ensures { result.out ≡ [] }
{
    let dial = TurnDial {
        streams,
        piece,
        next: 0,
        failed: 0,
        dialled: 0,
    };
    let host = format!(in alloc; "127.0.0.1:9200").expect(rt, "memory");
    assert!(rt; is_host(host.as_str()));
    HttpWire::new(alloc, dial, Unknown, host, most).expect(rt, "memory")
}
