//! A stream in memory, for tests and for streams within one process.
ghost use Rattle.std.specs.Prelude.{◌≡◌, ◌++◌, ◌-◌, ◌<◌, ◌≤◌, min, [], length, take, drop, not};
ghost use Rattle.std.specs.Prelude.{Some, IfOk, OnErr, is_ok, if◌then◌else◌};
ghost use Rattle.std.specs.Io.KnownBytes.{append_known, prepend_known, IsAtEnd};
ghost use Rattle.relay_action.specs.Streams.{fresh, is_call, is_full, after_call, after_failure};
ghost use Rattle.relay_action.specs.Streams.{after_read};
ghost use Rattle.relay_action.specs.Streams.{with_written, given_count, taken_count, one_more};
ghost use Rattle.relay_action.specs.Streams.{takes_some};

use crate::stream::{ByteIn, ByteOut, ByteStream, StreamFailed};
use std::alloc::{AllocError, Global};
use std::marker::Model;

/// A stream in memory. Reads return its input, a few bytes per call; what is written is kept; and
/// one of its calls can be made to fail.
#[derive(Drop)]
pub struct MemStream {
    input: Vec<u8>,
    at: usize,
    output: Vec<u8>,
    room: usize,
    piece: usize,
    fail_at: u64,
    calls: u64,
    failed: u64,
}

impl Model for MemStream {
    ghost use Rattle.std.specs.Prelude.{◌<◌, ◌≤◌, drop, vec_len, vec_capacity};
    ghost use Rattle.relay_action.specs.Streams.{Memory};

    ghost Value = { Memory };

    ghost view = { λ s. record {
      left = drop s.at s.input.items;
      written = s.output.items;
      room = s.room;
      piece = s.piece;
      fail_at = s.fail_at;
      calls = s.calls;
      failed = s.failed;
    } };

    ghost invariant = { λ s. (s.at ≤ vec_len s.input) × (vec_len s.output ≤ s.room)
        × (s.room ≤ vec_capacity s.output) × (0 < s.piece) };
}

impl MemStream {
    /// A stream with `input` to read and room for `room` bytes of output, which is reserved. A call
    /// moves at most `piece` bytes. A write fails if no room is left, and so does the `fail_at`-th
    /// call, counted from 1 over reads and writes; 0 means none. `AllocError`: allocation failed.
    pub fn new(
        alloc: Global,
        input: Vec<u8>,
        room: usize,
        piece: usize,
        fail_at: u64,
    ) -> Result<MemStream, AllocError>
        requires { 0 < piece }
        ensures { IfOk result (λ s. s ≡ fresh input.items room piece fail_at) }
    {
        Ok(MemStream {
            input,
            at: 0,
            output: Vec::with_capacity(alloc, room)?,
            room,
            piece,
            fail_at,
            calls: 0,
            failed: 0,
        })
    }

    /// The bytes written so far.
    pub fn written(&self) -> &[u8]
        ensures { result.now ≡ self.now.written }
    {
        self.output.as_slice()
    }

    // Counts a call, and returns whether it is the one that fails.
    fn begin(&mut self) -> bool
        ensures calls { self.new ≡ after_call self.old }
        ensures fails { result ≡ is_call self.old }
    {
        self.calls = self.calls.saturating_add(1);
        self.calls == self.fail_at
    }

    fn fail(&mut self) -> StreamFailed
        ensures { self.new ≡ after_failure self.old }
    {
        self.failed = self.failed.saturating_add(1);
        StreamFailed
    }

    // Copies the next piece of the input to the front of the buffer.
    fn give(&mut self, buffer: &mut [u8]) -> usize
        ensures count { result ≡ given_count self.old (length buffer.old) }
        ensures stream { self.new ≡ after_read self.old result }
        ensures bytes { buffer.new ≡ take result self.old.left ++ drop result buffer.old }
        ensures end { result ≡ 0 → 0 < length buffer.new → self.old.left ≡ [] }
    {
        let count = buffer.len().min(self.piece).min(self.input.len() - self.at);
        buffer[..count].copy_from_slice(&self.input[self.at..self.at + count]);
        self.at += count;
        count
    }

    // Appends a piece of the bytes to the output.
    fn take(&mut self, bytes: &[u8]) -> usize
        ensures count { result ≡ taken_count self.old (length bytes.now) }
        ensures stream { self.new ≡ with_written self.old (take result bytes.now) }
    {
        let count = bytes
            .len()
            .min(self.piece)
            .min(self.room - self.output.len());
        self.output.extend_from_slice(&bytes[..count]).unwrap();
        count
    }
}

impl ByteStream for MemStream {
    ghost left = { λ s. Some s.left };

    ghost written = { λ s. Some s.written };

    ghost failed = { λ s. s.failed };
}

impl ByteIn for MemStream {
    fn read(&mut self, buffer: &mut [u8]) -> Result<usize, StreamFailed>
        ensures bound { IfOk result (λ n. n ≤ length buffer.new) }
        ensures bytes { IfOk result
            (λ n. Some self.old.left ≡ prepend_known (take n buffer.new) (Some self.new.left)) }
        ensures end { IfOk result
            (λ n. n ≡ 0 → 0 < length buffer.new → IsAtEnd (Some self.old.left)) }
        ensures err { OnErr result (Some self.new.left ≡ Some self.old.left) }
        ensures count { self.new.failed ≡
            (if is_ok result then self.old.failed else one_more self.old.failed) }
        ensures written { Some self.new.written ≡ Some self.old.written }

        // When the call fails, how many bytes it moves, and what is left.
        ensures fails { is_ok result ≡ not (is_call self.old) }
        ensures moves { IfOk result (λ n. n ≡ given_count self.old (length buffer.old)) }
        ensures after { IfOk result (λ n. self.new ≡ after_read (after_call self.old) n) }
        ensures kept { OnErr result (self.new ≡ after_failure (after_call self.old)) }
    {
        if self.begin() {
            return Err(self.fail());
        }
        Ok(self.give(buffer))
    }
}

impl ByteOut for MemStream {
    fn write(&mut self, bytes: &[u8]) -> Result<usize, StreamFailed>
        ensures bound { IfOk result (λ n. n ≤ length bytes.now) }
        ensures bytes { IfOk result
            (λ n. Some self.new.written ≡ append_known (Some self.old.written) (take n bytes.now)) }
        ensures err { OnErr result (Some self.new.written ≡ Some self.old.written) }
        ensures count { self.new.failed ≡
            (if takes_some result bytes.now then self.old.failed else one_more self.old.failed) }
        ensures left { Some self.new.left ≡ Some self.old.left }

        // When the call fails, how many bytes it moves, and what was written.
        ensures fails { is_ok result ≡ not (is_full self.old) }
        ensures moves { IfOk result (λ n. n ≡ taken_count self.old (length bytes.now)) }
        ensures after { IfOk result
            (λ n. self.new ≡ with_written (after_call self.old) (take n bytes.now)) }
        ensures kept { OnErr result (self.new ≡ after_failure (after_call self.old)) }
    {
        if self.begin() || self.output.len() == self.room {
            return Err(self.fail());
        }
        Ok(self.take(bytes))
    }
}
