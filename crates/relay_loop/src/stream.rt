//! Streams in memory to the index.
ghost use Rattle.std.specs.Prelude.{◌≡◌, ◌<◌, ◌≤◌, ◌++◌, [], min, length, take, drop, Some, IfOk};
ghost use Rattle.std.specs.Prelude.{OnErr, is_ok, if◌then◌else◌};
ghost use Rattle.std.specs.Io.KnownBytes.{append_known, prepend_known, IsAtEnd};
ghost use Rattle.relay_action.specs.Streams.{one_more, takes_some};

use relay_action::{ByteIn, ByteOut, ByteStream, StreamFailed};
use relay_http::Peek;
use std::alloc::Global;
use std::marker::Model;

/// A stream in memory. What is written is kept until the index takes it, and what it answers is read.
#[derive(Drop)]
pub struct LoopStream {
    answer: Vec<u8>,
    at: usize,
    written: Vec<u8>,
    failed: u64,
}

impl Model for LoopStream {
    ghost use Rattle.std.specs.Prelude.{◌≤◌, drop, vec_len};
    ghost use Rattle.relay_loop.specs.Loops.{Line};

    ghost Value = { Line };

    ghost view = { λ s. record {
      left = drop s.at s.answer.items;
      written = s.written.items;
      failed = s.failed;
    } };

    ghost invariant = { λ s. s.at ≤ vec_len s.answer };
}

impl LoopStream {
    // A stream on which nothing was written, with nothing to read.
    pub(crate) fn new(alloc: Global) -> LoopStream
        ensures { result ≡ record { left = []; written = []; failed = 0 } }
    {
        LoopStream::with_answer(alloc, Vec::new(alloc))
    }

    // A stream on which nothing was written, with this answer to read.
    pub(crate) fn with_answer(alloc: Global, answer: Vec<u8>) -> LoopStream
        ensures { result ≡ record { left = answer.items; written = []; failed = 0 } }
    {
        LoopStream {
            answer,
            at: 0,
            written: Vec::new(alloc),
            failed: 0,
        }
    }

    // Copies what is left to read to the front of the buffer, as far as it fits.
    fn give(&mut self, buffer: &mut [u8]) -> usize
        ensures count { result ≡ min (length buffer.old) (length self.old.left) }
        ensures stream { self.new ≡ record self.old { left = drop result self.old.left } }
        ensures bytes { buffer.new ≡ take result self.old.left ++ drop result buffer.old }
        ensures end { result ≡ 0 → 0 < length buffer.new → self.old.left ≡ [] }
    {
        let count = buffer.len().min(self.answer.len() - self.at);
        buffer[..count].copy_from_slice(&self.answer[self.at..self.at + count]);
        self.at += count;
        count
    }

    // What was written.
    pub(crate) fn into_written(self) -> Vec<u8>
        ensures { result.items ≡ self.written }
    {
        self.written
    }
}

impl ByteStream for LoopStream {
    ghost left = { λ s. Some s.left };

    ghost written = { λ s. Some s.written };

    ghost failed = { λ s. s.failed };
}

impl ByteIn for LoopStream {
    fn read(&mut self, buffer: &mut [u8]) -> Result<usize, StreamFailed>
        ensures bound { IfOk result (λ n. n ≤ length buffer.new) }
        ensures bytes { IfOk result
            (λ n. Some self.old.left ≡ prepend_known (take n buffer.new) (Some self.new.left)) }
        ensures end { IfOk result
            (λ n. n ≡ 0 → 0 < length buffer.new → IsAtEnd (Some self.old.left)) }
        ensures err { OnErr result (Some self.new.left ≡ Some self.old.left) }
        ensures count { self.new.failed ≡
            (if is_ok result then self.old.failed else one_more self.old.failed) }
        ensures written { Some self.new.written ≡ Some self.old.written }
    {
        Ok(self.give(buffer))
    }
}

impl ByteOut for LoopStream {
    fn write(&mut self, bytes: &[u8]) -> Result<usize, StreamFailed>
        ensures bound { IfOk result (λ n. n ≤ length bytes.now) }
        ensures bytes { IfOk result
            (λ n. Some self.new.written ≡ append_known (Some self.old.written) (take n bytes.now)) }
        ensures err { OnErr result (Some self.new.written ≡ Some self.old.written) }
        ensures count { self.new.failed ≡
            (if takes_some result bytes.now then self.old.failed else one_more self.old.failed) }
        ensures left { Some self.new.left ≡ Some self.old.left }
    {
        if self.written.extend_from_slice(bytes).is_err() {
            self.failed = self.failed.saturating_add(1);
            return Err(StreamFailed);
        }
        Ok(bytes.len())
    }
}

impl Peek for LoopStream {
    /// Whether the answer was read and no request was written since: one that was written is
    /// answered as soon as it is waited for.
    fn is_quiet(&self) -> bool {
        self.at == self.answer.len() && self.written.is_empty()
    }
}
