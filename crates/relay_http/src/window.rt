//! The bytes that were read ahead of a stream.
ghost use Rattle.std.specs.Prelude.{◌≡◌, ◌+◌, ◌-◌, ◌<◌, ◌≤◌, ℕ, List, [], length, take, drop};
ghost use Rattle.std.specs.Prelude.{IfOk, OnErr, is_ok, if◌then◌else◌};
ghost use Rattle.relay_action.specs.Streams.{one_more};
ghost use Rattle.relay_http.specs.Window.{window_size};
ghost use Rattle.relay_http.specs.Steps.{Grown};

use relay_action::{ByteIn, StreamFailed};
use std::alloc::{AllocError, Global};
use std::marker::Model;

/// The maximum number of bytes in a window.
pub const WINDOW_SIZE: usize = 16_384;

/// The bytes that were read ahead, at most 16,384, for which `new` reserves room.
#[derive(Drop)]
pub struct Window {
    bytes: Vec<u8>,
    from: usize,
    to: usize,
}

impl Model for Window {
    ghost use Rattle.std.specs.Prelude.{◌≡◌, ◌≤◌, ◌-◌, ℕ, take, drop, vec_len, List};
    ghost use Rattle.relay_http.specs.Window.{window_size};

    ghost Value = { List ℕ };

    ghost view = { λ w. take (w.to - w.from) (drop w.from w.bytes.items) };

    ghost invariant = { λ w. (w.from ≤ w.to) × (w.to ≤ window_size)
        × (vec_len w.bytes ≡ window_size) };
}

impl Window {
    /// An empty window.
    pub fn new(alloc: Global) -> Result<Window, AllocError>
        ensures { IfOk result (λ w. w ≡ []) }
    {
        Ok(Window {
            bytes: vec![in alloc; 0; WINDOW_SIZE]?,
            from: 0,
            to: 0,
        })
    }

    /// The bytes.
    pub fn as_slice(&self) -> &[u8]
        ensures value { result.now ≡ self.now }
        ensures bound { length result.now ≤ window_size }
    {
        &self.bytes[self.from..self.to]
    }

    /// Drops the first `count` bytes, which were used.
    pub fn skip(&mut self, count: usize)
        requires { count ≤ length self.old }
        ensures { self.new ≡ drop count self.old }
    {
        self.from += count;
    }

    /// Reads more bytes. 0 means the end of the stream.
    pub fn fill<S: ByteIn>(&mut self, stream: &mut S) -> Result<usize, StreamFailed>
        requires { length self.old < window_size }
        ensures bytes { IfOk result
            (Grown self.old self.new (S.left stream.old) (S.left stream.new)) }
        ensures bound { length self.new ≤ window_size }
        ensures err { OnErr result
            ((self.new ≡ self.old) × (S.left stream.new ≡ S.left stream.old)) }
        ensures count { S.failed stream.new
            ≡ (if is_ok result then S.failed stream.old else one_more (S.failed stream.old)) }
        ensures written { S.written stream.new ≡ S.written stream.old }
    {
        if self.from > 0 {
            move_to_front(self.bytes.as_mut_slice(), self.from, self.to);
            self.to -= self.from;
            self.from = 0;
        }
        let count = read_behind(stream, self.bytes.as_mut_slice(), self.to, WINDOW_SIZE)?;
        self.to += count;
        Ok(count)
    }
}

fn move_to_front(bytes: &mut [u8], from: usize, to: usize)
    requires { (from ≤ to) × (to ≤ length bytes.old) }
    ensures front { take (to - from) bytes.new ≡ take (to - from) (drop from bytes.old) }
    ensures length { length bytes.new ≡ length bytes.old }
{
    bytes.copy_within(from..to, 0);
}

// Reads bytes into the room from `at` to `to`.
pub(crate) fn read_behind<S: ByteIn>(
    stream: &mut S,
    bytes: &mut [u8],
    at: usize,
    to: usize,
) -> Result<usize, StreamFailed>
    requires { (at < to) × (to ≤ length bytes.old) }
    ensures bound { IfOk result (λ n. at + n ≤ to) }
    ensures bytes { IfOk result
        (λ n. Grown (take at bytes.old) (take (at + n) bytes.new) (S.left stream.old)
        (S.left stream.new) n) }
    ensures length { length bytes.new ≡ length bytes.old }
    ensures err { OnErr result
        ((take at bytes.new ≡ take at bytes.old) × (S.left stream.new ≡ S.left stream.old)) }
    ensures count { S.failed stream.new
        ≡ (if is_ok result then S.failed stream.old else one_more (S.failed stream.old)) }
    ensures written { S.written stream.new ≡ S.written stream.old }
{
    stream.read(&mut bytes[at..to])
}
