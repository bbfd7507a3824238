//! The content of a body, while it arrives.
ghost use Rattle.std.specs.Prelude.{◌≡◌, ◌+◌, ◌<◌, ◌≤◌, ◌++◌, [], length, take, vec_len, IfOk};
ghost use Rattle.std.specs.Prelude.{IfErr, OnOk, if◌then◌else◌};
ghost use Rattle.relay_action.specs.Streams.{one_more};
ghost use Rattle.relay_http.specs.Forms.{IsOutside};
ghost use Rattle.relay_http.specs.Connection.{is_read};
ghost use Rattle.relay_http.specs.Steps.{Grown};

use crate::fault::HttpFault;
use crate::window::read_behind;
use relay_action::ByteIn;
use std::alloc::{AllocError, Global};
use std::marker::Model;

/// The maximum number of bytes by which the room grows ahead of the content.
pub const PIECE: usize = 65_536;

/// The content of a body so far, in a vector with some spare room. The room grows with what has
/// arrived, and never straight to the length that a head announces.
#[derive(Drop)]
pub struct Content {
    bytes: Vec<u8>,
    filled: usize,
}

impl Model for Content {
    ghost use Rattle.std.specs.Prelude.{◌≤◌, List, ℕ, take, vec_len};

    ghost Value = { List ℕ };

    ghost view = { λ c. take c.filled c.bytes.items };

    ghost invariant = { λ c. c.filled ≤ vec_len c.bytes };
}

impl Content {
    /// An empty content.
    pub fn new(alloc: Global) -> Content
        ensures { result ≡ [] }
    {
        Content {
            bytes: Vec::new(alloc),
            filled: 0,
        }
    }

    /// The number of bytes so far.
    pub fn len(&self) -> usize
        ensures { result ≡ length self.now }
    {
        self.filled
    }

    /// Adds bytes at the end.
    pub fn append(&mut self, bytes: &[u8]) -> Result<(), AllocError>
        ensures { OnOk result (self.new ≡ self.old ++ bytes.now) }
    {
        self.bytes.truncate(self.filled);
        let done = self.bytes.extend_from_slice(bytes);
        self.filled = self.bytes.len();
        done
    }

    /// Reads at most `most` bytes of a stream, and adds them at the end. 0 means the end of the
    /// stream.
    pub fn fill<S: ByteIn>(&mut self, stream: &mut S, most: usize) -> Result<usize, HttpFault>
        requires { 0 < most }
        ensures bytes { IfOk result
            (Grown self.old self.new (S.left stream.old) (S.left stream.new)) }
        ensures bound { IfOk result (λ n. n ≤ most) }
        ensures err { IfErr result IsOutside }
        ensures count { S.failed stream.new
            ≡ (if is_read result then one_more (S.failed stream.old) else S.failed stream.old) }
        ensures written { S.written stream.new ≡ S.written stream.old }
    {
        make_room(&mut self.bytes, self.filled, most.min(PIECE)).map_err(|_| HttpFault::Memory)?;
        let to = self.filled + most.min(self.bytes.len() - self.filled);
        let count = read_behind(stream, self.bytes.as_mut_slice(), self.filled, to).map_err(
            |_| HttpFault::Read,
        )?;
        self.filled += count;
        Ok(count)
    }

    /// The bytes.
    pub fn into_vec(self) -> Vec<u8>
        ensures { result.items ≡ self }
    {
        let mut bytes = self.bytes;
        bytes.truncate(self.filled);
        bytes
    }
}

// Makes room after the first bytes, if there is none.
fn make_room(bytes: &mut Vec<u8>, filled: usize, more: usize) -> Result<(), AllocError>
    requires filled { filled ≤ vec_len bytes.old }
    requires more { (0 < more) × (more ≤ PIECE) }
    ensures room { OnOk result (filled < vec_len bytes.new) }
    ensures same { take filled bytes.new.items ≡ take filled bytes.old.items }
    ensures longer { vec_len bytes.old ≤ vec_len bytes.new }
{
    if filled < bytes.len() {
        return Ok(());
    }
    bytes.resize(filled + more, 0)
}
