//! What was read ahead of a stream.
ghost use Rattle.std.specs.Prelude.{◌≡◌, ◌≢◌, ◌<◌, ◌≤◌, ◌↔◌, [], length, drop};
ghost use Rattle.std.specs.Prelude.{vec_len, IsTrue, IfOk, IfErr, OnOk, OnErr};
ghost use Rattle.std.specs.Bool.{OnTrue, OnFalse};
ghost use Rattle.std.specs.Io.KnownBytes.{prepend_known, IsAtEnd};
ghost use Rattle.relay_ndjson.specs.Lines.{piece_limit, EndsLinesAt, HoldsFeedFrom};
ghost use Rattle.relay_ndjson.specs.Steps.{IsFillFault, failed_by};

use crate::kind::LineKind;
use memchr::memrchr;
use relay_action::ByteIn;
use std::alloc::{AllocError, Global};
use std::marker::Model;

/// The number of bytes to read at a time.
const PIECE: usize = 65_536;

/// What was read ahead of a stream. Contracts see the bytes that were not used yet. It does not
/// allocate before it is filled.
#[derive(Drop)]
pub struct Piece {
    alloc: Global,
    bytes: Vec<u8>,
    from: usize,
    to: usize,
    // Where the last line that ends in these bytes ends, or 0.
    ends: usize,
}

impl Model for Piece {
    ghost use Rattle.std.specs.Prelude.{ℕ, List, ◌≤◌, ◌-◌, take, drop, vec_len};

    ghost Value = { List ℕ };

    ghost view = { λ p. take (p.to - p.from) (drop p.from p.bytes.items) };

    ghost use Rattle.relay_ndjson.specs.Lines.{piece_limit, EndsLinesAt};

    ghost invariant = { λ p. (p.from ≤ p.to) × (p.to ≤ vec_len p.bytes)
        × (vec_len p.bytes ≤ piece_limit) × EndsLinesAt p.ends p.to p.bytes.items };
}

fn make_room(alloc: Global) -> Result<Vec<u8>, AllocError>
    ensures { IfOk result (λ bytes. vec_len bytes ≡ piece_limit) }
{
    vec![in alloc; 0; PIECE]
}

// Where the last line that ends in these bytes ends, or 0.
fn last_end(bytes: &[u8]) -> usize
    ensures { EndsLinesAt result (length bytes.now) bytes.now }
{
    match memrchr(b'\n', bytes) {
        Some(feed) => feed + 1,
        None => 0,
    }
}

impl Piece {
    /// A piece with nothing read.
    pub fn new(alloc: Global) -> Piece
        ensures { result ≡ [] }
    {
        Piece {
            alloc,
            bytes: Vec::new(alloc),
            from: 0,
            to: 0,
            ends: 0,
        }
    }

    /// The bytes that were not used yet.
    pub fn held(&self) -> &[u8]
        ensures { result.now ≡ self.now }
    {
        &self.bytes[self.from..self.to]
    }

    /// Whether all bytes were used.
    pub fn is_empty(&self) -> bool
        ensures { IsTrue result ↔ (self.now ≡ []) }
    {
        self.from == self.to
    }

    /// Whether a line ends at or after this position of the unused bytes. It looks at no byte: the
    /// last end was found when they were read.
    pub fn holds_feed_from(&self, start: usize) -> bool
        ensures { IsTrue result ↔ HoldsFeedFrom start self.now }
    {
        start < self.ends.saturating_sub(self.from)
    }

    /// Uses the first `count` bytes.
    pub fn skip(&mut self, count: usize)
        requires { count ≤ length self.old }
        ensures { self.new ≡ drop count self.old }
    {
        self.from += count;
    }

    // Reads a piece if none is left.
    #[tactic(auto, using(crate::proofs::Pieces::prepend_nothing))]
    fn fill<R: ByteIn>(&mut self, reader: &mut R) -> Result<(), LineKind>
        requires { self.old ≡ [] }
        ensures left { R.left reader.old ≡ prepend_known self.new (R.left reader.new) }
        ensures end { OnOk result (self.new ≡ [] → IsAtEnd (R.left reader.old)) }
        ensures err { IfErr result IsFillFault }
        ensures none { OnErr result (self.new ≡ []) }
        ensures within { length self.new ≤ piece_limit }
        ensures failed { R.failed reader.new ≡ failed_by result (R.failed reader.old) }
    {
        if self.bytes.is_empty() {
            match make_room(self.alloc) {
                Ok(bytes) => self.bytes = bytes,
                Err(_) => return Err(LineKind::Memory),
            }
        }
        self.from = 0;
        self.to = 0;
        self.ends = 0;
        match reader.read(self.bytes.as_mut_slice()) {
            Ok(count) => {
                self.to = count;
                self.ends = last_end(&self.bytes[..count]);
                Ok(())
            }
            Err(_) => Err(LineKind::Read),
        }
    }

    /// Reads a piece if none is left, and returns whether there are bytes now. If not, the stream
    /// has ended.
    pub fn refill<R: ByteIn>(&mut self, reader: &mut R) -> Result<bool, LineKind>
        requires { length self.old ≤ piece_limit }
        ensures left { prepend_known self.old (R.left reader.old)
            ≡ prepend_known self.new (R.left reader.new) }
        ensures found { IfOk result (λ found. OnTrue found (self.new ≢ [])) }
        ensures end { IfOk result
            (λ found. OnFalse found (IsAtEnd (prepend_known self.new (R.left reader.new)))) }
        ensures err { IfErr result IsFillFault }
        ensures none { OnErr result (self.new ≡ []) }
        ensures within { length self.new ≤ piece_limit }
        ensures failed { R.failed reader.new ≡ failed_by result (R.failed reader.old) }
    {
        if !self.is_empty() {
            return Ok(true);
        }
        self.fill(reader)?;
        Ok(!self.is_empty())
    }
}
