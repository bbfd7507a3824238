//! Bytes that are used from the front.
ghost use Rattle.std.specs.Prelude.{◌≡◌, ◌++◌, ◌<◌, ◌≤◌, ◌↔◌, ℕ, List, [], length, drop, IsTrue};
ghost use Rattle.std.specs.Prelude.{IfOk, OnOk, OnErr};
ghost use Rattle.std.specs.Io.KnownBytes.{prepend_known, IsAtEnd};
ghost use Rattle.relay_sift.specs.Listing.{FailsOnce};

use crate::fault::SiftFault;
use relay_action::ByteIn;
use std::alloc::{AllocError, Global};
use std::marker::Model;

/// Bytes that are used from the front and added to at the end. Contracts see those that were not used
/// yet.
#[derive(Drop)]
pub(crate) struct Pending {
    alloc: Global,
    bytes: Vec<u8>,
    from: usize,
}

impl Model for Pending {
    ghost use Rattle.std.specs.Prelude.{ℕ, List, ◌≤◌, drop, vec_len};

    ghost Value = { List ℕ };

    ghost view = { λ p. drop p.from p.bytes.items };

    ghost invariant = { λ p. p.from ≤ vec_len p.bytes };
}

impl Pending {
    /// No bytes. It does not allocate.
    pub(crate) fn new(alloc: Global) -> Pending
        ensures { result ≡ [] }
    {
        Pending {
            alloc,
            bytes: Vec::new(alloc),
            from: 0,
        }
    }

    /// The bytes.
    pub(crate) fn held(&self) -> &[u8]
        ensures { result.now ≡ self.now }
    {
        &self.bytes[self.from..]
    }

    /// Whether there are none.
    pub(crate) fn is_empty(&self) -> bool
        ensures { IsTrue result ↔ (self.now ≡ []) }
    {
        self.held().is_empty()
    }

    /// Uses the first `count` bytes.
    pub(crate) fn skip(&mut self, count: usize)
        requires { count ≤ length self.old }
        ensures { self.new ≡ drop count self.old }
    {
        self.from += count;
    }

    // Lets go of the bytes that were used.
    fn compact(&mut self) -> Result<(), AllocError>
        ensures { self.new ≡ self.old }
    {
        if self.from == 0 {
            return Ok(());
        }
        let mut rest = Vec::new(self.alloc);
        rest.extend_from_slice(&self.bytes[self.from..])?;
        self.bytes = rest;
        self.from = 0;
        Ok(())
    }

    /// Adds bytes. `AllocError`: allocation failed, and none were added.
    pub(crate) fn add(&mut self, more: &[u8]) -> Result<(), AllocError>
        ensures ok { OnOk result (self.new ≡ self.old ++ more.now) }
        ensures err { OnErr result (self.new ≡ self.old) }
    {
        self.compact()?;
        self.bytes.extend_from_slice(more)
    }

    /// Reads once and adds what was read; `piece` is room for it. Returns the number of bytes, which
    /// is 0 at the end of the stream. After a fault nothing was read or added.
    pub(crate) fn fill<R: ByteIn>(
        &mut self,
        reader: &mut R,
        piece: &mut [u8],
    ) -> Result<usize, SiftFault>
        requires { 0 < length piece.old }
        ensures ok { OnOk result ((read : List ℕ) × (self.new ≡ self.old ++ read)
            × (R.left reader.old ≡ prepend_known read (R.left reader.new))) }
        ensures end { IfOk result (λ n. n ≡ 0 → IsAtEnd (R.left reader.new)) }
        ensures empty { IfOk result (λ n. self.new ≡ [] → n ≡ 0) }
        ensures err { OnErr result
            ((self.new ≡ self.old) × (R.left reader.new ≡ R.left reader.old)) }
        ensures piece { length piece.new ≡ length piece.old }
        ensures failed { FailsOnce result (R.failed reader.old) (R.failed reader.new) }
    {
        self.compact()?;
        self.bytes.reserve(piece.len())?;
        match reader.read(piece) {
            Ok(count) => {
                self.bytes.extend_from_slice(&piece[..count]).unwrap();
                Ok(count)
            }
            Err(_) => Err(SiftFault::Read),
        }
    }
}
