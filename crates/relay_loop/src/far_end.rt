//! The stand-in index at the far end of streams in memory.
ghost use Rattle.std.specs.Prelude.{◌≡◌, ◌++◌, ◌∷◌, [], OnOk, OnErr};
ghost use Rattle.relay_loop.specs.Loops.{new_loop, is_lost};

use crate::serving::leave;
use crate::stream::LoopStream;
use relay_http::{Dial, DialFault};
use relay_index::{Index, Script};
use relay_wires::Peer;
use std::alloc::{AllocError, Global};
use std::marker::Model;

/// Opens streams in memory, with nothing to read. It never fails.
#[derive(Drop)]
pub struct LoopDial {
    alloc: Global,
    dialled: u64,
}

impl LoopDial {
    /// A dial that was not called yet.
    pub fn new(alloc: Global) -> LoopDial {
        LoopDial { alloc, dialled: 0 }
    }
}

impl Dial<LoopStream> for LoopDial {
    ghost failed = { λ d. 0 };

    ghost dialled = { λ d. d.dialled };

    fn dial(&mut self) -> Result<LoopStream, DialFault> {
        self.dialled = self.dialled.saturating_add(1);
        Ok(LoopStream::new(self.alloc))
    }
}

/// The stand-in index at the far end of streams in memory. A request that was written is served
/// when its reply is awaited, item by item under a script, and its answer is left on the stream,
/// which is kept for the next request.
///
/// It is described: an outside fits it if it has the versions and the lists of the index.
#[derive(Drop)]
pub struct LoopEnd {
    alloc: Global,
    index: Index,
    script: Script,
    lost: Vec<u64>,
}

impl Model for LoopEnd {
    ghost use Rattle.relay_loop.specs.Loops.{Loop};

    ghost Value = { Loop };

    ghost view = { λ w. record { index = w.index; script = w.script; lost = w.lost.items } };
}

impl LoopEnd {
    /// This index, whose items run under this script. No reply is to be lost.
    pub fn new(alloc: Global, index: Index, script: Script) -> LoopEnd
        ensures { result ≡ new_loop index script }
    {
        LoopEnd {
            alloc,
            index,
            script,
            lost: Vec::new(alloc),
        }
    }

    /// Loses the reply to the request with this number: the request is run, and the answer of the
    /// index is dropped. `AllocError`: allocation failed, and nothing changed.
    pub fn lose(&mut self, number: u64) -> Result<(), AllocError>
        ensures noted { OnOk result
            (self.new ≡ record self.old { lost = self.old.lost ++ number ∷ [] }) }
        ensures unchanged { OnErr result (self.new ≡ self.old) }
    {
        self.lost.push(number)?;
        Ok(())
    }

    /// The index.
    pub fn index(&self) -> &Index
        ensures { result.now ≡ self.now.index }
    {
        &self.index
    }

    fn is_lost(&self, number: u64) -> bool
        ensures { result ≡ is_lost number self.now }
    {
        self.lost.iter().any(|n| *n == number)
    }
}

impl Peer<LoopStream> for LoopEnd {
    ghost use Rattle.std.specs.Prelude.{true};
    ghost use Rattle.relay_loop.specs.Loops.{DoesLoop, FitsLoop};

    ghost describes = { λ p. true };

    ghost fits = { FitsLoop };

    ghost does = { DoesLoop };

    fn hear(&mut self, number: u64, stream: LoopStream) -> Result<LoopStream, AllocError> {
        let lost = self.is_lost(number);
        let bytes = stream.into_written();
        let left = leave(self.alloc, bytes, lost, &mut self.index, &mut self.script)?;
        Ok(LoopStream::with_answer(self.alloc, left))
    }

    ghost keeps_sent = { λ p o ws x. record { versions = x.versions; lists = x.lists } };

    ghost keeps_answered = { λ p o place a x. record { versions = x.versions; lists = x.lists } };
}
