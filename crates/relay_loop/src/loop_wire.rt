//! A wire over HTTP to the stand-in index, within one process.
ghost use Rattle.std.specs.Prelude.{◌≡◌, [], IfOk};
ghost use Rattle.relay_loop.specs.Loops.{Opens};

use crate::far_end::{LoopDial, LoopEnd};
use crate::stream::LoopStream;
use relay_wires::HttpWire;
use std::alloc::{AllocError, Global};

/// The wire over HTTP, to the stand-in index within one process.
pub type LoopWire = HttpWire<LoopStream, LoopDial, LoopEnd>;

/// A wire to this index, with at most `max` requests outstanding. An outside in which nothing was
/// sent fits it if it has the versions and the lists of the index. `AllocError`: an allocation
/// failed.
pub fn wire_to(alloc: Global, end: LoopEnd, max: u32) -> Result<LoopWire, AllocError>
    ensures begun { IfOk result (λ w. (w.out ≡ []) × (w.peer ≡ end)) }
    ensures opens { IfOk result Opens }
{
    let host = String::from_str(alloc, "loop")?;
    HttpWire::new(alloc, LoopDial::new(alloc), end, host, max)
}
