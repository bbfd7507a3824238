//! A stand-in index that serves connections: the function behind `relay stub`.
ghost use Rattle.std.specs.Prelude.{◌≡◌, MatchResult};
ghost use Rattle.relay_stub.specs.Stub.{IsOutput, NoOutput, Stubs, WritesListing};
ghost use Rattle.relay_stub.specs.Stub.{exit_of_stub, failed_by};

use crate::listing::listing;
use crate::stub::{ServeError, stub_serve};
use relay_action::{ByteIn, ByteOut, write_all};
use relay_http::Listen;
use relay_index::{Index, Script};
use relay_words::Exit;
use std::alloc::Global;
use thiserror::Error;

/// Why not all connections were served, or not everything was written. The text of a variant is
/// what the program prints.
#[derive(Clone, Copy, Debug, PartialEq, Eq, Error)]
pub enum StubFault {
    /// A connection could not be accepted. Nothing was written.
    #[error("accept failed")]
    Accept,
    /// A write failed. It is not retried; exactly the first `sent` bytes of the listing were
    /// written.
    #[error("write failed")]
    Write {
        /// The number of bytes that were written.
        sent: u64,
    },
    /// An allocation failed. Nothing was written.
    #[error("out of memory")]
    Memory,
}

/// Serves one request on each of `requests` connections with this index under the script, and then
/// writes a line for each write that the index has applied, as [`listing`] makes them. Nothing is
/// written before all connections were served.
///
/// [`listing`]: crate::listing::listing
pub fn stub<S: ByteIn + ByteOut + Drop, L: Listen<S>, W: ByteOut>(
    alloc: Global,
    listener: &mut L,
    requests: u64,
    index: Index,
    script: Script,
    writer: &mut W,
) -> Result<(), StubFault>
    ensures stubs { Stubs requests index script (L.shows listener.old) (L.shows listener.new)
        (W.written writer.old) (W.written writer.new) result }
    ensures failed { W.failed writer.new ≡ failed_by result (W.failed writer.old) }
{
    let text = output(alloc, listener, requests, index, script)?;
    send(writer, text.as_slice())
}

// Serves the connections, and returns the listing of the index.
fn output<S: ByteIn + ByteOut + Drop, L: Listen<S>>(
    alloc: Global,
    listener: &mut L,
    requests: u64,
    mut index: Index,
    mut script: Script,
) -> Result<Vec<u8>, StubFault>
    ensures { MatchResult result
        (λ text.
        IsOutput requests index script (L.shows listener.old) (L.shows listener.new) text.items)
        (NoOutput requests index script (L.shows listener.old) (L.shows listener.new)) }
{
    match stub_serve(alloc, listener, requests, &mut index, &mut script) {
        Ok(()) => match listing(alloc, &index) {
            Ok(text) => Ok(text),
            Err(_) => Err(StubFault::Memory),
        },
        Err(ServeError::Accept) => Err(StubFault::Accept),
        Err(ServeError::Memory) => Err(StubFault::Memory),
    }
}

fn send<W: ByteOut>(writer: &mut W, text: &[u8]) -> Result<(), StubFault>
    ensures { WritesListing (W.written writer.old) (W.written writer.new)
        (W.failed writer.old) (W.failed writer.new) text.now result }
{
    match write_all(writer, text) {
        Ok(()) => Ok(()),
        Err(sent) => Err(StubFault::Write { sent: sent as u64 }),
    }
}

/// The exit status of `relay stub` after a fault.
pub fn exit_of_stub(fault: StubFault) -> Exit
    ensures { result ≡ exit_of_stub fault }
{
    match fault {
        StubFault::Accept | StubFault::Write { .. } => Exit::Device,
        StubFault::Memory => Exit::Memory,
    }
}
