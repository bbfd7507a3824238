//! One connection after another.
ghost use Rattle.std.specs.Prelude.{◌≡◌, ◌+◌, ◌≤◌, OnOk};
ghost use Rattle.relay_action.specs.Streams.{most};
ghost use Rattle.relay_index.specs.Serving.{under};
ghost use Rattle.relay_stub.specs.Visits.{Serves, ServesNext};

use crate::connection::serve_connection;
use relay_action::{ByteIn, ByteOut};
use relay_http::Listen;
use relay_index::{Index, Script};
use std::alloc::Global;
use thiserror::Error;

/// Why fewer connections were served than requested.
#[derive(Clone, Copy, Debug, PartialEq, Eq, Error)]
pub enum ServeError {
    /// A connection could not be accepted. It is not tried again.
    #[error("accept failed")]
    Accept,
    /// An allocation for a connection or for running its request failed. What ran before is kept.
    #[error("out of memory")]
    Memory,
}

/// Serves one request on each of `requests` connections, one connection after the other, as
/// [`serve_connection`] does. A connection whose request is invalid, or whose answer could not be
/// written, counts like any other.
///
/// The index and the script go through the requests in order. `Accept`: a connection could not be
/// accepted, and those before it were served. `Memory`: an allocation for a connection or for
/// running its request failed; that connection and those before it were given back.
///
/// [`serve_connection`]: crate::serve_connection
pub fn stub_serve<S: ByteIn + ByteOut + Drop, L: Listen<S>>(
    alloc: Global,
    listener: &mut L,
    requests: u64,
    index: &mut Index,
    script: &mut Script,
) -> Result<(), ServeError>
    ensures served { Serves requests (L.shows listener.old) (under index.old script.old)
        (L.shows listener.new) (under index.new script.new) result }
    // Exactly this many connections were accepted.
    ensures accepted { OnOk result ((L.shows listener.old).accepted + requests ≤ most
        → (L.shows listener.new).accepted ≡ (L.shows listener.old).accepted + requests) }
{
    let mut served = 0;
    while served < requests {
        serve_next(alloc, listener, index, script)?;
        served += 1;
    }
    Ok(())
}

// Serves the next connection.
fn serve_next<S: ByteIn + ByteOut + Drop, L: Listen<S>>(
    alloc: Global,
    listener: &mut L,
    index: &mut Index,
    script: &mut Script,
) -> Result<(), ServeError>
    ensures { ServesNext (L.shows listener.old) (under index.old script.old)
        (L.shows listener.new) (under index.new script.new) result }
{
    let Ok(stream) = listener.accept() else {
        return Err(ServeError::Accept);
    };
    let (result, stream) = serve_connection(alloc, stream, index, script);
    listener.close(stream);
    match result {
        Ok(()) => Ok(()),
        Err(_) => Err(ServeError::Memory),
    }
}
