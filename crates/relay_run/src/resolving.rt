//! Looking up the address of the index.
ghost use Rattle.std.specs.Prelude.{◌≡◌, IfOk, OnOk};
ghost use Rattle.relay_run.specs.Resolving.{unknown_text};
ghost use Rattle.relay_run.specs.Saying.{IsSaid};

use crate::saying::say;
use relay_action::ByteOut;
use relay_common::leasing::Seconds;
use relay_epoch::Patience;
use relay_words::Exit;
use std::alloc::{AllocError, Global};
use std::net::ToSocketAddrs;

/// Whether the host of an address, `HOST:PORT`, is known. A look-up that fails is repeated each
/// second, until this many seconds have passed. Nothing is connected.
pub(crate) fn is_known(host: &HostRuntime, address: &str, patience: u32) -> bool {
    let mut waiting = Seconds::new(*host, patience);
    'tries: for _ in 0..patience as u64 + 1 {
        if address.to_socket_addrs(host).is_ok() {
            return true;
        }
        if !waiting.again() {
            return false;
        }
    }
    false
}

/// Writes that the host of this address is unknown, and returns the exit status.
pub(crate) fn say_unknown<E: ByteOut>(
    alloc: Global,
    address: &str,
    err: &mut E,
) -> Result<Exit, AllocError>
    ensures said { OnOk result (IsSaid (unknown_text address.now)
        (E.written err.old, E.failed err.old) (E.written err.new, E.failed err.new)) }
    ensures exit { IfOk result (λ end. end ≡ Exit.Device) }
{
    let mut text = Vec::new(alloc);
    text.extend_from_slice(address.as_bytes())?;
    text.extend_from_slice(b": unknown host\n")?;
    let _ = say(err, &text);
    Ok(Exit::Device)
}
