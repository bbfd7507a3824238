//! An epoch from the counter, with repeated tries.
ghost use Rattle.std.specs.Prelude.{◌≡◌, ◌⊎◌, ℕ, ◌<◌, Err, IsTrue, IsFalse};
ghost use Rattle.relay_action.specs.Streams.{one_more};
ghost use Rattle.relay_epoch.specs.Asking.{Leases, Tried};
ghost use Rattle.relay_epoch.specs.Faults.{may_pass};
ghost use Rattle.relay_epoch.specs.Messages.{put_message};

use crate::asking::ask;
use crate::fault::EpochFault;
use crate::message::put_message;
use relay_action::{ByteIn, ByteOut};
use relay_http::Dial;
use std::alloc::Global;

/// How long to go on trying.
pub trait Patience {
    /// The maximum number of further tries that it allows.
    ghost left: { Self → ℕ };

    /// It is over: nothing is tried again.
    ghost over: { Self → Type 0 };

    /// Waits for a while, and returns whether to try once more.
    fn again(&mut self) -> bool
        ensures fewer { IsTrue result → left self.new < left self.old }
        ensures over { IsFalse result → over self.new };
}

// Asks once, on a stream of its own.
fn try_once<S: ByteIn + ByteOut + Drop, D: Dial<S>>(
    alloc: Global,
    dial: &mut D,
    message: &[u8],
) -> Result<u32, EpochFault>
    ensures tried { Tried S.left S.written S.failed message.now result }
    ensures call { D.dialled dial.new ≡ one_more (D.dialled dial.old) }
{
    match dial.dial() {
        Ok(stream) => {
            let (outcome, stream) = ask(alloc, stream, message);
            drop(stream);
            outcome
        }
        Err(_) => Err(EpochFault::Unreachable),
    }
}

// Asks until there is an epoch, a fault that does not pass, or no patience left.
fn try_all<S: ByteIn + ByteOut + Drop, D: Dial<S>, P: Patience>(
    alloc: Global,
    dial: &mut D,
    patience: &mut P,
    message: &[u8],
) -> Result<u32, EpochFault>
    ensures leases { Leases S.left S.written S.failed message.now (D.dialled dial.old)
        (D.dialled dial.new) result }
    ensures over { IsTrue (may_pass result) → P.over patience.new }
{
    'tries: loop {
        let outcome = try_once(alloc, dial, message);
        if !may_pass(&outcome) {
            return outcome;
        }
        if !patience.again() {
            return outcome;
        }
    }
}

// Whether there is a fault that may pass.
fn may_pass(outcome: &Result<u32, EpochFault>) -> bool
    ensures { result ≡ may_pass outcome.now }
{
    match outcome {
        Ok(_) => false,
        Err(fault) => fault.is_passing(),
    }
}

/// An epoch: writes the counter document, whose target at this host is given, with this body, and
/// returns its version. If nothing is reached, no whole answer arrives, or the status is 429, 502,
/// 503 or 504, it tries again on another stream as long as its patience lasts; each try may raise
/// the counter. The fault is that of the last try.
pub fn take_epoch<S: ByteIn + ByteOut + Drop, D: Dial<S>, P: Patience>(
    alloc: Global,
    dial: &mut D,
    patience: &mut P,
    host: &str,
    target: &str,
    body: &str,
) -> Result<u32, EpochFault>
    // The result is that of the last try. Each try before it had a fault that may pass, and each is
    // one request on a stream of its own. If the request could not be allocated, nothing is tried.
    ensures leases { Leases S.left S.written S.failed (put_message host.now target.now body.now)
        (D.dialled dial.old) (D.dialled dial.new) result ⊎ ((result ≡ Err EpochFault.Memory)
        × (D.dialled dial.new ≡ D.dialled dial.old)) }
    // A fault that may pass is returned only once the patience is over.
    ensures over { IsTrue (may_pass result) → P.over patience.new }
{
    match put_message(alloc, host, target, body) {
        Ok(message) => try_all(alloc, dial, patience, message.as_slice()),
        Err(_) => Err(EpochFault::Memory),
    }
}
