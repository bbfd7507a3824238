//! Why there is no epoch.
ghost use Rattle.std.specs.Prelude.{◌≡◌, ◌++◌, IfOk, OnOk, codes};
ghost use Rattle.std.specs.Fmt.{decimal};
ghost use Rattle.relay_epoch.specs.Faults.{after_status, fault_text, fault_words, is_passing};

use itoa::Buffer;
use relay_action::Text;
use std::alloc::{AllocError, Global};

/// Why there is no epoch.
#[derive(Debug, Drop, PartialEq, Eq)]
pub enum EpochFault {
    /// No connection could be made, or no whole answer arrived. The counter may have been raised.
    Unreachable,
    /// The status of the answer is neither 200 nor 201.
    Status {
        /// The status.
        status: u16,
        /// The type of the error in the answer; empty if it states none.
        kind: Text,
    },
    /// The document was written, and the answer states no version from 1 on.
    NoVersion,
    /// The version is above the last epoch.
    Spent,
    /// An allocation failed.
    Memory,
}

impl EpochFault {
    /// Whether the fault may pass: nothing was reached, or the status is one after which the relay
    /// repeats a request.
    pub fn is_passing(&self) -> bool
        ensures { result ≡ is_passing self.now }
    {
        match self {
            EpochFault::Unreachable => true,
            EpochFault::Status { status, .. } => matches!(*status, 429 | 502 | 503 | 504),
            _ => false,
        }
    }
}

// Adds the type of an error after a status, if it is not empty.
fn add_kind(text: &mut Vec<u8>, kind: &str) -> Result<(), AllocError>
    ensures { OnOk result (text.new.items ≡ text.old.items ++ after_status kind.now) }
{
    if kind.is_empty() {
        return Ok(());
    }
    text.extend_from_slice(b" ")?;
    text.extend_from_slice(kind.as_bytes())
}

// Adds the status of an answer and the type of its error.
fn add_status(text: &mut Vec<u8>, status: u16, kind: &str) -> Result<(), AllocError>
    ensures { OnOk result (text.new.items
        ≡ text.old.items ++ ((codes "status " ++ decimal status) ++ after_status kind.now)) }
{
    let mut digits = Buffer::new();
    text.extend_from_slice(b"status ")?;
    text.extend_from_slice(digits.format(status).as_bytes())?;
    add_kind(text, kind)
}

// Adds what a fault is called.
fn add_words(text: &mut Vec<u8>, fault: &EpochFault) -> Result<(), AllocError>
    ensures { OnOk result (text.new.items ≡ text.old.items ++ fault_words fault.now) }
{
    match fault {
        EpochFault::Unreachable => text.extend_from_slice(b"unreachable"),
        EpochFault::Status { status, kind } => add_status(text, *status, kind.as_str()),
        EpochFault::NoVersion => text.extend_from_slice(b"no version in the answer"),
        EpochFault::Spent => text.extend_from_slice(b"spent"),
        EpochFault::Memory => text.extend_from_slice(b"out of memory"),
    }
}

/// The line that the program prints for a fault: `epoch: unreachable`, `epoch: status 403
/// security_exception`, `epoch: no version in the answer`, `epoch: spent` or `epoch: out of memory`,
/// with a line feed. `AllocError`: allocation failed.
pub fn fault_text(alloc: Global, fault: &EpochFault) -> Result<Vec<u8>, AllocError>
    ensures { IfOk result (λ text. text.items ≡ fault_text fault.now) }
{
    let mut text = Vec::new(alloc);
    text.extend_from_slice(b"epoch: ")?;
    add_words(&mut text, fault)?;
    text.extend_from_slice(b"\n")?;
    Ok(text)
}
