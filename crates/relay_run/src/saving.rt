//! What is said of the file in which the reports of a run are saved.
ghost use Rattle.std.specs.Prelude.{◌≡◌, IfOk, OnOk, OnErr};
ghost use Rattle.relay_run.specs.Saying.{IsSaid, SaysSaved, file_failed_text};

use crate::faults::worse;
use crate::saying::say;
use relay_action::ByteOut;
use relay_words::Exit;
use std::alloc::{AllocError, Global};

/// Says on `err`, for the file with this name, if a write of a report failed. Returns the exit
/// status of a program that would otherwise have ended with `exit`. `AllocError`: allocation failed,
/// and nothing was said.
pub fn say_saved<E: ByteOut>(
    alloc: Global,
    exit: Exit,
    name: &str,
    unsaved: bool,
    err: &mut E,
) -> Result<Exit, AllocError>
    ensures ok { IfOk result (λ end. SaysSaved name.now unsaved exit
        (E.written err.old, E.failed err.old) (E.written err.new, E.failed err.new) end) }
    ensures err { OnErr result ((E.written err.new ≡ E.written err.old)
        × (E.failed err.new ≡ E.failed err.old)) }
{
    if !unsaved {
        return Ok(exit);
    }
    let fault = failed_text(alloc, name, b"write")?;
    let _ = say(err, &fault);
    Ok(worse(exit, Exit::Device))
}

/// Writes that this failed for the file with this name, and returns the exit status.
pub(crate) fn say_failed<E: ByteOut>(
    alloc: Global,
    name: &str,
    what: &[u8],
    err: &mut E,
) -> Result<Exit, AllocError>
    ensures said { OnOk result (IsSaid (file_failed_text name.now what.now)
        (E.written err.old, E.failed err.old) (E.written err.new, E.failed err.new)) }
    ensures exit { IfOk result (λ end. end ≡ Exit.Device) }
{
    let fault = failed_text(alloc, name, what)?;
    let _ = say(err, &fault);
    Ok(Exit::Device)
}

// The message about a file for which this failed.
fn failed_text(alloc: Global, name: &str, what: &[u8]) -> Result<Vec<u8>, AllocError>
    ensures { IfOk result (λ text. text.items ≡ file_failed_text name.now what.now) }
{
    let mut text = Vec::new(alloc);
    text.extend_from_slice(name.as_bytes())?;
    text.extend_from_slice(b": ")?;
    text.extend_from_slice(what)?;
    text.extend_from_slice(b" failed\n")?;
    Ok(text)
}
