//! One bulk request against a stand-in index: the function behind `relay apply`.
ghost use Rattle.std.specs.Prelude.{◌≡◌, IfOk, IfErr};
ghost use Rattle.relay_commands.specs.Applies.{Applies, IsOutput, answer_lines};
ghost use Rattle.relay_commands.specs.Calls.{FailsOnceInApply};
ghost use Rattle.relay_commands.specs.Pieces.{IsAnswered, IsBodyFault, WritesOutput, failed_by};

use crate::body::read_body;
use itoa::Buffer;
use relay_action::{ByteIn, ByteOut, write_all};
use relay_index::{Index, Script};
use std::alloc::{AllocError, Global};
use thiserror::Error;

/// The maximum size of the body of a bulk request, in bytes.
pub const BODY_LIMIT: usize = 16_777_216;

/// Why a request was not answered. The text of a variant is what the program prints.
#[derive(Clone, Copy, Debug, PartialEq, Eq, Error)]
pub enum ApplyFault {
    /// The body has more than 16,777,216 bytes. Nothing is read beyond the first byte over the
    /// limit, and nothing was written.
    #[error("body too long")]
    BodyLong,
    /// A read failed. It is not retried, and nothing was written.
    #[error("read failed")]
    Read,
    /// A write failed after exactly the first `sent` bytes of the answer.
    #[error("write failed")]
    Write {
        /// The number of bytes that were written.
        sent: u64,
    },
    /// An allocation failed. Nothing was written.
    #[error("out of memory")]
    Memory,
}

/// Reads the body of a bulk request to its end, serves it with this index under the script, and
/// writes the status and the text of the answer, each with a line end. Nothing is written before
/// the whole body was served. A fault says how much was written; if an allocation failed while the
/// request was served, nothing was. A failed call of a stream is not retried.
pub fn apply<R: ByteIn, W: ByteOut>(
    alloc: Global,
    reader: &mut R,
    writer: &mut W,
    index: Index,
    script: Script,
) -> Result<(), ApplyFault>
    ensures applied { Applies index script (R.left reader.old) (R.left reader.new)
        (W.written writer.old) (W.written writer.new) result }
    ensures calls { FailsOnceInApply (R.failed reader.old) (R.failed reader.new)
        (W.failed writer.old) (W.failed writer.new) result }
{
    let out = answer(alloc, reader, index, script)?;
    send(writer, out.as_slice())
}

// Reads a body to its end, and returns the lines of the index's answer to it. The fault is
// `BodyLong`, `Read` or `Memory`.
fn answer<R: ByteIn>(
    alloc: Global,
    reader: &mut R,
    index: Index,
    script: Script,
) -> Result<Vec<u8>, ApplyFault>
    ensures ok { IfOk result (λ out. IsAnswered index script
        (R.left reader.old) (R.left reader.new) out.items) }
    ensures err { IfErr result (IsBodyFault (R.left reader.old) (R.left reader.new)) }
    ensures failed { R.failed reader.new ≡ failed_by result (R.failed reader.old) }
{
    let body = read_body(alloc, reader)?;
    output(alloc, body.as_slice(), index, script).map_err(|_| ApplyFault::Memory)
}

fn send<W: ByteOut>(writer: &mut W, out: &[u8]) -> Result<(), ApplyFault>
    ensures { WritesOutput (W.written writer.old) (W.written writer.new)
        (W.failed writer.old) (W.failed writer.new) out.now result }
{
    match write_all(writer, out) {
        Ok(()) => Ok(()),
        Err(sent) => Err(ApplyFault::Write { sent: sent as u64 }),
    }
}

// The lines of the index's answer to a body.
fn output(
    alloc: Global,
    body: &[u8],
    mut index: Index,
    mut script: Script,
) -> Result<Vec<u8>, AllocError>
    ensures { IfOk result (λ out. IsOutput index script body.now out.items) }
{
    match index.serve_body(alloc, body, &mut script) {
        Ok((status, text)) => answer_lines(alloc, status, text.as_bytes()),
        Err(_) => Err(AllocError),
    }
}

// The lines of an answer: its status and its text.
fn answer_lines(alloc: Global, status: u16, text: &[u8]) -> Result<Vec<u8>, AllocError>
    ensures { IfOk result (λ out. out.items ≡ answer_lines status text.now) }
{
    let mut digits = Buffer::new();
    let mut out = Vec::new(alloc);
    out.extend_from_slice(digits.format(status).as_bytes())?;
    out.push(b'\n')?;
    out.extend_from_slice(text)?;
    out.push(b'\n')?;
    Ok(out)
}
