//! Bulk text of writes.
ghost use Rattle.std.specs.Prelude.{◌≡◌, ◌++◌, IfOk, OnOk, OnErr, codes, decimal};
ghost use Rattle.relay_ndjson.specs.Bulk.{action_text, line_end, source_line, write_text};
ghost use Rattle.relay_ndjson.specs.Bulk.{text_of, opening, Begins, ActionLinesReadBack};
ghost use Rattle.relay_ndjson.specs.Escapes.{EscapesByTable};
ghost use Rattle.relay_ndjson.specs.Sends.{AppendsFirst, WritesText, FailsOnWrite};

use crate::quoted::{between_quotes, escape_of};
use itoa::Buffer;
use relay_action::{Action, ByteOut, Write, write_all};
use std::alloc::{AllocError, Global};
use thiserror::Error;

/// Why a text was not written in full.
#[derive(Clone, Copy, Debug, PartialEq, Eq, Error)]
pub enum TextFault {
    /// A write to the stream failed after exactly the first `sent` bytes of the text, which are
    /// fewer than all.
    #[error("write failed")]
    Write {
        /// The number of bytes that were written.
        sent: u64,
    },
    /// An allocation for the text failed, and nothing was written.
    #[error("out of memory")]
    Memory,
}

/// Appends the lines of a write to a text: the action line, and for an index action the source.
/// `AllocError`: allocation failed, and the text is unchanged.
pub fn append_write(alloc: Global, text: &mut Vec<u8>, write: &Write) -> Result<(), AllocError>
    ensures ok { OnOk result (text.new.items ≡ text.old.items ++ write_text write.now) }
    ensures err { OnErr result (text.new.items ≡ text.old.items) }
{
    let length = text.len();
    let done = append_lines(alloc, text, write);
    if done.is_err() {
        text.truncate(length);
    }
    done
}

/// Appends the action line of a write, with its line end, but not the source: a caller can then
/// write a long source without copying it. `AllocError`: allocation failed, and the text is
/// unchanged.
pub fn append_action_line(
    alloc: Global,
    text: &mut Vec<u8>,
    write: &Write,
) -> Result<(), AllocError>
    ensures ok { OnOk result
        (text.new.items ≡ text.old.items ++ (action_text write.now ++ line_end)) }
    ensures err { OnErr result (text.new.items ≡ text.old.items) }
{
    let length = text.len();
    let done = append_line(alloc, text, write);
    if done.is_err() {
        text.truncate(length);
    }
    done
}

/// Appends the lines of these writes, one write after another. `AllocError`: allocation failed, and
/// the lines of the first few writes, fewer than all, were appended.
pub fn append_bulk(text: &mut Vec<u8>, writes: &[Write]) -> Result<(), AllocError>
    ensures ok { OnOk result (text.new.items ≡ text.old.items ++ text_of writes.now) }
    ensures err { OnErr result (AppendsFirst text.old.items text.new.items writes.now) }
{
    let alloc = *text.allocator();
    for write in writes {
        append_write(alloc, text, write)?;
    }
    Ok(())
}

/// The bulk text of these writes. `AllocError`: allocation failed.
pub fn bulk_text(alloc: Global, writes: &[Write]) -> Result<Vec<u8>, AllocError>
    ensures { IfOk result (λ text. text.items ≡ text_of writes.now) }
{
    let mut text = Vec::new(alloc);
    append_bulk(&mut text, writes)?;
    Ok(text)
}

/// Writes the lines of a write to a stream. The fault says how much was written.
pub fn write_write<W: ByteOut>(alloc: Global, out: &mut W, write: &Write) -> Result<(), TextFault>
    ensures text { WritesText (W.written out.old) (W.written out.new)
        (write_text write.now) result }
    ensures failed { FailsOnWrite (W.failed out.old) (W.failed out.new) result }
    ensures left { W.left out.new ≡ W.left out.old }
{
    let mut text = Vec::new(alloc);
    append_write(alloc, &mut text, write).map_err(|_| TextFault::Memory)?;
    write_all(out, text.as_slice()).map_err(|sent| TextFault::Write { sent: sent as u64 })
}

/// A law: the JSON string of a text is escaped by the table in `specs/Escapes.antt`.
#[tactic(auto, unfolding(json::specs::Print::escape_byte))]
pub fn escapes_by_table()
    ensures { EscapesByTable }
{}

/// A law: `serde_json` reads an action line as the JSON value that it stands for.
pub fn action_lines_read_back()
    ensures { ActionLinesReadBack }
{}

// The start of an action line, up to the text of the id.
fn opening(action: &Action) -> &'static [u8]
    ensures { result.now ≡ opening action.now }
{
    match action {
        Action::Index(_) => b"{\"index\":{\"_id\":\"",
        Action::Delete => b"{\"delete\":{\"_id\":\"",
    }
}

// Appends the part of an action line that names the document: its start, the id and the index name,
// escaped.
fn append_document(
    text: &mut Vec<u8>,
    action: &Action,
    id: &[u8],
    index: &[u8],
) -> Result<(), AllocError>
    ensures ok { OnOk result (text.new.items ≡ text.old.items
        ++ opening action.now ++ id.now ++ codes "\",\"_index\":\"" ++ index.now) }
    ensures front { Begins text.old.items text.new.items }
{
    text.extend_from_slice(opening(action))?;
    text.extend_from_slice(id)?;
    text.extend_from_slice(b"\",\"_index\":\"")?;
    text.extend_from_slice(index)
}

// Appends the rest of an action line and its line end.
fn append_version(text: &mut Vec<u8>, version: u64) -> Result<(), AllocError>
    ensures ok { OnOk result (text.new.items ≡ text.old.items
        ++ codes "\",\"version\":" ++ decimal version
        ++ codes ",\"version_type\":\"external\"}}\n") }
    ensures front { Begins text.old.items text.new.items }
{
    let mut digits = Buffer::new();
    text.extend_from_slice(b"\",\"version\":")?;
    text.extend_from_slice(digits.format(version).as_bytes())?;
    text.extend_from_slice(b",\"version_type\":\"external\"}}\n")
}

// Appends the source of an index action and a line end.
fn append_source(text: &mut Vec<u8>, action: &Action) -> Result<(), AllocError>
    ensures ok { OnOk result (text.new.items ≡ text.old.items ++ source_line action.now) }
    ensures front { Begins text.old.items text.new.items }
{
    if let Action::Index(source) = action {
        text.extend_from_slice(source.text().as_bytes())?;
        text.push(b'\n')?;
    }
    Ok(())
}

// Appends an action line and its line end. After an error, part of it may be there.
#[tactic(auto, using(crate::proofs::Parts::line_in_parts))]
fn append_line(alloc: Global, text: &mut Vec<u8>, write: &Write) -> Result<(), AllocError>
    ensures ok { OnOk result
        (text.new.items ≡ text.old.items ++ (action_text write.now ++ line_end)) }
    ensures front { Begins text.old.items text.new.items }
{
    let id = escape_of(alloc, write.key.id())?;
    let index = escape_of(alloc, write.key.index())?;
    append_document(
        text,
        &write.action,
        between_quotes(write.key.id(), &id),
        between_quotes(write.key.index(), &index),
    )?;
    append_version(text, write.version)
}

// Appends the lines of a write. After an error, part of them may be there.
fn append_lines(alloc: Global, text: &mut Vec<u8>, write: &Write) -> Result<(), AllocError>
    ensures ok { OnOk result (text.new.items ≡ text.old.items ++ write_text write.now) }
    ensures front { Begins text.old.items text.new.items }
{
    append_line(alloc, text, write)?;
    append_source(text, &write.action)
}
