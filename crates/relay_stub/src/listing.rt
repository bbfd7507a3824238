//! The writes that an index applied, as lines.
ghost use Rattle.std.specs.Prelude.{◌≡◌, ◌++◌, flat_map, IfOk, OnOk};
ghost use Rattle.relay_action.specs.Actions.{kind_name};
ghost use Rattle.relay_stub.specs.Listing.{applied_line, listing, IsListing};

use itoa::Buffer;
use relay_action::{ActionKind, DocKey, Write};
use relay_index::Index;
use std::alloc::{AllocError, Global};

/// A line `applied INDEX/ID VERSION index`, or `.. delete`, for each write that the index applied,
/// including those to documents that were deleted since: the documents in byte order of their index
/// names and then of their ids, and the writes of each in the order in which they were applied.
/// Names and ids are written as they are. `AllocError`: allocation failed.
pub fn listing(alloc: Global, index: &Index) -> Result<Vec<u8>, AllocError>
    ensures { IfOk result (λ text. IsListing index.now text.items) }
{
    let keys = index.keys(alloc)?;
    let mut text = Vec::new(alloc);
    add_documents(&mut text, index, keys.as_slice())?;
    Ok(text)
}

fn add_documents(text: &mut Vec<u8>, index: &Index, keys: &[DocKey]) -> Result<(), AllocError>
    ensures { OnOk result (text.new.items ≡ text.old.items ++ listing index.now keys.now) }
{
    'documents: for key in keys {
        add_writes(text, index.applied(key))?;
    }
    Ok(())
}

fn add_writes(text: &mut Vec<u8>, writes: &[Write]) -> Result<(), AllocError>
    ensures { OnOk result (text.new.items ≡ text.old.items ++ flat_map applied_line writes.now) }
{
    'writes: for write in writes {
        add_line(text, write)?;
    }
    Ok(())
}

fn add_line(text: &mut Vec<u8>, write: &Write) -> Result<(), AllocError>
    ensures { OnOk result (text.new.items ≡ text.old.items ++ applied_line write.now) }
{
    let mut digits = Buffer::new();
    text.extend_from_slice(b"applied ")?;
    text.extend_from_slice(write.key.index().as_bytes())?;
    text.extend_from_slice(b"/")?;
    text.extend_from_slice(write.key.id().as_bytes())?;
    text.extend_from_slice(b" ")?;
    text.extend_from_slice(digits.format(write.version).as_bytes())?;
    text.extend_from_slice(b" ")?;
    text.extend_from_slice(name_of(write.action.kind()))?;
    text.extend_from_slice(b"\n")
}

// The name of a kind of action in the bulk API.
fn name_of(kind: ActionKind) -> &'static [u8]
    ensures { result.now ≡ kind_name kind }
{
    match kind {
        ActionKind::Index => b"index",
        ActionKind::Delete => b"delete",
    }
}
