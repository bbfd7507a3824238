//! Reading action lines and source lines.
ghost use Rattle.std.specs.Prelude.{◌≡◌, ◌<◌, ◌⊎◌, Option, Some, None};
ghost use Rattle.std.specs.Prelude.{Err, IfOk, IfErr, length, IsUtf8};
ghost use Rattle.json.specs.Scratch.{room};
ghost use Rattle.serde_json.specs.Data.{Data, Members, object};
ghost use Rattle.relay_ndjson.specs.Metadata.{bytes_given, IsDocument, Says, metadata_fault};
ghost use Rattle.relay_ndjson.specs.Metadata.{line_fault, source_line_fault};
ghost use Rattle.relay_ndjson.specs.Fields.{HoldsMembers, SaysAction, action_fault};
ghost use Rattle.relay_ndjson.specs.declared.kind.LineKind.{LineKind};
ghost use Rattle.relay_action.specs.Actions.{IsIndexOf};

use crate::kind::{LineKind, kind_of};
use crate::metadata::{Metadata, document_of};
use crate::usual::read_usual;
use relay_action::{Action, ActionKind, DocKey};
use relay_json::{ReadFault, Scratch, read_sole_object};
use simdutf8::compat::from_utf8;
use std::alloc::Global;

/// The action of a line, and its metadata. `scratch` is a buffer that serves one line after
/// another: no result depends on what is in it, and it only grows. The fault is `Memory` only if it
/// had less room than the line has bytes.
pub fn action_of<'t>(
    line: &'t [u8],
    scratch: &'t mut Scratch,
) -> Result<(ActionKind, Metadata<'t>), LineKind>
    ensures ok { IfOk result (λ a. SaysAction line.now a.0 a.1) }
    ensures err { IfErr result (λ e. (e ≡ LineKind.Memory)
        ⊎ ((of_metadata : Data → Option LineKind) → action_fault of_metadata line.now ≡ Some e)) }
    ensures memory { result ≡ Err LineKind.Memory → room scratch.old < length line.now }
{
    let (name, metadata) = match read_sole_object::<Metadata>(line, scratch) {
        Ok(Some(action)) => action,
        Ok(None) => return Err(LineKind::NotOneAction),
        Err(ReadFault::NotJson) => return Err(LineKind::NotJson),
        Err(ReadFault::Memory) => return Err(LineKind::Memory),
    };
    match ActionKind::named(name) {
        Some(kind) => Ok((kind, metadata)),
        None => Err(LineKind::UnsupportedAction),
    }
}

/// The action and the document that a producer's action line asks for. `scratch` is a buffer that
/// serves one line after another, as at [`action_of`]. The fault is `Memory` only if the scratch
/// had less room than the line has bytes, or if the line has no fault: then an allocation for its
/// document failed.
pub fn read_action(
    alloc: Global,
    default_index: Option<&str>,
    line: &[u8],
    scratch: &mut Scratch,
) -> Result<(ActionKind, DocKey), LineKind>
    ensures ok { IfOk result
        (λ a. Says (bytes_given default_index.entry) line.now a.0 a.1.index a.1.id) }
    ensures err { IfErr result
        (λ e. (e ≡ LineKind.Memory)
        ⊎ (line_fault (bytes_given default_index.entry) line.now ≡ Some e)) }
    ensures memory { result ≡ Err LineKind.Memory
        → (room scratch.old < length line.now)
        ⊎ (line_fault (bytes_given default_index.entry) line.now ≡ None) }
{
    match read_usual(alloc, default_index, line) {
        Some(action) => Ok(action),
        None => parse_action(alloc, default_index, line, scratch),
    }
}

// The same for lines that are not in the usual form.
fn parse_action(
    alloc: Global,
    default_index: Option<&str>,
    line: &[u8],
    scratch: &mut Scratch,
) -> Result<(ActionKind, DocKey), LineKind>
    ensures ok { IfOk result
        (λ a. Says (bytes_given default_index.entry) line.now a.0 a.1.index a.1.id) }
    ensures err { IfErr result
        (λ e. (e ≡ LineKind.Memory)
        ⊎ (line_fault (bytes_given default_index.entry) line.now ≡ Some e)) }
    ensures memory { result ≡ Err LineKind.Memory
        → (room scratch.old < length line.now)
        ⊎ (line_fault (bytes_given default_index.entry) line.now ≡ None) }
{
    let (kind, metadata) = action_of(line, scratch)?;
    let key = key_of(alloc, default_index, &metadata)?;
    Ok((kind, key))
}

/// The index action that stores the source on a line. The fault is `Memory` only if the line has
/// no other.
pub fn read_source(alloc: Global, line: &[u8]) -> Result<Action, LineKind>
    ensures ok { IfOk result (λ a. IsUtf8 line.now × IsIndexOf line.now a) }
    ensures err { IfErr result
        (λ e. (e ≡ LineKind.Memory) ⊎ (source_line_fault line.now ≡ Some e)) }
    ensures memory { result ≡ Err LineKind.Memory → source_line_fault line.now ≡ None }
{
    let Ok(text) = from_utf8(line) else {
        return Err(LineKind::NotJson);
    };
    match Action::index(alloc, text) {
        Ok(action) => Ok(action),
        Err(fault) => Err(kind_of(fault)),
    }
}

// The document of a producer's metadata.
fn key_of<'t>(
    alloc: Global,
    default_index: Option<&'t str>,
    metadata: &Metadata<'t>,
) -> Result<DocKey, LineKind>
    ensures ok { (ms : Members) → HoldsMembers metadata.now ms
        → IfOk result (λ k. IsDocument (bytes_given default_index.entry) (object ms) k.index k.id) }
    ensures err { (ms : Members) → HoldsMembers metadata.now ms
        → IfErr result (λ e. (e ≡ LineKind.Memory)
        ⊎ (metadata_fault (bytes_given default_index.entry) (object ms) ≡ Some e)) }
    ensures memory { (ms : Members) → HoldsMembers metadata.now ms → result ≡ Err LineKind.Memory
        → metadata_fault (bytes_given default_index.entry) (object ms) ≡ None }
{
    if metadata.has_other {
        return Err(LineKind::UnsupportedField);
    }
    if metadata.version.is_some() || metadata.version_type.is_some() {
        return Err(LineKind::VersionGiven);
    }
    document_of(alloc, default_index, metadata)
}
