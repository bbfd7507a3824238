//! Action lines on the index side.
ghost use Rattle.std.specs.Prelude.{◌≡◌, ◌<◌, ◌⊎◌, Some, None, Err, IfOk, IfErr, length};
ghost use Rattle.json.specs.Scratch.{room};
ghost use Rattle.serde_json.specs.Data.{Members, object};
ghost use Rattle.relay_ndjson.specs.VersionedLines.{version_of, is_external, IsVersioned};
ghost use Rattle.relay_ndjson.specs.VersionedLines.{SaysVersioned, versioned_fault};
ghost use Rattle.relay_ndjson.specs.VersionedLines.{write_line_fault};
ghost use Rattle.relay_ndjson.specs.Fields.{HoldsMembers};

use crate::action_line::action_of;
use crate::kind::LineKind;
use crate::metadata::{Metadata, document_of};
use relay_action::{ActionKind, DocKey, LAST_VERSION};
use relay_json::Scratch;
use std::alloc::Global;

/// An action line: an action on a document, at a version.
#[derive(Drop)]
pub struct ActionLine {
    pub kind: ActionKind,
    pub key: DocKey,
    pub version: u64,
}

/// What an action line asks for. The fault is `Memory` only if the scratch had less room than the
/// line has bytes, or if the line has no fault: then an allocation for its document failed.
pub fn read_versioned(
    alloc: Global,
    line: &[u8],
    scratch: &mut Scratch,
) -> Result<ActionLine, LineKind>
    ensures ok { IfOk result (λ a. SaysVersioned line.now a.kind a.key.index a.key.id a.version) }
    ensures err { IfErr result (λ e. (e ≡ LineKind.Memory) ⊎ (write_line_fault line.now ≡ Some e)) }
    ensures memory { result ≡ Err LineKind.Memory
        → (room scratch.old < length line.now) ⊎ (write_line_fault line.now ≡ None) }
{
    let (kind, metadata) = action_of(line, scratch)?;
    let (key, version) = versioned(alloc, &metadata)?;
    Ok(ActionLine { kind, key, version })
}

// The version, if it is one that the index accepts.
fn version_of(metadata: &Metadata<'_>) -> Option<u64>
    ensures { (ms : Members) → HoldsMembers metadata.now ms → result ≡ version_of (object ms) }
{
    let version = metadata.version?.as_u64()?;
    if version <= LAST_VERSION {
        Some(version)
    } else {
        None
    }
}

// Whether `version_type` is `external`.
fn is_external(metadata: &Metadata<'_>) -> bool
    ensures { (ms : Members) → HoldsMembers metadata.now ms → result ≡ is_external (object ms) }
{
    match metadata.version_type {
        Some(version_type) => version_type.as_str() == Some("external"),
        None => false,
    }
}

// The document, and its version.
fn versioned(alloc: Global, metadata: &Metadata<'_>) -> Result<(DocKey, u64), LineKind>
    ensures ok { (ms : Members) → HoldsMembers metadata.now ms
        → IfOk result (λ v. IsVersioned (object ms) v.0.index v.0.id v.1) }
    ensures err { (ms : Members) → HoldsMembers metadata.now ms
        → IfErr result (λ e. (e ≡ LineKind.Memory) ⊎ (versioned_fault (object ms) ≡ Some e)) }
    ensures memory { (ms : Members) → HoldsMembers metadata.now ms → result ≡ Err LineKind.Memory
        → versioned_fault (object ms) ≡ None }
{
    if metadata.has_other {
        return Err(LineKind::UnsupportedField);
    }
    let Some(version) = version_of(metadata) else {
        return Err(LineKind::VersionMissing);
    };
    if !is_external(metadata) {
        return Err(LineKind::VersionMissing);
    }
    let key = document_of(alloc, None, metadata)?;
    Ok((key, version))
}
