//! The metadata of an action line.
ghost use Rattle.std.specs.Prelude.{◌≡◌, ◌⊎◌, Some, None, Err, IfOk};
ghost use Rattle.std.specs.Prelude.{IfErr, option_map, option_and_then};
ghost use Rattle.serde_json.specs.Data.{Data, Members, object, put};
ghost use Rattle.serde_json.specs.Find.{as_number};
ghost use Rattle.relay_json.specs.Walks.{IsLeaf};
ghost use Rattle.relay_ndjson.specs.Metadata.{bytes_given, id_of, id_text, id_fault};
ghost use Rattle.relay_ndjson.specs.Metadata.{number_text, index_of, document_fault};
ghost use Rattle.relay_ndjson.specs.Fields.{HoldsMembers};

use crate::kind::{LineKind, kind_of};
use itoa::Buffer;
use relay_action::DocKey;
use relay_json::{Fields, Gather, Leaf, ReadFault, Walk};
use std::alloc::Global;

/// What is kept of the metadata of an action line: the value of each allowed member that it has.
#[derive(Clone, Copy)]
pub struct Metadata<'t> {
    pub index: Option<Leaf<'t>>,
    pub id: Option<Leaf<'t>>,
    pub version: Option<Leaf<'t>>,
    pub version_type: Option<Leaf<'t>>,
    /// Whether there is a member with another name.
    pub has_other: bool,
}

impl<'t> Metadata<'t> {
    // Sets a member, which replaces an earlier one of the same name.
    #[inline(always)]
    fn set(&mut self, name: &str, leaf: Leaf<'t>)
        ensures { (d : Data) (ms : Members) → IsLeaf leaf.entry d → HoldsMembers self.old ms
            → HoldsMembers self.new (put name.now d ms) }
    {
        match name {
            "_index" => self.index = Some(leaf),
            "_id" => self.id = Some(leaf),
            "version" => self.version = Some(leaf),
            "version_type" => self.version_type = Some(leaf),
            _ => self.has_other = true,
        }
    }
}

impl<'t> Gather<'t> for Metadata<'t> {
    ghost Holds = { HoldsMembers };

    ghost MayFail = { ⊥ };

    #[inline(never)]
    fn member(&mut self, name: &'t str, walk: &mut Walk<'t>) -> Result<(), ReadFault> {
        let leaf = walk.leaf()?;
        self.set(name, leaf);
        Ok(())
    }
}

impl<'t> Fields<'t> for Metadata<'t> {
    fn none() -> Metadata<'t> {
        Metadata {
            index: None,
            id: None,
            version: None,
            version_type: None,
            has_other: false,
        }
    }
}

/// The document of metadata that has only allowed members.
pub fn document_of<'t>(
    alloc: Global,
    default_index: Option<&'t str>,
    metadata: &Metadata<'t>,
) -> Result<DocKey, LineKind>
    ensures ok { (ms : Members) → HoldsMembers metadata.now ms
        → IfOk result (λ k. (index_of (bytes_given default_index.entry) (object ms) ≡ Some k.index)
        × (id_of (object ms) ≡ Some k.id)) }
    ensures err { (ms : Members) → HoldsMembers metadata.now ms
        → IfErr result (λ e. (e ≡ LineKind.Memory)
        ⊎ (document_fault (bytes_given default_index.entry) (object ms) ≡ Some e)) }
    ensures memory { (ms : Members) → HoldsMembers metadata.now ms → result ≡ Err LineKind.Memory
        → document_fault (bytes_given default_index.entry) (object ms) ≡ None }
{
    let Some(index) = index_of(default_index, metadata) else {
        return Err(LineKind::MissingIndex);
    };
    let Some(id) = metadata.id else {
        return Err(LineKind::MissingId);
    };
    key_at(alloc, index, id)
}

// The index name that is given, or else the default.
fn index_of<'t>(default_index: Option<&'t str>, metadata: &Metadata<'t>) -> Option<&'t str>
    ensures { (ms : Members) → HoldsMembers metadata.now ms
        → option_map (λ t. t.now) result ≡ index_of (bytes_given default_index.entry) (object ms) }
{
    match metadata.index {
        Some(index) => index.as_str(),
        None => default_index,
    }
}

// The decimal text of a 64-bit integer.
fn integer_text<'b>(leaf: Leaf<'_>, buffer: &'b mut Buffer) -> Option<&'b str>
    ensures { (d : Data) → IsLeaf leaf.entry d
        → option_map (λ t. t.now) result ≡ option_and_then number_text (as_number d) }
{
    if let Some(n) = leaf.as_u64() {
        return Some(buffer.format(n));
    }
    if let Some(n) = leaf.as_i64() {
        return Some(buffer.format(n));
    }
    None
}

fn key_at(alloc: Global, index: &str, id: Leaf<'_>) -> Result<DocKey, LineKind>
    ensures ok { (d : Data) → IsLeaf id.entry d
        → IfOk result (λ k. (k.index ≡ index.now) × (id_text d ≡ Some k.id)) }
    ensures err { (d : Data) → IsLeaf id.entry d
        → IfErr result (λ e. (e ≡ LineKind.Memory) ⊎ (id_fault index.now (id_text d) ≡ Some e)) }
    ensures memory { (d : Data) → IsLeaf id.entry d → result ≡ Err LineKind.Memory
        → id_fault index.now (id_text d) ≡ None }
{
    if let Some(text) = id.as_str() {
        return DocKey::new(alloc, index, text).map_err(|fault| kind_of(fault));
    }
    let mut buffer = Buffer::new();
    match integer_text(id, &mut buffer) {
        Some(text) => DocKey::new(alloc, index, text).map_err(|fault| kind_of(fault)),
        None => Err(LineKind::MissingId),
    }
}
