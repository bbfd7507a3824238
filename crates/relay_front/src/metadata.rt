//! The metadata of an action line.
ghost use Rattle.std.specs.Prelude.{◌≡◌, Option, codes, false};
ghost use Rattle.serde_json.specs.Data.{Data, Members, put};
ghost use Rattle.relay_json.specs.Walks.{IsLeaf};
ghost use Rattle.relay_ndjson.specs.Fields.{IsLeafOf};
ghost use Rattle.relay_front.specs.Metadata.{given, is_known, unless_null, HoldsMembers, HoldsOther};

use relay_json::{Fields, Gather, Leaf, ReadFault, Walk};

/// What is kept of the members of the metadata of an action line.
#[derive(Clone, Copy)]
pub struct Metadata<'t> {
    /// The value of `_index`.
    pub index: Option<Leaf<'t>>,
    /// The value of `_id`.
    pub id: Option<Leaf<'t>>,
    /// The name of the first member that the relay does not know and that was not null.
    pub other: Option<&'t str>,
}

// A value, unless it is null.
fn unless_null<'t>(value: Option<Leaf<'t>>) -> Option<Leaf<'t>>
    ensures { (d : Option Data) → IsLeafOf value.entry d → IsLeafOf result (unless_null d) }
{
    match value {
        Some(leaf) if leaf.is_null() => None,
        _ => value,
    }
}

// The other member to keep, after one that the relay does not know.
fn first_other<'t>(other: Option<&'t str>, name: &'t str, leaf: Leaf<'t>) -> Option<&'t str>
    ensures { (d : Data) (ms : Members) → IsLeaf leaf.entry d → is_known name.now ≡ false
        → HoldsOther other.entry ms → HoldsOther result (put name.now d ms) }
{
    if other.is_some() {
        return other;
    }
    if leaf.is_null() {
        return other;
    }
    Some(name)
}

impl<'t> Metadata<'t> {
    // Sets a member, which replaces an earlier one of the same name. `_type` is dropped.
    #[inline(always)]
    fn set(&mut self, name: &'t str, leaf: Leaf<'t>)
        ensures { (d : Data) (ms : Members) → IsLeaf leaf.entry d → HoldsMembers self.old ms
            → HoldsMembers self.new (put name.now d ms) }
    {
        match name {
            "_index" => self.index = Some(leaf),
            "_id" => self.id = Some(leaf),
            "_type" => {}
            _ => self.other = first_other(self.other, name, leaf),
        }
    }

    /// The value of `_index`, unless it is null.
    pub fn given_index(&self) -> Option<Leaf<'t>>
        ensures { (ms : Members) → HoldsMembers self.now ms
            → IsLeafOf result (given (codes "_index") ms) }
    {
        unless_null(self.index)
    }

    /// The value of `_id`, unless it is null.
    pub fn given_id(&self) -> Option<Leaf<'t>>
        ensures { (ms : Members) → HoldsMembers self.now ms
            → IsLeafOf result (given (codes "_id") ms) }
    {
        unless_null(self.id)
    }
}

impl<'t> Gather<'t> for Metadata<'t> {
    ghost Holds = { HoldsMembers };

    ghost MayFail = { ⊥ };

    #[inline(never)]
    fn member(&mut self, name: &'t str, walk: &mut Walk<'t>) -> Result<(), ReadFault> {
        let leaf = walk.leaf()?;
        self.set(name, leaf);
        Ok(())
    }
}

impl<'t> Fields<'t> for Metadata<'t> {
    fn none() -> Metadata<'t> {
        Metadata {
            index: None,
            id: None,
            other: None,
        }
    }
}
