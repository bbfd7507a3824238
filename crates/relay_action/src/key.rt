//! Documents.
ghost use Rattle.std.specs.Prelude.{IsUtf8, ◌≡◌, IfOk, IfErr, OnOk, None, unwrap_or};
ghost use Rattle.relay_action.specs.Limits.{HasLength, index_limit, id_limit};

use crate::fault::ActionFault;
use crate::text::Text;
use std::alloc::{AllocError, Global};

/// The maximum size of an index name, in bytes.
pub const INDEX_LIMIT: usize = 255;

/// The maximum size of an id, in bytes: the limit of OpenSearch.
pub const ID_LIMIT: usize = 512;

/// A document: the name of its index, of 1 to 255 bytes, and its id, of 1 to 512 bytes. Of an index
/// name only the length is checked.
#[derive(Debug, Drop, PartialEq, Eq, Hash)]
pub struct DocKey {
    index: Text,
    id: Text,
    pub ghost index_ok: { HasLength index_limit index },
    pub ghost id_ok: { HasLength id_limit id },
    pub ghost index_utf8: { ∥ IsUtf8 index ∥₁ },
    pub ghost id_utf8: { ∥ IsUtf8 id ∥₁ },
}

impl DocKey {
    ghost use Rattle.relay_action.specs.Faults.{key_fault};

    /// The document with copies of this index name and id. The fault is the first that applies, in
    /// the order of [`ActionFault`] from `IndexEmpty` to `IdLong`, and then `Memory`.
    pub fn new(alloc: Global, index: &str, id: &str) -> Result<DocKey, ActionFault>
        ensures ok { IfOk result (λ k. (k.index ≡ index.now) × (k.id ≡ id.now)) }
        ensures accepted { OnOk result (key_fault index.now id.now ≡ None) }
        ensures refused { IfErr result
            (λ e. e ≡ unwrap_or (key_fault index.now id.now) ActionFault.Memory) }
    {
        if index.is_empty() {
            return Err(ActionFault::IndexEmpty);
        }
        if index.len() > INDEX_LIMIT {
            return Err(ActionFault::IndexLong);
        }
        if id.is_empty() {
            return Err(ActionFault::IdEmpty);
        }
        if id.len() > ID_LIMIT {
            return Err(ActionFault::IdLong);
        }
        Ok(DocKey {
            index: Text::new(alloc, index).map_err(|_| ActionFault::Memory)?,
            id: Text::new(alloc, id).map_err(|_| ActionFault::Memory)?,
        })
    }

    /// The index name.
    pub fn index(&self) -> &str
        ensures { result.now ≡ self.now.index }
    {
        self.index.as_str()
    }

    /// The id.
    pub fn id(&self) -> &str
        ensures { result.now ≡ self.now.id }
    {
        self.id.as_str()
    }

    /// A copy of the document. `AllocError`: allocation failed.
    pub fn copy(&self) -> Result<DocKey, AllocError>
        ensures { IfOk result (λ k. k ≡ self.now) }
    {
        Ok(DocKey {
            index: self.index.copy()?,
            id: self.id.copy()?,
        })
    }
}
