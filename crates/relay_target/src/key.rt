//! Documents within their limits.
ghost use Rattle.std.specs.Prelude.{◌≡◌, ◌≢◌, IfOk, MatchOption, None};
ghost use Rattle.relay_action.specs.Faults.{key_fault};

use relay_action::{ActionFault, DocKey};
use std::alloc::{AllocError, Global};

// The document with this index name and id, if they are within their limits.
pub(crate) fn key_of(alloc: Global, index: &str, id: &str) -> Result<Option<DocKey>, AllocError>
    ensures { IfOk result (λ r. MatchOption r (key_fault index.now id.now ≢ None)
        (λ key. (key.index ≡ index.now) × (key.id ≡ id.now))) }
{
    match DocKey::new(alloc, index, id) {
        Ok(key) => Ok(Some(key)),
        Err(ActionFault::Memory) => Err(AllocError),
        Err(_) => Ok(None),
    }
}
