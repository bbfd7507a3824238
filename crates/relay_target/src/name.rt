//! A document as it is given on a command line.
ghost use Rattle.std.specs.Prelude.{IfOk, MatchOption};
ghost use Rattle.relay_target.specs.Targets.{IsName, IsNoName};

use crate::key::key_of;
use relay_action::DocKey;
use std::alloc::{AllocError, Global};

/// The document `INDEX/ID`: the index name ends at the first `/`, and the id may have more of them.
/// Both are taken as they are, without escapes. `None`: there is no `/`, or a part is not within
/// its limits. `AllocError`: allocation failed.
pub fn read_name(alloc: Global, name: &str) -> Result<Option<DocKey>, AllocError>
    ensures { IfOk result (λ r. MatchOption r (IsNoName name.now)
        (λ key. IsName name.now key.index key.id)) }
{
    match name.split_once('/') {
        Some((index, id)) => key_of(alloc, index, id),
        None => Ok(None),
    }
}
