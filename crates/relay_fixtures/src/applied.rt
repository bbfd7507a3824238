//! What an index applied.
use relay_action::{Action, Write};
use relay_index::Index;
use std::alloc::{AllocError, Global};

/// How many writes an index applied.
pub fn count_applied(alloc: Global, index: &Index) -> Result<usize, AllocError> {
    let mut count = 0usize;
    for key in &index.keys(alloc)? {
        count = count.saturating_add(index.applied(key).len());
    }
    Ok(count)
}

/// Whether a write stores this source.
pub fn stores(write: &Write, source: &str) -> bool {
    match &write.action {
        Action::Index(found) => found.text() == source,
        Action::Delete => false,
    }
}
