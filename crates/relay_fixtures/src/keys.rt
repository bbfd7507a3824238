//! Keys of documents.
use relay_action::DocKey;
use std::alloc::Global;

/// The key of a document. It tries once more if an allocation fails. `None`: that failed, too.
pub fn key_of(alloc: Global, index: &str, id: &str) -> Option<DocKey> {
    DocKey::new(alloc, index, id)
        .or_else(|_| DocKey::new(alloc, index, id))
        .ok()
}
