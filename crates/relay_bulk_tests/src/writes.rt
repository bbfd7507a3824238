//! Writes, and what they are of.
use relay_action::{Action, DocKey, Write};
use std::alloc::Global;
use std::process::Abort;

/// A write of a document; without a source it deletes.
pub fn write_of(
    rt: &(impl Abort + AllocGlobal),
    index: &str,
    id: &str,
    version: u64,
    source: Option<&str>,
) -> Write {
    let action = match source {
        Some(text) => Action::index(rt.alloc(), text).expect(rt, "an action"),
        None => Action::delete(),
    };
    Write {
        key: DocKey::new(rt.alloc(), index, id).expect(rt, "a key"),
        version,
        action,
    }
}

/// A key of the index `books`, made by a second call if an allocation of the first is refused.
pub fn key_again(rt: &impl Abort, alloc: Global, id: &str) -> DocKey {
    match DocKey::new(alloc, "books", id) {
        Ok(key) => key,
        Err(_) => DocKey::new(alloc, "books", id).expect(rt, "a key"),
    }
}

fn action_again(rt: &impl Abort, alloc: Global, source: &str) -> Action {
    match Action::index(alloc, source) {
        Ok(action) => action,
        Err(_) => Action::index(alloc, source).expect(rt, "an action"),
    }
}

/// A write of a document of that index, made in the same way; without a source it deletes.
pub fn write_again(
    rt: &impl Abort,
    alloc: Global,
    id: &str,
    version: u64,
    source: Option<&str>,
) -> Write {
    let action = match source {
        Some(text) => action_again(rt, alloc, text),
        None => Action::delete(),
    };
    Write {
        key: key_again(rt, alloc, id),
        version,
        action,
    }
}

/// Whether a document has this index and this id.
pub fn is_of(key: &DocKey, index: &str, id: &str) -> bool {
    key.index() == index && key.id() == id
}

/// Whether an action stores this text, or deletes if none is given.
pub fn has_source(action: &Action, source: Option<&str>) -> bool {
    match action {
        Action::Index(text) => source == Some(text.text()),
        Action::Delete => source.is_none(),
    }
}
