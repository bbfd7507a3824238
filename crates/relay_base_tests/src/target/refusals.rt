//! Targets and names with any one of their allocations refused (`make refusals`): the result is
//! right, or out of memory is returned, and a second call succeeds.
use super::is_read;
use relay_action::DocKey;
use relay_target::{document_target, read_name, read_target};
use std::alloc::{AllocError, Global};

const INDEX: &str = "an-index-name-of-more-than-thirty-eight-bytes";

const ID: &str = "an id of more than thirty-eight bytes, ü/%";

const TARGET: &str =
    "/an-index-name-of-more-than-thirty-eight-bytes/_doc/an%20id%20of%20more%20than%20thirty-eight%20bytes%2C%20%C3%BC%2F%25";

const NAME: &str =
    "an-index-name-of-more-than-thirty-eight-bytes/an id of more than thirty-eight bytes, ü/%";

const DOCUMENT: Option<(&str, &str)> = Some((INDEX, ID));

fn key_of(alloc: Global) -> Option<DocKey> {
    match DocKey::new(alloc, INDEX, ID) {
        Ok(key) => Some(key),
        Err(_) => DocKey::new(alloc, INDEX, ID).ok(),
    }
}

fn is_target(written: Result<String, AllocError>) -> bool {
    match written {
        Ok(target) => target.as_str() == TARGET,
        Err(AllocError) => false,
    }
}

// Whether the target of a document is written, by a second call if the first was refused.
fn writes_again(alloc: Global, key: &DocKey) -> bool {
    match document_target(alloc, key) {
        Err(AllocError) => is_target(document_target(alloc, key)),
        written => is_target(written),
    }
}

fn writes(alloc: Global) -> bool {
    match key_of(alloc) {
        Some(key) => writes_again(alloc, &key),
        None => false,
    }
}

fn reads(alloc: Global) -> bool {
    match read_target(alloc, TARGET.as_bytes()) {
        Err(AllocError) => is_read(read_target(alloc, TARGET.as_bytes()), DOCUMENT),
        read => is_read(read, DOCUMENT),
    }
}

fn names(alloc: Global) -> bool {
    match read_name(alloc, NAME) {
        Err(AllocError) => is_read(read_name(alloc, NAME), DOCUMENT),
        read => is_read(read, DOCUMENT),
    }
}

#[test]
fn refused_targets(rt: HostRuntime) {
    assert!(rt; writes(rt.alloc()) && reads(rt.alloc()));
}

#[test]
fn refused_names(rt: HostRuntime) {
    assert!(rt; names(rt.alloc()));
}
