//! Tests of `relay_target`, over its public items: targets that clients of OpenSearch send, other
//! targets, and names of a command line.
use relay_action::DocKey;
use std::alloc::AllocError;

mod addresses;
mod names;
mod refusals;
mod targets;

// Whether the document of this index name and id was read; or none, if `wanted` is none.
fn is_read(read: Result<Option<DocKey>, AllocError>, wanted: Option<(&str, &str)>) -> bool {
    match read {
        Ok(Some(key)) => wanted == Some((key.index(), key.id())),
        Ok(None) => wanted.is_none(),
        Err(AllocError) => false,
    }
}
