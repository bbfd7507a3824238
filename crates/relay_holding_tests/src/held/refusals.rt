//! What is held, with any one of its allocations refused (`make refusals`).
use crate::held::desk::{Desk, empty_desk, push, version_at};
use std::alloc::Global;

// Whether an operation of each of these documents is held, when it is pushed again at the latest.
fn are_held(alloc: Global, desk: &mut Desk, documents: &[u64]) -> bool {
    for document in documents {
        if !push(alloc, desk, *document, 0) && !push(alloc, desk, *document, 0) {
            return false;
        }
    }
    true
}

// Whether two operations of one document and one of another are held, and may then be sent.
fn holds_three(alloc: Global, desk: &mut Desk) -> bool {
    let held = are_held(alloc, desk, &[0, 0, 1]);
    let counted = desk.held.len() == 3 && desk.held.documents() == 2;
    let first = version_at(desk, 0);
    held && counted && (first == 1 || first == 2) && version_at(desk, 1) == 3
}

#[test]
fn refused_pushes(rt: HostRuntime) {
    let mut desk = empty_desk(rt.alloc());
    assert!(rt; holds_three(rt.alloc(), &mut desk));
}
