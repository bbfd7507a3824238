//! A delay queue, with any one of its allocations refused (`make refusals`).
use crate::delay::desk::{due_at, empty_desk, push, take, version_of, wait};

// What waits is unchanged, and the next call adds it; finding it does not allocate.
#[test]
fn refused_room(rt: HostRuntime) {
    let mut desk = empty_desk(rt.alloc());
    for version in 1..20u64 {
        assert!(rt; version_of(push(&mut desk, 20 - version, 9)) == version);
    }
    wait(&mut desk, 20);
    for at in 0..19usize {
        assert!(rt; due_at(&mut desk, at) > 0);
    }
    assert!(rt; take(&mut desk) && version_of(desk.out) == 1 && desk.queue.len() == 18);
}
