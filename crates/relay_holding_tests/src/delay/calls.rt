//! Each call once.
use crate::delay::desk::{Desk, due_at, empty_desk, push, put_back, take, version_of, wait};
use std::alloc::Global;

// Operations that are due at these ticks, with the versions 1, 2, 3, 4.
fn desk_of(alloc: Global, dues: [u64; 4]) -> Option<Desk> {
    let mut desk = empty_desk(alloc);
    for due in dues {
        push(&mut desk, due, 9)?;
    }
    Some(desk)
}

// Whether the first two that are due have these versions, where 0 means none.
fn begins(desk: &mut Desk, versions: [u64; 2]) -> bool {
    for at in 0..2usize {
        if due_at(desk, at) != versions[at] {
            return false;
        }
    }
    true
}

// Whether the operation that is taken out has this version, where 0 means none.
fn takes(desk: &mut Desk, version: u64) -> bool {
    take(desk) && version_of(desk.out) == version
}

// The operations are due at the ticks 7, 3, 0 and 3. In each row the clock advances by some ticks,
// and then these are the first versions that are due.
const AFTER: &[(u64, [u64; 2])] = &[
    (0, [3, 0]),
    (2, [3, 0]),
    (1, [2, 3]),
    (3, [2, 3]),
    (1, [1, 2]),
];

#[test]
fn who_is_due(rt: HostRuntime) {
    let mut desk = desk_of(rt.alloc(), [7, 3, 0, 3]).expect(&rt, "a desk");
    for (ticks, versions) in AFTER {
        wait(&mut desk, *ticks);
        assert!(rt; begins(&mut desk, *versions) && desk.queue.due_in() == Some(0));
    }
    assert!(rt; desk.queue.len() == 4 && desk.queue.clock() == 7);
}

// Whether the first one is due after each of these ticks.
fn falls_due(desk: &mut Desk, left: [u64; 3]) -> bool {
    for ticks in left {
        if desk.queue.due_in() != Some(ticks) {
            return false;
        }
        wait(desk, 1);
    }
    true
}

#[test]
fn how_long_until_one_is_due(rt: HostRuntime) {
    let mut desk = desk_of(rt.alloc(), [5, 2, 8, 2]).expect(&rt, "a desk");
    assert!(rt; takes(&mut desk, 0) && falls_due(&mut desk, [2, 1, 0]) && takes(&mut desk, 2));
    assert!(rt; empty_desk(rt.alloc()).queue.due_in().is_none());
}

// The operation that is taken out and put back is the first again, if it is due.
#[test]
fn out_and_back(rt: HostRuntime) {
    let mut desk = desk_of(rt.alloc(), [0, 0, 0, 0]).expect(&rt, "a desk");
    assert!(rt;
        takes(&mut desk, 1)
            && begins(&mut desk, [2, 3])
            && put_back(&mut desk, 0).is_some()
            && begins(&mut desk, [1, 2])
    );
    assert!(rt;
        takes(&mut desk, 1)
            && begins(&mut desk, [2, 3])
            && put_back(&mut desk, 1).is_some()
            && begins(&mut desk, [2, 3])
    );
    wait(&mut desk, 1);
    assert!(rt; begins(&mut desk, [1, 2]) && desk.queue.len() == 4);
}
