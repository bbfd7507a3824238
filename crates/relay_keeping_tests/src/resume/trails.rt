//! Operations that are settled in each order.
use relay_resume::{Mark, Place, Trail};
use std::alloc::Global;
use std::process::Abort;

// The marks before and after the three operations.
const MARKS: [Mark; 4] = [
    Mark {
        offset: 100,
        line: 4,
        count: 2,
    },
    Mark {
        offset: 150,
        line: 6,
        count: 3,
    },
    Mark {
        offset: 230,
        line: 8,
        count: 4,
    },
    Mark {
        offset: 260,
        line: 9,
        count: 5,
    },
];

const ENDS: [Place; 3] = [
    Place {
        offset: 150,
        line: 6,
    },
    Place {
        offset: 230,
        line: 8,
    },
    Place {
        offset: 260,
        line: 9,
    },
];

// A trail to which the three operations were put.
fn three(rt: &impl Abort, alloc: Global, start: Mark) -> Trail {
    let mut trail = Trail::new(alloc, start);
    for end in ENDS {
        trail.put(end).expect(rt, "memory");
    }
    trail
}

fn stands_at(trail: &Trail, mark: usize) -> bool {
    MARKS.get(mark).copied() == Some(trail.mark())
}

// Each order, and the mark after each operation.
const ORDERS: &[[(u64, usize); 3]] = &[
    [(1, 1), (2, 2), (3, 3)],
    [(1, 1), (3, 1), (2, 3)],
    [(2, 0), (1, 2), (3, 3)],
    [(2, 0), (3, 0), (1, 3)],
    [(3, 0), (1, 1), (2, 3)],
    [(3, 0), (2, 0), (1, 3)],
];

fn settles(trail: &mut Trail, order: &[(u64, usize)]) -> bool {
    for (number, mark) in order {
        if trail.settle(*number).is_err() || !stands_at(trail, *mark) {
            return false;
        }
    }
    true
}

#[test]
fn each_order(rt: HostRuntime) {
    for order in ORDERS {
        let mut trail = three(&rt, rt.alloc(), MARKS[0]);
        assert!(rt; stands_at(&trail, 0) && settles(&mut trail, order));
    }
}

// Numbers that were not put yet, and those that are settled already, do not move the mark.
const OTHERS: &[(u64, usize)] = &[
    (0, 0),
    (4, 0),
    (70, 0),
    (2, 0),
    (2, 0),
    (1, 2),
    (1, 2),
    (2, 2),
    (0, 2),
    (4, 2),
    (3, 3),
    (3, 3),
];

#[test]
fn other_numbers(rt: HostRuntime) {
    let mut trail = three(&rt, rt.alloc(), MARKS[0]);
    assert!(rt; settles(&mut trail, OTHERS));
}

// Operations that are put after others were settled.
#[test]
fn one_at_a_time(rt: HostRuntime) {
    let mut trail = Trail::new(rt.alloc(), MARKS[0]);
    for (number, end) in [(1, ENDS[0]), (2, ENDS[1]), (3, ENDS[2])] {
        assert!(rt; trail.put(end).is_ok() && trail.settle(number).is_ok());
        assert!(rt; stands_at(&trail, number as usize));
    }
}

// Operations that are put after they were settled, and the mark after each.
const LATER: [(usize, usize); 3] = [(0, 0), (1, 2), (2, 3)];

#[test]
fn settled_before(rt: HostRuntime) {
    let mut trail = Trail::new(rt.alloc(), MARKS[0]);
    assert!(rt; settles(&mut trail, &[(3, 0), (2, 0)]));
    for (place, mark) in LATER {
        if place == 1 {
            assert!(rt; settles(&mut trail, &[(1, 1)]));
        }
        assert!(rt; trail.put(ENDS[place]).is_ok() && stands_at(&trail, mark));
    }
}

// The count saturates.
#[test]
fn many_before(rt: HostRuntime) {
    let start = Mark {
        offset: 0,
        line: 0,
        count: u64::MAX - 1,
    };
    let mut trail = three(&rt, rt.alloc(), start);
    for number in [3, 2, 1] {
        assert!(rt; trail.settle(number).is_ok());
    }
    assert!(rt; trail.mark().offset == 260 && trail.mark().count == u64::MAX);
}
