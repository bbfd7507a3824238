//! A keeper of marks and what it is told, with any one of the allocations refused (`make refusals`):
//! a channel is made by a second call, and what could not be told, or taken, moves no mark.
use crate::marks::{START, after, follow, input_at, lane_at, name_of, place_after, success_of};
use relay_keeping::{InputTelling, MarkEnds, keep_marks};
use relay_resume::Mark;
use std::alloc::{AllocError, Global};
use std::process::Abort;
use std::sync::Wait;

// The number of operations of the first input.
const COUNT: u64 = 3;

fn made_once(alloc: Global) -> Result<MarkEnds, AllocError> {
    keep_marks(alloc, &[START, START], 2, 64)
}

// The ends of a channel, by a second call if the first was refused.
fn made(alloc: Global) -> Option<MarkEnds> {
    match made_once(alloc) {
        Ok(ends) => Some(ends),
        Err(AllocError) => made_once(alloc).ok(),
    }
}

// Whether there are two inputs, marked where they start, and two lanes.
fn is_new(ends: &mut MarkEnds) -> bool {
    let counted = ends.inputs.len() == 2 && ends.lanes.len() == 2;
    counted && ends.keeper.mark(0) == Some(START) && ends.keeper.mark(1) == Some(START)
}

fn makes(alloc: Global) -> bool {
    match made(alloc) {
        Some(mut ends) => is_new(&mut ends),
        None => false,
    }
}

#[test]
fn refused_keeper(rt: HostRuntime) {
    assert!(rt; makes(rt.alloc()));
}

fn put_all<R: Wait>(rt: &R, input: &mut InputTelling) {
    for number in 0..COUNT {
        input.put(rt, place_after(number + 1));
    }
    input.flush(rt);
}

// Tells of the operations of the first input. The last one is settled before it is put.
fn tell<R: Wait + Abort>(rt: &R, ends: &mut MarkEnds) {
    lane_at(rt, ends, 0).applied(rt, &[success_of(0, 3)]);
    put_all(rt, input_at(rt, ends, 0));
    lane_at(rt, ends, 1).reported(rt, name_of(0, 2), false);
    lane_at(rt, ends, 0).applied(rt, &[success_of(0, 1)]);
}

// The mark of the first input, once all was told and taken. `None`: the keeper could not follow.
fn mark_of<R: Wait + Abort>(rt: &R, ends: &mut MarkEnds) -> Option<Mark> {
    tell(rt, ends);
    follow(rt, &mut ends.keeper);
    ends.keeper.mark(0)
}

/// What came of it.
#[derive(Clone, Copy, PartialEq)]
enum Came {
    /// Every operation is before the mark.
    Whole,
    /// Only the first ones are, or the keeper could not follow, or there is none.
    Refused,
    Wrong,
}

fn came_of(mark: Option<Mark>) -> Came {
    let Some(mark) = mark else {
        return Came::Refused;
    };
    for count in 0..COUNT {
        if mark == after(count) {
            return Came::Refused;
        }
    }
    if mark == after(COUNT) {
        Came::Whole
    } else {
        Came::Wrong
    }
}

fn come<R: Wait + Abort>(rt: &R, alloc: Global) -> Came {
    match made(alloc) {
        Some(mut ends) => came_of(mark_of(rt, &mut ends)),
        None => Came::Refused,
    }
}

// Whether every operation is before the mark, by a second channel if an allocation of the first was
// refused.
fn passes_all<R: Wait + Abort>(rt: &R, alloc: Global) -> bool {
    match come(rt, alloc) {
        Came::Whole => true,
        Came::Refused => come(rt, alloc) == Came::Whole,
        Came::Wrong => false,
    }
}

#[test]
fn refused_marks(rt: HostRuntime) {
    assert!(rt; passes_all(&rt, rt.alloc()));
}
