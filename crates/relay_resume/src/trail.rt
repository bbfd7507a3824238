//! What of one input is settled.
ghost use Rattle.std.specs.Prelude.{◌≡◌, ◌≤◌, ◌<◌, ◌+◌, ◌^◌, OnOk, OnErr, max};
ghost use Rattle.std.specs.VecDeque.{deque_len};
ghost use Rattle.relay_resume.specs.Trails.{History, IsMarkOf, IsOf, StartsOpen};
ghost use Rattle.relay_resume.specs.Trails.{and_put, and_settled, begun};
ghost use Rattle.relay_resume.specs.Steps.{KeepFollowing, PopsSettled, SameNoted, note_at};
ghost use Rattle.relay_resume.specs.Steps.{starts_settled};

use crate::mark::{Mark, Place};
use std::alloc::{AllocError, Global};
use std::collections::VecDeque;
use std::marker::Model;

/// What of one input is settled. The operations of the input are put in order, and settled in any
/// order, each before or after it is put; the mark is the place before which every operation is
/// settled.
///
/// It keeps the operations from the first one on that is not settled, and a flag for each number
/// from there on up to the greatest one that is settled.
#[derive(Debug, Drop)]
pub struct Trail {
    mark: Mark,
    /// How many operations are settled before the mark, of those that were put.
    passed: u64,
    /// Where the lines of each operation after the mark end.
    ends: VecDeque<Place>,
    /// Whether each operation after the mark is settled, up to the last one that is.
    noted: VecDeque<bool>,
}

impl Model for Trail {
    ghost use Rattle.relay_resume.specs.Trails.{Trailing};
    ghost use Rattle.relay_resume.specs.Steps.{IsKept};

    ghost Value = { Trailing };

    ghost view = { λ t. record { mark = t.mark; passed = t.passed; ends = t.ends.items; noted = t.noted.items } };

    ghost invariant = { λ t. IsKept t.passed t.ends.items t.noted.items };
}

// Adds flags of operations that are not settled, until there are more than this many.
fn reach(noted: &mut VecDeque<bool>, place: usize) -> Result<(), AllocError>
    requires { place + 1 < 2 ^ 64 }
    ensures same { SameNoted noted.old.items noted.new.items }
    ensures reaches { OnOk result (place < deque_len noted.new) }
    ensures len { deque_len noted.new ≤ max (deque_len noted.old) (place + 1) }
{
    'flags: while noted.len() <= place {
        noted.push_back(false)?;
    }
    Ok(())
}

// Notes the operation at a place as settled.
fn note(noted: &mut VecDeque<bool>, place: usize)
    requires { place < deque_len noted.old }
    ensures { noted.new.items ≡ note_at place noted.old.items }
{
    noted[place] = true;
}

// Whether there is an operation, and the first one is settled.
fn starts_settled(ends: &VecDeque<Place>, noted: &VecDeque<bool>) -> bool
    ensures { result ≡ starts_settled ends.now.items noted.now.items }
{
    if ends.is_empty() {
        return false;
    }
    match noted.front() {
        Some(settled) => *settled,
        None => false,
    }
}

// Takes out the first operation, if it is settled, and returns where it ends.
fn pop_settled(ends: &mut VecDeque<Place>, noted: &mut VecDeque<bool>) -> Option<Place>
    ensures { PopsSettled ends.old.items ends.new.items noted.old.items noted.new.items result }
{
    if !starts_settled(ends, noted) {
        return None;
    }
    noted.pop_front();
    ends.pop_front()
}

// Takes out the operations up to the first one that is not settled, and moves the mark past them.
fn pass(mark: &mut Mark, passed: &mut u64, ends: &mut VecDeque<Place>, noted: &mut VecDeque<bool>)
    requires { passed.old + deque_len noted.old < 2 ^ 64 }
    ensures follows { KeepFollowing mark.old mark.new passed.old passed.new ends.old.items
        ends.new.items noted.old.items noted.new.items }
    ensures within { passed.new + deque_len noted.new < 2 ^ 64 }
    ensures first { StartsOpen ends.new.items noted.new.items }
{
    'front: while let Some(end) = pop_settled(ends, noted) {
        *mark = Mark {
            offset: end.offset,
            line: end.line,
            count: mark.count.saturating_add(1),
        };
        *passed += 1;
    }
}

impl Trail {
    /// The trail of an input that is read from a mark on. It does not allocate.
    pub fn new(alloc: Global, start: Mark) -> Trail
        ensures { IsOf (begun start) result }
    {
        Trail {
            mark: start,
            passed: 0,
            ends: VecDeque::new(alloc),
            noted: VecDeque::new(alloc),
        }
    }

    /// Notes that the next operation was put, and where its lines end. Operations are numbered from
    /// 1 in the order in which they are put. `AllocError`: allocation failed, and the trail is
    /// unchanged.
    pub fn put(&mut self, end: Place) -> Result<(), AllocError>
        ensures ok { OnOk result
            ((h : History) → IsOf h self.old → IsOf (and_put end h) self.new) }
        ensures err { OnErr result (self.new ≡ self.old) }
    {
        if self.ends.push_back(end).is_err() {
            return Err(AllocError);
        }
        pass(
            &mut self.mark,
            &mut self.passed,
            &mut self.ends,
            &mut self.noted,
        );
        Ok(())
    }

    /// Notes that the operation with this number is settled, whether it was put already or will be
    /// put later. A number that is settled already changes nothing, nor does 0. Beyond what was put,
    /// memory is allocated for each number up to this one. `AllocError`: allocation failed, and it is
    /// the trail of the same history.
    pub fn settle(&mut self, number: u64) -> Result<(), AllocError>
        ensures ok { OnOk result
            ((h : History) → IsOf h self.old → IsOf (and_settled number h) self.new) }
        ensures err { OnErr result ((h : History) → IsOf h self.old → IsOf h self.new) }
    {
        if number <= self.passed {
            return Ok(());
        }
        let place = (number - self.passed - 1) as usize;
        reach(&mut self.noted, place)?;
        note(&mut self.noted, place);
        pass(
            &mut self.mark,
            &mut self.passed,
            &mut self.ends,
            &mut self.noted,
        );
        Ok(())
    }

    /// The place before which every operation is settled: where the longest run of settled
    /// operations from the start on ends. It takes constant time.
    pub fn mark(&self) -> Mark
        ensures { (h : History) → IsOf h self.now → IsMarkOf h result }
    {
        self.mark
    }
}
