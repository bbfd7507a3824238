//! The maximum number of outstanding requests.
ghost use Rattle.std.specs.Prelude.{◌≡◌, ◌∷◌, [], MatchResult};
ghost use Rattle.relay_results.specs.Words.{Mem};
ghost use Rattle.relay_wires.specs.Numbers.{numbers};

use crate::wires::streams::{BUSY, Wired, is_answered, wired};
use relay_index::{Index, Script};
use relay_lane::{Loss, Wire};
use relay_loop::{LoopEnd, wire_to};
use std::alloc::Global;
use std::mem;
use std::process::Abort;

// Sends a request without writes.
fn sends(wire: &mut Wired, number: u64) -> Result<(), Loss>
    requires { Mem number (numbers wire.old.out) → ⊥ }
    ensures { MatchResult result
        (λ _. numbers wire.new.out ≡ number ∷ numbers wire.old.out)
        (λ _. numbers wire.new.out ≡ numbers wire.old.out) }
{
    wire.send(number, &[])
}

// The results of two requests that are sent before a reply is received, with this maximum.
fn two_out(rt: &impl Abort, alloc: Global, most: u32) -> [Result<(), Loss>; 2] {
    let mut wire = wired(alloc, &[BUSY, BUSY], 1000, 0, most).expect(rt, "memory");
    let sent = match sends(&mut wire, 1) {
        Ok(()) => [Ok(()), sends(&mut wire, 2)],
        Err(fault) => [Err(fault), Err(fault)],
    };
    mem::forget(wire);
    sent
}

// Two outstanding requests are both answered, the later one first.
fn answers_both<W: Wire>(rt: &impl Abort, wire: &mut W)
    requires { W.out wire.old ≡ [] }
{
    wire.send(1, &[]).expect(rt, "the first is sent");
    wire.send(2, &[]).expect(rt, "the second is sent");
    assert!(rt; is_answered(wire.receive(2)));
    assert!(rt; is_answered(wire.receive(1)));
}

// Over streams, with a maximum of two, and in memory.
#[test]
fn the_later_one_first(rt: HostRuntime) {
    let alloc = rt.alloc();
    let mut wire = wired(alloc, &[BUSY, BUSY], 1000, 0, 2).expect(&rt, "memory");
    answers_both(&rt, &mut wire);
    let end = LoopEnd::new(alloc, Index::new(alloc), Script::new(alloc));
    let mut looped = wire_to(alloc, end, 2).expect(&rt, "memory");
    answers_both(&rt, &mut looped);
    mem::forget((wire, looped));
}

#[test]
fn as_many_as_may_be(rt: HostRuntime) {
    let rows = [
        (0, [Err(Loss::Unreachable), Err(Loss::Unreachable)]),
        (1, [Ok(()), Err(Loss::Unreachable)]),
        (2, [Ok(()), Ok(())]),
    ];
    for (most, wanted) in rows {
        assert!(rt; two_out(&rt, rt.alloc(), most) == wanted);
    }
}
