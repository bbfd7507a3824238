//! Requests over a wire in memory, one after another and several at a time.
ghost use Rattle.std.specs.Prelude.{◌≡◌, []};

use relay_fixtures::asking::{Told, asks};
use relay_fixtures::keys::key_of;
use relay_index::{Index, Script};
use relay_lane::Loss;
use relay_loop::{LoopEnd, LoopWire, wire_to};
use std::alloc::Global;
use std::mem;
use std::process::Abort;

/// A wire to an empty index that loses the reply to one number.
pub fn looped(rt: &impl Abort, alloc: Global, lost: u64) -> LoopWire
    ensures { result.out ≡ [] }
{
    let mut end = LoopEnd::new(alloc, Index::new(alloc), Script::new(alloc));
    end.lose(lost).expect(rt, "memory");
    wire_to(alloc, end, 16).expect(rt, "memory")
}

// A wire to an empty index that refuses item 1, and loses the second reply.
fn scripted(rt: &impl Abort, alloc: Global) -> LoopWire
    ensures { result.out ≡ [] }
{
    let mut script = Script::new(alloc);
    script.refuse(1, 429).expect(rt, "memory");
    let mut end = LoopEnd::new(alloc, Index::new(alloc), script);
    end.lose(2).expect(rt, "memory");
    wire_to(alloc, end, 16).expect(rt, "memory")
}

// The same delete, three times; the index applied it once.
#[test]
fn refused_lost_and_conflict(rt: HostRuntime) {
    let alloc = rt.alloc();
    let mut wire = scripted(&rt, alloc);
    assert!(rt; asks(alloc, &mut wire, 1, "2", 2) == Told::Entries(1, 429));
    assert!(rt; asks(alloc, &mut wire, 2, "2", 2) == Told::Fault(Loss::Closed));
    assert!(rt; asks(alloc, &mut wire, 3, "2", 2) == Told::Entries(1, 409));
    let key = key_of(alloc, "books", "2").expect(&rt, "memory");
    assert!(rt; wire.peer().index().applied(&key).len() == 1);
    mem::forget((wire, key));
}
