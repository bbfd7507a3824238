//! Texts read with room that grows, with any one of the allocations refused (`make refusals`). A
//! refusal is reported or recovered from: the result is right or Memory.
ghost use Rattle.std.specs.Prelude.{⊤};

use relay_json::{
    Collect, Fields, Gather, Leaf, ReadFault, Scratch, Walk, read_object, read_sole_object,
};
use std::alloc::Global;

// How many members or items were passed, and whether the text of the last was the long one.
#[derive(Clone, Copy, PartialEq, Drop)]
struct Count {
    count: u64,
    long: bool,
}

const NONE: Count = Count {
    count: 0,
    long: false,
};

impl Count {
    fn add(&mut self, leaf: Leaf<'_>) {
        self.count = self.count.saturating_add(1);
        self.long = leaf.as_str() == Some(LONG);
    }
}

impl<'t> Gather<'t> for Count {
    ghost Holds = { λ _ _. ⊤ };

    ghost MayFail = { ⊤ };

    fn member(&mut self, _name: &'t str, walk: &mut Walk<'t>) -> Result<(), ReadFault> {
        let leaf = walk.leaf()?;
        self.add(leaf);
        Ok(())
    }
}

impl<'t> Fields<'t> for Count {
    fn none() -> Count {
        NONE
    }
}

impl<'t> Collect<'t> for Count {
    ghost Holds = { λ _ _. ⊤ };

    ghost MayFail = { ⊤ };

    fn item(&mut self, walk: &mut Walk<'t>) -> Result<(), ReadFault> {
        let leaf = walk.leaf()?;
        self.add(leaf);
        Ok(())
    }
}

// What each way of reading a value has counted.
#[derive(Clone, Copy, Drop)]
struct Ways {
    object: Option<Count>,
    either: Option<Count>,
    array: Option<Count>,
    sole: Option<Count>,
}

fn count_in(found: Option<(&str, Count)>) -> Option<Count> {
    Some(found?.1)
}

impl<'t> Gather<'t> for Ways {
    ghost Holds = { λ _ _. ⊤ };

    ghost MayFail = { ⊤ };

    fn member(&mut self, name: &'t str, walk: &mut Walk<'t>) -> Result<(), ReadFault> {
        match name {
            "object" => self.object = walk.gather(NONE)?,
            "either" => self.either = walk.gather_or_leaf(NONE)?.ok(),
            "array" => self.array = walk.collect(NONE)?,
            "sole" => self.sole = count_in(walk.sole_object()?),
            _ => {
                walk.leaf()?;
            }
        }
        Ok(())
    }
}

const UNREAD: Ways = Ways {
    object: None,
    either: None,
    array: None,
    sole: None,
};

// What the texts with escapes below say.
const LONG: &str = "a text with \"quotes\" that is longer than what fits anywhere by itself";

const TEXT: &[u8] = b"{\
\"object\":{\"a\":1,\"b\":\"a text with \\\"quotes\\\" that is longer than what fits anywhere by itself\"},\
\"either\":{\"a\":\"a text with \\\"quotes\\\" that is longer than what fits anywhere by itself\"},\
\"array\":[1,2,\"a text with \\\"quotes\\\" that is longer than what fits anywhere by itself\"],\
\"sole\":{\"only\":{\"a\":\"a text with \\\"quotes\\\" that is longer than what fits anywhere by itself\"}},\
\"other\":\"\\u0061\"}";

fn counted(count: u64) -> Option<Count> {
    Some(Count { count, long: true })
}

fn is_read(found: Option<Ways>) -> bool {
    match found {
        Some(ways) => {
            ways.object == counted(2)
                && ways.either == counted(1)
                && ways.array == counted(3)
                && ways.sole == counted(1)
        }
        None => false,
    }
}

fn read_once(alloc: Global) -> Result<bool, ReadFault> {
    let mut scratch = Scratch::new(alloc);
    match read_object(TEXT, &mut scratch, UNREAD) {
        Ok(found) => Ok(is_read(found)),
        Err(fault) => Err(fault),
    }
}

// Whether a text is read, by a second call if the first was refused.
fn reads(alloc: Global) -> bool {
    match read_once(alloc) {
        Err(ReadFault::Memory) => read_once(alloc) == Ok(true),
        read => read == Ok(true),
    }
}

#[test]
fn refused_objects(rt: HostRuntime) {
    assert!(rt; reads(rt.alloc()));
}

const SOLE: &[u8] =
    b"{\"only\":{\"a\":\"a text with \\\"quotes\\\" that is longer than what fits anywhere by itself\"}}";

fn is_sole(found: Option<(&str, Count)>) -> bool {
    match found {
        Some((name, count)) => name == "only" && Some(count) == counted(1),
        None => false,
    }
}

fn sole_once(alloc: Global) -> Result<bool, ReadFault> {
    let mut scratch = Scratch::new(alloc);
    match read_sole_object::<Count>(SOLE, &mut scratch) {
        Ok(found) => Ok(is_sole(found)),
        Err(fault) => Err(fault),
    }
}

fn reads_sole(alloc: Global) -> bool {
    match sole_once(alloc) {
        Err(ReadFault::Memory) => sole_once(alloc) == Ok(true),
        read => read == Ok(true),
    }
}

#[test]
fn refused_sole_objects(rt: HostRuntime) {
    assert!(rt; reads_sole(rt.alloc()));
}
