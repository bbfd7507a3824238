//! Reading texts, and what is kept of them.
ghost use Rattle.std.specs.Prelude.{⊤};

use relay_json::{
    Collect, Fields, Gather, Leaf, ReadFault, Scratch, Walk, after, plain_text, read_object,
    read_sole_object, take_decimal, take_plain,
};
use std::alloc::Global;
use std::process::Abort;

// What is kept of the members of an object: their names, and the last value with the name `a`.
#[derive(Clone, Copy, Drop)]
struct Told<'t> {
    names: [&'t str; 4],
    count: usize,
    a: Option<Leaf<'t>>,
}

impl<'t> Gather<'t> for Told<'t> {
    ghost Holds = { λ _ _. ⊤ };

    ghost MayFail = { ⊤ };

    fn member(&mut self, name: &'t str, walk: &mut Walk<'t>) -> Result<(), ReadFault> {
        let leaf = walk.leaf()?;
        if name == "a" {
            self.a = Some(leaf);
        }
        if self.count < 4 {
            self.names[self.count] = name;
            self.count += 1;
        }
        Ok(())
    }
}

impl<'t> Fields<'t> for Told<'t> {
    fn none() -> Told<'t> {
        Told {
            names: [""; 4],
            count: 0,
            a: None,
        }
    }
}

// The integers among the items of an array.
#[derive(Clone, Copy, Drop)]
struct Integers {
    integers: [Option<u64>; 4],
    count: usize,
}

impl<'t> Collect<'t> for Integers {
    ghost Holds = { λ _ _. ⊤ };

    ghost MayFail = { ⊤ };

    fn item(&mut self, walk: &mut Walk<'t>) -> Result<(), ReadFault> {
        let leaf = walk.leaf()?;
        if self.count < 4 {
            self.integers[self.count] = leaf.as_u64();
            self.count += 1;
        }
        Ok(())
    }
}

// The items of the member `a`, if it is an array.
#[derive(Clone, Copy, Drop)]
struct Listed {
    items: Option<Integers>,
}

impl<'t> Gather<'t> for Listed {
    ghost Holds = { λ _ _. ⊤ };

    ghost MayFail = { ⊤ };

    fn member(&mut self, name: &'t str, walk: &mut Walk<'t>) -> Result<(), ReadFault> {
        if name == "a" {
            self.items = walk.collect(Integers {
                integers: [None; 4],
                count: 0,
            })?;
        } else {
            walk.leaf()?;
        }
        Ok(())
    }
}

// Why a text has no value, if it has none.
fn fault_of(alloc: Global, text: &[u8]) -> Option<ReadFault> {
    let mut scratch = Scratch::new(alloc);
    read_object(text, &mut scratch, Told::none()).err()
}

const NAMES_OF_FAULTS: &[(ReadFault, &str)] = &[
    (ReadFault::NotJson, "NotJson"),
    (ReadFault::Memory, "Memory"),
];

// A fault is printed as its name.
#[test]
fn names_of_faults(rt: HostRuntime) {
    for (fault, name) in NAMES_OF_FAULTS {
        let printed = format!(in rt.alloc(); "{fault}").expect(&rt, "memory");
        assert!(rt; printed.as_str() == *name);
    }
}

// Nested brackets: this many openings, a middle and as many closings, between a front and a back.
fn nested(
    rt: &impl Abort,
    alloc: Global,
    front: &str,
    opening: &str,
    count: usize,
    middle: &str,
    closing: &str,
) -> String {
    let open = opening.repeat(alloc, count).expect(rt, "memory");
    let close = closing.repeat(alloc, count).expect(rt, "memory");
    let back = if front.is_empty() { "" } else { "}" };
    [front, open.as_str(), middle, close.as_str(), back]
        .concat(alloc)
        .expect(rt, "memory")
}

const NO_VALUES: &[&[u8]] = &[
    b"",
    b" ",
    b"\xff",
    b"\"\xff\"",
    b"{} x",
    b"{}{}",
    b"[1,]",
    b"{\"a\":1",
    b"{\"a\" 1}",
    b"01",
    b"nul",
    b"\"\\ud800\"",
    b"\xef\xbb\xbf{}",
    b"'a'",
    // A number that does not fit a float, at the top level and in members that are not looked at.
    b"1e999",
    b"-1e999",
    b"[1,2e308]",
    b"{\"a\":1e999}",
    b"{\"a\":1e999,\"a\":1}",
    b"{\"a\":[{\"b\":[-2E+308]}],\"c\":1}",
];

#[test]
fn texts_that_are_none(rt: HostRuntime) {
    for text in NO_VALUES {
        assert!(rt; fault_of(rt.alloc(), text) == Some(ReadFault::NotJson));
    }
}

const VALUES: &[&[u8]] = &[
    b"null",
    b" {} ",
    b"[]\n",
    b"-0",
    b"18446744073709551616",
    b"1e308",
    b"-1.7976931348623157e308",
    b"1e-999",
    b"{\"a\":1,\"a\":2}",
    b"\"\\ud83d\\ude00\"",
];

#[test]
fn texts_that_are_values(rt: HostRuntime) {
    for text in VALUES {
        assert!(rt; fault_of(rt.alloc(), text).is_none());
    }
}

const DEPTHS: &[(&str, &str, usize, &str, &str, Option<ReadFault>)] = &[
    ("", "[", 126, "[]", "]", None),
    ("", "[", 127, "[]", "]", Some(ReadFault::NotJson)),
    ("", "{\"a\":", 126, "{}", "}", None),
    ("", "{\"a\":", 127, "{}", "}", Some(ReadFault::NotJson)),
    ("{\"x\":", "[", 125, "[]", "]", None),
    ("{\"x\":", "[", 126, "[]", "]", Some(ReadFault::NotJson)),
    ("{\"x\":", "[", 126, "7", "]", None),
];

// JSON is nested at most 127 deep, even in a member that is not looked at.
#[test]
fn depth(rt: HostRuntime) {
    let alloc = rt.alloc();
    for (front, opening, count, middle, closing, fault) in DEPTHS {
        let text = nested(&rt, alloc, front, opening, *count, middle, closing);
        assert!(rt; fault_of(alloc, text.as_bytes()) == *fault);
    }
}

// The member `a` of a text, if it is an object and has one.
fn member_a<'t>(rt: &impl Abort, text: &'t str, scratch: &'t mut Scratch) -> Option<Leaf<'t>> {
    let told = read_object(text.as_bytes(), scratch, Told::none()).expect(rt, "a value")?;
    told.a
}

const MEMBERS: &[(&str, Option<&str>)] = &[
    ("{\"a\":\"x\"}", Some("x")),
    ("{\"b\":\"x\",\"a\":\"y\"}", Some("y")),
    ("{\"a\":\"x\",\"a\":\"y\"}", Some("y")),
    ("{\"a\":\"x\",\"a\":null}", None),
    ("{\"\\u0061\":\"z\"}", Some("z")),
    ("{\"a\":\"x\",\"\\u0061\":\"z\"}", Some("z")),
    ("{\"a\":\"\\n\\u00e4\"}", Some("\nä")),
    ("{\"ab\":\"x\"}", None),
    ("[\"a\"]", None),
];

// The string of a member; the last one with its name counts.
#[test]
fn members(rt: HostRuntime) {
    for (text, found) in MEMBERS {
        let mut scratch = Scratch::new(rt.alloc());
        let leaf = member_a(&rt, text, &mut scratch).unwrap_or(Leaf::Null);
        assert!(rt; leaf.as_str() == *found);
    }
}

const NAMES: &[(&str, usize, [&str; 4])] = &[
    ("{}", 0, [""; 4]),
    ("{\"a\":1,\"b\":2}", 2, ["a", "b", "", ""]),
    ("{\"c\":{\"x\":[{}]},\"a\":2}", 2, ["c", "a", "", ""]),
    ("{\"a\":1,\"\\u0061\":2}", 2, ["a", "a", "", ""]),
    (
        "{\"\\u0063\":1,\"\":[1,2],\"d\":null}",
        3,
        ["c", "", "d", ""],
    ),
];

// The names of members in order; a name given twice is passed twice.
#[test]
fn names_of_members(rt: HostRuntime) {
    for (text, count, names) in NAMES {
        let mut scratch = Scratch::new(rt.alloc());
        let found = read_object(text.as_bytes(), &mut scratch, Told::none());
        let told = found.expect(&rt, "a value").expect(&rt, "an object");
        assert!(rt; told.count == *count && told.names == *names);
    }
}

// A text, and if it is an object whose only member is an object: the name of that one, and the
// integer `a` in it.
const SOLE_OBJECTS: &[(&str, Option<(&str, Option<u64>)>)] = &[
    ("{\"x\":{\"a\":1}}", Some(("x", Some(1)))),
    ("{\"x\":{}}", Some(("x", None))),
    ("{}", None),
    ("[]", None),
    ("7", None),
    ("{\"x\":1}", None),
    ("{\"x\":{},\"y\":{}}", None),
    ("{\"x\":{\"a\":1},\"x\":{\"a\":2}}", Some(("x", Some(2)))),
    (
        "{\"x\":{\"a\":1},\"\\u0078\":{\"a\":3}}",
        Some(("x", Some(3))),
    ),
    ("{\"x\":{\"a\":1},\"x\":{}}", Some(("x", None))),
    ("{\"x\":{\"a\":1},\"x\":5}", None),
    ("{\"x\":{},\"x\":{},\"y\":{}}", None),
    ("{\"x\":{},\"y\":{},\"x\":{}}", None),
];

#[test]
fn sole_objects(rt: HostRuntime) {
    for (text, found) in SOLE_OBJECTS {
        let mut scratch = Scratch::new(rt.alloc());
        let read = read_sole_object::<Told>(text.as_bytes(), &mut scratch);
        let told = match read.expect(&rt, "a value") {
            Some((name, told)) => Some((name, told.a.unwrap_or(Leaf::Null).as_u64())),
            None => None,
        };
        assert!(rt; told == *found);
    }
}

// Numbers as unsigned and signed 64-bit integers.
const INTEGERS: &[(&str, Option<u64>, Option<i64>)] = &[
    ("{\"a\":0}", Some(0), Some(0)),
    ("{\"a\":-0}", None, None),
    ("{\"a\":201}", Some(201), Some(201)),
    (
        "{\"a\":9223372036854775808}",
        Some(9223372036854775808),
        None,
    ),
    (
        "{\"a\":9999999999999999999}",
        Some(9999999999999999999),
        None,
    ),
    (
        "{\"a\":18446744073709551615}",
        Some(18446744073709551615),
        None,
    ),
    ("{\"a\":18446744073709551616}", None, None),
    (
        "{\"a\":-9223372036854775808}",
        None,
        Some(-9223372036854775808),
    ),
    ("{\"a\":-1}", None, Some(-1)),
    ("{\"a\":1.0}", None, None),
    ("{\"a\":1e2}", None, None),
    ("{\"a\":\"1\"}", None, None),
];

#[test]
fn numbers_as_integers(rt: HostRuntime) {
    for (text, unsigned, signed) in INTEGERS {
        let mut scratch = Scratch::new(rt.alloc());
        let leaf = member_a(&rt, text, &mut scratch).expect(&rt, "a member");
        assert!(rt; leaf.as_u64() == *unsigned && leaf.as_i64() == *signed);
    }
}

const KINDS: &[(&'static str, Leaf<'static>)] = &[
    ("{\"a\":null}", Leaf::Null),
    ("{\"a\":true}", Leaf::Bool(true)),
    ("{\"a\":false}", Leaf::Bool(false)),
    ("{\"a\":{}}", Leaf::Object),
    ("{\"a\":[]}", Leaf::Array),
    ("{\"a\":[1,null,{}]}", Leaf::Array),
    ("{\"a\":\"null\"}", Leaf::String("null")),
    ("{\"a\":-1.50E+2}", Leaf::Number("-1.50E+2")),
    ("{\"a\":0.00}", Leaf::Number("0.00")),
];

// The top level of a value.
#[test]
fn kinds(rt: HostRuntime) {
    for (text, kind) in KINDS {
        let mut scratch = Scratch::new(rt.alloc());
        let leaf = member_a(&rt, text, &mut scratch).expect(&rt, "a member");
        assert!(rt; leaf == *kind && leaf.is_null() == (*kind == Leaf::Null));
    }
}

// Leaves that no walk returned: the numbers are out of range, or not JSON.
const ALONE: &[Leaf<'static>] = &[
    Leaf::Number("1e999"),
    Leaf::Number("-2E+308"),
    Leaf::Number("18446744073709551616"),
    Leaf::Number(""),
];

#[test]
fn leaves_alone(rt: HostRuntime) {
    for leaf in ALONE {
        assert!(rt; !leaf.is_null() && leaf.as_str().is_none());
        assert!(rt; leaf.as_u64().is_none() && leaf.as_i64().is_none());
    }
}

// A text, and if its member `a` is an array, how many items that has, and their integers.
const ITEMS: &[(&str, Option<(usize, &[Option<u64>])>)] = &[
    (
        "{\"a\":[3,1,2]}",
        Some((3, &[Some(3), Some(1), Some(2), None])),
    ),
    ("{\"a\":[]}", Some((0, &[None, None, None, None]))),
    (
        "{\"a\":[{\"x\":[1]},[5],7]}",
        Some((3, &[None, None, Some(7), None])),
    ),
    (
        "{\"a\":[1],\"b\":[2],\"a\":[4]}",
        Some((1, &[Some(4), None, None, None])),
    ),
    ("{\"a\":[1],\"a\":{}}", None),
    ("{\"a\":7}", None),
];

// The items of an array, in order.
#[test]
fn items_in_order(rt: HostRuntime) {
    for (text, wanted) in ITEMS {
        let mut scratch = Scratch::new(rt.alloc());
        let found = read_object(text.as_bytes(), &mut scratch, Listed { items: None });
        let listed = found.expect(&rt, "a value").expect(&rt, "an object");
        let items = match &listed.items {
            Some(found) => Some((found.count, found.integers.as_slice())),
            None => None,
        };
        assert!(rt; items == *wanted);
    }
}

// How many members the last member has, if it is an object, otherwise its top level.
#[derive(Clone, Copy, Drop)]
struct Last<'t> {
    last: Result<usize, Leaf<'t>>,
}

impl<'t> Gather<'t> for Last<'t> {
    ghost Holds = { λ _ _. ⊤ };

    ghost MayFail = { ⊤ };

    fn member(&mut self, _: &'t str, walk: &mut Walk<'t>) -> Result<(), ReadFault> {
        self.last = match walk.gather_or_leaf(Told::none())? {
            Ok(told) => Ok(told.count),
            Err(leaf) => Err(leaf),
        };
        Ok(())
    }
}

const LASTS: &[(&str, Result<usize, Leaf>)] = &[
    ("{\"a\":{}}", Ok(0)),
    ("{\"a\":7,\"b\":{\"x\":1,\"y\":{\"z\":2}}}", Ok(2)),
    ("{\"a\":{},\"a\":7}", Err(Leaf::Number("7"))),
    ("{\"a\":null}", Err(Leaf::Null)),
    ("{\"a\":[{\"x\":1}]}", Err(Leaf::Array)),
    ("{\"a\":\"{}\"}", Err(Leaf::String("{}"))),
];

#[test]
fn objects_or_leaves(rt: HostRuntime) {
    for (text, last) in LASTS {
        let mut scratch = Scratch::new(rt.alloc());
        let start = Last {
            last: Err(Leaf::Null),
        };
        let read = read_object(text.as_bytes(), &mut scratch, start);
        let found = read.expect(&rt, "a value").expect(&rt, "an object");
        assert!(rt; found.last == *last);
    }
}

// The number at the front of some bytes, and what follows it.
const DECIMALS: &[(&[u8], Option<(u64, &[u8])>)] = &[
    (b"0", Some((0, b""))),
    (b"7", Some((7, b""))),
    (b"10", Some((10, b""))),
    (b"9,\"x\":1}", Some((9, b",\"x\":1}"))),
    (b"429 ", Some((429, b" "))),
    (b"1.5", Some((1, b".5"))),
    (b"01", Some((0, b"1"))),
    (b"100000000000000000", Some((100000000000000000, b""))),
    (b"999999999999999999}", Some((999999999999999999, b"}"))),
    (b"1000000000000000000", None),
    (b"99999999999999999999", None),
    (b"", None),
    (b"x1", None),
    (b"-1", None),
    (b":", None),
];

#[test]
fn decimals(rt: HostRuntime) {
    for (text, front) in DECIMALS {
        assert!(rt; take_decimal(*text) == *front);
    }
}

const PLAIN_TEXTS: &[(&[u8], Option<&str>, Option<(&str, &[u8])>)] = &[
    (b"", Some(""), None),
    (b"a", Some("a"), None),
    (b" ~", Some(" ~"), None),
    (b"\x1f", None, None),
    (b"\x7f", None, None),
    (b"\xc3\xa4", None, None),
    (b"a\\", None, None),
    (b"a\"", None, Some(("a", b""))),
    (b"\",\"b\"", None, Some(("", b",\"b\""))),
    (b"a\\\"b", None, None),
    (b"\xc3\xa4\"", None, None),
];

#[test]
fn plain_texts(rt: HostRuntime) {
    for (text, whole, front) in PLAIN_TEXTS {
        assert!(rt; plain_text(*text) == *whole && take_plain(*text) == *front);
    }
}

const FRONTS: &[(&[u8], &[u8], Option<&[u8]>)] = &[
    (b"", b"", Some(b"")),
    (b"ab", b"", Some(b"ab")),
    (b"ab", b"a", Some(b"b")),
    (b"ab", b"ab", Some(b"")),
    (b"ab", b"b", None),
    (b"a", b"ab", None),
];

#[test]
fn bytes_in_front(rt: HostRuntime) {
    for (bytes, front, rest) in FRONTS {
        assert!(rt; after(*bytes, *front) == *rest);
    }
}
