//! Lists of refusals, and what their scripts refuse.
use relay_action::DocKey;
use relay_commands::refuse_list::{ListFault, refuse_list};
use relay_index::Index;
use std::alloc::Global;
use std::process::Abort;

const TWO: &[u8] =
    b"{\"delete\":{\"_id\":\"1\",\"_index\":\"b\",\"version\":1,\"version_type\":\"external\"}}\n{\"delete\":{\"_id\":\"2\",\"_index\":\"b\",\"version\":2,\"version_type\":\"external\"}}\n";

// The number of valid pairs before the first invalid one.
fn blamed(alloc: Global, list: &str) -> Option<u64> {
    match refuse_list(alloc, list) {
        Err(ListFault::BadList { before }) => Some(before),
        _ => None,
    }
}

const NO_LISTS: &[(&str, u64)] = &[
    ("", 0),
    (",", 0),
    ("1", 0),
    ("1:", 0),
    (":429", 0),
    ("1:429,", 1),
    (",1:429", 0),
    ("1:429,,2:429", 1),
    ("1:429,2:503,3:404,4:1", 2),
    ("0:429", 0),
    ("1:399", 0),
    ("1:404", 0),
    ("1:409", 0),
    ("1:600", 0),
    ("+1:429", 0),
    ("1:+429", 0),
    (" 1:429", 0),
    ("1:429 ", 0),
    ("18446744073709551616:429", 0),
];

#[test]
fn lists_that_are_none(rt: HostRuntime) {
    for (list, before) in NO_LISTS {
        assert!(rt; blamed(rt.alloc(), *list) == Some(*before), "{list}");
    }
}

// The version that an index stores for a document.
fn version(rt: &(impl Abort + AllocGlobal), index: &Index, id: &str) -> Option<u64> {
    index.version(&DocKey::new(rt.alloc(), "b", id).expect(rt, "a key"))
}

// Whether an index runs the first of two writes under the script of a list, and not the second.
fn runs_the_first(rt: &(impl Abort + AllocGlobal), list: &str) -> bool {
    let mut script = refuse_list(rt.alloc(), list).expect(rt, "a list");
    let mut index = Index::new(rt.alloc());
    index
        .serve_body(rt.alloc(), TWO, &mut script)
        .expect(rt, "memory");
    version(rt, &index, "1") == Some(1) && version(rt, &index, "2") == None
}

const SECOND_REFUSED: &[&str] = &[
    "2:429",
    "0002:0429",
    "2:400,2:429",
    "3:503,2:429,18446744073709551615:599",
];

#[test]
fn lists_of_refusals(rt: HostRuntime) {
    for list in SECOND_REFUSED {
        assert!(rt; runs_the_first(&rt, *list), "{list}");
    }
}
