//! Texts that are not those of a state.
use crate::resume::desk::{AFTER, BEFORE, joined};
use relay_resume::{StateFault, read_state};
use std::alloc::Global;
use std::mem;
use std::process::Abort;

// Each is damaged in one way.
const TEXTS: &[&[u8]] = &[
    // Nothing, cut off, or no line feed at the end.
    b"",
    b"\n",
    b"{\"epoch\":7,\"inputs\":[\n",
    b"{\"epoch\":7,\"inputs\":[]}",
    // More after it.
    b"{\"epoch\":7,\"inputs\":[]}\n\n",
    b"{\"epoch\":7,\"inputs\":[]} {}\n",
    b"{\"epoch\":7,\"inputs\":[]}\n{\"epoch\":7,\"inputs\":[]}\n",
    // Another value.
    b"[]\n",
    b"7\n",
    // A member is missing, twice, of another type, out of range, or unknown.
    b"{\"epoch\":7}\n",
    b"{\"inputs\":[]}\n",
    b"{\"epoch\":7,\"epoch\":7,\"inputs\":[]}\n",
    b"{\"epoch\":7,\"inputs\":[],\"inputs\":[]}\n",
    b"{\"epoch\":\"7\",\"inputs\":[]}\n",
    b"{\"epoch\":null,\"inputs\":[]}\n",
    b"{\"epoch\":7,\"inputs\":{}}\n",
    b"{\"epoch\":7,\"inputs\":[7]}\n",
    b"{\"epoch\":7,\"inputs\":[{}]}\n",
    b"{\"epoch\":4194304,\"inputs\":[]}\n",
    b"{\"epoch\":-1,\"inputs\":[]}\n",
    b"{\"epoch\":7.0,\"inputs\":[]}\n",
    b"{\"epoch\":7,\"inputs\":[],\"more\":0}\n",
    // The same value, written in another way.
    b"{\"inputs\":[],\"epoch\":7}\n",
    b"{\"epoch\": 7,\"inputs\":[]}\n",
    b"{\"epoch\":07,\"inputs\":[]}\n",
    b" {\"epoch\":7,\"inputs\":[]}\n",
    b"{\"epo\\u0063h\":7,\"inputs\":[]}\n",
    b"{\"epoch\":7,\"inputs\":[]}\r\n",
    b"\xef\xbb\xbf{\"epoch\":7,\"inputs\":[]}\n",
];

// Whether a text is that of no state.
fn is_refused(alloc: Global, text: &[u8]) -> bool {
    matches!(read_state(alloc, text), Err(StateFault::Form))
}

#[test]
fn each_text(rt: HostRuntime) {
    for text in TEXTS {
        assert!(rt; is_refused(rt.alloc(), *text));
    }
}

// Strings that are not written for a path.
const STRINGS: &[&[u8]] = &[
    b"\"\"",
    b"7",
    b"\"\xff\"",
    b"\"\\/\"",
    b"\"\\u000a\"",
    b"\"\\ud800\"",
    b"\"p\" ",
];

// Whether a text of these parts is that of no state.
fn is_refused_of(rt: &impl Abort, alloc: Global, parts: &[&[u8]]) -> bool {
    let text = joined(alloc, parts).expect(rt, "memory");
    let refused = is_refused(alloc, &text);
    mem::forget(text);
    refused
}

#[test]
fn each_string(rt: HostRuntime) {
    for string in STRINGS {
        assert!(rt; is_refused_of(&rt, rt.alloc(), &[BEFORE, *string, AFTER]));
    }
}

// What may follow the path: whole, and damaged in one way.
const ENDS: &[(&[u8], bool)] = &[
    (AFTER, true),
    (
        b",\"device\":2049,\"inode\":131,\"checked\":1025,\"digest\":\"000102030405060708090a0b0c0d0e0f101112131415161718191a1b1c1d1e1f\",\"offset\":260,\"line\":9,\"count\":5}]}\n",
        false,
    ),
    (
        b",\"device\":18446744073709551616,\"inode\":131,\"checked\":4,\"digest\":\"000102030405060708090a0b0c0d0e0f101112131415161718191a1b1c1d1e1f\",\"offset\":260,\"line\":9,\"count\":5}]}\n",
        false,
    ),
    (
        b",\"device\":2049,\"inode\":131,\"checked\":4,\"digest\":\"000102030405060708090A0b0c0d0e0f101112131415161718191a1b1c1d1e1f\",\"offset\":260,\"line\":9,\"count\":5}]}\n",
        false,
    ),
    (
        b",\"device\":2049,\"inode\":131,\"checked\":4,\"digest\":\"000102030405060708090a0b0c0d0e0f101112131415161718191a1b1c1d1e\",\"offset\":260,\"line\":9,\"count\":5}]}\n",
        false,
    ),
    (
        b",\"device\":2049,\"inode\":131,\"checked\":4,\"digest\":\"000102030405060708090a0b0c0d0e0f101112131415161718191a1b1c1d1e1g\",\"offset\":260,\"line\":9,\"count\":5}]}\n",
        false,
    ),
    (
        b",\"device\":2049,\"inode\":131,\"checked\":4,\"offset\":260,\"line\":9,\"count\":5}]}\n",
        false,
    ),
    (
        b",\"device\":2049,\"inode\":131,\"checked\":4,\"digest\":\"000102030405060708090a0b0c0d0e0f101112131415161718191a1b1c1d1e1f\",\"offset\":260,\"line\":9}]}\n",
        false,
    ),
    (
        b",\"device\":2049,\"inode\":131,\"checked\":4,\"digest\":\"000102030405060708090a0b0c0d0e0f101112131415161718191a1b1c1d1e1f\",\"offset\":260,\"line\":9,\"count\":5,\"count\":5}]}\n",
        false,
    ),
    (
        b",\"device\":2049,\"inode\":131,\"checked\":4,\"digest\":\"000102030405060708090a0b0c0d0e0f101112131415161718191a1b1c1d1e1f\",\"offset\":260,\"line\":9,\"count\":5,\"x\":5}]}\n",
        false,
    ),
    (
        b",\"device\":2049,\"inode\":131,\"checked\":4,\"digest\":\"000102030405060708090a0b0c0d0e0f101112131415161718191a1b1c1d1e1f\",\"offset\":260,\"line\":9,\"count\":5},]}\n",
        false,
    ),
];

#[test]
fn each_end(rt: HostRuntime) {
    for (end, whole) in ENDS {
        let parts = [BEFORE, b"\"p\"".as_slice(), *end];
        assert!(rt; is_refused_of(&rt, rt.alloc(), &parts) != *whole);
    }
}
