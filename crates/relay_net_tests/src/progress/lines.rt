//! The lines for given counts.
use relay_progress::{Progress, Trouble, trouble_text, written_text};

/// One and a half times 64 KiB, of which two thirds were read.
pub const SOME: Progress = Progress {
    read: 65_536,
    size: Some(98_304),
    requests: 12,
    operations: 1_500,
    settled: 1_400,
    refused: 50,
    repeats: 7,
    out: 2,
    idle: Some(3),
};

/// The line for these counts.
pub const SOME_LINE: &[u8] =
    b"read 65536 of 98304 bytes (66 %), sent 1500 operations in 12 requests, settled 1400, refused 50, repeats 7, out 2, last answer 3 s ago\n";

const NONE: Progress = Progress {
    read: 0,
    size: None,
    requests: 0,
    operations: 0,
    settled: 0,
    refused: 0,
    repeats: 0,
    out: 0,
    idle: None,
};

const EMPTY: Progress = Progress {
    size: Some(0),
    ..NONE
};

// A file that has grown since its size was read.
const MORE: Progress = Progress {
    read: 18_446_744_073_709_551_615,
    size: Some(9_223_372_036_854_775_807),
    ..NONE
};

// The counts, whether the line overwrites the previous one, and the text.
const ROWS: &[(&Progress, bool, &[u8])] = &[
    (&SOME, false, SOME_LINE),
    (
        &NONE,
        true,
        b"\r\x1b[?7lread 0 bytes, sent 0 operations in 0 requests, settled 0, refused 0, repeats 0, out 0, no answer yet\x1b[K\x1b[?7h",
    ),
    (
        &EMPTY,
        false,
        b"read 0 of 0 bytes (100 %), sent 0 operations in 0 requests, settled 0, refused 0, repeats 0, out 0, no answer yet\n",
    ),
    (
        &MORE,
        false,
        b"read 18446744073709551615 of 9223372036854775807 bytes (100 %), sent 0 operations in 0 requests, settled 0, refused 0, repeats 0, out 0, no answer yet\n",
    ),
];

#[test]
fn says_how_far_it_is(rt: HostRuntime) {
    for (progress, over, wanted) in ROWS {
        let text = written_text(rt.alloc(), *progress, *over).expect(&rt, "memory");
        assert!(rt; text.as_slice() == *wanted);
    }
}

// What is known about connections, whether the line overwrites the previous one, and the text.
const TROUBLES: &[(Trouble, bool, &[u8])] = &[
    (
        Trouble::Refused,
        false,
        b"[::1]:9200: connection refused, trying again\n",
    ),
    (
        Trouble::TimedOut,
        true,
        b"\r\x1b[K[::1]:9200: connection timed out, trying again\n",
    ),
    (
        Trouble::Other,
        false,
        b"[::1]:9200: no connection, trying again\n",
    ),
    (Trouble::None, false, b"[::1]:9200: connected\n"),
];

#[test]
fn says_what_becomes_of_connections(rt: HostRuntime) {
    for (trouble, over, wanted) in TROUBLES {
        let text = trouble_text(rt.alloc(), "[::1]:9200", *trouble, *over).expect(&rt, "memory");
        assert!(rt; text.as_slice() == *wanted);
    }
}
