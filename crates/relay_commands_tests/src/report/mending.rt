//! How the last line of a report ends.
use relay_report::{LastLine, last_line};

// The end of a text, and how it ends.
const ENDS: &[(&[u8], LastLine)] = &[
    (b"", LastLine::Ended),
    (b"\n", LastLine::Ended),
    (b"x\n", LastLine::Ended),
    (b"x", LastLine::Torn { whole: 0 }),
    (b"x\ny\nz", LastLine::Torn { whole: 4 }),
    (b"\n{\"cause\":\"Spent\"}", LastLine::Torn { whole: 1 }),
    (
        b"x\n{\"cause\":\"Spent\",\"id\":\"1\",\"index\":\"b\",\"number\":2,\"producer\":0",
        LastLine::Torn { whole: 2 },
    ),
    (
        b"x\n{\"cause\":\"Spent\",\"id\":\"1\",\"index\":\"b\",\"number\":2,\"producer\":0}",
        LastLine::Unended,
    ),
    (
        b"{\"cause\":\"Spent\",\"id\":\"1\",\"index\":\"b\",\"number\":2,\"producer\":0}",
        LastLine::Unended,
    ),
];

#[test]
fn last_lines(rt: HostRuntime) {
    for (text, wanted) in ENDS {
        assert!(rt; last_line(rt.alloc(), *text) == Ok(*wanted));
    }
}
