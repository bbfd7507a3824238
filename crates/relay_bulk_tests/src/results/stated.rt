//! What an outcome keeps of an error's reason, and the stored version that it states.
use relay_results::{ErrorDetail, Outcome, number_of, read_reply};
use std::process::Abort;

fn is_detail(error: &ErrorDetail, stored: Option<u64>, kept: Option<&str>) -> bool {
    let same = match (&error.reason, kept) {
        (Some(found), Some(wanted)) => found.as_str() == wanted,
        (None, None) => true,
        _ => false,
    };
    same && error.kind.as_str() == "t" && error.stored == stored
}

fn is_only(outcomes: &[Outcome], stored: Option<u64>, kept: Option<&str>) -> bool {
    match outcomes {
        [one] => match &one.error {
            Some(error) => is_detail(error.detail(), stored, kept),
            None => false,
        },
        _ => false,
    }
}

// Whether the only entry of a reply with this reason, given as JSON, has an error of its type that
// states this version and keeps this of the reason.
fn says(
    rt: &(impl Abort + AllocGlobal),
    reason: &str,
    stored: Option<u64>,
    kept: Option<&str>,
) -> bool {
    let text = format!(in rt.alloc();
        "{{\"errors\":true,\"items\":[{{\"index\":{{\"_id\":\"1\",\"status\":409,\"error\":{{\"type\":\"t\",\"reason\":{reason}}}}}}}]}}"
    ).expect(rt, "memory");
    let outcomes = read_reply(rt.alloc(), text.as_bytes()).expect(rt, "a reply");
    is_only(&outcomes, stored, kept)
}

// A reason as JSON, the stored version that it states, and the reason as it is kept.
type Row = (&'static str, Option<u64>, Option<&'static str>);

// What nodes say: of external versions, of internal ones, and of a field (OpenSearch 2).
const OF_NODES: &[Row] = &[
    (
        "\"[1]: version conflict, current version [7] is higher or equal to the one provided [6]\"",
        Some(7),
        Some(
            "[1]: version conflict, current version [7] is higher or equal to the one provided [6]",
        ),
    ),
    (
        "\"[1]: version conflict, current version [4611686018427387905] is higher or equal to the one provided [4611686018427387905]\"",
        Some(4_611_686_018_427_387_905),
        Some(
            "[1]: version conflict, current version [4611686018427387905] is higher or equal to the one provided [4611686018427387905]",
        ),
    ),
    (
        "\"[1]: version conflict, required seqNo [3], primary term [1]. current document has seqNo [5] and primary term [1]\"",
        None,
        Some(
            "[1]: version conflict, required seqNo [3], primary term [1]. current document has seqNo [5] and primary term [1]",
        ),
    ),
    (
        "\"[1]: version conflict, document already exists (current version [5])\"",
        Some(5),
        Some("[1]: version conflict, document already exists (current version [5])"),
    ),
    (
        "\"failed to parse field [year] of type [long] in document with id '1'\"",
        None,
        Some("failed to parse field [year] of type [long] in document with id '1'"),
    ),
];

// Ids that hold the mark, and words that are no numbers.
const MARKS: &[Row] = &[
    (
        "\"[current version [7]]: version conflict, current version [9] is higher or equal to the one provided [8]\"",
        Some(9),
        Some(
            "[current version [7]]: version conflict, current version [9] is higher or equal to the one provided [8]",
        ),
    ),
    (
        "\"[current version [7]]: no\"",
        Some(7),
        Some("[current version [7]]: no"),
    ),
    (
        "\"current version [7] current version [x]\"",
        None,
        Some("current version [7] current version [x]"),
    ),
    ("\"current version [7\"", None, Some("current version [7")),
    ("\"current version []\"", None, Some("current version []")),
    (
        "\"current version [+7]\"",
        None,
        Some("current version [+7]"),
    ),
    (
        "\"current version [7 ]\"",
        None,
        Some("current version [7 ]"),
    ),
    (
        "\"current version [0]\"",
        Some(0),
        Some("current version [0]"),
    ),
    (
        "\"current version [007]\"",
        Some(7),
        Some("current version [007]"),
    ),
    (
        "\"current version [18446744073709551615]\"",
        Some(18_446_744_073_709_551_615),
        Some("current version [18446744073709551615]"),
    ),
    (
        "\"current version [18446744073709551616]\"",
        None,
        Some("current version [18446744073709551616]"),
    ),
    ("\"Current version [7]\"", None, Some("Current version [7]")),
];

// Escapes, and values that are no text.
const VALUES: &[Row] = &[
    (
        "\"current\\u0020version [7]\\n\"",
        Some(7),
        Some("current version [7]\n"),
    ),
    (
        "\"\\\"current version [\\u0037]\\\"\"",
        Some(7),
        Some("\"current version [7]\""),
    ),
    ("\"\"", None, Some("")),
    ("null", None, None),
    ("7", None, None),
    ("[\"current version [7]\"]", None, None),
    ("{\"reason\":\"current version [7]\"}", None, None),
];

#[test]
fn reasons_of_nodes(rt: HostRuntime) {
    for (reason, stored, kept) in OF_NODES {
        assert!(rt; says(&rt, *reason, *stored, *kept));
    }
}

#[test]
fn marks(rt: HostRuntime) {
    for (reason, stored, kept) in MARKS {
        assert!(rt; says(&rt, *reason, *stored, *kept));
    }
}

#[test]
fn values(rt: HostRuntime) {
    for (reason, stored, kept) in VALUES {
        assert!(rt; says(&rt, *reason, *stored, *kept));
    }
}

// Whether of a reason of this many letters and then an end, those and this much of the end are
// kept, and whether it states this version.
fn keeps(
    rt: &(impl Abort + AllocGlobal),
    count: usize,
    end: &str,
    kept: &str,
    stored: Option<u64>,
) -> bool {
    let text = "a".repeat(rt.alloc(), count).expect(rt, "memory");
    let reason = format!(in rt.alloc(); "\"{text}{end}\"").expect(rt, "memory");
    let kept = format!(in rt.alloc(); "{text}{kept}").expect(rt, "memory");
    says(rt, reason.as_str(), stored, Some(kept.as_str()))
}

// Of a long reason at most 512 bytes are kept, and no character is cut; the stored version is that
// of the whole reason.
const LONG: &[(usize, &str, &str, Option<u64>)] = &[
    (511, "b", "b", None),
    (512, "", "", None),
    (512, "b", "", None),
    (511, "\u{e9}", "", None),
    (510, "\u{e9}", "\u{e9}", None),
    (509, "\u{1f600}", "", None),
    (508, "\u{1f600}b", "\u{1f600}", None),
    (508, "current version [7]", "curr", Some(7)),
    (512, "current version [7]", "", Some(7)),
];

#[test]
fn long_reasons(rt: HostRuntime) {
    for (count, end, kept, stored) in LONG {
        assert!(rt; keeps(&rt, *count, *end, *kept, *stored));
    }
}

const NUMBERS: &[(&str, Option<u64>)] = &[
    ("0", Some(0)),
    ("18446744073709551615", Some(18_446_744_073_709_551_615)),
    ("18446744073709551616", None),
    ("+1", None),
    ("-1", None),
    ("", None),
    ("1x", None),
];

#[test]
fn numbers(rt: HostRuntime) {
    for (word, number) in NUMBERS {
        assert!(rt; number_of(*word) == *number);
    }
}
