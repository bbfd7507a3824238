//! The reason that an answer to a request as a whole gives.
use relay_results::read_refusal;
use std::process::Abort;

// Whether this is the reason that is kept of a body.
fn gives(rt: &(impl Abort + AllocGlobal), body: &[u8], wanted: Option<&str>) -> bool {
    match read_refusal(rt.alloc(), body) {
        Ok(Some(reason)) => wanted == Some(reason.as_str()),
        Ok(None) => wanted.is_none(),
        Err(_) => panic!(rt; "memory"),
    }
}

// Bodies and their reasons. The first four are what OpenSearch answers without credentials, without
// a permission, to another method and where a limit of the cluster is reached.
const BODIES: &[(&[u8], Option<&str>)] = &[
    (
        b"{\"error\":{\"root_cause\":[{\"type\":\"security_exception\",\"reason\":\"missing authentication credentials for REST request [/_bulk]\"}],\"type\":\"security_exception\",\"reason\":\"missing authentication credentials for REST request [/_bulk]\"},\"status\":401}",
        Some("missing authentication credentials for REST request [/_bulk]"),
    ),
    (
        b"{\"status\":403,\"error\":{\"type\":\"security_exception\",\"reason\":\"no permissions for [indices:data/write/bulk]\",\"caused_by\":{\"type\":\"t\",\"reason\":\"another\"}}}",
        Some("no permissions for [indices:data/write/bulk]"),
    ),
    (
        b"{\"error\":\"Incorrect HTTP method for uri [/_bulk] and method [GET], allowed: [PUT, POST]\",\"status\":405}",
        Some("Incorrect HTTP method for uri [/_bulk] and method [GET], allowed: [PUT, POST]"),
    ),
    (
        b"{\"error\":{\"reason\":\"a \\\"quote\\\" and \\u00e4\",\"type\":\"t\"}}",
        Some("a \"quote\" and \u{e4}"),
    ),
    (b"{\"error\":{\"reason\":\"\"}}", Some("")),
    (
        b"{\"error\":\"first\",\"error\":\"second\"}",
        Some("second"),
    ),
    (b"{\"error\":\"first\",\"error\":null}", None),
    (b"{\"error\":{\"reason\":\"first\",\"reason\":7}}", None),
    (b"{\"error\":{\"reason\":{\"reason\":\"inner\"}}}", None),
    (b"{\"error\":{\"type\":\"t\"}}", None),
    (b"{\"error\":[\"reason\"]}", None),
    (b"{\"error\":7}", None),
    (b"{\"error\":true}", None),
    (b"{\"reason\":\"outside of an error\"}", None),
    (b"{}", None),
    (b"[{\"error\":\"in an array\"}]", None),
    (b"\"error\"", None),
    (b"", None),
    (b"<html><body>502 Bad Gateway</body></html>", None),
    (b"{\"error\":\"not closed\"", None),
    (b"{\"error\":\"\xff\"}", None),
];

#[test]
fn bodies(rt: HostRuntime) {
    for (body, reason) in BODIES {
        assert!(rt; gives(&rt, *body, *reason));
    }
}

// Whether of a reason of this many letters and then an end, those and this much of the end are kept.
fn keeps(rt: &(impl Abort + AllocGlobal), letters: usize, end: &str, kept_end: &str) -> bool {
    let text = "a".repeat(rt.alloc(), letters).expect(rt, "memory");
    let body = format!(in rt.alloc(); "{{\"error\":{{\"reason\":\"{text}{end}\"}}}}").expect(
        rt, "memory",
    );
    let kept = format!(in rt.alloc(); "{text}{kept_end}").expect(rt, "memory");
    gives(rt, body.as_bytes(), Some(kept.as_str()))
}

// How many letters, an end, and what is kept of it.
const LONG: &[(usize, &str, &str)] = &[
    (511, "b", "b"),
    (512, "b", ""),
    (511, "\u{e4}", ""),
    (510, "\u{e4}b", "\u{e4}"),
];

// At most 512 bytes are kept, and no character is cut.
#[test]
fn kept_to_the_limit(rt: HostRuntime) {
    for (letters, end, kept_end) in LONG {
        assert!(rt; keeps(&rt, *letters, *end, *kept_end));
    }
}
