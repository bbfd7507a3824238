//! Lines of reports: each cause, epochs, texts with escapes, and the order of several.
use relay_action::{DocKey, OpName, Text};
use relay_core::Report;
use relay_report::report_text;
use relay_results::{Cause, LastTry, Loss};
use std::process::Abort;

// A cause. Explained is a refusal with a reason, Rejected one of a whole request, Stated a conflict
// with one.
#[derive(Clone, Copy)]
enum Given {
    Refused(u16, &'static str),
    Explained(u16, &'static str),
    Request(u16),
    Rejected(u16, &'static str),
    Conflict,
    Stated(u64, &'static str),
    GaveUp(u32, LastTry),
    Spent,
}

// A report: its name as epoch, producer and number, its document, and its cause.
type Row = ((u32, u32, u64), (&'static str, &'static str), Given);

fn text_of(rt: &(impl Abort + AllocGlobal), text: &str) -> Text {
    Text::new(rt.alloc(), text).expect(rt, "memory")
}

fn cause_of(rt: &(impl Abort + AllocGlobal), given: Given) -> Cause {
    match given {
        Given::Refused(status, kind) => Cause::Refused {
            status,
            kind: text_of(rt, kind),
            reason: None,
        },
        Given::Explained(status, reason) => Cause::Refused {
            status,
            kind: text_of(rt, "mapper_parsing_exception"),
            reason: Some(text_of(rt, reason)),
        },
        Given::Request(status) => Cause::Request {
            status,
            reason: None,
        },
        Given::Rejected(status, reason) => Cause::Request {
            status,
            reason: Some(text_of(rt, reason)),
        },
        Given::Conflict => Cause::Conflict {
            stored: None,
            reason: None,
        },
        Given::Stated(version, reason) => Cause::Conflict {
            stored: Some(version),
            reason: Some(text_of(rt, reason)),
        },
        Given::GaveUp(sends, last) => Cause::GaveUp { sends, last },
        Given::Spent => Cause::Spent,
    }
}

// The report of a row.
fn report_of(rt: &(impl Abort + AllocGlobal), row: &Row) -> Report {
    let ((epoch, producer, number), (index, id), cause) = *row;
    Report {
        name: OpName {
            epoch,
            producer,
            number,
        },
        key: DocKey::new(rt.alloc(), index, id).expect(rt, "a key"),
        cause: cause_of(rt, cause),
    }
}

fn reports_of(rt: &(impl Abort + AllocGlobal), rows: &[Row]) -> Vec<Report> {
    let mut reports = Vec::new(rt.alloc());
    for row in rows {
        reports.push(report_of(rt, row)).expect(rt, "memory");
    }
    reports
}

// Whether the reports of rows are written as this text.
fn writes(rt: &(impl Abort + AllocGlobal), rows: &[Row], text: &[u8]) -> bool {
    let reports = reports_of(rt, rows);
    let found = report_text(rt.alloc(), &reports).expect(rt, "memory");
    found.as_slice() == text
}

const ONE: &[(Row, &[u8])] = &[
    (
        (
            (0, 0, 17),
            ("books", "emma"),
            Given::Refused(400, "mapper_parsing_exception"),
        ),
        b"{\"cause\":\"Refused\",\"id\":\"emma\",\"index\":\"books\",\"kind\":\"mapper_parsing_exception\",\"number\":17,\"producer\":0,\"status\":400}\n",
    ),
    (
        (
            (3, 15, 1_099_511_627_776),
            ("books", "emma"),
            Given::Request(413),
        ),
        b"{\"cause\":\"Request\",\"epoch\":3,\"id\":\"emma\",\"index\":\"books\",\"number\":1099511627776,\"producer\":15,\"status\":413}\n",
    ),
    (
        ((4_194_303, 1, 2), ("b", "a b"), Given::Conflict),
        b"{\"cause\":\"Conflict\",\"epoch\":4194303,\"id\":\"a b\",\"index\":\"b\",\"number\":2,\"producer\":1}\n",
    ),
    (
        (
            (0, 0, 18),
            ("books", "emma"),
            Given::Explained(400, "failed to parse field [year] of type [long]"),
        ),
        b"{\"cause\":\"Refused\",\"id\":\"emma\",\"index\":\"books\",\"kind\":\"mapper_parsing_exception\",\"number\":18,\"producer\":0,\"reason\":\"failed to parse field [year] of type [long]\",\"status\":400}\n",
    ),
    (
        (
            (1, 0, 6),
            ("b", "x"),
            Given::Stated(
                9,
                "[x]: version conflict, current version [9] is higher or equal to the one provided [7]",
            ),
        ),
        b"{\"cause\":\"Conflict\",\"epoch\":1,\"id\":\"x\",\"index\":\"b\",\"number\":6,\"producer\":0,\"reason\":\"[x]: version conflict, current version [9] is higher or equal to the one provided [7]\",\"stored\":9}\n",
    ),
    (
        (
            (0, 1, 3),
            ("b", "a\"\n\\\x01"),
            Given::GaveUp(8, LastTry::Lost(Loss::Closed)),
        ),
        b"{\"cause\":\"GaveUp\",\"id\":\"a\\\"\\n\\\\\\u0001\",\"index\":\"b\",\"last\":\"closed\",\"number\":3,\"producer\":1,\"sends\":8}\n",
    ),
    (
        (
            (0, 0, 1),
            ("b", "x"),
            Given::GaveUp(8, LastTry::Lost(Loss::Refused)),
        ),
        b"{\"cause\":\"GaveUp\",\"id\":\"x\",\"index\":\"b\",\"last\":\"refused\",\"number\":1,\"producer\":0,\"sends\":8}\n",
    ),
    (
        (
            (0, 0, 1),
            ("b", "x"),
            Given::GaveUp(3, LastTry::Lost(Loss::Unreachable)),
        ),
        b"{\"cause\":\"GaveUp\",\"id\":\"x\",\"index\":\"b\",\"last\":\"unreachable\",\"number\":1,\"producer\":0,\"sends\":3}\n",
    ),
    (
        (
            (0, 0, 1),
            ("b", "x"),
            Given::GaveUp(3, LastTry::Lost(Loss::TimedOut)),
        ),
        b"{\"cause\":\"GaveUp\",\"id\":\"x\",\"index\":\"b\",\"last\":\"timeout\",\"number\":1,\"producer\":0,\"sends\":3}\n",
    ),
    (
        (
            (0, 0, 1),
            ("b", "x"),
            Given::GaveUp(3, LastTry::Lost(Loss::Unreadable)),
        ),
        b"{\"cause\":\"GaveUp\",\"id\":\"x\",\"index\":\"b\",\"last\":\"unreadable\",\"number\":1,\"producer\":0,\"sends\":3}\n",
    ),
    (
        (
            (0, 0, 1),
            ("b", "x"),
            Given::GaveUp(3, LastTry::Lost(Loss::Memory)),
        ),
        b"{\"cause\":\"GaveUp\",\"id\":\"x\",\"index\":\"b\",\"last\":\"memory\",\"number\":1,\"producer\":0,\"sends\":3}\n",
    ),
    (
        ((0, 0, 1), ("b", "x"), Given::GaveUp(8, LastTry::Whole(503))),
        b"{\"cause\":\"GaveUp\",\"id\":\"x\",\"index\":\"b\",\"last\":\"status 503\",\"number\":1,\"producer\":0,\"sends\":8}\n",
    ),
    (
        ((0, 0, 1), ("b", "x"), Given::GaveUp(8, LastTry::Item(429))),
        b"{\"cause\":\"GaveUp\",\"id\":\"x\",\"index\":\"b\",\"last\":\"item 429\",\"number\":1,\"producer\":0,\"sends\":8}\n",
    ),
    (
        (
            (0, 0, 7),
            ("b", "x"),
            Given::Rejected(403, "no permissions for [indices:data/write/bulk]"),
        ),
        b"{\"cause\":\"Request\",\"id\":\"x\",\"index\":\"b\",\"number\":7,\"producer\":0,\"reason\":\"no permissions for [indices:data/write/bulk]\",\"status\":403}\n",
    ),
    (
        ((1, 0, 4), ("b", "x"), Given::Spent),
        b"{\"cause\":\"Spent\",\"epoch\":1,\"id\":\"x\",\"index\":\"b\",\"number\":4,\"producer\":0}\n",
    ),
    (
        ((0, 0, 5), ("b", "x"), Given::Refused(404, "")),
        b"{\"cause\":\"Refused\",\"id\":\"x\",\"index\":\"b\",\"kind\":\"\",\"number\":5,\"producer\":0,\"status\":404}\n",
    ),
];

#[test]
fn each_cause(rt: HostRuntime) {
    for (row, text) in ONE {
        assert!(rt; writes(&rt, &[*row], *text));
    }
}

const TWO: &[Row] = &[
    ((0, 1, 9), ("b", "x"), Given::Spent),
    ((0, 0, 2), ("b", "y"), Given::Conflict),
];

const TWO_LINES: &[u8] =
    b"{\"cause\":\"Spent\",\"id\":\"x\",\"index\":\"b\",\"number\":9,\"producer\":1}\n{\"cause\":\"Conflict\",\"id\":\"y\",\"index\":\"b\",\"number\":2,\"producer\":0}\n";

#[test]
fn in_the_order_given(rt: HostRuntime) {
    assert!(rt; writes(&rt, TWO, TWO_LINES));
    assert!(rt; writes(&rt, &[], b""));
}
