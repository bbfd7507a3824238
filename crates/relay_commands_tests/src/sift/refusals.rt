//! Each allocation refused in turn.
use crate::sift::checks;
use crate::sift::checks::{SAID, says};
use crate::sift::sifted::{ROWS, agrees};
use relay_json::Scratch;
use relay_ndjson::LineKind;
use relay_sift::{Extent, SiftNotes, Subject, extent_of, subject_of};
use std::alloc::Global;

// An action line with a member that none may have. It is longer than a short text.
const LINE: &[u8] =
    b"{\"update\":{\"_id\":\"0123456789012345678901234567890123456789\",\"routing\":1}}";

// Whether the line is read as it should be, at the latest at the second call.
fn extends(alloc: Global) -> bool {
    let mut scratch = Scratch::new(alloc);
    match extent_of(LINE, &mut scratch) {
        Ok(extent) => extent == Extent::Two,
        Err(_) => matches!(extent_of(LINE, &mut scratch), Ok(Extent::Two)),
    }
}

fn is_named(alloc: Global, kind: LineKind, wanted: Subject<'_>) -> bool {
    let mut scratch = Scratch::new(alloc);
    match subject_of(kind, LINE, &mut scratch) {
        Ok(subject) => subject == wanted,
        Err(_) => false,
    }
}

// What a fault of each kind names.
const NAMED: &[(LineKind, Subject<'static>)] = &[
    (LineKind::UnsupportedField, Subject::Member("routing")),
    (LineKind::UnsupportedAction, Subject::Action("update")),
];

#[test]
fn refused_lines(rt: HostRuntime) {
    assert!(rt; extends(rt.alloc()));
    for row in NAMED {
        let named = is_named(rt.alloc(), row.0, row.1);
        assert!(rt; named || is_named(rt.alloc(), row.0, row.1));
    }
}

#[test]
fn refused_sifting(rt: HostRuntime) {
    for row in ROWS {
        assert!(rt; agrees(rt.alloc(), row, 1_000) || agrees(rt.alloc(), row, 1_000));
    }
    let notes = SiftNotes::shared(rt.alloc()).is_ok();
    assert!(rt; notes || SiftNotes::shared(rt.alloc()).is_ok());
}

#[test]
fn refused_checks(rt: HostRuntime) {
    for row in checks::ROWS {
        let listed = checks::agrees(rt.alloc(), row, 1_000);
        assert!(rt; listed || checks::agrees(rt.alloc(), row, 1_000));
    }
}

#[test]
fn refused_subjects(rt: HostRuntime) {
    assert!(rt; says(rt.alloc(), 3, 2, SAID) || says(rt.alloc(), 3, 2, SAID));
}
