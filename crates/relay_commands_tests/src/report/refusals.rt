//! Reports and what is printed of them, with any one of their allocations refused (`make
//! refusals`): the refusal says what it leaves, and the call succeeds when it is repeated.
use relay_action::{DocKey, MemStream, OpName, Text};
use relay_core::Report;
use relay_report::{
    Kept, LastLine, Named, PickFault, ReportFault, append_report, current_names, last_line, pick,
    read_name, read_names, report_text,
};
use relay_results::Cause;
use relay_words::{add_cause, add_document, add_name, add_number, add_spaced};
use std::alloc::{AllocError, Global};
use std::mem;
use std::process::Abort;

const NAME: OpName = OpName {
    epoch: 7,
    producer: 1,
    number: 3,
};

const ID: &str = "a document of more than thirty-eight bytes";

const KIND: &str = "a_kind_of_errors_of_more_than_thirty_eight_bytes";

const REASON: &str = "a reason of more than thirty-eight bytes";

fn text_of(rt: &impl Abort, alloc: Global, text: &str) -> Text {
    match Text::new(alloc, text) {
        Ok(made) => made,
        Err(AllocError) => Text::new(alloc, text).expect(rt, "memory"),
    }
}

fn key_of(rt: &impl Abort, alloc: Global) -> DocKey {
    match DocKey::new(alloc, "books", ID) {
        Ok(key) => key,
        Err(_) => DocKey::new(alloc, "books", ID).expect(rt, "a key"),
    }
}

fn report_of(rt: &impl Abort, alloc: Global) -> Report {
    Report {
        name: NAME,
        key: key_of(rt, alloc),
        cause: Cause::Refused {
            status: 400,
            kind: text_of(rt, alloc, KIND),
            reason: Some(text_of(rt, alloc, REASON)),
        },
    }
}

/// A byte, and the line of the report.
const BEGUN: &[u8] = b"x";

const APPENDED: &[u8] =
    b"x{\"cause\":\"Refused\",\"epoch\":7,\"id\":\"a document of more than thirty-eight bytes\",\"index\":\"books\",\"kind\":\"a_kind_of_errors_of_more_than_thirty_eight_bytes\",\"number\":3,\"producer\":1,\"reason\":\"a reason of more than thirty-eight bytes\",\"status\":400}\n";

// Whether the line of a report is appended, by a second call if the first was refused and left the text as
// it was.
fn appends(alloc: Global, text: &mut Vec<u8>, report: &Report) -> bool {
    match append_report(alloc, text, report) {
        Ok(()) => true,
        Err(AllocError) => text.as_slice() == BEGUN && append_report(alloc, text, report).is_ok(),
    }
}

fn begun(rt: &impl Abort, alloc: Global) -> Vec<u8> {
    match BEGUN.to_vec(alloc) {
        Ok(text) => text,
        Err(AllocError) => BEGUN.to_vec(alloc).expect(rt, "memory"),
    }
}

fn has_line(rt: &impl Abort, alloc: Global, report: &Report) -> bool {
    let mut text = begun(rt, alloc);
    appends(alloc, &mut text, report) && text.as_slice() == APPENDED
}

fn lines_once(alloc: Global, reports: &[Report]) -> Result<bool, AllocError> {
    match report_text(alloc, reports) {
        Ok(text) => Ok(APPENDED.get(BEGUN.len()..) == Some(text.as_slice())),
        Err(AllocError) => Err(AllocError),
    }
}

// Whether the lines of reports are written, by a second call if the first was refused.
fn has_lines(alloc: Global, reports: &[Report]) -> bool {
    match lines_once(alloc, reports) {
        Err(AllocError) => lines_once(alloc, reports) == Ok(true),
        written => written == Ok(true),
    }
}

#[test]
fn refused_reports(rt: HostRuntime) {
    let reports = [report_of(&rt, rt.alloc())];
    assert!(rt; has_line(&rt, rt.alloc(), &reports[0]) && has_lines(rt.alloc(), &reports));
    mem::forget(reports);
}

const LINE: &[u8] =
    b"{\"cause\":\"Sp\\u0065nt\",\"id\":\"a document of more than thirty-eight bytes\",\"index\":\"books\",\"number\":2,\"producer\":0}";

const LINES: &[u8] =
    b"{\"cause\":\"Spent\",\"id\":\"1\",\"index\":\"books\",\"number\":2,\"producer\":0}\n{\"cause\":\"Sp\\u0065nt\",\"id\":\"a document of more than thirty-eight bytes\",\"index\":\"books\",\"number\":3,\"producer\":0}\n";

/// The operation that the line names.
const ON_LINE: OpName = OpName {
    epoch: 0,
    producer: 0,
    number: 2,
};

fn names(alloc: Global, line: &[u8]) -> Option<OpName> {
    match read_name(alloc, line) {
        Ok(name) => name,
        Err(AllocError) => read_name(alloc, line).ok()?,
    }
}

#[test]
fn refused_name(rt: HostRuntime) {
    assert!(rt; names(rt.alloc(), LINE) == Some(ON_LINE));
}

fn stream_once(alloc: Global, input: &[u8]) -> Option<MemStream> {
    MemStream::new(alloc, input.to_vec(alloc).ok()?, 1_000, 50, 0).ok()
}

fn stream_of(alloc: Global, input: &[u8]) -> Option<MemStream> {
    match stream_once(alloc, input) {
        None => stream_once(alloc, input),
        made => made,
    }
}

/// The operations that the lines name.
const NAMED: &[Named] = &[
    Named {
        producer: 0,
        number: 2,
        line: 1,
    },
    Named {
        producer: 0,
        number: 3,
        line: 2,
    },
];

// The result of reading a report of two lines, and the number of names that it returns, if they are
// the first of the two.
fn read_once(alloc: Global) -> Option<(Result<(), ReportFault>, usize)> {
    let mut stream = stream_of(alloc, LINES)?;
    let mut names = Vec::new(alloc);
    let found = read_names(alloc, &mut stream, &mut names);
    NAMED
        .starts_with(names.as_slice())
        .then_some((found, names.len()))
}

// Whether both are read, by a second call if the first was refused after the lines before.
fn reads(alloc: Global) -> bool {
    match read_once(alloc) {
        Some((Err(ReportFault::Memory), count)) => {
            count < 2 && read_once(alloc) == Some((Ok(()), 2))
        }
        found => found == Some((Ok(()), 2)),
    }
}

#[test]
fn refused_names(rt: HostRuntime) {
    assert!(rt; reads(rt.alloc()));
}

const INPUT: &[u8] =
    b"{\"delete\":{\"_id\":\"1\",\"_index\":\"books\"}}\n{\"delete\":{\"_id\":\"a document of more than thirty-eight bytes\",\"_index\":\"books\"}}\n{\"index\":{\"_id\":\"\\u0061 document of more than thirty-eight bytes\",\"_index\":\"books\"}}\n{\"a\":\"a source of more than thirty-eight bytes\"}\n";

const PICKED: &[u8] =
    b"{\"delete\":{\"_id\":\"a document of more than thirty-eight bytes\",\"_index\":\"books\"}}\n{\"index\":{\"_id\":\"\\u0061 document of more than thirty-eight bytes\",\"_index\":\"books\"}}\n{\"a\":\"a source of more than thirty-eight bytes\"}\n";

// The result of picking the second and the third operation, and how many bytes are written, if they
// are a prefix of the two.
fn picked(
    alloc: Global,
    input: &mut MemStream,
    writer: &mut MemStream,
) -> Option<(Result<u64, PickFault>, usize)> {
    let found = pick(alloc, NAMED, 0, input, None, writer);
    let written = writer.written();
    if PICKED.starts_with(written) {
        Some((found, written.len()))
    } else {
        None
    }
}

fn pick_once(alloc: Global) -> Option<(Result<u64, PickFault>, usize)> {
    let mut input = stream_of(alloc, INPUT)?;
    let Some(mut writer) = stream_of(alloc, b"") else {
        mem::forget(input);
        return None;
    };
    let found = picked(alloc, &mut input, &mut writer);
    mem::forget((input, writer));
    found
}

// Whether they are picked, by a second call if the first was refused after it had written a prefix
// of them.
fn picks(alloc: Global) -> bool {
    let whole = Some((Ok(3), PICKED.len()));
    match pick_once(alloc) {
        Some((Err(PickFault::Memory), _)) => pick_once(alloc) == whole,
        found => found == whole,
    }
}

#[test]
fn refused_picks(rt: HostRuntime) {
    assert!(rt; picks(rt.alloc()));
}

fn are_both(kept: &Kept) -> bool {
    kept.names.as_slice() == NAMED && kept.found == 2 && kept.ends.len() == 1
}

// Whether the two are current and the input was read to its end. `None`: an allocation was refused.
fn current_once(alloc: Global) -> Option<bool> {
    let inputs = Vec::from_array(alloc, [stream_of(alloc, INPUT)?]).ok()?;
    match current_names(alloc, NAMED, inputs, None) {
        Ok(kept) => Some(are_both(&kept)),
        Err(_) => None,
    }
}

#[test]
fn refused_current_names(rt: HostRuntime) {
    let alloc = rt.alloc();
    let first = current_once(alloc);
    assert!(rt; first == Some(true) || first.is_none() && current_once(alloc) == Some(true));
}

// How the lines end without their last line feed.
fn ends(alloc: Global) -> Result<LastLine, AllocError> {
    last_line(alloc, LINES.strip_suffix(b"\n").unwrap_or(b""))
}

#[test]
fn refused_last_line(rt: HostRuntime) {
    let first = ends(rt.alloc());
    let found = if first.is_err() {
        ends(rt.alloc())
    } else {
        first
    };
    assert!(rt; found == Ok(LastLine::Unended));
}

// Adds a part of a report as it is printed.
fn add(text: &mut Vec<u8>, part: u32, report: &Report) -> Result<(), AllocError> {
    match part {
        0 => add_number(text, 18_446_744_073_709_551_615),
        1 => add_spaced(text, 7),
        2 => add_name(text, report.name),
        3 => add_document(text, &report.key),
        _ => add_cause(text, &report.cause),
    }
}

const PARTS: [&[u8]; 5] = [
    b"18446744073709551615",
    b" 7",
    b"7.1:3",
    b"books/a document of more than thirty-eight bytes",
    b"Refused 400 a_kind_of_errors_of_more_than_thirty_eight_bytes",
];

// Whether a part is added to an empty text, by a second call if the first was refused and left it empty.
fn adds(text: &mut Vec<u8>, part: u32, report: &Report) -> bool {
    match add(text, part, report) {
        Ok(()) => true,
        Err(AllocError) => text.is_empty() && add(text, part, report).is_ok(),
    }
}

fn is_added(alloc: Global, part: u32, report: &Report, wanted: &[u8]) -> bool {
    let mut text = Vec::new(alloc);
    adds(&mut text, part, report) && text.as_slice() == wanted
}

// Whether each part of a report is added as it is printed.
fn are_added(alloc: Global, report: &Report) -> bool {
    let mut good = true;
    for part in 0..5usize {
        good = is_added(alloc, part as u32, report, PARTS[part]) && good;
    }
    good
}

#[test]
fn refused_parts(rt: HostRuntime) {
    let report = report_of(&rt, rt.alloc());
    assert!(rt; are_added(rt.alloc(), &report));
    mem::forget(report);
}
