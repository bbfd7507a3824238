//! The portion at the front of what was read.
ghost use Rattle.std.specs.Prelude.{◌≡◌, ◌≢◌, ◌+◌, ◌≤◌, IfOk, Some, drop, length, option_map, take, unwrap_or};
ghost use Rattle.relay_action.specs.Streams.{one_more};
ghost use Rattle.relay_ndjson.specs.Metadata.{bytes_given, source_line_fault};
ghost use Rattle.relay_sift.specs.Fronts.{IsFirst, IsFront, Judges};
ghost use Rattle.relay_sift.specs.Portions.{fault_at, first_fault};
ghost use Rattle.relay_sift.specs.Texts.{line_text};

use crate::asking::{Extent, extent_of};
use crate::lines::{FirstLine, first_line, line_text};
use relay_action::ActionKind;
use relay_json::Scratch;
use relay_ndjson::{InputFault, LineKind, read_action, read_source};
use std::alloc::{AllocError, Global};

/// What belongs to a line, and its own fault.
#[derive(Clone, Copy, Debug, PartialEq, Eq)]
pub(crate) enum Judged {
    /// It cannot be told; the line has this fault.
    Lost(LineKind),
    /// The line alone.
    Alone(Option<LineKind>),
    /// The next line too.
    Pair(Option<LineKind>),
}

/// What is at the front of what was read ahead.
#[derive(Clone, Copy, Debug, PartialEq, Eq)]
pub(crate) enum Front {
    /// A portion.
    Portion {
        /// The length of its first line in bytes.
        first: usize,
        /// Its length in bytes.
        end: usize,
        /// The number of lines up to its end.
        count: u64,
        /// Its fault, if it is left out.
        fault: Option<InputFault>,
    },
    /// What cannot be told apart.
    Rest {
        /// The length of its first line in bytes, unless the fault is that a line is too long.
        first: usize,
        /// Its fault.
        fault: InputFault,
    },
    /// Nothing, and nothing follows.
    Absent,
    /// More has to be read.
    Partial,
}

// What belongs to a line with this text.
fn judge(
    alloc: Global,
    default_index: Option<&str>,
    text: &[u8],
    scratch: &mut Scratch,
) -> Result<Judged, AllocError>
    ensures { IfOk result (λ judged. Judges (bytes_given default_index.entry) text.now judged) }
{
    if text.is_empty() {
        return Ok(Judged::Alone(None));
    }
    let fault = match read_action(alloc, default_index, text, scratch) {
        Ok((ActionKind::Delete, _key)) => return Ok(Judged::Alone(None)),
        Ok((ActionKind::Index, _key)) => return Ok(Judged::Pair(None)),
        Err(LineKind::Memory) => return Err(AllocError),
        Err(fault) => fault,
    };
    match extent_of(text, scratch)? {
        Extent::Lost => Ok(Judged::Lost(fault)),
        Extent::One => Ok(Judged::Alone(Some(fault))),
        Extent::Two => Ok(Judged::Pair(Some(fault))),
    }
}

// A fault that says something of a line.
fn refusal_of(kind: LineKind) -> Result<Option<LineKind>, AllocError>
    ensures { IfOk result (λ fault. (fault ≡ Some kind) × (kind ≢ LineKind.Memory)) }
{
    match kind {
        LineKind::Memory => Err(AllocError),
        other => Ok(Some(other)),
    }
}

// The fault of the text of a source line, if it has one.
fn fault_of_source(alloc: Global, text: &[u8]) -> Result<Option<LineKind>, AllocError>
    ensures { IfOk result (λ fault. fault ≡ source_line_fault text.now) }
{
    match read_source(alloc, text) {
        Ok(_) => Ok(None),
        Err(kind) => refusal_of(kind),
    }
}

// The fault at a line, if it has one.
fn at(line: u64, kind: Option<LineKind>) -> Option<InputFault>
    ensures { result ≡ option_map (λ k. fault_at line k) kind }
{
    match kind {
        Some(kind) => Some(InputFault { line, kind }),
        None => None,
    }
}

// The portion of a line that ends here, which comes after `count` lines and is alone.
fn alone(end: usize, count: u64, own: Option<LineKind>) -> Front
    ensures { result ≡ Front.Portion end end (one_more count)
        (option_map (λ k. fault_at (one_more count) k) own) }
{
    let line = count.saturating_add(1);
    Front::Portion {
        first: end,
        end,
        count: line,
        fault: at(line, own),
    }
}

// The first of two faults, at these lines.
fn pair_fault(
    line: u64,
    own: Option<LineKind>,
    next: u64,
    other: Option<LineKind>,
) -> Option<InputFault>
    ensures { result ≡ first_fault (option_map (λ k. fault_at line k) own)
        (option_map (λ k. fault_at next k) other) }
{
    match at(line, own) {
        Some(fault) => Some(fault),
        None => at(next, other),
    }
}

// The portion of an action line that ends here, which comes after `count` lines, and whose source is
// missing.
fn unfinished(end: usize, count: u64, own: Option<LineKind>) -> Front
    ensures { result ≡ Front.Portion end end (one_more count)
        (first_fault (option_map (λ k. fault_at (one_more count) k) own)
        (Some (fault_at (one_more count) LineKind.SourceMissing))) }
{
    let line = count.saturating_add(1);
    Front::Portion {
        first: end,
        end,
        count: line,
        fault: pair_fault(line, own, line, Some(LineKind::SourceMissing)),
    }
}

// The portion of an action line that ends here, after `count` lines, and its source, with its end.
fn pair(
    first: usize,
    end: usize,
    count: u64,
    own: Option<LineKind>,
    other: Option<LineKind>,
) -> Front
    ensures { result ≡ Front.Portion first end (one_more (one_more count))
        (first_fault (option_map (λ k. fault_at (one_more count) k) own)
        (option_map (λ k. fault_at (one_more (one_more count)) k) other)) }
{
    let line = count.saturating_add(1);
    let next = line.saturating_add(1);
    Front::Portion {
        first,
        end,
        count: next,
        fault: pair_fault(line, own, next, other),
    }
}

// What follows `count` lines, if its first line is too long.
fn long(count: u64) -> Front
    ensures { result ≡ Front.Rest 0 (fault_at (one_more count) LineKind.LineLong) }
{
    Front::Rest {
        first: 0,
        fault: InputFault {
            line: count.saturating_add(1),
            kind: LineKind::LineLong,
        },
    }
}

// What follows `count` lines, if its first line ends here and has this fault.
fn lost(end: usize, count: u64, kind: LineKind) -> Front
    ensures { result ≡ Front.Rest end (fault_at (one_more count) kind) }
{
    Front::Rest {
        first: end,
        fault: InputFault {
            line: count.saturating_add(1),
            kind,
        },
    }
}

// What follows `count` lines, if its first line ends here, and the next is too long.
fn source_long(end: usize, count: u64, own: Option<LineKind>) -> Front
    ensures { result ≡ Front.Rest end (unwrap_or (option_map (λ k. fault_at (one_more count) k) own)
        (fault_at (one_more (one_more count)) LineKind.LineLong)) }
{
    let line = count.saturating_add(1);
    let long = InputFault {
        line: line.saturating_add(1),
        kind: LineKind::LineLong,
    };
    Front::Rest {
        first: end,
        fault: at(line, own).unwrap_or(long),
    }
}

// The portion of an action line that ends here, which comes after `count` lines, and its source, the
// next `source` bytes.
fn with_whole(
    alloc: Global,
    default_index: Option<&str>,
    bytes: &[u8],
    ended: bool,
    end: usize,
    source: usize,
    count: u64,
    own: Option<LineKind>,
) -> Result<Front, AllocError>
    requires bound { end + source ≤ length bytes.now }
    requires first { IsFirst bytes.now ended (FirstLine.Whole end) }
    requires second { IsFirst (drop end bytes.now) ended (FirstLine.Whole source) }
    requires judged { Judges (bytes_given default_index) (line_text (take end bytes.now))
        (Judged.Pair own) }
    ensures { IfOk result (λ front. IsFront (bytes_given default_index.entry) count bytes.now
        ended front) }
{
    // It only says what the first lines are.
    let _ended = ended;
    let all = end + source;
    match fault_of_source(alloc, line_text(&bytes[end..all])) {
        Ok(other) => Ok(pair(end, all, count, own, other)),
        Err(error) => Err(error),
    }
}

// The portion of an action line that ends here, which comes after `count` lines, and its source.
fn with_source(
    alloc: Global,
    default_index: Option<&str>,
    bytes: &[u8],
    ended: bool,
    end: usize,
    count: u64,
    own: Option<LineKind>,
) -> Result<Front, AllocError>
    requires bound { end ≤ length bytes.now }
    requires first { IsFirst bytes.now ended (FirstLine.Whole end) }
    requires judged { Judges (bytes_given default_index) (line_text (take end bytes.now))
        (Judged.Pair own) }
    ensures { IfOk result (λ front. IsFront (bytes_given default_index.entry) count bytes.now
        ended front) }
{
    match first_line(&bytes[end..], ended) {
        FirstLine::Whole(source) => with_whole(
            alloc,
            default_index,
            bytes,
            ended,
            end,
            source,
            count,
            own,
        ),
        FirstLine::Long => Ok(source_long(end, count, own)),
        FirstLine::Partial => Ok(Front::Partial),
        FirstLine::Absent => Ok(unfinished(end, count, own)),
    }
}

/// Finds the portion at the front of these bytes, which come after `count` lines; `ended` says that
/// nothing follows them. `scratch` is a buffer that serves one call after another. `AllocError`: an
/// allocation failed.
pub(crate) fn front_of(
    alloc: Global,
    default_index: Option<&str>,
    bytes: &[u8],
    ended: bool,
    count: u64,
    scratch: &mut Scratch,
) -> Result<Front, AllocError>
    ensures { IfOk result (λ front. IsFront (bytes_given default_index.entry) count bytes.now
        ended front) }
{
    let end = match first_line(bytes, ended) {
        FirstLine::Whole(end) => end,
        FirstLine::Long => return Ok(long(count)),
        FirstLine::Partial => return Ok(Front::Partial),
        FirstLine::Absent => return Ok(Front::Absent),
    };
    match judge(alloc, default_index, line_text(&bytes[..end]), scratch)? {
        Judged::Lost(kind) => Ok(lost(end, count, kind)),
        Judged::Alone(own) => Ok(alone(end, count, own)),
        Judged::Pair(own) => with_source(alloc, default_index, bytes, ended, end, count, own),
    }
}
