//! The first line of what was read.
ghost use Rattle.std.specs.Prelude.{◌≡◌, ◌≤◌, length, take, if◌then◌else◌};
ghost use Rattle.relay_ndjson.specs.Lines.{IsUnbroken};
ghost use Rattle.relay_sift.specs.Fronts.{IsFirst};
ghost use Rattle.relay_sift.specs.Texts.{closing, ends_with, first_of, is_long, line_text};
ghost use Rattle.relay_sift.specs.Texts.{lines_of, without_return};

use memchr::memchr;
use relay_ndjson::LINE_LIMIT;

/// The first line of what was read ahead.
#[derive(Clone, Copy, Debug, PartialEq, Eq)]
pub(crate) enum FirstLine {
    /// It has this many bytes with its end, and is not too long.
    Whole(usize),
    /// It is too long.
    Long,
    /// Nothing is left.
    Absent,
    /// More has to be read.
    Partial,
}

// Whether the last byte is this one.
pub(crate) fn ends_with(bytes: &[u8], byte: u8) -> bool
    ensures { result ≡ ends_with byte bytes.now }
{
    0 < bytes.len() && bytes[bytes.len() - 1] == byte
}

// Without a carriage return at the end.
fn without_return(bytes: &[u8]) -> &[u8]
    ensures { result.now ≡ without_return bytes.now }
{
    if ends_with(bytes, b'\r') {
        &bytes[..bytes.len() - 1]
    } else {
        bytes
    }
}

/// A line without what ends it.
pub(crate) fn line_text(line: &[u8]) -> &[u8]
    ensures { result.now ≡ line_text line.now }
{
    if ends_with(line, b'\n') {
        without_return(&line[..line.len() - 1])
    } else {
        line
    }
}

/// The text of the first of these lines; empty if there is none.
pub(crate) fn first_text(bytes: &[u8]) -> &[u8]
    ensures { result.now ≡ line_text (first_of (lines_of bytes.now)) }
{
    match memchr(b'\n', bytes) {
        Some(end) => line_text(&bytes[..end + 1]),
        None => line_text(bytes),
    }
}

/// A line feed, if the text does not end with one.
pub(crate) fn closing(text: &[u8]) -> &'static [u8]
    ensures { result.now ≡ closing text.now }
{
    if ends_with(text, b'\n') { b"" } else { b"\n" }
}

/// Finds the first line of these bytes; `ended` says that nothing follows them.
pub(crate) fn first_line(bytes: &[u8], ended: bool) -> FirstLine
    ensures { IsFirst bytes.now ended result }
{
    match memchr(b'\n', bytes) {
        Some(end) => sized(bytes, end + 1),
        None => open_line(bytes, ended),
    }
}

// A line that ends here, unless it is too long.
fn sized(bytes: &[u8], end: usize) -> FirstLine
    requires { end ≤ length bytes.now }
    ensures { result ≡ (if is_long (take end bytes.now) then FirstLine.Long else FirstLine.Whole end) }
{
    if line_text(&bytes[..end]).len() > LINE_LIMIT {
        FirstLine::Long
    } else {
        FirstLine::Whole(end)
    }
}

// Bytes without a line feed.
fn open_line(bytes: &[u8], ended: bool) -> FirstLine
    requires { IsUnbroken bytes.now }
    ensures { IsFirst bytes.now ended result }
{
    if bytes.len() > LINE_LIMIT + 2 {
        return FirstLine::Long;
    }
    if !ended {
        return FirstLine::Partial;
    }
    if bytes.is_empty() {
        return FirstLine::Absent;
    }
    sized(bytes, bytes.len())
}
