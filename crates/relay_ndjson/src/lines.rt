//! The lines of a producer's input, and the operations on them.
ghost use Rattle.std.specs.Prelude.{◌≡◌, ◌+◌, ◌<◌, ◌≤◌, ◌↔◌, ◌∷◌, ◌++◌, ℕ, List, Option};
ghost use Rattle.std.specs.Prelude.{[], true, false, OnOk, OnErr, IfOk, IfErr};
ghost use Rattle.std.specs.Prelude.{IfSome, IfNone, IsTrue, length, slice_index};
ghost use Rattle.std.specs.Bool.{OnTrue, OnFalse};
ghost use Rattle.std.specs.Io.KnownBytes.{prepend_known};
ghost use Rattle.relay_action.specs.Limits.{is_line_end};
ghost use Rattle.relay_action.specs.Streams.{most};
ghost use Rattle.relay_ndjson.specs.Lines.{IsUnbroken, IsRaw, IsPastLimit};
ghost use Rattle.relay_ndjson.specs.Lines.{StopsInLine, line_limit, piece_limit};
ghost use Rattle.relay_ndjson.specs.LineReading.{TakesBytes, end_bytes};
ghost use Rattle.relay_ndjson.specs.Operations.{UsesBytes, saturating_count};
ghost use Rattle.relay_ndjson.specs.Steps.{IsStart, IsAddFault, TakesPart, TakesLine};
ghost use Rattle.relay_ndjson.specs.Steps.{EndsLine, PartHasBytes, LineHasBytes, failed_by};
ghost use Rattle.relay_ndjson.specs.Reading.{HoldsTwoLines};

use crate::action_line::{read_action, read_source};
use crate::kind::{InputFault, LineKind};
use crate::piece::Piece;
use memchr::memchr;
use relay_action::{Action, ActionKind, ByteIn, DocKey};
use relay_json::Scratch;
use std::alloc::Global;

/// The maximum length of a line without its end, in bytes.
pub const LINE_LIMIT: usize = 1_114_112;

/// The maximum number of consecutive blank lines.
pub const BLANK_LIMIT: u64 = 65_536;

/// What was found in place of a line.
#[derive(Clone, Copy, Debug, PartialEq, Eq)]
pub enum Line {
    /// A line with its end.
    Ended,
    /// A last line without an end.
    Open,
    /// The end of the input.
    Absent,
}

/// What ends a line.
#[derive(Clone, Copy, Debug, PartialEq, Eq)]
pub enum LineEnd {
    /// A line feed.
    Feed,
    /// A carriage return and a line feed.
    ReturnFeed,
    /// Nothing: the input ends after the line.
    Open,
}

impl LineEnd {
    /// The bytes that ended the line.
    pub fn bytes(self) -> &'static [u8]
        ensures { result.now ≡ end_bytes self }
    {
        match self {
            LineEnd::Feed => b"\n",
            LineEnd::ReturnFeed => b"\r\n",
            LineEnd::Open => b"",
        }
    }
}

/// What a piece contributed to a line.
#[derive(Clone, Copy, Debug, PartialEq, Eq)]
pub enum Part {
    /// The rest of the line, with its end.
    End,
    /// All that the piece held; the line continues.
    More,
}

/// An operation, and the number of its action line.
#[derive(Drop)]
pub struct NumberedOperation {
    pub line: u64,
    pub key: DocKey,
    pub action: Action,
}

/// The lines of a stream: what was read ahead, the last line taken, the number of lines taken and of
/// their bytes, and the scratch for reading action lines.
#[derive(Drop)]
pub struct Lines {
    pub piece: Piece,
    pub text: Vec<u8>,
    pub end: LineEnd,
    pub count: u64,
    // How many bytes the lines that were taken have, with their ends.
    pub used: u64,
    pub scratch: Scratch,
    ghost in_range: { count ≤ most },
    ghost used_in_range: { used ≤ most },
    ghost one_piece: { length piece ≤ piece_limit },
}

impl Lines {
    ghost use Rattle.relay_ndjson.specs.Metadata.{bytes_given};
    ghost use Rattle.relay_ndjson.specs.Operations.{Stops, failed_after, position};
    ghost use Rattle.relay_ndjson.specs.LineReading.{TakesNext};
    ghost use Rattle.relay_ndjson.specs.OperationLines.{TakesActionLine, TakesSourceLine};
    ghost use Rattle.relay_ndjson.specs.OperationLines.{StopsInSource};
    ghost use Rattle.relay_ndjson.specs.Steps.{SkipsBlank, Reads};

    /// Before any line was taken.
    pub fn new(alloc: Global) -> Lines
        ensures piece { result.piece ≡ [] }
        ensures count { result.count ≡ 0 }
        ensures used { result.used ≡ 0 }
    {
        Lines {
            piece: Piece::new(alloc),
            text: Vec::new(alloc),
            end: LineEnd::Open,
            count: 0,
            used: 0,
            scratch: Scratch::new(alloc),
        }
    }

    // Adds to the line what the piece holds of it.
    fn take_part(&mut self) -> Result<Part, LineKind>
        requires unbroken { IsUnbroken self.old.text.items }
        requires start { IsStart self.old.text.items }
        ensures part { TakesPart self.old.text.items self.old.piece
            self.new.text.items self.new.piece result }
        ensures kept { OnErr result (self.new.piece ≡ self.old.piece) }
        ensures bytes { PartHasBytes self.old.text.items self.old.piece
            self.new.text.items self.new.piece self.new.end result }
        ensures count { self.new.count ≡ self.old.count }
        ensures used { self.new.used ≡ self.old.used }
    {
        match memchr(b'\n', self.piece.held()) {
            Some(end) => {
                add(&mut self.text, &self.piece.held()[..end])?;
                self.end = drop_return(&mut self.text);
                self.piece.skip(end + 1);
                Ok(Part::End)
            }
            None => {
                add(&mut self.text, self.piece.held())?;
                let count = self.piece.held().len();
                self.piece.skip(count);
                Ok(Part::More)
            }
        }
    }

    // Reads a line into the buffer.
    fn read_line<R: ByteIn>(&mut self, reader: &mut R) -> Result<Line, LineKind>
        ensures line { TakesLine (prepend_known self.old.piece (R.left reader.old))
            (prepend_known self.new.piece (R.left reader.new)) self.new.text.items result }
        ensures stop { IfErr result (StopsInLine (prepend_known self.old.piece (R.left reader.old))
            (prepend_known self.new.piece (R.left reader.new)) self.new.piece) }
        ensures bytes { LineHasBytes (prepend_known self.old.piece (R.left reader.old))
            (prepend_known self.new.piece (R.left reader.new))
            self.new.text.items self.new.end result }
        ensures failed { R.failed reader.new ≡ failed_by result (R.failed reader.old) }
        ensures count { self.new.count ≡ self.old.count }
        ensures used { self.new.used ≡ self.old.used }
    {
        self.text.clear();
        'pieces: loop {
            if !self.piece.refill(reader)? {
                self.end = LineEnd::Open;
                return end_of_line(self.text.as_slice());
            }
            match self.take_part()? {
                Part::End => return Ok(Line::Ended),
                Part::More => {}
            }
        }
    }

    // How many bytes were taken, those of the last line with them.
    fn used_after_line(&self) -> u64
        ensures { result ≡ saturating_count (self.now.used
            + length (self.now.text.items ++ end_bytes self.now.end)) }
    {
        let line = self.text.len() as u64;
        let end = self.end.bytes().len() as u64;
        self.used.saturating_add(line).saturating_add(end)
    }

    /// Takes a line, if there is one.
    pub fn take_line<R: ByteIn>(&mut self, reader: &mut R) -> Result<bool, InputFault>
        ensures line { TakesNext (prepend_known self.old.piece (R.left reader.old))
            (prepend_known self.new.piece (R.left reader.new))
            self.old.count self.new.count self.new.text.items result }
        ensures stop { IfErr result (λ e. StopsInLine
            (prepend_known self.old.piece (R.left reader.old))
            (prepend_known self.new.piece (R.left reader.new)) self.new.piece e.kind) }
        ensures uncounted { OnErr result (self.new.count ≡ self.old.count) }
        ensures bytes { IfOk result (λ found. OnTrue found (TakesBytes
            (prepend_known self.old.piece (R.left reader.old))
            (prepend_known self.new.piece (R.left reader.new)) self.new.text.items self.new.end)) }
        ensures used { IfOk result (λ found. OnTrue found (UsesBytes self.old.used self.new.used
            (prepend_known self.old.piece (R.left reader.old))
            (prepend_known self.new.piece (R.left reader.new)))) }
        ensures failed { R.failed reader.new ≡ failed_after result (R.failed reader.old) }
    {
        let number = self.count.saturating_add(1);
        let line = self
            .read_line(reader)
            .map_err(|kind| InputFault { line: number, kind })?;
        match line {
            Line::Absent => Ok(false),
            Line::Ended | Line::Open => {
                self.count = number;
                self.used = self.used_after_line();
                Ok(true)
            }
        }
    }

    // Takes blank lines and the line after them, if there is one.
    fn skip_blank<R: ByteIn>(&mut self, reader: &mut R) -> Result<bool, InputFault>
        ensures line { SkipsBlank (position (R.left reader.old) self.old.piece self.old.count)
            (position (R.left reader.new) self.new.piece self.new.count)
            self.new.text.items self.new.end result }
        ensures stop { IfErr result (λ e. (default : Option (List ℕ))
            → Stops default (position (R.left reader.old) self.old.piece self.old.count)
            (position (R.left reader.new) self.new.piece self.new.count) e) }
        ensures used { IfOk result (λ found. OnTrue found (UsesBytes self.old.used self.new.used
            (prepend_known self.old.piece (R.left reader.old))
            (prepend_known self.new.piece (R.left reader.new)))) }
        ensures failed { R.failed reader.new ≡ failed_after result (R.failed reader.old) }
    {
        for blank in 0..BLANK_LIMIT + 1 {
            let found = self.take_line(reader)?;
            if !found {
                return Ok(false);
            }
            if !self.text.is_empty() {
                return Ok(true);
            }
        }
        Err(InputFault {
            line: self.count,
            kind: LineKind::LineLong,
        })
    }

    /// Takes blank lines and the action line after them, if there is one, and returns what it asks
    /// for.
    pub fn take_action<R: ByteIn>(
        &mut self,
        alloc: Global,
        reader: &mut R,
        default_index: Option<&str>,
    ) -> Result<Option<(ActionKind, DocKey)>, InputFault>
        ensures line { TakesActionLine (bytes_given default_index.entry)
            (position (R.left reader.old) self.old.piece self.old.count)
            (position (R.left reader.new) self.new.piece self.new.count)
            self.new.text.items self.new.end result }
        ensures stop { IfErr result (Stops (bytes_given default_index.entry)
            (position (R.left reader.old) self.old.piece self.old.count)
            (position (R.left reader.new) self.new.piece self.new.count)) }
        ensures used { IfOk result (λ asked. IfSome asked (λ _. UsesBytes self.old.used self.new.used
            (prepend_known self.old.piece (R.left reader.old))
            (prepend_known self.new.piece (R.left reader.new)))) }
        ensures failed { R.failed reader.new ≡ failed_after result (R.failed reader.old) }
    {
        let found = self.skip_blank(reader)?;
        if !found {
            return Ok(None);
        }
        let text = self.text.as_slice();
        match read_action(alloc, default_index, text, &mut self.scratch) {
            Ok(asked) => Ok(Some(asked)),
            Err(kind) => Err(InputFault {
                line: self.count,
                kind,
            }),
        }
    }

    /// Takes the source line of the index action on the last line taken.
    pub fn take_source<R: ByteIn>(
        &mut self,
        alloc: Global,
        reader: &mut R,
    ) -> Result<Action, InputFault>
        ensures line { TakesSourceLine (position (R.left reader.old) self.old.piece self.old.count)
            (position (R.left reader.new) self.new.piece self.new.count)
            self.new.text.items self.new.end result }
        ensures stop { IfErr result (StopsInSource
            (position (R.left reader.old) self.old.piece self.old.count)
            (position (R.left reader.new) self.new.piece self.new.count)) }
        ensures used { OnOk result (UsesBytes self.old.used self.new.used
            (prepend_known self.old.piece (R.left reader.old))
            (prepend_known self.new.piece (R.left reader.new))) }
        ensures failed { R.failed reader.new ≡ failed_after result (R.failed reader.old) }
    {
        let found = self.take_line(reader)?;
        if !found {
            return Err(InputFault {
                line: self.count,
                kind: LineKind::SourceMissing,
            });
        }
        match read_source(alloc, self.text.as_slice()) {
            Ok(action) => Ok(action),
            Err(kind) => Err(InputFault {
                line: self.count,
                kind,
            }),
        }
    }

    /// Takes blank lines and the lines of the operation after them, if there is one.
    pub fn take_operation<R: ByteIn>(
        &mut self,
        alloc: Global,
        reader: &mut R,
        default_index: Option<&str>,
    ) -> Result<Option<NumberedOperation>, InputFault>
        ensures lines { Reads (bytes_given default_index.entry)
            (position (R.left reader.old) self.old.piece self.old.count)
            (position (R.left reader.new) self.new.piece self.new.count) result }
        ensures stop { IfErr result (Stops (bytes_given default_index.entry)
            (position (R.left reader.old) self.old.piece self.old.count)
            (position (R.left reader.new) self.new.piece self.new.count)) }
        ensures used { IfOk result (λ op. IfSome op (λ _. UsesBytes self.old.used self.new.used
            (prepend_known self.old.piece (R.left reader.old))
            (prepend_known self.new.piece (R.left reader.new)))) }
        ensures failed { R.failed reader.new ≡ failed_after result (R.failed reader.old) }
    {
        let Some((kind, key)) = self.take_action(alloc, reader, default_index)? else {
            return Ok(None);
        };
        let line = self.count;
        match kind {
            ActionKind::Delete => Ok(Some(NumberedOperation {
                line,
                key,
                action: Action::delete(),
            })),
            ActionKind::Index => {
                let action = self.take_source(alloc, reader)?;
                Ok(Some(NumberedOperation { line, key, action }))
            }
        }
    }
}

/// Whether the piece has a byte that is not a line end, and two line feeds after it.
pub fn holds_two_lines(piece: &Piece) -> bool
    ensures { IsTrue result ↔ HoldsTwoLines piece.now }
{
    let bytes = piece.held();
    let Some(start) = text_start(bytes) else {
        return false;
    };
    let Some(end) = memchr(b'\n', &bytes[start..]) else {
        return false;
    };
    piece.holds_feed_from(start + end + 1)
}

// Whether a line that begins with these bytes is too long, whatever follows them.
#[tactic(auto, using(crate::proofs::Pieces::last_byte))]
fn is_past_limit(line: &[u8], bytes: &[u8]) -> bool
    requires { IsStart line.now }
    ensures past { OnTrue result (IsPastLimit (line.now ++ bytes.now)) }
    ensures start { OnFalse result (IsStart (line.now ++ bytes.now)) }
{
    if bytes.len() > LINE_LIMIT + 1 {
        return true;
    }
    let length = line.len() + bytes.len();
    if length != LINE_LIMIT + 1 {
        return length > LINE_LIMIT;
    }
    match bytes.last() {
        Some(byte) => *byte != b'\r',
        None => false,
    }
}

// Adds bytes to a line, unless it gets too long.
fn add(line: &mut Vec<u8>, bytes: &[u8]) -> Result<(), LineKind>
    requires { IsStart line.old.items }
    ensures ok { OnOk result
        ((line.new.items ≡ line.old.items ++ bytes.now) × IsStart line.new.items) }
    ensures err { IfErr result (IsAddFault (line.old.items ++ bytes.now)) }
{
    if is_past_limit(line.as_slice(), bytes) {
        return Err(LineKind::LineLong);
    }
    line.extend_from_slice(bytes).map_err(|_| LineKind::Memory)
}

// Drops the carriage return before a line feed, and returns what ended the line.
fn drop_return(line: &mut Vec<u8>) -> LineEnd
    requires { IsStart line.old.items }
    ensures raw { IsRaw line.new.items line.old.items }
    ensures length { length line.new.items ≤ line_limit }
    ensures end { line.old.items ++ 10 ∷ [] ≡ line.new.items ++ end_bytes result }
{
    if line.last() == Some(&b'\r') {
        line.pop();
        return LineEnd::ReturnFeed;
    }
    LineEnd::Feed
}

// What the bytes of a line are if the input ends after them.
fn end_of_line(line: &[u8]) -> Result<Line, LineKind>
    ensures { EndsLine line.now result }
{
    if line.len() > LINE_LIMIT {
        return Err(LineKind::LineLong);
    }
    Ok(if line.is_empty() {
        Line::Absent
    } else {
        Line::Open
    })
}

// The position of the first byte that is not a line end.
fn text_start(bytes: &[u8]) -> Option<usize>
    ensures some { IfSome result (λ start. (start < length bytes.now)
        × (is_line_end (slice_index bytes.now start) ≡ false)) }
    ensures first { IfSome result
        (λ start. (k : ℕ) → k < start → is_line_end (slice_index bytes.now k) ≡ true) }
    ensures none { IfNone result
        ((k : ℕ) → k < length bytes.now → is_line_end (slice_index bytes.now k) ≡ true) }
{
    bytes
        .iter()
        .position(|byte| *byte != b'\n' && *byte != b'\r')
}
