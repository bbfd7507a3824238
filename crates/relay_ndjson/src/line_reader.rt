//! The lines of a stream, for formats other than bulk text, and for callers that keep the lines of
//! operations.
ghost use Rattle.std.specs.Prelude.{◌≡◌, ◌≤◌, [], length, IfOk, IfErr, OnErr};
ghost use Rattle.std.specs.Bool.{OnTrue};
ghost use Rattle.std.specs.Io.KnownBytes.{prepend_known};
ghost use Rattle.relay_ndjson.specs.Lines.{StopsInLine, piece_limit};
ghost use Rattle.relay_ndjson.specs.Metadata.{bytes_given};
ghost use Rattle.relay_ndjson.specs.Operations.{Stops, failed_after, position};
ghost use Rattle.relay_ndjson.specs.LineReading.{TakesNext, TakesBytes, holds_end};
ghost use Rattle.relay_ndjson.specs.OperationLines.{TakesActionLine, TakesSourceLine};
ghost use Rattle.relay_ndjson.specs.OperationLines.{StopsInSource};

use crate::kind::InputFault;
use crate::lines::{LineEnd, Lines};
use memchr::memchr;
use relay_action::{Action, ActionKind, ByteIn, DocKey};
use std::alloc::Global;
use std::marker::Model;

/// The lines of a stream, read one after another by the rules of bulk text. The reader keeps what
/// it has read ahead, the last line taken and what ended it, and the number of lines taken. The
/// caller holds the stream and passes the same one to each call. It does not allocate before the
/// first call of `next`, which allocates room for 64 KiB.
#[derive(Drop)]
pub struct LineReader {
    lines: Lines,
}

impl Model for LineReader {
    ghost use Rattle.relay_ndjson.specs.LineReading.{LineReading};

    ghost Value = { LineReading };

    ghost view = { λ r. record {
      held = r.lines.piece;
      text = r.lines.text.items;
      end = r.lines.end;
      count = r.lines.count;
    } };
}

impl LineReader {
    /// A reader that has read nothing.
    pub fn new(alloc: Global) -> LineReader
        ensures held { result.held ≡ [] }
        ensures count { result.count ≡ 0 }
    {
        LineReader {
            lines: Lines::new(alloc),
        }
    }

    /// Takes the next line, and returns whether there was one. The faults, with the number of that
    /// line, are `LineLong`, `Read` and `Memory`. After a fault the line is not counted, and the
    /// stream is somewhere inside it; a failed read is not retried within a call.
    pub fn next<R: ByteIn>(&mut self, reader: &mut R) -> Result<bool, InputFault>
        ensures line { TakesNext (prepend_known self.old.held (R.left reader.old))
            (prepend_known self.new.held (R.left reader.new))
            self.old.count self.new.count self.new.text result }
        ensures stop { IfErr result (λ e. StopsInLine
            (prepend_known self.old.held (R.left reader.old))
            (prepend_known self.new.held (R.left reader.new)) self.new.held e.kind) }
        ensures uncounted { OnErr result (self.new.count ≡ self.old.count) }
        ensures bytes { IfOk result (λ found. OnTrue found (TakesBytes
            (prepend_known self.old.held (R.left reader.old))
            (prepend_known self.new.held (R.left reader.new)) self.new.text self.new.end)) }
        ensures failed { R.failed reader.new ≡ failed_after result (R.failed reader.old) }
        ensures held { length self.new.held ≤ piece_limit }
    {
        self.lines.take_line(reader)
    }

    /// Takes blank lines and the action line of the next operation, if there is one, and returns
    /// what it asks for. With [`next_source`](LineReader::next_source) after an index action it
    /// takes the lines of operations one after another, with the faults of
    /// [`Parser::next`](crate::Parser::next); the line taken last can be kept before the next one.
    /// Operations without an index name get the default index, if one is given.
    pub fn next_action<R: ByteIn>(
        &mut self,
        alloc: Global,
        reader: &mut R,
        default_index: Option<&str>,
    ) -> Result<Option<(ActionKind, DocKey)>, InputFault>
        ensures line { TakesActionLine (bytes_given default_index.entry)
            (position (R.left reader.old) self.old.held self.old.count)
            (position (R.left reader.new) self.new.held self.new.count)
            self.new.text self.new.end result }
        ensures stop { IfErr result (Stops (bytes_given default_index.entry)
            (position (R.left reader.old) self.old.held self.old.count)
            (position (R.left reader.new) self.new.held self.new.count)) }
        ensures failed { R.failed reader.new ≡ failed_after result (R.failed reader.old) }
        ensures held { length self.new.held ≤ piece_limit }
    {
        self.lines.take_action(alloc, reader, default_index)
    }

    /// Takes the source line of the index action that was taken last, and returns the action. If
    /// the stream ends before it, the fault `SourceMissing` has the action's line.
    pub fn next_source<R: ByteIn>(
        &mut self,
        alloc: Global,
        reader: &mut R,
    ) -> Result<Action, InputFault>
        ensures line { TakesSourceLine (position (R.left reader.old) self.old.held self.old.count)
            (position (R.left reader.new) self.new.held self.new.count)
            self.new.text self.new.end result }
        ensures stop { IfErr result (StopsInSource
            (position (R.left reader.old) self.old.held self.old.count)
            (position (R.left reader.new) self.new.held self.new.count)) }
        ensures failed { R.failed reader.new ≡ failed_after result (R.failed reader.old) }
        ensures held { length self.new.held ≤ piece_limit }
    {
        self.lines.take_source(alloc, reader)
    }

    /// The last line taken, without its end.
    pub fn text(&self) -> &[u8]
        ensures { result.now ≡ self.now.text }
    {
        self.lines.text.as_slice()
    }

    /// What ended the last line taken.
    pub fn end(&self) -> LineEnd
        ensures { result ≡ self.now.end }
    {
        self.lines.end
    }

    /// The number of lines taken; it saturates at 2^64 - 1.
    pub fn count(&self) -> u64
        ensures { result ≡ self.now.count }
    {
        self.lines.count
    }

    /// Whether the next call of `next` needs no read: a whole line has been read ahead.
    #[tactic(auto, using(crate::proofs::LineEnds::found_end))]
    pub fn is_ready(&self) -> bool
        ensures { result ≡ holds_end self.now.held }
    {
        memchr(b'\n', self.lines.piece.held()).is_some()
    }
}
