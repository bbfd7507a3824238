//! A producer's operations, read one after another from a stream that the caller holds.
ghost use Rattle.std.specs.Prelude.{◌≡◌, ◌≤◌, ◌↔◌, length, IsTrue};

use crate::kind::{InputFault, LineKind};
use crate::lines::{Lines, NumberedOperation, holds_two_lines};
use relay_action::{Action, ByteIn, DocKey};
use std::alloc::Global;
use std::marker::Model;

/// Whether there may be more operations.
#[derive(Clone, Copy, Debug, PartialEq, Eq)]
pub enum Phase {
    /// There may be.
    Open,
    /// The input has ended.
    Ended,
    /// The line with this number had a fault.
    Failed(u64),
}

/// The state of reading a producer's input: what was read ahead, and the number of lines taken and
/// of their bytes. It is [`Input`](crate::Input) without the stream, which the caller holds and passes
/// to each call, always the same one. It does not allocate before the first call of `next`, which
/// allocates room for 64 KiB.
#[derive(Drop)]
pub struct Parser<'a> {
    alloc: Global,
    lines: Lines,
    default_index: Option<&'a str>,
    line: u64,
    phase: Phase,
}

impl<'a> Model for Parser<'a> {
    ghost use Rattle.relay_ndjson.specs.Metadata.{bytes_given};
    ghost use Rattle.relay_ndjson.specs.Reading.{Parsing};

    ghost Value = { Parsing };

    ghost view = { λ p. record {
      held = p.lines.piece;
      count = p.lines.count;
      used = p.lines.used;
      line = p.line;
      phase = p.phase;
      default = bytes_given p.default_index;
    } };
}

impl<'a> Parser<'a> {
    ghost use Rattle.relay_ndjson.specs.Metadata.{bytes_given};
    ghost use Rattle.relay_ndjson.specs.Lines.{piece_limit};
    ghost use Rattle.relay_ndjson.specs.Operations.{failed_after};
    ghost use Rattle.relay_ndjson.specs.Reading.{start, reading, Steps, HoldsTwoLines};

    /// A parser that has read nothing. Operations without an index name get the default index, if
    /// one is given; its length is checked with each of them.
    pub fn new(alloc: Global, default_index: Option<&'a str>) -> Parser<'a>
        ensures { result ≡ start (bytes_given default_index.entry) }
    {
        Parser {
            alloc,
            lines: Lines::new(alloc),
            default_index,
            line: 0,
            phase: Phase::Open,
        }
    }

    /// The next operation, or `None` at the end. The fault names the first line that breaks the
    /// producer grammar, or the line that was being read when a read or an allocation failed. At
    /// most the bad line and 64 KiB more are read. A failed read is not retried; what had been read
    /// before it does not hold a further whole operation. After `None`, further calls return
    /// `None`; after a fault, they return `Failed` with its line. Neither reads.
    pub fn next<R: ByteIn>(
        &mut self,
        reader: &mut R,
    ) -> Result<Option<(DocKey, Action)>, InputFault>
        ensures lines { Steps self.old.phase
            (reading (R.left reader.old) (R.failed reader.old) self.old)
            (reading (R.left reader.new) (R.failed reader.new) self.new) result }
        ensures failed { R.failed reader.new ≡ failed_after result (R.failed reader.old) }
        ensures held { length self.new.held ≤ piece_limit }
    {
        match self.phase {
            Phase::Ended => return Ok(None),
            Phase::Failed(line) => {
                return Err(InputFault {
                    line,
                    kind: LineKind::Failed,
                });
            }
            Phase::Open => {}
        }
        match self
            .lines
            .take_operation(self.alloc, reader, self.default_index)
        {
            Ok(Some(NumberedOperation { line, key, action })) => {
                self.line = line;
                Ok(Some((key, action)))
            }
            Ok(None) => {
                self.phase = Phase::Ended;
                Ok(None)
            }
            Err(fault) => {
                self.phase = Phase::Failed(fault.line);
                Err(fault)
            }
        }
    }

    /// Whether the next call of `next` needs no read: two whole lines after any blank ones have
    /// been read ahead. If not, `next` may wait for the stream.
    pub fn is_ready(&self) -> bool
        ensures { IsTrue result ↔ HoldsTwoLines self.now.held }
    {
        holds_two_lines(&self.lines.piece)
    }

    /// How many bytes of the stream were used: 0 at the start, and after an operation those up to its
    /// end. After the end or a fault no contract says. It saturates at 2^64 - 1.
    pub fn used(&self) -> u64
        ensures { result ≡ self.now.used }
    {
        self.lines.used
    }

    /// The line number of the last action line returned, 0 before the first. A fault does not
    /// change it.
    pub fn line(&self) -> u64
        ensures { result ≡ self.now.line }
    {
        self.line
    }
}
