//! A producer's operations, read from a stream that the reader owns.
ghost use Rattle.std.specs.Prelude.{◌≡◌, ◌≤◌, ◌↔◌, length, IsTrue};

use crate::kind::InputFault;
use crate::parser::Parser;
use relay_action::{Action, ByteIn, DocKey};
use std::alloc::Global;
use std::marker::Model;

/// A producer's input: a stream of NDJSON, read in pieces of 64 KiB. `new` does not allocate; the
/// first `next` allocates room for one piece, and memory does not grow with the input.
#[derive(Drop)]
pub struct Input<'a, R: ByteIn> {
    reader: R,
    parser: Parser<'a>,
}

impl<'a, R: ByteIn> Model for Input<'a, R> {
    ghost use Rattle.relay_ndjson.specs.Reading.{Reading, reading};

    ghost Value = { Reading };

    ghost view = { λ i. reading (R.left i.reader) (R.failed i.reader) i.parser };
}

impl<'a, R: ByteIn> Input<'a, R> {
    ghost use Rattle.relay_ndjson.specs.Metadata.{bytes_given};
    ghost use Rattle.relay_ndjson.specs.Lines.{piece_limit};
    ghost use Rattle.relay_ndjson.specs.Operations.{failed_after};
    ghost use Rattle.relay_ndjson.specs.Reading.{fresh, Steps, HoldsTwoLines};

    /// The input from a stream of which nothing was read. Operations without an index name get the
    /// default index, if one is given; its length is checked with each of them.
    pub fn new(alloc: Global, reader: R, default_index: Option<&'a str>) -> Input<'a, R>
        ensures { result
            ≡ fresh (R.left reader) (R.failed reader) (bytes_given default_index.entry) }
    {
        Input {
            reader,
            parser: Parser::new(alloc, default_index),
        }
    }

    /// The next operation, or `None` at the end, as [`Parser::next`].
    pub fn next(&mut self) -> Result<Option<(DocKey, Action)>, InputFault>
        ensures lines { Steps self.old.phase self.old self.new result }
        ensures failed { self.new.failed ≡ failed_after result self.old.failed }
        ensures held { length self.new.held ≤ piece_limit }
    {
        self.parser.next(&mut self.reader)
    }

    /// Whether the next call of `next` needs no read, as [`Parser::is_ready`].
    pub fn is_ready(&self) -> bool
        ensures { IsTrue result ↔ HoldsTwoLines self.now.held }
    {
        self.parser.is_ready()
    }

    /// How many bytes of the stream were used, as [`Parser::used`].
    pub fn used(&self) -> u64
        ensures { result ≡ self.now.used }
    {
        self.parser.used()
    }

    /// The line number of the last action line returned, 0 before the first. A fault does not
    /// change it.
    pub fn line(&self) -> u64
        ensures { result ≡ self.now.line }
    {
        self.parser.line()
    }
}
