//! The operations of an input, with their lines.
ghost use Rattle.std.specs.Prelude.{◌≡◌, ◌++◌, ℕ, List, [], IfErr, OnOk};
ghost use Rattle.relay_ndjson.specs.Metadata.{bytes_given};
ghost use Rattle.relay_ndjson.specs.Operations.{failed_after, position};
ghost use Rattle.relay_report.specs.Operations.{whole_line};
ghost use Rattle.relay_report.specs.Steps.{Reads};

use relay_action::{ActionKind, ByteIn};
use relay_ndjson::{InputFault, LineEnd, LineKind, LineReader};
use std::alloc::{AllocError, Global};

/// Reads the operations of a stream, and keeps the lines of the last one. The caller holds the
/// stream and passes the same one to each call. It does not allocate before the first call.
#[derive(Drop)]
pub(crate) struct OperationReader {
    pub(crate) lines: LineReader,
    pub(crate) taken: Vec<u8>,
}

impl OperationReader {
    pub(crate) fn new(alloc: Global) -> OperationReader
        ensures held { result.lines.held ≡ [] }
        ensures count { result.lines.count ≡ 0 }
    {
        OperationReader {
            lines: LineReader::new(alloc),
            taken: Vec::new(alloc),
        }
    }

    // Adds the last line taken to those of the operation, with a line feed if the input ends after
    // it.
    fn keep(&mut self) -> Result<(), InputFault>
        ensures ok { OnOk result (self.new.taken.items
            ≡ self.old.taken.items ++ whole_line self.old.lines.text self.old.lines.end) }
        ensures lines { self.new.lines ≡ self.old.lines }
        ensures err { IfErr result (λ e. e.kind ≡ LineKind.Memory) }
    {
        match self.add_line() {
            Ok(()) => Ok(()),
            Err(_) => Err(InputFault {
                line: self.lines.count(),
                kind: LineKind::Memory,
            }),
        }
    }

    // The allocation in `keep`.
    fn add_line(&mut self) -> Result<(), AllocError>
        ensures ok { OnOk result (self.new.taken.items
            ≡ self.old.taken.items ++ whole_line self.old.lines.text self.old.lines.end) }
        ensures lines { self.new.lines ≡ self.old.lines }
    {
        self.taken.extend_from_slice(self.lines.text())?;
        self.taken.extend_from_slice(closing(self.lines.end()))
    }

    /// Takes blank lines and the lines of the operation after them, and returns whether there was
    /// one.
    pub(crate) fn next<R: ByteIn>(
        &mut self,
        alloc: Global,
        reader: &mut R,
        default_index: Option<&str>,
    ) -> Result<bool, InputFault>
        ensures lines { Reads (bytes_given default_index.entry)
            (position (R.left reader.old) self.old.lines.held self.old.lines.count)
            (position (R.left reader.new) self.new.lines.held self.new.lines.count)
            self.new.taken.items result }
        ensures failed { R.failed reader.new ≡ failed_after result (R.failed reader.old) }
    {
        let Some((kind, _key)) = self.lines.next_action(alloc, reader, default_index)? else {
            return Ok(false);
        };
        self.taken.clear();
        self.keep()?;
        match kind {
            ActionKind::Delete => Ok(true),
            ActionKind::Index => {
                let _action = self.lines.next_source(alloc, reader)?;
                self.keep()?;
                Ok(true)
            }
        }
    }
}

// What ends a line when it is written: what ended it when it was read, or a line feed if the input
// ended after it.
fn closing(end: LineEnd) -> &'static [u8]
    ensures { (text : List ℕ) → text ++ result.now ≡ whole_line text end }
{
    match end {
        LineEnd::Open => b"\n",
        _ => end.bytes(),
    }
}
