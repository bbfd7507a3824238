//! Text that was gathered and is still to be written.
ghost use Rattle.std.specs.Prelude.{◌≡◌, ◌≤◌, ◌++◌, [], IfErr, OnOk, OnErr};
ghost use Rattle.relay_action.specs.Streams.{most};
ghost use Rattle.relay_ndjson.specs.Bulk.{write_text};
ghost use Rattle.relay_commands.specs.Calls.{OneFails};
ghost use Rattle.relay_commands.specs.Sending.{Moves, MovesPart};

use relay_action::{ByteOut, Write, write_all};
use relay_ndjson::append_write;
use std::alloc::{AllocError, Global};

/// What was gathered is written once it has this many bytes, even before a read that does not wait.
/// A read of 64 KiB seldom yields as much, so there is about one write per read.
const FULL: usize = 262_144;

/// Text that is still to be written, and the number of bytes that were written before it.
#[derive(Drop)]
pub struct Outgoing {
    pub text: Vec<u8>,
    pub sent: u64,
    ghost in_range: { sent ≤ most },
}

impl Outgoing {
    /// Nothing to write, and nothing written.
    pub fn new(alloc: Global) -> Outgoing
        ensures text { result.text.items ≡ [] }
        ensures sent { result.sent ≡ 0 }
    {
        Outgoing {
            text: Vec::new(alloc),
            sent: 0,
        }
    }

    /// Adds the lines of a write. `AllocError`: allocation failed, and the text is unchanged.
    pub fn add(&mut self, alloc: Global, write: &Write) -> Result<(), AllocError>
        ensures ok { OnOk result (self.new.text.items
            ≡ self.old.text.items ++ write_text write.now) }
        ensures err { OnErr result (self.new.text.items ≡ self.old.text.items) }
        ensures sent { self.new.sent ≡ self.old.sent }
    {
        append_write(alloc, &mut self.text, write)
    }

    /// Adds a line. `AllocError`: allocation failed, and the text is unchanged.
    pub fn add_line(&mut self, line: &[u8]) -> Result<(), AllocError>
        ensures ok { OnOk result (self.new.text.items ≡ self.old.text.items ++ line.now) }
        ensures err { OnErr result (self.new.text.items ≡ self.old.text.items) }
        ensures sent { self.new.sent ≡ self.old.sent }
    {
        self.text.extend_from_slice(line)
    }

    /// Writes the text. `Err(sent)`: a write failed after `sent` bytes in all; the count saturates
    /// at 2^64 - 1.
    pub fn flush<W: ByteOut>(&mut self, writer: &mut W) -> Result<(), u64>
        ensures ok { OnOk result (Moves self.old.text.items self.old.sent (W.written writer.old)
            self.new.text.items self.new.sent (W.written writer.new)) }
        ensures empty { OnOk result (self.new.text.items ≡ []) }
        ensures err { IfErr result (MovesPart self.old.text.items self.old.sent
            (W.written writer.old) (W.written writer.new)) }
        ensures failed { OnErr result (OneFails (W.failed writer.old) (W.failed writer.new)) }
        ensures succeeded { OnOk result (W.failed writer.new ≡ W.failed writer.old) }
    {
        if let Err(part) = write_all(writer, self.text.as_slice()) {
            return Err(self.sent.saturating_add(part as u64));
        }
        self.sent = self.sent.saturating_add(self.text.len() as u64);
        self.text.clear();
        Ok(())
    }

    /// Writes the text if it has many bytes, or before a read that may wait. `Err(sent)`: a write
    /// failed after `sent` bytes in all.
    pub fn make_way<W: ByteOut>(&mut self, writer: &mut W, waits: bool) -> Result<(), u64>
        ensures ok { OnOk result (Moves self.old.text.items self.old.sent (W.written writer.old)
            self.new.text.items self.new.sent (W.written writer.new)) }
        ensures err { IfErr result (MovesPart self.old.text.items self.old.sent
            (W.written writer.old) (W.written writer.new)) }
        ensures failed { OnErr result (OneFails (W.failed writer.old) (W.failed writer.new)) }
        ensures succeeded { OnOk result (W.failed writer.new ≡ W.failed writer.old) }
    {
        if waits || self.text.len() >= FULL {
            self.flush(writer)
        } else {
            Ok(())
        }
    }
}
