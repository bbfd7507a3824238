//! Going on with an input at its mark.
ghost use Rattle.std.specs.Prelude.{OnErr, OnOk};
ghost use Rattle.std.specs.Io.KnownBytes.{Keeps};
ghost use Rattle.std.specs.Io.Seek.{StaysAt};
ghost use Rattle.relay_resume.specs.GoingOn.{GoesTo};

use crate::mark::Mark;
use std::io;
use std::io::{Seek, SeekFrom};

/// Has a source go on at a mark: what is read from it next is what follows the mark among its bytes. An
/// error is that of the seek, and the source is where it was.
pub fn seek_to<S: Seek>(source: &mut S, mark: Mark) -> Result<(), io::Error>
    ensures ok { OnOk result (GoesTo mark (S.stream_position source.old)
        (S.stream_position source.new) (S.stream_bytes source.old) (S.stream_bytes source.new)) }
    ensures err { OnErr result (StaysAt (S.stream_position source.old)
        (S.stream_position source.new)) }
    ensures bytes { Keeps (S.stream_bytes source.old) (S.stream_bytes source.new) }
{
    source.seek(SeekFrom::Start(mark.offset))?;
    Ok(())
}
