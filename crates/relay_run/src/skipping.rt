//! Leaving out the invalid operations of the files of a run.
ghost use Rattle.std.specs.Prelude.{◌≡◌, IfOk, OnOk, OnErr, vec_len};
ghost use Rattle.relay_run.specs.LeavingOut.{SaysIf, SaysLeftOut, left_out_text};

use crate::faults::worse;
use crate::saying::say;
use relay_action::{ByteIn, ByteOut};
use relay_sift::{SharedNotes, Sifted};
use relay_words::{Exit, add_number};
use std::alloc::{AllocError, Global};
use std::sync::Arc;

/// Where the lines of invalid operations go, for each file, and the notes on all of them.
#[derive(Drop)]
pub(crate) struct LeavingOut<F> {
    /// A handle for each file.
    pub files: Vec<F>,
    /// How many operations were left out, and what failed meanwhile.
    pub notes: SharedNotes,
}

/// A sifted reader for each of these, each with its position as the producer. `AllocError`:
/// allocation failed.
pub(crate) fn sift_readers<S: ByteIn + Drop, F: ByteOut + Drop>(
    alloc: Global,
    readers: Vec<Option<S>>,
    leaving: LeavingOut<F>,
    index: Option<&str>,
) -> Result<Vec<Option<Sifted<S, F>>>, AllocError>
    ensures { IfOk result (λ v. vec_len v ≡ vec_len readers) }
{
    let LeavingOut { files, notes } = leaving;
    let mut files = files.into_iter();
    let mut sifted = Vec::new(alloc);
    let mut producer = 0u32;
    for reader in readers {
        sifted.push(sift_reader(alloc, reader, files.next(), producer, index, &notes)?)?;
        producer = producer.saturating_add(1);
    }
    Ok(sifted)
}

// A sifted reader, if there is a reader.
fn sift_reader<S: ByteIn + Drop, F: ByteOut + Drop>(
    alloc: Global,
    reader: Option<S>,
    file: Option<F>,
    producer: u32,
    index: Option<&str>,
    notes: &SharedNotes,
) -> Result<Option<Sifted<S, F>>, AllocError> {
    let (Some(reader), Some(file)) = (reader, file) else {
        return Ok(None);
    };
    let index = match index {
        Some(index) => Some(String::from_str(alloc, index)?),
        None => None,
    };
    let notes = Some(Arc::try_clone(notes)?);
    let sifted = Sifted::new(alloc, reader, file, producer, index, notes)?;
    Ok(Some(sifted))
}

/// Says on `err`, for the file with this name, how many operations were left out, if any were.
/// Returns the exit status of a program that would otherwise have ended with `exit`. `AllocError`:
/// allocation failed, and nothing was said.
pub fn say_left_out<E: ByteOut>(
    alloc: Global,
    exit: Exit,
    name: &str,
    count: u64,
    err: &mut E,
) -> Result<Exit, AllocError>
    ensures ok { IfOk result (λ end. SaysLeftOut name.now count exit
        (E.written err.old, E.failed err.old) (E.written err.new, E.failed err.new) end) }
    ensures err { OnErr result ((E.written err.new ≡ E.written err.old)
        × (E.failed err.new ≡ E.failed err.old)) }
{
    say_unless(alloc, exit, name, count == 0, count, err)
}

// Says so unless there were none.
fn say_unless<E: ByteOut>(
    alloc: Global,
    exit: Exit,
    name: &str,
    none: bool,
    count: u64,
    err: &mut E,
) -> Result<Exit, AllocError>
    ensures ok { IfOk result (λ end. SaysIf none name.now count exit
        (E.written err.old, E.failed err.old) (E.written err.new, E.failed err.new) end) }
    ensures err { OnErr result ((E.written err.new ≡ E.written err.old)
        × (E.failed err.new ≡ E.failed err.old)) }
{
    if none {
        return Ok(exit);
    }
    let text = left_out_text(alloc, name, count)?;
    let _ = say(err, &text);
    Ok(worse(exit, Exit::Reported))
}

fn left_out_text(alloc: Global, name: &str, count: u64) -> Result<Vec<u8>, AllocError>
    ensures { IfOk result (λ text. text.items ≡ left_out_text name.now count) }
{
    let mut text = Vec::new(alloc);
    text.extend_from_slice(name.as_bytes())?;
    text.extend_from_slice(b": invalid operations left out: ")?;
    add_number(&mut text, count)?;
    text.extend_from_slice(b"\n")?;
    Ok(text)
}
