//! What a fault of an action line is about, in words.
ghost use Rattle.std.specs.Prelude.{◌≡◌, IfOk};
ghost use Rattle.relay_sift.specs.About.{IsSaid, subject_line};
ghost use Rattle.relay_sift.specs.Keeping.{IsSaidOf};

use crate::asking::{Subject, subject_of};
use crate::kept::Kept;
use relay_json::Scratch;
use relay_ndjson::{InputFault, LineKind};
use std::alloc::{AllocError, Global};

// The line that says what a fault is about, with two blanks before it and its line feed; empty if that
// has no name.
fn subject_line(alloc: Global, subject: &Subject<'_>) -> Result<Vec<u8>, AllocError>
    ensures { IfOk result (λ text. text.items ≡ subject_line subject.now) }
{
    let mut text = Vec::new(alloc);
    match subject {
        Subject::None => {}
        Subject::Action(name) => {
            text.extend_from_slice(b"  the action ")?;
            text.extend_from_slice(name.as_bytes())?;
            text.extend_from_slice(b" is not supported: index and delete are\n")?;
        }
        Subject::Member(name) => {
            text.extend_from_slice(b"  the member ")?;
            text.extend_from_slice(name.as_bytes())?;
            text.extend_from_slice(b" is not supported\n")?;
        }
    }
    Ok(text)
}

/// The line beneath a fault that says what it is about, with two blanks before it and its line feed;
/// empty if the fault is about nothing that has a name. `line` is the action line. `AllocError`:
/// allocation failed.
pub(crate) fn say_subject(alloc: Global, kind: LineKind, line: &[u8]) -> Result<Vec<u8>, AllocError>
    ensures { IfOk result (λ text. IsSaid kind line.now text.items) }
{
    let mut scratch = Scratch::new(alloc);
    match subject_of(kind, line, &mut scratch) {
        Ok(subject) => subject_line(alloc, &subject),
        Err(error) => Err(error),
    }
}

/// The same for a fault whose line is among what was kept; empty if it is not. `AllocError`:
/// allocation failed.
pub fn subject_kept(alloc: Global, fault: InputFault, kept: &Kept) -> Result<Vec<u8>, AllocError>
    ensures { IfOk result (λ text. IsSaidOf fault kept.now text.items) }
{
    match kept.line(alloc, fault.line)? {
        Some(line) => say_subject(alloc, fault.kind, &line),
        None => Ok(Vec::new(alloc)),
    }
}
