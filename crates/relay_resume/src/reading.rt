//! Reading the text of a state.
ghost use Rattle.std.specs.Prelude.{option_map};
ghost use Rattle.relay_resume.specs.Reading.{Accepts, IsLineOf};
ghost use Rattle.relay_resume.specs.Texts.{Reads};

use crate::fault::StateFault;
use crate::finding::state_read;
use crate::state::{State, fits};
use crate::text::write_state;
use std::alloc::Global;

// What is before a line feed at the end.
fn line_of(bytes: &[u8]) -> Option<&[u8]>
    ensures { IsLineOf bytes.now (option_map (λ line. line.now) result) }
{
    let (last, line) = bytes.split_last()?;
    if *last != b'\n' {
        return None;
    }
    Some(line)
}

// The state that was found, if it is within its limits and these bytes are its text.
fn accept(alloc: Global, found: State, bytes: &[u8]) -> Result<State, StateFault>
    ensures { Accepts found bytes.now result }
{
    if !fits(&found) {
        return Err(StateFault::Form);
    }
    match write_state(alloc, &found) {
        Ok(text) => {
            if text.as_slice() == bytes {
                Ok(found)
            } else {
                Err(StateFault::Form)
            }
        }
        Err(_) => Err(StateFault::Memory),
    }
}

/// The state whose text these bytes are. `Form`: they are not, byte for byte, the text that
/// [`write_state`] gives for a state within its limits ([`fits`]). `Memory`: allocation failed.
pub fn read_state(alloc: Global, bytes: &[u8]) -> Result<State, StateFault>
    ensures { Reads bytes.now result }
{
    let Some(line) = line_of(bytes) else {
        return Err(StateFault::Form);
    };
    match state_read(alloc, line) {
        Ok(Some(found)) => accept(alloc, found, bytes),
        Ok(None) => Err(StateFault::Form),
        Err(_) => Err(StateFault::Memory),
    }
}
