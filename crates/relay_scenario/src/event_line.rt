//! The lines of events.
ghost use Rattle.std.specs.Prelude.{◌≡◌, ℕ, List, Some, IfOk, IfErr};
ghost use Rattle.relay_scenario.specs.Numbers.{AreNumbers};
ghost use Rattle.relay_scenario.specs.Events.{IsEventLine, IsLineFault, IsNumberedFault, event_of};

use crate::numbered::event_of;
use crate::numbers::numbers_of;
use crate::put_line::read_put;
use crate::words::cut;
use relay_world::Event;
use std::alloc::Global;

/// Why a line has no event.
#[derive(Clone, Copy, Debug, PartialEq, Eq)]
pub enum LineFault {
    /// It is not a line of a script.
    Bad,
    /// An allocation for its contents failed.
    Memory,
}

/// The event of a line, by the format in `docs/FORMATS.md`. `Bad`: no event has this line.
/// `Memory`: allocation failed.
pub fn read_event(alloc: Global, line: &[u8]) -> Result<Event, LineFault>
    ensures ok { IfOk result (IsEventLine line.now) }
    ensures err { IfErr result (IsLineFault line.now) }
{
    let Ok(text) = str::from_utf8(line) else {
        return Err(LineFault::Bad);
    };
    let Some((word, rest)) = cut(text) else {
        return Err(LineFault::Bad);
    };
    if word == "put" {
        read_put(alloc, rest)
    } else {
        read_numbered(alloc, word, rest)
    }
}

// The event with a word and numbers.
fn read_numbered(alloc: Global, word: &str, rest: &str) -> Result<Event, LineFault>
    ensures ok { IfOk result (λ e. (numbers : List ℕ) × AreNumbers rest.now numbers
        × (event_of word.now numbers ≡ Some e)) }
    ensures err { IfErr result (IsNumberedFault word.now rest.now) }
{
    let numbers = numbers_of(alloc, rest)?;
    match event_of(word, numbers) {
        Some(event) => Ok(event),
        None => Err(LineFault::Bad),
    }
}
