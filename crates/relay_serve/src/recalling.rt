//! What all workers answered from the memory of a term, compared with what they gave to it.
ghost use Rattle.std.specs.Prelude.{IsTrue, OnOk};
ghost use Rattle.relay_results.specs.Words.{Mem};
ghost use Rattle.relay_serve.specs.Remembering.{AllGiven, AreGiven, WasGiven};

use crate::entry::{Entry, Spoken};
use crate::stopped::Stopped;

// Whether the entry is one of these.
fn holds(entries: &[Entry], entry: &Entry) -> bool
    ensures { IsTrue result → Mem entry.now entries.now }
{
    'entries: for other in entries {
        if entry.is_same(other) {
            return true;
        }
    }
    false
}

// Whether some worker gave the entry.
fn is_given(spoken: &[Spoken], entry: &Entry) -> bool
    ensures { IsTrue result → WasGiven spoken.now entry.now }
{
    'workers: for one in spoken {
        if holds(one.given.as_slice(), entry) {
            return true;
        }
    }
    false
}

// Whether some worker gave each of these.
fn are_given(spoken: &[Spoken], entries: &[Entry]) -> bool
    ensures { IsTrue result → AreGiven spoken.now entries.now }
{
    'entries: for entry in entries {
        if !is_given(spoken, entry) {
            return false;
        }
    }
    true
}

/// Looks whether each answer that a worker gave from the memory was given to it by one, byte for byte.
/// `Unknown`: it was not.
pub(crate) fn recall_all(spoken: &[Spoken]) -> Result<(), Stopped>
    ensures { OnOk result (AllGiven spoken.now) }
{
    'workers: for one in spoken {
        if !are_given(spoken, one.repeated.as_slice()) {
            return Err(Stopped::Unknown);
        }
    }
    Ok(())
}
