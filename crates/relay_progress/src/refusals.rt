//! The first refusal of each type.
use std::alloc::{AllocError, Global};
use std::sync::OnceLock;

/// The maximum number of refusals that are kept.
pub const REFUSAL_LIMIT: usize = 32;

/// A refusal of an operation, or of a whole request.
#[derive(Debug, Drop)]
pub struct Refusal {
    /// The status.
    pub status: u16,
    /// The type of the error. `None`: a whole request was refused.
    pub kind: Option<String>,
}

impl Refusal {
    // Whether another refusal is like this one: of the same type, or both of a whole request with the
    // same status.
    fn is_like(&self, status: u16, kind: Option<&str>) -> bool {
        match (&self.kind, kind) {
            (Some(own), Some(kind)) => own.as_str() == kind,
            (None, None) => self.status == status,
            _ => false,
        }
    }
}

/// The first refusal of each type, up to [`REFUSAL_LIMIT`] of them, in the order in which they came.
/// Each is written once. If two threads note the same one at once, it may be there twice.
#[derive(Drop)]
pub struct Refusals {
    slots: Vec<OnceLock<Refusal>>,
}

impl Refusals {
    /// None yet. `AllocError`: allocation failed.
    pub fn new(alloc: Global) -> Result<Refusals, AllocError> {
        let mut slots = Vec::with_capacity(alloc, REFUSAL_LIMIT)?;
        for _place in 0..REFUSAL_LIMIT {
            slots.push(OnceLock::new())?;
        }
        Ok(Refusals { slots })
    }

    /// Keeps a refusal, unless one like it is kept. If an allocation fails, it is left out.
    pub fn note(&self, alloc: Global, status: u16, kind: Option<&str>) {
        let kind = kind.map(shown);
        for slot in &self.slots {
            match slot.get() {
                Some(known) if known.is_like(status, kind) => return,
                Some(_) => {}
                None => {
                    if fill(alloc, slot, status, kind) {
                        return;
                    }
                }
            }
        }
    }

    /// The refusal at this place, from 0. `None` at the end.
    pub fn get(&self, place: usize) -> Option<&Refusal> {
        self.slots.get(place)?.get()
    }

    /// Whether the refusal at this place is like one at an earlier place.
    pub fn is_repeated(&self, place: usize) -> bool {
        let Some(refusal) = self.get(place) else {
            return false;
        };
        for slot in self.slots.iter().take(place) {
            if let Some(earlier) = slot.get() {
                if earlier.is_like(refusal.status, refusal.kind.as_deref()) {
                    return true;
                }
            }
        }
        false
    }
}

// Writes a refusal there. Returns whether that is done with: if another thread writes there, it is
// not.
fn fill(alloc: Global, slot: &OnceLock<Refusal>, status: u16, kind: Option<&str>) -> bool {
    match refusal_of(alloc, status, kind) {
        Ok(refusal) => slot.try_set(refusal).is_ok(),
        Err(_) => true,
    }
}

fn refusal_of(alloc: Global, status: u16, kind: Option<&str>) -> Result<Refusal, AllocError> {
    let kind = match kind {
        Some(kind) => Some(String::from_str(alloc, kind)?),
        None => None,
    };
    Ok(Refusal { status, kind })
}

// The type of an error as it is shown: one that is no plain text could break a line.
fn shown(kind: &str) -> &str {
    if kind
        .as_bytes()
        .iter()
        .all(|byte| 32 <= *byte && *byte < 127)
    {
        kind
    } else {
        "a type that is no plain text"
    }
}
