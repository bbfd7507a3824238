//! Texts on the heap.
ghost use Rattle.std.specs.Prelude.{◌≡◌, IfOk};

use std::alloc::{AllocError, Global};
use std::fmt;
use std::marker::Model;

/// A UTF-8 text of any length.
#[derive(Drop)]
pub(crate) struct LongText {
    text: String,
}

impl Model for LongText {
    ghost use Rattle.std.specs.Prelude.{List, ℕ, string_bytes};

    ghost Value = { List ℕ };

    ghost view = { λ t. string_bytes t.text };
}

impl LongText {
    /// A copy of a text. `AllocError`: allocation failed.
    pub(crate) fn new(alloc: Global, text: &str) -> Result<LongText, AllocError>
        ensures { IfOk result (λ t. t ≡ text.now) }
    {
        Ok(LongText {
            text: String::from_str(alloc, text)?,
        })
    }

    /// The text.
    pub(crate) fn as_str(&self) -> &str
        ensures { result.now ≡ self.now }
    {
        self.text.as_str()
    }

    /// A copy of the text. `AllocError`: allocation failed.
    pub(crate) fn copy(&self) -> Result<LongText, AllocError>
        ensures { IfOk result (λ t. t ≡ self.now) }
    {
        Ok(LongText {
            text: self.text.clone()?,
        })
    }
}

impl fmt::Debug for LongText {
    fn fmt<W: fmt::Write>(&self, f: &mut fmt::Formatter<W>) -> fmt::Result {
        fmt::Debug::fmt(self.as_str(), f)
    }
}
