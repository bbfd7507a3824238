//! Texts without a heap allocation.
ghost use Rattle.std.specs.Prelude.{◌≡◌, ◌≤◌, ◌<◌, length, take, IsNone, ◌↔◌, IfSome, [], IsUtf8};
ghost use Rattle.relay_action.specs.declared.short.TheConstants.{SHORT_LIMIT};

use std::marker::Model;
use std::str;

/// The maximum size of a short text, in bytes; a UUID takes 36.
pub(crate) const SHORT_LIMIT: usize = 38;

/// A UTF-8 text of up to 38 bytes, stored inline.
#[derive(Drop)]
pub(crate) struct ShortText {
    bytes: [u8; SHORT_LIMIT],
    len: u8,
    pub(crate) ghost len_ok: { len ≤ SHORT_LIMIT },
    pub(crate) ghost utf8: { ∥ IsUtf8 (take len bytes) ∥₁ },
}

impl Model for ShortText {
    ghost use Rattle.std.specs.Prelude.{List, ℕ, take};

    ghost Value = { List ℕ };

    ghost view = { λ t. take t.len t.bytes };
}

impl ShortText {
    /// The empty text.
    pub(crate) fn empty() -> ShortText
        ensures { result ≡ [] }
    {
        ShortText {
            bytes: [0; SHORT_LIMIT],
            len: 0,
        }
    }

    /// A copy of a text. `None`: it has more than 38 bytes.
    pub(crate) fn from(text: &str) -> Option<ShortText>
        ensures short { IfSome result (λ t. t ≡ text.now) }
        ensures none { IsNone result ↔ (SHORT_LIMIT < length text.now) }
    {
        let mut bytes = [0; SHORT_LIMIT];
        if text.len() > SHORT_LIMIT {
            return None;
        }
        bytes[..text.len()].copy_from_slice(text.as_bytes());
        Some(ShortText {
            bytes,
            len: text.len() as u8,
        })
    }

    /// A copy of the text.
    pub(crate) fn copy(&self) -> ShortText
        ensures { result ≡ self.now }
    {
        ShortText {
            bytes: self.bytes,
            len: self.len,
        }
    }

    /// The text.
    pub(crate) fn as_str(&self) -> &str
        ensures { result.now ≡ self.now }
    {
        unsafe { str::from_utf8_unchecked(&self.bytes[..usize::from(self.len)]) }
    }
}
