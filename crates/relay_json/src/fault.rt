//! Why a text could not be read.

ghost use Rattle.std.specs.Prelude.{◌≡◌};
ghost use Rattle.relay_json.specs.declared.fault.ReadFault.TheVariants.{NotJson};

use json::Invalid;
use thiserror::Error;

/// Why a text could not be read. A fault is printed as the name of its variant.
#[derive(Clone, Copy, Debug, PartialEq, Eq, Error)]
pub enum ReadFault {
    /// The bytes are not UTF-8 or not JSON (RFC 8259), or are nested more than 127 deep, or contain
    /// a number that is too large for a float.
    #[error("NotJson")]
    NotJson,
    /// An allocation failed: for the scratch, which grows to the length of the text, or for what is
    /// made of the text. It says nothing about the text.
    #[error("Memory")]
    Memory,
}

impl From<Invalid> for ReadFault {
    ghost from_gives = { λ _ fault. fault ≡ NotJson };

    fn from(_: Invalid) -> ReadFault {
        ReadFault::NotJson
    }
}
