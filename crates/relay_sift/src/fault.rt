//! Why a sifted reader failed.
ghost use Rattle.std.specs.Prelude.{◌≡◌};

use std::alloc::AllocError;

/// Why a sifted reader failed.
#[derive(Clone, Copy, Debug, PartialEq, Eq)]
pub(crate) enum SiftFault {
    /// A read failed.
    Read,
    /// What was left out could not be written.
    Write,
    /// An allocation failed.
    Memory,
}

impl From<AllocError> for SiftFault {
    ghost use Rattle.relay_sift.specs.declared.fault.SiftFault.{SiftFault};

    ghost from_gives = { λ _ fault. fault ≡ SiftFault.Memory };

    fn from(_error: AllocError) -> SiftFault {
        SiftFault::Memory
    }
}
