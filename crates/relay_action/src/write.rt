//! Writes: the changes that a bulk request asks for.
ghost use Rattle.std.specs.Prelude.{◌≡◌, IfOk};

use crate::action::Action;
use crate::key::DocKey;
use std::alloc::AllocError;

/// The highest version. OpenSearch accepts external versions up to 2^63 - 1; the relay assigns none
/// above this one.
pub const LAST_VERSION: u64 = 9_000_000_000_000_000_000;

/// A write: a document, the external version to give it, and the change.
#[derive(Debug, Drop)]
pub struct Write {
    /// The document.
    pub key: DocKey,
    /// The version, of `version_type` `external`.
    pub version: u64,
    /// The change.
    pub action: Action,
}

impl Write {
    /// A copy of the write. `AllocError`: allocation failed.
    pub fn copy(&self) -> Result<Write, AllocError>
        ensures { IfOk result (λ w. w ≡ self.now) }
    {
        Ok(Write {
            key: self.key.copy()?,
            version: self.version,
            action: self.action.copy()?,
        })
    }
}
