//! Laws of the definitions.
ghost use Rattle.std.specs.Prelude.{◌≡◌};
ghost use Rattle.relay_action.specs.Limits.{id_limit, index_limit, last_version, source_limit};

use crate::action::SOURCE_LIMIT;
use crate::key::{ID_LIMIT, INDEX_LIMIT};
use crate::write::LAST_VERSION;

/// A law: the constants equal the limits in the definitions.
pub fn limits_are_as_defined()
    ensures index { INDEX_LIMIT ≡ index_limit }
    ensures id { ID_LIMIT ≡ id_limit }
    ensures source { SOURCE_LIMIT ≡ source_limit }
    ensures version { LAST_VERSION ≡ last_version }
{}
