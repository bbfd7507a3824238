//! The line of counts at the end.
ghost use Rattle.std.specs.Prelude.{◌≡◌, ◌++◌, OnOk};
ghost use Rattle.relay_common.specs.Counts.{counts_line};

use relay_words::add_spaced;
use std::alloc::AllocError;

/// Adds the line of the counts: `applied N already N reported N`. `AllocError`: allocation failed;
/// the front of the line may have been added.
pub fn add_counts(
    text: &mut Vec<u8>,
    applied: u64,
    already: u64,
    reported: u64,
) -> Result<(), AllocError>
    ensures { OnOk result
        (text.new.items ≡ text.old.items ++ counts_line applied already reported) }
{
    text.extend_from_slice(b"applied")?;
    add_spaced(text, applied)?;
    text.extend_from_slice(b" already")?;
    add_spaced(text, already)?;
    text.extend_from_slice(b" reported")?;
    add_spaced(text, reported)?;
    text.extend_from_slice(b"\n")
}
