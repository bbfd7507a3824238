//! Operations in a line, in ascending order of version.
ghost use Rattle.std.specs.Prelude.{◌≡◌, ◌<◌, true, false, length};
ghost use Rattle.relay_delay.specs.Waiting.{AllAbove, Rises};
ghost use Rattle.relay_delay.specs.Heaps.{AllUpTo, StartsUpTo};

use crate::entry::Entry;
use std::collections::VecDeque;

/// Whether an operation in the line has a version above this one.
pub(crate) fn reaches(line: &VecDeque<Entry>, version: u64) -> bool
    ensures some { result ≡ true → 0 < length line.now.items }
    ensures none { result ≡ false → Rises line.now.items → AllUpTo version line.now.items }
{
    match line.back() {
        Some(last) => version < last.version,
        None => false,
    }
}

/// Whether all operations in the line have versions above this one.
pub(crate) fn starts_above(line: &VecDeque<Entry>, version: u64) -> bool
    ensures all { result ≡ true → Rises line.now.items → AllAbove version line.now.items }
    ensures some { result ≡ false → StartsUpTo version line.now.items }
{
    match line.front() {
        Some(first) => version < first.version,
        None => true,
    }
}
