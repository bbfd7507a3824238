//! The operations in a report that no input has.
ghost use Rattle.std.specs.Prelude.{◌≡◌};
ghost use Rattle.relay_report.specs.Missing.{first_missing, is_found};

use crate::names::Named;

/// The line of the first name that no input has, given how many operations were read from each
/// input: there is no input for its producer, or its number is 0 or too high. `None`: each name was
/// found.
pub fn first_missing(names: &[Named], counts: &[u64]) -> Option<u64>
    ensures { result ≡ first_missing counts.now names.now }
{
    'names: for name in names {
        if !is_found(counts, *name) {
            return Some(name.line);
        }
    }
    None
}

fn is_found(counts: &[u64], name: Named) -> bool
    ensures { result ≡ is_found counts.now name }
{
    match counts.get(name.producer as usize) {
        Some(count) => name.number >= 1 && name.number <= *count,
        None => false,
    }
}
