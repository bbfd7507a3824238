//! Words that are lengths of time.
ghost use Rattle.std.specs.Prelude.{◌<◌};
ghost use Rattle.relay_words.specs.Durations.{ReadsDuration, SplitsUnit, ReadsNumber};

use crate::number_of;

/// The value of a word that is a length of time, in units of `unit` milliseconds, rounded up: a
/// number of decimal digits and `ms`, `s`, `m` or `h`; without these it is a number of such units.
/// `None`: the word has another form, or is 2^64 milliseconds or longer.
pub fn duration_of(word: &str, unit: u64) -> Option<u64>
    requires { 0 < unit }
    ensures { ReadsDuration unit word.now result }
{
    let (number, scale) = split_unit(word, unit);
    let time = number_of(number)?.checked_mul(scale)?;
    Some(time.div_ceil(unit))
}

// The number in a word, and how many milliseconds it counts.
fn split_unit(word: &str, unit: u64) -> (&str, u64)
    ensures { SplitsUnit unit word.now result.0.now result.1 }
{
    if let Some(number) = word.strip_suffix("ms") {
        (number, 1)
    } else if let Some(number) = word.strip_suffix("s") {
        (number, 1_000)
    } else if let Some(number) = word.strip_suffix("m") {
        (number, 60_000)
    } else if let Some(number) = word.strip_suffix("h") {
        (number, 3_600_000)
    } else {
        (word, unit)
    }
}
