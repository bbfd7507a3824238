//! Words that are numbers.
ghost use Rattle.std.specs.Prelude.{ℕ, IfSome, IfNone};
ghost use Rattle.relay_results.specs.Numerals.{IsNumber};

/// The value of a word of decimal digits, without a sign. `None`: the word is not a 64-bit number
/// in this form.
pub fn number_of(word: &str) -> Option<u64>
    ensures some { IfSome result (IsNumber word.now) }
    ensures none { IfNone result ((n : ℕ) → IsNumber word.now n → ⊥) }
{
    if word.as_bytes().first() == Some(&b'+') {
        return None;
    }
    word.parse::<u64>().ok()
}
