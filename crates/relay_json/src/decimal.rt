//! A decimal number at the front of a byte slice.
ghost use Rattle.std.specs.Prelude.{◌≡◌, ℕ, ◌^◌, ◌<◌, List, ◌++◌, IfSome, IfNone, decimal};
ghost use Rattle.relay_json.specs.Decimals.{IsWhole};

// The least number of 18 digits.
const LEAST_OF_18_DIGITS: u64 = 100_000_000_000_000_000;

/// The number at the front, in decimal digits without a sign and without leading zeros, and what
/// follows it. All digits are taken, except that none is taken after a first `0`.
///
/// `None`: there is no digit at the front, or there are more than 18.
pub fn take_decimal(bytes: &[u8]) -> Option<(u64, &[u8])>
    ensures parts { IfSome result (λ d. bytes.now ≡ decimal d.0 ++ d.1.now) }
    ensures whole { IfSome result (λ d. IsWhole d.0 d.1.now) }
    ensures none { IfNone result ((n : ℕ) (rest : List ℕ) →
        bytes.now ≡ decimal n ++ rest → ¬ IsWhole n rest) }
{
    match bytes {
        [b'0', rest @ ..] => Some((0, rest)),
        [first @ b'1'..=b'9', rest @ ..] => take_digits(u64::from(*first - b'0'), rest),
        _ => None,
    }
}

// The number whose first digits make `front` and whose other digits are at the front of the bytes,
// and what follows it.
#[inline(always)]
fn take_digits(front: u64, bytes: &[u8]) -> Option<(u64, &[u8])>
    requires { (0 < front) × (front < 10 ^ 18) }
    ensures parts { IfSome result (λ d. decimal front ++ bytes.now ≡ decimal d.0 ++ d.1.now) }
    ensures whole { IfSome result (λ d. IsWhole d.0 d.1.now) }
    ensures none { IfNone result ((n : ℕ) (rest : List ℕ) →
        decimal front ++ bytes.now ≡ decimal n ++ rest → ¬ IsWhole n rest) }
{
    let mut number = front;
    let mut rest = bytes;
    'digits: while let [digit @ b'0'..=b'9', later @ ..] = rest {
        if number >= LEAST_OF_18_DIGITS {
            return None;
        }
        number = number * 10 + u64::from(*digit - b'0');
        rest = later;
    }
    Some((number, rest))
}
