//! Numbers, from their texts.
ghost use Rattle.std.specs.Prelude.{◌≡◌, ◌<◌, ◌==◌, true, false, IsTrue, length, slice_index};
ghost use Rattle.std.specs.Prelude.{Some, None, is_some, option_and_then};
ghost use Rattle.std.specs.Str.Parse.{AllDigits};
ghost use Rattle.serde_json.specs.Find.{as_i64, as_u64};
ghost use Rattle.serde_json.specs.Read.{number_of, number_from, float_of};

use fast_float::Numeral;

#[inline(always)]
fn has_minus(bytes: &[u8]) -> bool
    ensures value { result ≡ (slice_index bytes.now 0 == 45) }
    ensures len { IsTrue result → 0 < length bytes.now }
{
    !bytes.is_empty() && bytes[0] == b'-'
}

// Whether the float nearest to a numeral is finite.
#[inline(never)]
fn is_float(negative: bool, numeral: &Numeral<'_>) -> bool
    ensures { result ≡ is_some (float_of negative numeral.now) }
{
    numeral.to_float::<f64>(negative).is_finite()
}

#[inline(always)]
fn fits_unsigned(numeral: &Numeral<'_>) -> bool
    ensures { result ≡ is_some (number_from false numeral.now) }
{
    numeral.to_u64().is_some() || is_float(false, numeral)
}

#[inline(never)]
fn fits_negative(numeral: &Numeral<'_>) -> bool
    ensures { result ≡ is_some (number_from true numeral.now) }
{
    if let Some(n) = numeral.to_i64(true) {
        if n < 0 {
            return true;
        }
    }
    is_float(true, numeral)
}

#[inline(always)]
fn are_digits(bytes: &[u8]) -> bool
    ensures { IsTrue result → AllDigits 10 bytes.now }
{
    for byte in bytes {
        if *byte < b'0' || b'9' < *byte {
            return false;
        }
    }
    true
}

// Whether the text is an integer so short that it fits 64 bits.
#[inline(always)]
fn is_short_integer(bytes: &[u8]) -> bool
    ensures { IsTrue result → is_some (number_of bytes.now) ≡ true }
{
    let len = bytes.len();
    if len == 0 || 19 < len {
        return false;
    }
    are_digits(bytes)
}

#[inline(never)]
fn fits(bytes: &[u8]) -> bool
    ensures { result ≡ is_some (number_of bytes.now) }
{
    if has_minus(bytes) {
        fits_negative(&Numeral::scan(&bytes[1..]))
    } else {
        fits_unsigned(&Numeral::scan(bytes))
    }
}

// Whether the number is in range: a 64-bit integer, or a number whose nearest float is finite.
#[inline(always)]
pub(crate) fn is_in_range(text: &str) -> bool
    ensures { result ≡ is_some (number_of text.now) }
{
    let bytes = text.as_bytes();
    is_short_integer(bytes) || fits(bytes)
}

// The value of the numeral, if it is a 64-bit integer.
fn unsigned_of(numeral: &Numeral<'_>) -> Option<u64>
    ensures { result ≡ option_and_then as_u64 (number_from false numeral.now) }
{
    numeral.to_u64()
}

// The value, if it is an unsigned 64-bit integer.
pub(crate) fn to_u64(text: &str) -> Option<u64>
    ensures { result ≡ option_and_then as_u64 (number_of text.now) }
{
    let bytes = text.as_bytes();
    if has_minus(bytes) {
        None
    } else {
        unsigned_of(&Numeral::scan(bytes))
    }
}

// The value of a numeral without a minus, if it is a signed 64-bit integer.
fn positive_of(numeral: &Numeral<'_>) -> Option<i64>
    ensures { result ≡ option_and_then as_i64 (number_from false numeral.now) }
{
    i64::try_from(numeral.to_u64()?).ok()
}

// The value of a numeral after a minus, if it is a signed 64-bit integer and not 0.
fn negative_of(numeral: &Numeral<'_>) -> Option<i64>
    ensures { result ≡ option_and_then as_i64 (number_from true numeral.now) }
{
    if let Some(n) = numeral.to_i64(true) {
        if n < 0 {
            return Some(n);
        }
    }
    None
}

// The value, if it is a signed 64-bit integer and not `-0`.
pub(crate) fn to_i64(text: &str) -> Option<i64>
    ensures { result ≡ option_and_then as_i64 (number_of text.now) }
{
    let bytes = text.as_bytes();
    if has_minus(bytes) {
        negative_of(&Numeral::scan(&bytes[1..]))
    } else {
        positive_of(&Numeral::scan(bytes))
    }
}
