//! Words and numbers in field values.
ghost use Rattle.std.specs.Prelude.{◌≡◌, ◌==◌, true, reverse, if◌then◌else◌, Some, None};
ghost use Rattle.httparse.specs.Grammar.{skip_ows, trim_ows};
ghost use Rattle.relay_http.specs.Fields.{same_word, is_number, number, agrees};
ghost use Rattle.relay_http.specs.Steps.{fits_number, significant};

use httparse::is_space_or_tab;

fn trim_start(mut s: &[u8]) -> &[u8]
    ensures { result.now ≡ skip_ows s.now }
{
    while let [first, rest @ ..] = s
        && is_space_or_tab(*first)
    {
        s = rest;
    }
    s
}

fn trim_end(mut s: &[u8]) -> &[u8]
    ensures { result.now ≡ reverse (skip_ows (reverse s.now)) }
{
    while let [rest @ .., last] = s
        && is_space_or_tab(*last)
    {
        s = rest;
    }
    s
}

pub(crate) fn trim_ows(s: &[u8]) -> &[u8]
    ensures { result.now ≡ trim_ows s.now }
{
    trim_end(trim_start(s))
}

/// Whether two words are equal, ignoring case.
pub fn same_word(a: &[u8], b: &[u8]) -> bool
    ensures { result ≡ same_word a.now b.now }
{
    a.eq_ignore_ascii_case(b)
}

/// Whether the bytes are one or more digits.
pub fn is_number(text: &[u8]) -> bool
    ensures { result ≡ is_number text.now }
{
    let mut all = true;
    for b in text {
        all &= b.is_ascii_digit();
    }
    all & !text.is_empty()
}

/// The number, if it is below 2^64.
pub fn parse_number(digits: &[u8]) -> Option<u64>
    ensures { result ≡ (if fits_number digits.now then Some (number digits.now) else None) }
{
    if digits.is_empty() {
        return None;
    }
    let mut n: u64 = 0;
    for b in digits {
        if !b.is_ascii_digit() {
            return None;
        }
        n = n.checked_mul(10)?.checked_add(u64::from(*b - b'0'))?;
    }
    Some(n)
}

fn significant(mut s: &[u8]) -> &[u8]
    ensures { result.now ≡ significant s.now }
{
    while let [first, rest @ ..] = s
        && *first == b'0'
    {
        s = rest;
    }
    s
}

/// Whether both texts are decimal digits for the same number, of any length.
pub fn agrees(first: &[u8], text: &[u8]) -> bool
    ensures { result ≡ agrees first.now text.now }
{
    if !is_number(first) || !is_number(text) {
        return false;
    }
    is_same_number(first, text)
}

// Whether digits give the same number: they are equal from the first that is not 0.
fn is_same_number(first: &[u8], text: &[u8]) -> bool
    requires { (is_number first.now ≡ true) × (is_number text.now ≡ true) }
    ensures { result ≡ (number first.now == number text.now) }
{
    significant(text) == significant(first)
}
