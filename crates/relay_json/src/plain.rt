//! Texts that need no unescaping, and the bytes between them.
ghost use Rattle.std.specs.Prelude.{◌≡◌, ◌≢◌, ℕ, List, ◌++◌, ◌∷◌, IfSome, IfNone, MatchOption};
ghost use Rattle.std.specs.List.{list_all};
ghost use Rattle.relay_json.specs.Plain.{is_plain_ascii, IsPlain};

use memchr::memchr;
use std::str;

/// What follows `front`, if the bytes start with it.
#[inline(always)]
pub fn after<'t>(bytes: &'t [u8], front: &[u8]) -> Option<&'t [u8]>
    ensures { MatchOption result ((rest : List ℕ) → bytes.now ≢ front.now ++ rest)
        (λ rest. bytes.now ≡ front.now ++ rest.now) }
{
    let mut rest = bytes;
    let mut left = front;
    while let Some((word, more)) = left.split_first_chunk::<8>() {
        rest = after_word(rest, word)?;
        left = more;
    }
    rest.strip_prefix(left)
}

// What follows these eight bytes, if the bytes start with them. They are compared as one number.
#[inline(always)]
fn after_word<'t>(bytes: &'t [u8], word: &[u8; 8]) -> Option<&'t [u8]>
    ensures { MatchOption result ((rest : List ℕ) → bytes.now ≢ word.now ++ rest)
        (λ rest. bytes.now ≡ word.now ++ rest.now) }
{
    let (first, rest) = bytes.split_first_chunk::<8>()?;
    if u64::from_le_bytes(*first) == u64::from_le_bytes(*word) {
        Some(rest)
    } else {
        None
    }
}

/// The bytes as a text, if all are ASCII characters from the space on except the quote, the
/// backslash and DEL: in a JSON string these stand for themselves (RFC 8259, section 7). `None`
/// otherwise.
pub fn plain_text(bytes: &[u8]) -> Option<&str>
    ensures same { IfSome result (λ text. text.now ≡ bytes.now) }
    ensures plain { IfSome result (λ text. IsPlain text.now) }
    ensures none { IfNone result (¬ IsPlain bytes.now) }
{
    if !is_plain(bytes) {
        return None;
    }
    Some(unsafe { str::from_utf8_unchecked(bytes) })
}

/// The plain text up to the next quote, and what follows the quote. `None`: there is no quote, or
/// the text before it is not plain.
pub fn take_plain(bytes: &[u8]) -> Option<(&str, &[u8])>
    ensures parts { IfSome result (λ t. bytes.now ≡ t.0.now ++ 34 ∷ t.1.now) }
    ensures plain { IfSome result (λ t. IsPlain t.0.now) }
    ensures none { IfNone result ((text rest : List ℕ) →
        bytes.now ≡ text ++ 34 ∷ rest → ¬ IsPlain text) }
{
    let (text, rest) = bytes.split_at(memchr(b'"', bytes)?);
    Some((plain_text(text)?, rest.strip_prefix(b"\"")?))
}

// Whether each byte is an ASCII character that stands for itself. It does not stop at the first
// that is not: without a branch, the compiler compares many bytes at once.
fn is_plain(bytes: &[u8]) -> bool
    ensures { result ≡ list_all is_plain_ascii bytes.now }
{
    let mut plain = true;
    for byte in bytes {
        plain &= is_plain_ascii(*byte);
    }
    plain
}

#[inline(always)]
fn is_plain_ascii(byte: u8) -> bool
    ensures { result ≡ is_plain_ascii byte }
{
    (byte >= 32) & (byte < 127) & (byte != b'"') & (byte != b'\\')
}
