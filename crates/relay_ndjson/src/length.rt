//! Lengths of bulk lines, computed without writing them.
ghost use Rattle.std.specs.Prelude.{◌≡◌, ◌*◌, ◌^◌, ◌<◌, ◌≤◌, length, decimal};
ghost use Rattle.json.specs.Print.{escape, escape_byte};
ghost use Rattle.relay_ndjson.specs.Bulk.{action_text, write_text, text_of};

use crate::quoted::is_plain;
use relay_action::{Action, Write};

/// The length of a write's lines, in bytes: below 2^21. It does not allocate.
pub fn write_len(write: &Write) -> u64
    ensures value { result ≡ length (write_text write.now) }
    ensures bound { result < 2 ^ 21 }
{
    let source = match &write.action {
        Action::Index(source) => source.text().len() as u64 + 1,
        Action::Delete => 0,
    };
    action_len(write) + 1 + source
}

/// The length of the bulk text of at most 10,000 writes, in bytes. It does not allocate.
pub fn bulk_len(writes: &[Write]) -> u64
    requires { length writes.now ≤ 10000 }
    ensures { result ≡ length (text_of writes.now) }
{
    let mut total = 0;
    for write in writes {
        total += write_len(write);
    }
    total
}

// The number of bytes that a byte becomes in a JSON string.
#[tactic(auto, unfolding(json::specs::Print::escape_byte))]
fn escape_len(byte: u8) -> u64
    ensures value { result ≡ length (escape_byte byte) }
    ensures bound { result ≤ 6 }
{
    match byte {
        b'"' | b'\\' | 8 | 9 | 10 | 12 | 13 => 2,
        0..=31 => 6,
        _ => 1,
    }
}

// The number of bytes that a text becomes in a JSON string, without the quotes.
#[tactic(auto, using(crate::proofs::Plain::escape_plain))]
fn escaped_len(text: &str) -> u64
    requires { length text.now < 2 ^ 32 }
    ensures value { result ≡ length (escape text.now) }
    ensures bound { result ≤ 6 * length text.now }
{
    let bytes = text.as_bytes();
    if is_plain(bytes) {
        return bytes.len() as u64;
    }
    sum_of_escapes(bytes)
}

// The same, byte by byte.
fn sum_of_escapes(bytes: &[u8]) -> u64
    requires { length bytes.now < 2 ^ 32 }
    ensures value { result ≡ length (escape bytes.now) }
    ensures bound { result ≤ 6 * length bytes.now }
{
    let mut total = 0;
    for byte in bytes {
        total += escape_len(*byte);
    }
    total
}

// The number of decimal digits.
#[tactic(auto, using(crate::proofs::Parts::length_of_decimal))]
fn digits(n: u64) -> u64
    ensures value { result ≡ length (decimal n) }
    ensures bound { result ≤ 20 }
{
    match n.checked_ilog10() {
        Some(power) => power as u64 + 1,
        None => 1,
    }
}

// The length of an action line, without its end.
#[tactic(auto, using(crate::proofs::Parts::length_of_action_text))]
fn action_len(write: &Write) -> u64
    ensures value { result ≡ length (action_text write.now) }
    ensures bound { result < 2 ^ 16 }
{
    let name: u64 = match write.action {
        Action::Index(_) => 5,
        Action::Delete => 6,
    };
    64 + name + escaped_len(write.key.id()) + escaped_len(write.key.index()) + digits(write.version)
}
