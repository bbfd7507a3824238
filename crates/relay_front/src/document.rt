//! Requests for one document.
ghost use Rattle.std.specs.Prelude.{◌≡◌, IfOk, string_bytes, option_map};
ghost use Rattle.relay_front.specs.Service.{blank_for, decoded, on_one_line};

use percent_encoding::percent_decode;
use simdutf8::compat::from_utf8;
use std::alloc::{AllocError, Global};

/// What a part of a path stands for once it is percent-decoded. `None`: that is not UTF-8.
/// `AllocError`: allocation failed.
pub fn decoded(alloc: Global, part: &str) -> Result<Option<String>, AllocError>
    ensures { IfOk result (λ text. option_map string_bytes text ≡ decoded part.now) }
{
    let mut bytes = Vec::new(alloc);
    percent_decode(part.as_bytes()).append_to(&mut bytes)?;
    match from_utf8(&bytes) {
        Ok(text) => Ok(Some(String::from_str(alloc, text)?)),
        Err(_) => Ok(None),
    }
}

// A line end becomes a blank.
fn blank_for(byte: u8) -> u8
    ensures { result ≡ blank_for byte }
{
    if byte == b'\n' || byte == b'\r' {
        b' '
    } else {
        byte
    }
}

/// The source that a body stands for: on one line, since in JSON a line end means the same as a
/// blank. `AllocError`: allocation failed.
pub fn on_one_line(alloc: Global, body: &[u8]) -> Result<Vec<u8>, AllocError>
    ensures { IfOk result (λ source. source.items ≡ on_one_line body.now) }
{
    let mut source = Vec::with_capacity(alloc, body.len())?;
    for byte in body {
        source.push(blank_for(*byte))?;
    }
    Ok(source)
}
