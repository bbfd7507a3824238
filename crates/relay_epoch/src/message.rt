//! The request that writes the counter.
ghost use Rattle.std.specs.Prelude.{◌≡◌, [], IfOk, OnOk};
ghost use Rattle.std.specs.Fmt.{decimal};
ghost use Rattle.relay_epoch.specs.Messages.{put_head, put_message};

use itoa::Buffer;
use std::alloc::{AllocError, Global};

// Sets an empty text to the head of a PUT with a body of this length.
fn add_head(text: &mut Vec<u8>, host: &str, target: &str, size: usize) -> Result<(), AllocError>
    requires { text.old.items ≡ [] }
    ensures { OnOk result (text.new.items ≡ put_head host.now target.now (decimal size)) }
{
    let mut digits = Buffer::new();
    text.extend_from_slice(b"PUT ")?;
    text.extend_from_slice(target.as_bytes())?;
    text.extend_from_slice(b" HTTP/1.1\r\nHost: ")?;
    text.extend_from_slice(host.as_bytes())?;
    text.extend_from_slice(b"\r\nContent-Type: application/json\r\nContent-Length: ")?;
    text.extend_from_slice(digits.format(size).as_bytes())?;
    text.extend_from_slice(b"\r\n\r\n")
}

/// The request `PUT TARGET` to this host with this body, which is JSON. `AllocError`: allocation
/// failed.
pub fn put_message(
    alloc: Global,
    host: &str,
    target: &str,
    body: &str,
) -> Result<Vec<u8>, AllocError>
    ensures { IfOk result (λ text. text.items ≡ put_message host.now target.now body.now) }
{
    let mut text = Vec::new(alloc);
    add_head(&mut text, host, target, body.len())?;
    text.extend_from_slice(body.as_bytes())?;
    Ok(text)
}
