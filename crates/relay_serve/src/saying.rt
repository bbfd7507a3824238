//! Saying something to whoever runs the server.
use relay_action::{ByteOut, write_all};

/// Says a text. Whether it arrives is not told.
pub(crate) fn say<E: ByteOut>(err: &mut E, text: &[u8]) {
    let _ = write_all(err, text);
}

/// Says a line.
pub(crate) fn say_line<E: ByteOut>(err: &mut E, text: &str) {
    say(err, text.as_bytes());
    say(err, b"\n");
}
