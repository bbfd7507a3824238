//! The `Host` of a request (RFC 9110, section 7.2).
ghost use Rattle.std.specs.Prelude.{◌≡◌};
ghost use Rattle.relay_http.specs.WrittenRequest.{is_host};

/// The maximum length of a host.
pub const HOST_LIMIT: usize = 255;

/// Whether the text may be the host of a request: 1 to 255 visible ASCII characters.
pub fn is_host(host: &str) -> bool
    ensures { result ≡ is_host host.now }
{
    let mut visible = true;
    for b in host.as_bytes() {
        visible &= *b >= 33 && *b <= 126;
    }
    !host.is_empty() & (host.len() <= HOST_LIMIT) & visible
}
