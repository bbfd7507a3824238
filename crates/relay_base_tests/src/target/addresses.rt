//! Addresses of a command line.
use relay_target::{AddressFault, read_address};

const ADDRESSES: &[(&str, Result<&str, AddressFault>)] = &[
    ("127.0.0.1:9200", Ok("127.0.0.1:9200")),
    ("http://localhost:9200", Ok("localhost:9200")),
    ("http://search.example.org:80/", Ok("search.example.org:80")),
    ("[::1]:65535", Ok("[::1]:65535")),
    ("x:1/", Ok("x:1")),
    ("x:01", Ok("x:01")),
    ("https://localhost:9200", Err(AddressFault::Secure)),
    ("https://", Err(AddressFault::Secure)),
    ("", Err(AddressFault::NoPort)),
    ("localhost", Err(AddressFault::NoPort)),
    ("http://localhost/", Err(AddressFault::NoPort)),
    ("[::1]", Err(AddressFault::NoPort)),
    ("::1", Err(AddressFault::Form)),
    ("::1:9200", Err(AddressFault::Form)),
    (":9200", Err(AddressFault::Form)),
    ("x:", Err(AddressFault::Form)),
    ("x:0", Err(AddressFault::Form)),
    ("x:65536", Err(AddressFault::Form)),
    ("x:+1", Err(AddressFault::Form)),
    ("x:9200/books", Err(AddressFault::Form)),
    ("x:9200//", Err(AddressFault::Form)),
    ("relay:secret@x:9200", Err(AddressFault::Form)),
    ("http://http://x:9200", Err(AddressFault::Form)),
    ("ftp://x:21", Err(AddressFault::Form)),
];

#[test]
fn addresses_of_a_command_line(rt: HostRuntime) {
    for (text, wanted) in ADDRESSES {
        assert!(rt; read_address(*text) == *wanted);
    }
}
