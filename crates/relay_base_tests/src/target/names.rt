//! Documents as a command line names them.
use super::is_read;
use relay_target::read_name;

// A name, and its index name and id, if it names a document.
const NAMES: &[(&str, Option<(&str, &str)>)] = &[
    ("relay/epoch", Some(("relay", "epoch"))),
    ("b/a/b", Some(("b", "a/b"))),
    ("b//", Some(("b", "/"))),
    ("50%/a b%2Fü", Some(("50%", "a b%2Fü"))),
    ("", None),
    ("/", None),
    ("relay", None),
    ("relay/", None),
    ("/epoch", None),
];

#[test]
fn documents_by_name(rt: HostRuntime) {
    for (name, document) in NAMES {
        assert!(rt; is_read(read_name(rt.alloc(), *name), *document), "{name}");
    }
}
