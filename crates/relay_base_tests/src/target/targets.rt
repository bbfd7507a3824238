//! Targets. Those of the first table are what the clients of Elasticsearch for Python, Ruby and Go
//! send for these documents.
use super::is_read;
use relay_action::DocKey;
use relay_target::{document_target, read_target};
use std::alloc::Global;
use std::process::Abort;

// An index name, an id, and their target.
const WRITTEN: &[(&str, &str, &str)] = &[
    ("books", "emma", "/books/_doc/emma"),
    ("relay", "a b", "/relay/_doc/a%20b"),
    ("b", "a/b", "/b/_doc/a%2Fb"),
    ("b", "100%+ü", "/b/_doc/100%25%2B%C3%BC"),
    ("b", "q\"\\?#&", "/b/_doc/q%22%5C%3F%23%26"),
    (".my-index_1~x", "..", "/.my-index_1~x/_doc/.."),
    ("a/b", "%2F", "/a%2Fb/_doc/%252F"),
    ("ü", "\n\t", "/%C3%BC/_doc/%0A%09"),
];

// Whether this is the target of the document.
fn writes(rt: &impl Abort, alloc: Global, index: &str, id: &str, target: &str) -> bool {
    let key = DocKey::new(alloc, index, id).expect(rt, "a key");
    let text = document_target(alloc, &key).expect(rt, "memory");
    text.as_str() == target
}

#[test]
fn written(rt: HostRuntime) {
    for (index, id, target) in WRITTEN {
        let read = read_target(rt.alloc(), target.as_bytes());
        assert!(rt; is_read(read, Some((*index, *id))), "{target}");
        assert!(rt; writes(&rt, rt.alloc(), *index, *id, *target), "{target}");
    }
}

// Other forms of a target, and the document, if there is one.
const READ: &[(&[u8], Option<(&str, &str)>)] = &[
    (b"/b/_doc/%c3%bc", Some(("b", "ü"))),
    (b"/b/_doc/a+b", Some(("b", "a+b"))),
    (b"/b/_doc/50%", Some(("b", "50%"))),
    (b"/%62/_doc/%31", Some(("b", "1"))),
    (b"", None),
    (b"/", None),
    (b"*", None),
    (b"/_bulk", None),
    (b"/b/_doc", None),
    (b"/b/_doc/", None),
    (b"//_doc/1", None),
    (b"b/_doc/1", None),
    (b"/b/_doc/1/", None),
    (b"/b/_doc/1/2", None),
    (b"/b/_doc/1?refresh=true", None),
    (b"/b/_create/1", None),
    (b"/b/doc/1", None),
    (b"/b/_doc/%ff", None),
    (b"/%ff/_doc/1", None),
    (b"http://h/b/_doc/1", None),
];

#[test]
fn read(rt: HostRuntime) {
    for (target, document) in READ {
        assert!(rt; is_read(read_target(rt.alloc(), *target), *document));
    }
}

// Whether the target of an index name and an id of this many bytes is none of a document.
fn is_long(rt: &impl Abort, alloc: Global, index: usize, id: usize) -> bool {
    let index = "i".repeat(alloc, index).expect(rt, "memory");
    let id = "%41".repeat(alloc, id).expect(rt, "memory");
    let target = ["/", index.as_str(), "/_doc/", id.as_str()]
        .concat(alloc)
        .expect(rt, "memory");
    let read = read_target(alloc, target.as_bytes()).expect(rt, "memory");
    is_read(Ok(read), None)
}

#[test]
fn limits(rt: HostRuntime) {
    for (index, id, long) in [(255, 512, false), (256, 1, true), (1, 513, true)] {
        assert!(rt; is_long(&rt, rt.alloc(), index, id) == long);
    }
}
