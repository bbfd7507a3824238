//! The operations of bodies.
use relay_action::Text;
use relay_front::lines::{BodyFaultKind, Unread, read_operations};
use relay_front::{Ids, Item};
use std::alloc::{AllocError, Global};

#[derive(Drop)]
struct Same {
    alloc: Global,
}

impl Ids for Same {
    fn next_id(&mut self) -> Result<Text, AllocError> {
        Text::new(self.alloc, "made")
    }
}

// A body, how many items it has and how many of them are put.
const READ: &[(&str, usize, usize)] = &[
    ("{\"delete\":{\"_index\":\"a\",\"_id\":\"1\"}}\n", 1, 1),
    (
        "{\"index\": {\"_id\": 7, \"_type\":\"events\", \"routing\":null}}\n{}\n",
        1,
        1,
    ),
    (
        "{\"index\":{\"_id\":null}}\n{}\n\n{\"create\":{}}\r\n{}\r\n",
        2,
        2,
    ),
    (
        "{\"create\":{\"_id\":\"1\"}}\n{}\n{\"delete\":{\"_id\":\"1\"}}\n",
        2,
        1,
    ),
    (
        "{\"update\":{\"_id\":\"1\"}}\n{}\n{\"delete\":{\"_id\":\"1\"}}\n",
        2,
        1,
    ),
    (
        "{\"index\":{\"_id\":\"1\",\"routing\":\"x\"}}\n{}\n{\"delete\":{}}\n",
        2,
        0,
    ),
    (
        "{\"index\":{\"_id\":true}}\n{}\n{\"index\":{\"_index\":1,\"_id\":\"1\"}}\n{}\n",
        2,
        0,
    ),
    (
        "{\"index\":{\"_id\":\"\"}}\n{}\n{\"index\":{\"_id\":\"1\"}}\n\n",
        2,
        0,
    ),
];

fn is_read(alloc: Global, row: &(&str, usize, usize)) -> bool {
    let mut ids = Same { alloc };
    match read_operations(alloc, row.0.as_bytes(), Some("books"), &mut ids) {
        Ok(operations) => operations.items.len() == row.1 && operations.writes.len() == row.2,
        Err(_) => false,
    }
}

#[test]
fn bodies_are_read(rt: HostRuntime) {
    for row in READ {
        assert!(rt; is_read(rt.alloc(), row));
    }
}

const REFUSED: &[(&str, u64, BodyFaultKind)] = &[
    ("", 0, BodyFaultKind::Empty),
    ("\n \n", 2, BodyFaultKind::Empty),
    (
        "{\"delete\":{\"_id\":\"1\"}}",
        1,
        BodyFaultKind::NoFinalNewline,
    ),
    (
        "{\"index\":{\"_id\":\"1\"}}\n",
        1,
        BodyFaultKind::SourceMissing,
    ),
    (
        "{\"index\":{\"_id\":\"1\"}}\n{}\nx\n",
        3,
        BodyFaultKind::NotJson,
    ),
    (
        "{\"get\":{\"_id\":\"1\"}}\n",
        1,
        BodyFaultKind::UnknownAction,
    ),
    (
        "{\"index\":{},\"delete\":{}}\n",
        1,
        BodyFaultKind::NotOneAction,
    ),
    ("[]\n", 1, BodyFaultKind::NotOneAction),
];

fn is_refused(alloc: Global, row: &(&str, u64, BodyFaultKind)) -> bool {
    let mut ids = Same { alloc };
    match read_operations(alloc, row.0.as_bytes(), Some("books"), &mut ids) {
        Err(Unread::Body(fault)) => fault.line == row.1 && fault.kind == row.2,
        _ => false,
    }
}

#[test]
fn bodies_are_refused(rt: HostRuntime) {
    for row in REFUSED {
        assert!(rt; is_refused(rt.alloc(), row));
    }
}

fn is_first_asked(alloc: Global) -> bool {
    let mut ids = Same { alloc };
    let body = b"{\"create\":{\"_index\":\"logs\"}}\n{}\n";
    match read_operations(alloc, body, Some("books"), &mut ids) {
        Ok(operations) => match operations.items.first() {
            Some(Item::Asked { key, made, .. }) => *made
                && key.index() == "logs"
                && key.id() == "made",
            _ => false,
        },
        Err(_) => false,
    }
}

#[test]
fn ids_are_made(rt: HostRuntime) {
    assert!(rt; is_first_asked(rt.alloc()));
}
