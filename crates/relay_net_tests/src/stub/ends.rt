//! What the command writes, and its exit status.
use crate::stub::desk::{Desk, Visit, script_of};
use relay_action::MemStream;
use relay_index::Index;
use relay_stub::command::{StubFault, exit_of_stub, stub};
use relay_words::Exit;
use std::alloc::Global;
use std::process::Abort;

pub const DELETES: &[u8] =
    b"POST /_bulk HTTP/1.1\r\nHost: h\r\nContent-Length: 297\r\n\r\n{\"delete\":{\"_id\":\"2\",\"_index\":\"b\",\"version\":1,\"version_type\":\"external\"}}\n{\"delete\":{\"_id\":\"3\",\"_index\":\"b\",\"version\":2,\"version_type\":\"external\"}}\n{\"delete\":{\"_id\":\"10\",\"_index\":\"b\",\"version\":3,\"version_type\":\"external\"}}\n{\"delete\":{\"_id\":\"9\",\"_index\":\"a\",\"version\":4,\"version_type\":\"external\"}}\n";

pub const ANSWER: &[u8] =
    b"HTTP/1.1 200 OK\r\nContent-Type: application/json\r\nContent-Length: 405\r\nConnection: close\r\n\r\n{\"errors\":true,\"items\":[{\"delete\":{\"_id\":\"2\",\"_index\":\"b\",\"_seq_no\":0,\"_version\":1,\"result\":\"not_found\",\"status\":404}},{\"delete\":{\"_id\":\"3\",\"_index\":\"b\",\"error\":{\"type\":\"scripted_refusal\"},\"status\":503}},{\"delete\":{\"_id\":\"10\",\"_index\":\"b\",\"_seq_no\":1,\"_version\":3,\"result\":\"not_found\",\"status\":404}},{\"delete\":{\"_id\":\"9\",\"_index\":\"a\",\"_seq_no\":2,\"_version\":4,\"result\":\"not_found\",\"status\":404}}],\"took\":0}";

pub const LINES: &[u8] = b"applied a/9 4 delete\napplied b/10 3 delete\napplied b/2 1 delete\n";

// The result of the command over a connection with these deletes, with this room for output, if
// this many connections are requested; and whether this is what it wrote.
fn ends(
    rt: &impl Abort,
    alloc: Global,
    requests: u64,
    room: usize,
    wanted: &[u8],
) -> (Result<(), StubFault>, bool) {
    let visits = [Visit {
        input: DELETES,
        room: 1000,
        fail_at: 0,
        wanted: ANSWER,
    }];
    let script = script_of(rt, alloc, &[(2, 503)]);
    let mut desk = Desk::new(alloc, &visits, 100);
    let mut writer = MemStream::new(alloc, Vec::new(alloc), room, 10, 0).expect(rt, "memory");
    let result = stub(
        alloc,
        &mut desk,
        requests,
        Index::new(alloc),
        script,
        &mut writer,
    );
    (result, desk.served(1) && writer.written() == wanted)
}

// The number of connections requested, the room for output, what is written, and the exit status.
const ENDS: &[(u64, usize, &[u8], Result<(), StubFault>)] = &[
    (1, 1000, LINES, Ok(())),
    (1, 64, LINES, Ok(())),
    (
        1,
        30,
        b"applied a/9 4 delete\napplied b",
        Err(StubFault::Write { sent: 30 }),
    ),
    (2, 1000, b"", Err(StubFault::Accept)),
];

#[test]
fn lists_or_fails(rt: HostRuntime) {
    for (requests, room, wanted, answer) in ENDS {
        assert!(rt;
            ends(&rt, rt.alloc(), *requests, *room, *wanted) == (*answer, true),
            "{answer:?}"
        );
    }
}

// A fault, its exit status, and what is printed of it.
const STATUSES: &[(StubFault, Exit, &str)] = &[
    (StubFault::Accept, Exit::Device, "accept failed"),
    (StubFault::Write { sent: 1 }, Exit::Device, "write failed"),
    (StubFault::Memory, Exit::Memory, "out of memory"),
];

#[test]
fn statuses(rt: HostRuntime) {
    for (fault, exit, said) in STATUSES {
        let printed = format!(in rt.alloc(); "{fault}").expect(&rt, "memory");
        assert!(rt; exit_of_stub(*fault) == *exit, "{said}");
        assert!(rt; printed.as_str() == *said);
    }
}
