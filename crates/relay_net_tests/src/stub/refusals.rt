//! Connections served in memory, with any one of their allocations refused (`make refusals`): each
//! is answered, or dropped with nothing written, and no write is applied twice when the request is
//! repeated.
use crate::stub::desk::{Desk, Visit};
use crate::stub::ends::{ANSWER, DELETES, LINES};
use relay_action::{DocKey, MemStream};
use relay_index::{Index, Script, ServeFault};
use relay_stub::command::{StubFault, stub};
use relay_stub::document::put_document;
use relay_stub::listing::listing;
use relay_stub::{ServeError, serve_connection, stub_serve};
use std::alloc::{AllocError, Global};
use std::mem;
use std::process::Abort;

fn script_once(alloc: Global) -> Option<Script> {
    let mut script = Script::new(alloc);
    script.refuse(2, 503).ok()?;
    Some(script)
}

// The script that refuses the second item.
fn script_of(alloc: Global) -> Option<Script> {
    match script_once(alloc) {
        None => script_once(alloc),
        made => made,
    }
}

fn stream_once(alloc: Global, input: &[u8]) -> Option<MemStream> {
    MemStream::new(alloc, input.to_vec(alloc).ok()?, 1_000, 100, 0).ok()
}

fn stream_of(alloc: Global, input: &[u8]) -> Option<MemStream> {
    match stream_once(alloc, input) {
        None => stream_once(alloc, input),
        made => made,
    }
}

fn lines_of(alloc: Global, index: &Index) -> Option<Vec<u8>> {
    match listing(alloc, index) {
        Ok(lines) => Some(lines),
        Err(AllocError) => listing(alloc, index).ok(),
    }
}

// How many writes an index applied; its listing has a line for each.
fn count(alloc: Global, index: &Index) -> Option<u64> {
    let lines = lines_of(alloc, index)?;
    Some(lines.iter().filter(|byte| **byte == b'\n').count() as u64)
}

/// How a connection was served.
#[derive(Clone, Copy, PartialEq)]
enum Came {
    Answered,
    Dropped,
    /// After this many items were run.
    Refused(u64),
    Wrong,
}

fn came_of(served: Result<(), ServeFault>, written: &[u8], answer: &[u8]) -> Came {
    match served {
        Ok(()) if written.is_empty() => Came::Dropped,
        Ok(()) if written.starts_with(answer) => Came::Answered,
        Err(fault) if written.is_empty() => Came::Refused(fault.ran),
        _ => Came::Wrong,
    }
}

// Serves a connection, whose answer begins with this.
fn connect(alloc: Global, index: &mut Index, script: &mut Script, answer: &[u8]) -> Option<Came> {
    let stream = stream_of(alloc, DELETES)?;
    let (served, stream) = serve_connection(alloc, stream, index, script);
    let came = came_of(served, stream.written(), answer);
    mem::forget(stream);
    Some(came)
}

// Whether a fresh index has applied the number of writes that follows from how its first connection
// was served. The script refused the second of its four items.
fn is_right(came: Came, applied: u64) -> bool {
    match came {
        Came::Answered => applied == 3,
        Came::Dropped => applied == 0 || applied == 3,
        Came::Refused(ran) => applied == ran.saturating_sub(if ran > 1 { 1 } else { 0 }),
        Came::Wrong => false,
    }
}

// Whether two of three connections with the same request are answered; one of them may be refused.
fn answers_two(alloc: Global, index: &mut Index, script: &mut Script) -> Option<bool> {
    let first = connect(alloc, index, script, ANSWER)?;
    let mut right = is_right(first, count(alloc, index)?);
    let mut answered = if first == Came::Answered { 1u32 } else { 0 };
    for _ in 0..2u64 {
        let next = connect(alloc, index, script, b"HTTP/1.1 200 OK\r\n")?;
        right = next != Came::Wrong && right;
        if next == Came::Answered {
            answered = answered.saturating_add(1);
        }
    }
    Some(right && answered >= 2)
}

/// The lines of the request's four deletes.
const ALL_LINES: &[u8] =
    b"applied a/9 4 delete\napplied b/10 3 delete\napplied b/2 1 delete\napplied b/3 2 delete\n";

// Whether these are the lines of an index.
fn lists(alloc: Global, index: &Index, wanted: &[u8]) -> bool {
    match lines_of(alloc, index) {
        Some(lines) => lines.as_slice() == wanted,
        None => false,
    }
}

// Whether each of the four deletes is applied once after three connections.
fn serves_once(rt: &impl Abort, alloc: Global) -> bool {
    let mut index = Index::new(alloc);
    let mut script = script_of(alloc).expect(rt, "a script");
    let good = answers_two(alloc, &mut index, &mut script) == Some(true)
        && lists(alloc, &index, ALL_LINES);
    mem::forget((index, script));
    good
}

#[test]
fn refused_connection(rt: HostRuntime) {
    assert!(rt; serves_once(&rt, rt.alloc()));
}

const VISITS: [Visit<'static>; 1] = [Visit {
    input: DELETES,
    room: 1_000,
    fail_at: 0,
    wanted: ANSWER,
}];

/// The outcome of a listener, or of the command.
#[derive(Clone, Copy, PartialEq)]
enum End {
    /// The connection was answered, and its writes applied.
    Whole,
    /// A refusal was reported, or the connection was dropped because of it.
    Refused,
    Wrong,
}

// The outcome of serving a listener's connection. The items are run in the reverse order of the
// lines, so what was applied is at the end of the lines.
fn end_of(desk: &Desk<'_>, served: Result<(), ServeError>, lines: &[u8]) -> End {
    let closed = desk.answered_or_dropped(1);
    let right = match served {
        Ok(()) if desk.served(1) && lines == LINES => return End::Whole,
        Ok(()) => closed && !desk.served(1) && (lines.is_empty() || lines == LINES),
        Err(ServeError::Memory) => closed && LINES.ends_with(lines),
        Err(ServeError::Accept) => lines.is_empty(),
    };
    if right { End::Refused } else { End::Wrong }
}

// Serves a listener's connection with an index.
fn serve(rt: &impl Abort, alloc: Global, index: &mut Index, script: &mut Script) -> End {
    let mut desk = Desk::new(alloc, &VISITS, 100);
    let served = stub_serve(alloc, &mut desk, 1, index, script);
    let lines = lines_of(alloc, index).expect(rt, "the lines");
    end_of(&desk, served, lines.as_slice())
}

fn serve_once(rt: &impl Abort, alloc: Global) -> End {
    let mut index = Index::new(alloc);
    let mut script = script_of(alloc).expect(rt, "a script");
    let end = serve(rt, alloc, &mut index, &mut script);
    mem::forget((index, script));
    end
}

#[test]
fn refused_serving(rt: HostRuntime) {
    let first = serve_once(&rt, rt.alloc());
    assert!(rt; first == End::Whole || first == End::Refused);
    assert!(rt; first == End::Whole || serve_once(&rt, rt.alloc()) == End::Whole);
}

// The outcome of the command: it wrote the lines of what was applied, or nothing.
fn end_of_command(desk: &Desk<'_>, done: Result<(), StubFault>, written: &[u8]) -> End {
    let closed = desk.answered_or_dropped(1);
    let right = match done {
        Ok(()) if desk.served(1) && written == LINES => return End::Whole,
        Ok(()) => closed && !desk.served(1) && (written.is_empty() || written == LINES),
        Err(StubFault::Memory) => closed && written.is_empty(),
        Err(StubFault::Accept) => written.is_empty(),
        Err(StubFault::Write { .. }) => false,
    };
    if right { End::Refused } else { End::Wrong }
}

fn command_once(rt: &impl Abort, alloc: Global) -> End {
    let script = script_of(alloc).expect(rt, "a script");
    let mut writer = stream_of(alloc, b"").expect(rt, "a stream");
    let mut desk = Desk::new(alloc, &VISITS, 100);
    let done = stub(alloc, &mut desk, 1, Index::new(alloc), script, &mut writer);
    let end = end_of_command(&desk, done, writer.written());
    mem::forget(writer);
    end
}

#[test]
fn refused_command(rt: HostRuntime) {
    let first = command_once(&rt, rt.alloc());
    assert!(rt; first == End::Whole || first == End::Refused);
    assert!(rt; first == End::Whole || command_once(&rt, rt.alloc()) == End::Whole);
}

const DOCUMENT: &str = "an id that has more than thirty-eight bytes";

fn key_of(alloc: Global) -> Option<DocKey> {
    match DocKey::new(alloc, "r", DOCUMENT) {
        Ok(key) => Some(key),
        Err(_) => DocKey::new(alloc, "r", DOCUMENT).ok(),
    }
}

// Stores a document, and returns the status of the answer.
fn put_once(alloc: Global, index: &mut Index) -> Option<Result<u16, ServeFault>> {
    match put_document(alloc, index, key_of(alloc)?, b"{}") {
        Ok(answer) => Some(Ok(answer?.0)),
        Err(fault) => Some(Err(fault)),
    }
}

// Whether a document is created, and a second write updates it. After a refused allocation the
// write was run or not, as the fault says.
fn puts_twice(alloc: Global, index: &mut Index) -> Option<bool> {
    let mut ran = 0u64;
    for _ in 0..3u64 {
        match put_once(alloc, index)? {
            Ok(status) if (status == 201) != (ran == 0) => return Some(false),
            Ok(_) => ran = ran.saturating_add(1),
            Err(fault) => ran = ran.saturating_add(fault.ran.min(1)),
        }
    }
    let key = key_of(alloc)?;
    Some(index.version(&key) == Some(ran) && ran >= 2)
}

#[test]
fn refused_documents(rt: HostRuntime) {
    let mut index = Index::new(rt.alloc());
    assert!(rt; puts_twice(rt.alloc(), &mut index) == Some(true));
    mem::forget(index);
}
