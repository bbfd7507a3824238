//! Two files to the stand-in server in its own thread.
use relay_action::{DocKey, MemStream, Write};
use relay_fixtures::applied::stores;
use relay_fixtures::config;
use relay_fixtures::config::LIMITS;
use relay_index::{Index, Script};
use relay_net::TcpListen;
use relay_progress::Log;
use relay_run::files::run_files;
use relay_run::options::RunOptions;
use relay_run::run::{Limits, RelayConfig};
use relay_stub::stub_serve;
use relay_words::Exit;
use std::net::Net;
use std::process::Abort;
use std::rt::Files;
use std::{fs, thread};

// Operations of a file, and its documents. Each document gets ten operations.
const OPERATIONS: u64 = 100;

const DOCUMENTS: u64 = 10;

/// One lane and two producers, and one operation in each request.
pub const CONFIG: RelayConfig = RelayConfig {
    producers: 2,
    capacity: 1,
    max_held: 64,
    limits: Limits {
        count: 1,
        linger: 2,
        ..LIMITS
    },
    ..config::CONFIG
};

// The text of an operation: it stores its own number.
fn operation(rt: &(impl Abort + AllocGlobal), producer: u64, number: u64) -> String {
    let document = number % DOCUMENTS;
    format!(in rt.alloc();
        "{{\"index\":{{\"_index\":\"books\",\"_id\":\"{producer}-{document}\"}}}}\n{number}\n"
    ).expect(rt, "memory")
}

// The text of a producer's file.
fn file_text(rt: &(impl Abort + AllocGlobal), producer: u64) -> String {
    let mut text = String::new(rt.alloc());
    for number in 0..OPERATIONS {
        text.push_str(operation(rt, producer, number).as_str())
            .expect(rt, "memory");
    }
    text
}

// Writes the file of a producer, and returns its name.
fn write_file<R: Files + Abort + AllocGlobal>(rt: &R, producer: u64) -> String {
    let name = format!(in rt.alloc(); "operations-{producer}").expect(rt, "memory");
    let text = file_text(rt, producer);
    fs::write(rt, name.as_str(), text.as_str()).expect(rt, "a file");
    name
}

// Whether the write at this place stores this number.
fn has_at(rt: &(impl Abort + AllocGlobal), applied: &[Write], place: u64, number: u64) -> bool {
    let text = format!(in rt.alloc(); "{number}").expect(rt, "memory");
    stores(
        applied.get(place as usize).expect(rt, "a write"),
        text.as_str(),
    )
}

// Whether an index applied to this document of a producer its ten operations, each once and in order.
fn is_as_put(rt: &(impl Abort + AllocGlobal), index: &Index, producer: u8, document: u8) -> bool {
    let id = format!(in rt.alloc(); "{producer}-{document}").expect(rt, "memory");
    let key = DocKey::new(rt.alloc(), "books", id.as_str()).expect(rt, "a key");
    let applied = index.applied(&key);
    let mut good = applied.len() == (OPERATIONS / DOCUMENTS) as usize;
    for place in 0..OPERATIONS / DOCUMENTS {
        let number = place * DOCUMENTS + u64::from(document);
        good = good && has_at(rt, applied, place, number);
    }
    good
}

// The same for all documents of both producers.
fn all_as_put(rt: &(impl Abort + AllocGlobal), index: &Index) -> bool {
    let mut good = true;
    for producer in 0..2u8 {
        for document in 0..DOCUMENTS as u8 {
            good = good && is_as_put(rt, index, producer, document);
        }
    }
    good
}

// Serves this many connections, and returns whether what was applied is what was put.
fn serves<R: Net + Abort + AllocGlobal>(rt: &R, mut listener: TcpListen<R>, requests: u64) -> bool {
    let mut index = Index::new(rt.alloc());
    let mut script = Script::new(rt.alloc());
    let served = stub_serve(rt.alloc(), &mut listener, requests, &mut index, &mut script);
    served.expect(rt, "the connections");
    all_as_put(rt, &index)
}

// The options of a run that writes both files to this address.
fn options<R: Files + Abort + AllocGlobal>(rt: &R, to: String) -> RunOptions {
    let mut files = Vec::new(rt.alloc());
    files.push(write_file(rt, 0)).expect(rt, "memory");
    files.push(write_file(rt, 1)).expect(rt, "memory");
    RunOptions {
        files,
        to,
        index: None,
        config: CONFIG,
        epoch_from: None,
        timeout: 60,
        patience: 0,
        append: false,
        max_reports: 0,
        report: None,
        skip_invalid: None,
        state: None,
        until: None,
        progress: false,
        log: Log::None,
    }
}

fn remove_all<R: Files + Abort>(rt: &R, files: &[String]) {
    for file in files {
        fs::remove_file(rt, file.as_str()).expect(rt, "a file");
    }
}

// A stream for what is printed.
fn printed(rt: &(impl Abort + AllocGlobal)) -> MemStream {
    MemStream::new(rt.alloc(), Vec::new(rt.alloc()), 1000, 1000, 0).expect(rt, "memory")
}

// Both ends report that everything was written, with one operation per request: each operation once,
// and without a message.
#[test]
fn two_files_beside_the_server(rt: HostRuntime) {
    let listener = TcpListen::bind(&rt, "127.0.0.1:0").expect(&rt, "a port");
    let address = listener.local_addr().expect(&rt, "an address");
    let to = format!(in rt.alloc(); "{address}").expect(&rt, "memory");
    let spawned = thread::spawn(&rt, move || serves(&rt, listener, 2 * OPERATIONS));
    let server = spawned.expect(&rt, "a thread");
    let options = options(&rt, to);
    let (mut out, mut err) = (printed(&rt), printed(&rt));
    let exit = run_files(rt, rt, &options, &mut out, &mut err);
    remove_all(&rt, &options.files);
    assert!(rt; exit == Exit::Done);
    assert!(rt; out.written() == b"applied 200 already 0 reported 0\n".as_slice());
    assert!(rt; err.written().is_empty());
    assert!(rt; server.join(&rt));
}
