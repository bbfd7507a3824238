//! `relay stub`.
use crate::builder::CommandBuilder;
use crate::options::TextOption;
use crate::refusals::script_of;
use crate::stand_in::{REASONS, index_of};
use clap::builder::ValueParser;
use clap::{ArgMatches, Command};
use relay_action::StdStream;
use relay_index::Script;
use relay_net::TcpListen;
use relay_stub::command::{StubFault, exit_of_stub, stub};
use relay_words::Exit;
use std::alloc::{AllocError, Global};
use std::io;
use std::net::Net;

const ABOUT: &str = "Serves bulk requests over HTTP with a fresh stand-in index";

const LONG_ABOUT: &str = "Serves bulk requests over HTTP with a fresh stand-in index.

It listens at ADDR and serves N connections, one after the other, with one request on each. A request
POST /_bulk with a body of at most 16777216 bytes gets the answer that `relay apply` gives for that body: 200
and the reply, or 400 and the first invalid line. All requests go to the same index: what one request wrote is
there for the next. PUT /INDEX/_doc/ID stores its body in that document, with the version that the index itself
gives it, one more than the stored one, and gets 201 or 200 and an answer with `_version`. Any other request
gets 400 and {\"error\":{\"type\":\"NotBulk\"},\"status\":400}. Each answer has `Connection: close`. A connection
that ends early or carries no HTTP/1 request is dropped, and counts as one of the N. There is no time limit for
a connection or its request.

    relay stub --listen 127.0.0.1:9200 --requests 2 &
    relay lines --index books < ops.ndjson > bulk.ndjson
    curl --data-binary @bulk.ndjson http://127.0.0.1:9200/_bulk

At the end standard output gets a line for each write that the index applied,

    applied INDEX/ID VERSION index       or `delete` in place of `index`

in byte order of INDEX and then of ID, and for each document in the order in which they were applied.
With `--requests 0` it listens, accepts nothing and prints nothing.

The exit status is 0 on success, 1 if the command line is invalid, 3 if it cannot listen (`listen failed`),
accept (`accept failed`) or print (`write failed`), and 4, with nothing printed, if memory runs out.";

const LISTEN: TextOption = TextOption {
    name: "listen",
    value: "ADDR",
    help: "Where to listen, HOST:PORT: an address or a name of this machine, and a port, such as 127.0.0.1:9200 or [::1]:9200",
};

const REQUESTS: TextOption = TextOption {
    name: "requests",
    value: "N",
    help: "Number of connections to serve, 0 to 18446744073709551615",
};

const REFUSE: TextOption = TextOption {
    name: "refuse",
    value: "LIST",
    help: "Items that the index refuses, such as 2:429,5:400: positions from 1, counted over all requests, and statuses from 400 to 599 except 404 and 409 [default: none]",
};

const MAX: TextOption = TextOption {
    name: "max",
    value: "BYTES",
    help: "Maximum size of a request's body in bytes, 0 to 18446744073709551615; a longer one gets 413, and nothing of it is run [default: no limit below 16777216, above which the connection is dropped]",
};

/// Its help and its options.
pub fn command<'a>(alloc: Global, name: &'static str) -> Result<Command<'a>, AllocError> {
    let any = ValueParser::unsigned(0, u64::MAX);
    CommandBuilder::new(alloc, name, ABOUT, LONG_ABOUT)
        .required_text(&LISTEN)
        .arg(REQUESTS.arg(alloc).required(true).value_parser(any))
        .text(&REFUSE)
        .flag(&REASONS)
        .arg(MAX.arg(alloc).value_parser(any))
        .build()
}

/// Runs it over sockets and standard output.
pub fn execute<R: Print + Eprint + Net + AllocGlobal>(rt: &R, matches: &ArgMatches<'_>) -> Exit {
    match script_of(rt, matches, &REFUSE) {
        Ok(script) => listen(rt, matches, script),
        Err(exit) => exit,
    }
}

// Listens, and serves by this script.
fn listen<R: Print + Eprint + Net + AllocGlobal>(
    rt: &R,
    matches: &ArgMatches<'_>,
    script: Script,
) -> Exit {
    match TcpListen::bind(rt, LISTEN.get(matches).unwrap_or("")) {
        Ok(listener) => serve(rt, matches, limited(matches, script), listener),
        Err(_) => {
            let _ = rt.eprintln("listen failed");
            Exit::Device
        }
    }
}

// The script with the maximum size of a body, if one was given.
fn limited(matches: &ArgMatches<'_>, script: Script) -> Script {
    let mut script = script;
    if let Some(max) = matches.get_one::<u64>(MAX.name) {
        script.too_large(max);
    }
    script
}

fn serve<R: Print + Eprint + Net + AllocGlobal>(
    rt: &R,
    matches: &ArgMatches<'_>,
    script: Script,
    listener: TcpListen<R>,
) -> Exit {
    let requests = matches.get_one::<u64>(REQUESTS.name).unwrap_or(0);
    let mut listener = listener;
    let mut writer = StdStream::new(io::writer(rt));
    let index = index_of(rt.alloc(), matches);
    let served = stub(
        rt.alloc(),
        &mut listener,
        requests,
        index,
        script,
        &mut writer,
    );
    exit_after(rt, served)
}

// Prints the fault, if there is one. If that fails, the exit status is the same.
fn exit_after<R: Eprint>(rt: &R, served: Result<(), StubFault>) -> Exit {
    match served {
        Ok(()) => Exit::Done,
        Err(fault) => {
            let _ = rt.eprintln(fault);
            exit_of_stub(fault)
        }
    }
}
