//! `relay apply`.
use crate::builder::CommandBuilder;
use crate::options::TextOption;
use crate::refusals::script_of;
use crate::stand_in::{REASONS, index_of};
use clap::{ArgMatches, Command};
use relay_action::StdStream;
use relay_commands::apply::{ApplyFault, apply};
use relay_commands::exit::exit_of_apply;
use relay_index::Script;
use relay_words::Exit;
use std::alloc::{AllocError, Global};
use std::io;

const ABOUT: &str = "Serves one bulk request with a fresh stand-in index";

const LONG_ABOUT: &str = "Serves one bulk request with a fresh stand-in index

Standard input is the body of a request POST /_bulk, as `relay lines` writes it: action lines with
_index, _id, version and version_type external, each index action followed by its document on the next
line. It may have at most 16777216 bytes. Standard output gets the HTTP status of the answer and its
text, one line each: 200 and the reply, or 400 and the first invalid line.

The index applies a write if its version is above the stored version of the document, and keeps the
version of a deleted document. Nothing is written before the whole request has been served. The exit
status is 2 if the body is too long, 3 if a read or write fails, and 4 if memory runs out.";

const REFUSE: TextOption = TextOption {
    name: "refuse",
    value: "LIST",
    help: "Items that the index refuses, such as 2:429,5:400: positions from 1, and statuses from 400 to 599 except 404 and 409 [default: none]",
};

/// Its help and its options.
pub fn command<'a>(alloc: Global, name: &'static str) -> Result<Command<'a>, AllocError> {
    CommandBuilder::new(alloc, name, ABOUT, LONG_ABOUT)
        .text(&REFUSE)
        .flag(&REASONS)
        .build()
}

/// Runs it over standard input and output.
pub fn execute<R: Input + Print + Eprint + AllocGlobal>(rt: &R, matches: &ArgMatches<'_>) -> Exit {
    match script_of(rt, matches, &REFUSE) {
        Ok(script) => apply_by(rt, matches, script),
        Err(exit) => exit,
    }
}

fn apply_by<R: Input + Print + Eprint + AllocGlobal>(
    rt: &R,
    matches: &ArgMatches<'_>,
    script: Script,
) -> Exit {
    let mut reader = StdStream::new(rt.reader());
    let mut writer = StdStream::new(io::writer(rt));
    let index = index_of(rt.alloc(), matches);
    let done = apply(rt.alloc(), &mut reader, &mut writer, index, script);
    exit_after(rt, done)
}

// Prints the fault, if there is one. If that fails, the exit status is the same.
fn exit_after<R: Eprint>(rt: &R, done: Result<(), ApplyFault>) -> Exit {
    match done {
        Ok(()) => Exit::Done,
        Err(fault) => {
            let _ = rt.eprintln(fault);
            exit_of_apply(fault)
        }
    }
}
