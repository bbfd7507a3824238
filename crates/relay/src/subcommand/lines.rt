//! `relay lines`.
use crate::builder::CommandBuilder;
use crate::options::{FlagOption, NumberOption, TextOption};
use crate::report::{out_of_memory, usage};
use clap::{ArgMatches, Command};
use relay_action::StdStream;
use relay_commands::exit::exit_of;
use relay_commands::lines::{LinesFault, lines};
use relay_ndjson::{LAST_VERSION, LineKind};
use relay_sift::{CheckFault, check};
use relay_words::Exit;
use std::alloc::{AllocError, Global};
use std::io;

const ABOUT: &str = "Turns a producer's NDJSON into bulk lines with external versions";

const LONG_ABOUT: &str = "Turns a producer's NDJSON into bulk lines with external versions.

Standard input has operations in the form of the OpenSearch bulk API: an action line
{\"index\":{\"_index\":NAME,\"_id\":ID}} followed by the document on the next line, or
{\"delete\":{\"_index\":NAME,\"_id\":ID}} by itself. Blank lines between operations are skipped. A document
is passed on byte for byte, and not read as JSON. Standard output gets the lines of a bulk request, with
the versions N, N+1 and so on; each line is written as soon as reading on would have to wait.

    relay lines --index books < ops.ndjson > bulk.ndjson

At the first fault the command writes `line N: KIND` to standard error and ends with status 2; the lines
of all operations before it have been written. With --check it lists all faults instead, on standard
output. The exit status is 3 if a read or write fails, and 4 if memory runs out. The kinds of faults, for
an action line in this order:

    LineLong           more than 1114112 bytes, or 65537 consecutive blank lines
    NotJson            not UTF-8, not JSON on one line, or nested more than 127 deep
    NotOneAction       not an object with one member whose value is an object
    UnsupportedAction  the member is named neither index nor delete
    UnsupportedField   a member other than _index, _id, version and version_type
    VersionGiven       version or version_type, which this command assigns
    MissingIndex       no _index and no --index, or _index is not a string
    MissingId          no _id, or it is neither a string nor an integer
    IndexEmpty, IndexLong (over 255 bytes), IdEmpty, IdLong (over 512 bytes)
    VersionsSpent      the version would be above 9000000000000000000

and for the line of a document: SourceMissing (the input has ended; the line is that of the action),
LineLong, NotJson (not UTF-8), SourceEmpty, SourceLong (over 1048576 bytes), SourceNewline (a carriage
return inside).";

const INDEX: TextOption = TextOption {
    name: "index",
    value: "NAME",
    help: "The index of operations that do not name one, 1 to 255 bytes [default: none, so each operation must name its index]",
};

const FIRST: NumberOption = NumberOption {
    name: "first",
    least: 1,
    most: LAST_VERSION,
    default: "1",
    help: "The version of the first operation, from 1 to 9000000000000000000",
};

const CHECK: FlagOption = FlagOption {
    name: "check",
    help: "Write the faults of the input to standard output, and no bulk lines: `line N: KIND` for each invalid operation, and beneath it what it is about, if that has a name; it ends with status 2 if there are any",
};

/// Its help and its options.
pub fn command<'a>(alloc: Global, name: &'static str) -> Result<Command<'a>, AllocError> {
    CommandBuilder::new(alloc, name, ABOUT, LONG_ABOUT)
        .text(&INDEX)
        .number(&FIRST)
        .flag(&CHECK)
        .build()
}

/// Runs it over standard input and output.
pub fn execute<R: Input + Print + Eprint + AllocGlobal>(rt: &R, matches: &ArgMatches<'_>) -> Exit {
    let index = INDEX.get(matches);
    if CHECK.is_given(matches) {
        check_input(rt, index)
    } else {
        write_lines(rt, index, FIRST.get(matches))
    }
}

// Lists the faults of the input.
fn check_input<R: Input + Print + Eprint + AllocGlobal>(rt: &R, index: Option<&str>) -> Exit {
    let mut reader = StdStream::new(rt.reader());
    let mut writer = StdStream::new(io::writer(rt));
    let found = check(rt.alloc(), &mut reader, index, &mut writer);
    exit_after_check(rt, found)
}

// Prints why the check failed, if it did.
fn exit_after_check<R: Eprint>(rt: &R, found: Result<u64, CheckFault>) -> Exit {
    let failed = match found {
        Ok(0) => return Exit::Done,
        Ok(_) => return Exit::Input,
        Err(CheckFault::Memory) => return out_of_memory(rt),
        Err(CheckFault::Read | CheckFault::Endless) => "read failed",
        Err(CheckFault::Write) => "write failed",
    };
    let _ = rt.eprintln(failed);
    Exit::Device
}

// Writes the lines of the input's operations, from this version on.
fn write_lines<R: Input + Print + Eprint + AllocGlobal>(
    rt: &R,
    index: Option<&str>,
    first: u64,
) -> Exit {
    if first > LAST_VERSION {
        return usage(rt, "error: the first version is past the last");
    }
    let mut reader = StdStream::new(rt.reader());
    let mut writer = StdStream::new(io::writer(rt));
    let written = lines(rt.alloc(), &mut reader, &mut writer, index, first);
    exit_after_lines(rt, written)
}

// Prints the fault, if there is one. If that fails, the exit status is the same.
fn exit_after_lines<R: Eprint>(rt: &R, written: Result<u64, LinesFault>) -> Exit {
    let fault = match written {
        Ok(_) => return Exit::Done,
        Err(fault) => fault,
    };
    let _ = match fault {
        LinesFault::Input(fault) if fault.kind == LineKind::Read => rt.eprintln("read failed"),
        _ => rt.eprintln(fault),
    };
    exit_of(fault)
}
