//! The stand-in index that a command line asks for.
ghost use Rattle.std.specs.Prelude.{None};
ghost use Rattle.relay_index.specs.States.{IsHighest};

use crate::noted::{Reason, open_noted};
use crate::options::{FlagOption, TextOption};
use crate::report::{failed, out_of_memory, said};
use clap::ArgMatches;
use relay_action::StdStream;
use relay_commands::apply::ApplyFault;
use relay_commands::body::read_body;
use relay_index::{Index, Script, ServeFault};
use relay_words::Exit;
use std::alloc::Global;
use std::io::ErrorKind;

/// Whether the index states the versions of conflicts.
pub const REASONS: FlagOption = FlagOption {
    name: "reasons",
    help: "State the stored version in the reason of each version conflict, in the words of OpenSearch",
};

/// The request that the index serves first.
pub const WRITES: TextOption = TextOption {
    name: "writes",
    value: "FILE",
    help: "A bulk request, as `relay apply` reads it, that the index serves first [default: none]",
};

/// An index to which nothing was written. It states the versions of conflicts if `--reasons` is
/// given.
pub fn index_of(alloc: Global, matches: &ArgMatches<'_>) -> Index
    ensures { IsHighest result None }
{
    let mut index = Index::new(alloc);
    if REASONS.is_given(matches) {
        index.state_versions();
    }
    index
}

/// The index that a command line asks for, after it has served the request of the file of
/// `--writes`, if there is one. If that cannot be read or is not a valid request, prints why and
/// returns the exit status.
pub fn served_index<R: Eprint + AllocGlobal>(
    rt: &R,
    host: HostRuntime,
    matches: &ArgMatches<'_>,
) -> Result<Index, Exit> {
    let mut index = index_of(rt.alloc(), matches);
    if let Some(path) = WRITES.get(matches) {
        serve_file(rt, host, path, &mut index)?;
    }
    Ok(index)
}

// Serves the request in a file.
fn serve_file<R: Eprint + AllocGlobal>(
    rt: &R,
    host: HostRuntime,
    path: &str,
    index: &mut Index,
) -> Result<(), Exit> {
    let body = body_of(rt, host, path)?;
    let mut script = Script::new(rt.alloc());
    let answer = index.serve_body(rt.alloc(), &body, &mut script);
    is_served(rt, path, answer)
}

// Prints why a request was not served, if it was not.
fn is_served<R: Eprint>(
    rt: &R,
    path: &str,
    answer: Result<(u16, String), ServeFault>,
) -> Result<(), Exit> {
    match answer {
        Ok((200, _)) => Ok(()),
        Ok((_, text)) => Err(said(rt, path, &text, Exit::Input)),
        Err(_) => Err(out_of_memory(rt)),
    }
}

// The body of the request in a file.
fn body_of<R: Eprint + AllocGlobal>(
    rt: &R,
    host: HostRuntime,
    path: &str,
) -> Result<Vec<u8>, Exit> {
    let reason = Reason::new();
    let file = open_noted(rt, host, path, &reason)?;
    match read_body(rt.alloc(), &mut StdStream::new(file)) {
        Ok(body) => Ok(body),
        Err(fault) => Err(exit_after(rt, path, fault, reason.get().copied())),
    }
}

// Prints why the body in a file was not read.
fn exit_after<R: Eprint>(rt: &R, path: &str, fault: ApplyFault, reason: Option<ErrorKind>) -> Exit {
    match fault {
        ApplyFault::BodyLong => said(rt, path, "body too long", Exit::Input),
        ApplyFault::Memory => out_of_memory(rt),
        _ => failed(rt, path, "read failed", reason),
    }
}
