//! The command line.
use crate::report::{out_of_memory, usage};
use crate::subcommand::{command_of, run_subcommand};
use clap::error::ErrorKind;
use clap::{ArgMatches, Command, Error};
use relay_commands::subcommand::Subcommand;
use relay_words::Exit;
use std::alloc::{AllocError, Global};
use std::net::Net;
use std::rt::Env;
use std::sync::Wait;
use std::thread::Threads;
use std::time::Clock;
use std::{env, io};

const ABOUT: &str = "Delivers write operations from producers to an OpenSearch index.

It writes files of operations to an index, where each is applied at most once, in order, or reported;
stands between services and an index; turns the operations of one producer into the lines of a bulk
request, with versions; serves bulk requests with a stand-in index, over standard input or HTTP; and
simulates what may happen between producers, lanes and an index.";

/// Runs what the command line of the process asks for.
pub fn execute<R>(rt: &R, host: HostRuntime) -> Exit
where
    R: Input
        + Print
        + Eprint
        + Env
        + Net
        + AllocGlobal
        + Threads
        + Wait
        + Clock
        + Copy
        + Send
        + 'static,
{
    match words(rt) {
        Ok(words) => run_words(rt, host, words.as_slice()),
        Err(error) if error.kind() == io::ErrorKind::OutOfMemory => out_of_memory(rt),
        Err(_) => usage(rt, "error: the arguments are not all text"),
    }
}

// The words of the command line, starting with the name of the program.
fn words<R: Env + AllocGlobal>(rt: &R) -> Result<Vec<String>, io::Error> {
    let words = env::args(rt)?.collect(rt.alloc())?;
    Ok(words)
}

// Runs what a command line asks for.
fn run_words<R>(rt: &R, host: HostRuntime, words: &[String]) -> Exit
where
    R: Input + Print + Eprint + Net + AllocGlobal + Threads + Wait + Clock + Copy + Send + 'static,
{
    let command = match relay_command(rt.alloc()) {
        Ok(command) => command,
        Err(error) => return explain(rt, &Error::from(error)),
    };
    match command.try_get_matches_from(words) {
        Ok(matches) => run_matches(rt, host, &matches),
        Err(error) => explain(rt, &error),
    }
}

fn relay_command<'a>(alloc: Global) -> Result<Command<'a>, AllocError> {
    let command = Command::new(alloc, "relay")
        .version("0.1.0")
        .about(ABOUT)
        .subcommand_required(true);
    let mut command = Ok(command);
    for subcommand in Subcommand::ALL {
        command = with_subcommand(command, command_of(subcommand, alloc));
    }
    command
}

fn with_subcommand<'a>(
    command: Result<Command<'a>, AllocError>,
    subcommand: Result<Command<'a>, AllocError>,
) -> Result<Command<'a>, AllocError> {
    let command = command?;
    command.subcommand(subcommand?)
}

// Runs the subcommand that was found, or nothing if it is unknown.
fn run_matches<R>(rt: &R, host: HostRuntime, matches: &ArgMatches<'_>) -> Exit
where
    R: Input + Print + Eprint + Net + AllocGlobal + Threads + Wait + Clock + Copy + Send + 'static,
{
    let Some((name, matches)) = matches.subcommand() else {
        return Exit::Usage;
    };
    match Subcommand::named(name) {
        Some(subcommand) => run_subcommand(subcommand, rt, host, matches),
        None => Exit::Usage,
    }
}

// Prints what is wrong with the command line, or the help or version that it asks for.
fn explain<R: Print + Eprint>(rt: &R, error: &Error) -> Exit {
    if error.kind() == ErrorKind::OutOfMemory {
        return out_of_memory(rt);
    }
    let printed = error.print(rt);
    if error.use_stderr() {
        return Exit::Usage;
    }
    match printed {
        Ok(()) => Exit::Done,
        Err(_) => {
            let _ = rt.eprintln("write failed");
            Exit::Device
        }
    }
}
