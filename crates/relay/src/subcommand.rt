//! The subcommands: each has a file with its help, its options and what it runs.
pub mod apply;
pub mod lines;
pub mod pick;
pub mod run;
pub mod serve;
pub mod stub;
pub mod world;

use clap::{ArgMatches, Command};
use relay_commands::subcommand::Subcommand;
use relay_words::Exit;
use std::alloc::{AllocError, Global};
use std::net::Net;
use std::sync::Wait;
use std::thread::Threads;
use std::time::Clock;

/// The help and the options of a subcommand.
pub fn command_of<'a>(subcommand: Subcommand, alloc: Global) -> Result<Command<'a>, AllocError> {
    let name = subcommand.name();
    match subcommand {
        Subcommand::Lines => lines::command(alloc, name),
        Subcommand::Apply => apply::command(alloc, name),
        Subcommand::Run => run::command(alloc, name),
        Subcommand::Pick => pick::command(alloc, name),
        Subcommand::Stub => stub::command(alloc, name),
        Subcommand::World => world::command(alloc, name),
        Subcommand::Serve => serve::command(alloc, name),
    }
}

/// Runs a subcommand over standard input and output, and over sockets.
pub fn run_subcommand<R>(
    subcommand: Subcommand,
    rt: &R,
    host: HostRuntime,
    matches: &ArgMatches<'_>,
) -> Exit
where
    R: Input + Print + Eprint + Net + AllocGlobal + Threads + Wait + Clock + Copy + Send + 'static,
{
    match subcommand {
        Subcommand::Lines => lines::execute(rt, matches),
        Subcommand::Apply => apply::execute(rt, matches),
        Subcommand::Run => run::execute(rt, host, matches),
        Subcommand::Pick => pick::execute(rt, host, matches),
        Subcommand::Stub => stub::execute(rt, matches),
        Subcommand::World => world::execute(rt, host, matches),
        Subcommand::Serve => serve::execute(rt, host, matches),
    }
}
