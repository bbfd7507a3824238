//! The program `relay`: a command line over `relay_commands`, `relay_scenario`, `relay_stub`,
//! `relay_run` and `relay_report`. `relay run` writes files of operations to an index; `relay pick`
//! extracts the operations that its report names; `relay lines` turns a producer's NDJSON into bulk
//! lines with versions; `relay apply` serves one bulk request with a fresh stand-in index; `relay
//! stub` serves connections over TCP with one; and `relay world` plays a script of events on lanes
//! with their queues over an index.
//!
//! The program reads its command line, wraps standard input and output in the streams of
//! `relay_action`, opens sockets with `relay_net`, and prints what stopped a command. The contracts
//! of the functions that it calls are proved, over any reader and writer.
#![tactic(auto)]

mod builder;
mod command;
mod noted;
mod options;
mod refusals;
mod report;
mod stand_in;
mod subcommand;

pub use relay_commands as commands;
use std::process::ExitCode;

fn main(rt: HostRuntime) -> ExitCode {
    ExitCode::from(command::execute(&rt, rt).status())
}
