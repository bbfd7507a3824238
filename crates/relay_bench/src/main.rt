//! The part of the benchmark that is written in Rattle: a tool that `bench/run.py` drives, to
//! compare its figures with those of plain Rust programs. It depends on `relay_queue`,
//! `relay_receipts`, `relay_core`, `relay_results` and `relay_http`, and promises nothing about the product. Without
//! arguments it prints nothing.
//!
//! The measurements of the queue and of telling start threads and wait for them.
#![tactic(auto)]

mod command;
mod fault;
mod http;
mod lane;
mod queue;
mod rate;
mod replies;
mod tell;

use std::process::ExitCode;

fn main(rt: HostRuntime) -> ExitCode {
    match command::run(rt) {
        Ok(()) => ExitCode::SUCCESS,
        Err(fault) => {
            let _ = rt.eprintln(fault);
            ExitCode::FAILURE
        }
    }
}
