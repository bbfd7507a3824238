//! The refusals that a command line asks for.
use crate::options::TextOption;
use crate::report::out_of_memory;
use clap::ArgMatches;
use relay_commands::refuse_list::{ListFault, refuse_list};
use relay_index::Script;
use relay_words::Exit;

/// The script of the option for refusals. If its value is not a valid list, prints a message and
/// returns the exit status.
pub fn script_of<R: Eprint + AllocGlobal>(
    rt: &R,
    matches: &ArgMatches<'_>,
    option: &TextOption,
) -> Result<Script, Exit> {
    let Some(list) = option.get(matches) else {
        return Ok(Script::new(rt.alloc()));
    };
    match refuse_list(rt.alloc(), list) {
        Ok(script) => Ok(script),
        Err(ListFault::BadList { before }) => Err(bad_pair(rt, before.saturating_add(1))),
        Err(ListFault::Memory) => Err(out_of_memory(rt)),
    }
}

// Prints which pair of the list is invalid.
fn bad_pair<R: Eprint>(rt: &R, pair: u64) -> Exit {
    let _ = eprintln!(rt;
        "error: pair {pair} of the value of '--refuse' is no place and status as 2:429, with places from 1 and statuses from 400 to 599 other than 404 and 409"
    );
    Exit::Usage
}
