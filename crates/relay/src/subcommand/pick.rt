//! `relay pick`.
use crate::builder::CommandBuilder;
use crate::noted::{NotedFile, Reason, open_noted};
use crate::options::{FlagOption, TextOption};
use crate::report::{failed, out_of_memory, said};
use clap::{Arg, ArgAction, ArgMatches, Command};
use relay_action::StdStream;
use relay_ndjson::LineKind;
use relay_report::{
    InputEnd, Kept, Named, PickFault, ReportFault, current_names, first_missing, pick, read_names,
};
use relay_words::{Exit, exit_of_kind};
use std::alloc::{AllocError, Global};
use std::io;
use std::io::ErrorKind;

const ABOUT: &str = "Extracts the operations that a report of `relay run` names from its files";

const LONG_ABOUT: &str = "Extracts the operations that a report of `relay run` names from its files.

Give the report that `relay run --report` wrote and all files of that run in the same order: an operation is
named by the position of its file, from 0, and its number there, from 1. Standard output gets the lines of the
named operations, byte for byte, in the order of the files and of the lines in them, each operation once. A
last line without an end gets a line feed. Blank lines are left out.

    relay run --to 127.0.0.1:9200 --report report.ndjson a.ndjson b.ndjson
    relay pick --report report.ndjson a.ndjson b.ndjson > again.ndjson

An operation is left out if a later one of the same document, in its file or in a later file, is not named:
that one was submitted and settled, and the older one would overwrite it. So once again.ndjson is submitted
with a run in the next epoch, each document has its last operation. Standard error gets a line if any are left
out: `N of M operations left out: superseded by later ones of their documents`. With --all none are.

Each file is read twice, and to its end or its first fault, so it has to be a regular file. With --all it is
read once, up to the last operation that is named, and may be a pipe.

A line of the report has the members that `relay run --report` writes, in any order; the epoch has no effect.
If the files have operations that do not name an index, give --index as in the run.

The exit status is 2 if there is a fault, and standard error gets its line. What was extracted has been written:
all operations that are named by lines of the report before a bad one and come before the fault of their file.
With --all the first fault of a file ends the command.

    REPORT: line N: BadLine    the line is not a line of a report, or is longer than 1114112 bytes
    FILE: line N: KIND         the line breaks the producer grammar (see `relay help lines`), and ended the run's
                               reading of this file too
    REPORT: line N: NoSuch     no file has the operation of that line

The exit status is 3 if a file cannot be opened or a read or write fails, and 4 if memory runs out. If a read
fails, nothing is written, except with --all.";

const REPORT: TextOption = TextOption {
    name: "report",
    value: "REPORT",
    help: "The report that `relay run --report` wrote",
};

const INDEX: TextOption = TextOption {
    name: "index",
    value: "NAME",
    help: "The index of operations that do not name one, as in the run",
};

const ALL: FlagOption = FlagOption {
    name: "all",
    help: "Extract superseded operations too, and read each file once",
};

// The files of the run.
const FILES: &str = "file";

/// Its help and its options.
pub fn command<'a>(alloc: Global, name: &'static str) -> Result<Command<'a>, AllocError> {
    let files = Arg::new(alloc, FILES)
        .value_name("FILE")
        .action(ArgAction::Append)
        .num_args(1..=16)
        .required(true)
        .help("All files of the run, in the same order");
    CommandBuilder::new(alloc, name, ABOUT, LONG_ABOUT)
        .required_text(&REPORT)
        .text(&INDEX)
        .flag(&ALL)
        .arg(files)
        .build()
}

/// Runs it over files and standard output.
pub fn execute<R: Print + Eprint + AllocGlobal>(
    rt: &R,
    host: HostRuntime,
    matches: &ArgMatches<'_>,
) -> Exit {
    let mut names = Vec::new(rt.alloc());
    match read_and_pick(rt, host, matches, &mut names) {
        Ok(()) => Exit::Done,
        Err(exit) => exit,
    }
}

// Reads the names in the report, and extracts the operations of those before its first fault.
fn read_and_pick<R: Print + Eprint + AllocGlobal>(
    rt: &R,
    host: HostRuntime,
    matches: &ArgMatches<'_>,
    names: &mut Vec<Named>,
) -> Result<(), Exit> {
    let report = REPORT.get(matches).unwrap_or("");
    let reason = Reason::new();
    let read = names_of(rt, host, report, &reason, names)?;
    pick_named(rt, host, matches, names, report)?;
    match read {
        Ok(()) => Ok(()),
        Err(fault) => Err(report_fault(rt, report, fault, reason.get().copied())),
    }
}

// Extracts the operations of these names.
fn pick_named<R: Print + Eprint + AllocGlobal>(
    rt: &R,
    host: HostRuntime,
    matches: &ArgMatches<'_>,
    names: &[Named],
    report: &str,
) -> Result<(), Exit> {
    let files = matches.get_strs(FILES).unwrap_or(&[]);
    let index = INDEX.get(matches);
    if ALL.is_given(matches) {
        pick_all(rt, host, names, files, index, report)
    } else {
        pick_current(rt, host, names, files, index, report)
    }
}

// Reads the names in a report, up to its first fault.
fn names_of<R: Eprint + AllocGlobal>(
    rt: &R,
    host: HostRuntime,
    path: &str,
    reason: &Reason,
    names: &mut Vec<Named>,
) -> Result<Result<(), ReportFault>, Exit> {
    names.clear();
    let mut report = StdStream::new(open_noted(rt, host, path, reason)?);
    Ok(read_names(rt.alloc(), &mut report, names))
}

// Extracts the operations that no later one supersedes, and prints how many were left out and the
// faults.
fn pick_current<R: Print + Eprint + AllocGlobal>(
    rt: &R,
    host: HostRuntime,
    names: &[Named],
    files: &[&str],
    index: Option<&str>,
    report: &str,
) -> Result<(), Exit> {
    let kept = keep_current(rt, host, names, files, index)?;
    pick_kept(rt, host, &kept, files, index, report)?;
    say_ends(rt, names, files, &kept.ends, report)
}

// Reads the files for which operations are current.
fn keep_current<R: Eprint + AllocGlobal>(
    rt: &R,
    host: HostRuntime,
    names: &[Named],
    files: &[&str],
    index: Option<&str>,
) -> Result<Kept, Exit> {
    let reason = Reason::new();
    let inputs = open_files(rt, host, files, &reason)?;
    match current_names(rt.alloc(), names, inputs, index) {
        Ok(kept) => read_whole(rt, files, kept, reason.get().copied()),
        Err(_) => Err(out_of_memory(rt)),
    }
}

// What is kept, unless a read failed.
fn read_whole<R: Eprint>(
    rt: &R,
    files: &[&str],
    kept: Kept,
    reason: Option<ErrorKind>,
) -> Result<Kept, Exit> {
    match first_unread(files, &kept.ends) {
        Some(path) => Err(failed(rt, path, "read failed", reason)),
        None => Ok(kept),
    }
}

// Extracts the operations that are kept, and prints how many are left out.
fn pick_kept<R: Print + Eprint + AllocGlobal>(
    rt: &R,
    host: HostRuntime,
    kept: &Kept,
    files: &[&str],
    index: Option<&str>,
    report: &str,
) -> Result<(), Exit> {
    pick_all(rt, host, &kept.names, files, index, report)?;
    let found = kept.found;
    let left_out = found.saturating_sub(kept.names.len());
    if left_out > 0 {
        let _ = eprintln!(rt;
            "{left_out} of {found} operations left out: superseded by later ones of their documents"
        );
    }
    Ok(())
}

// Opens the files, which are read twice.
fn open_files<'a, R: Eprint + AllocGlobal>(
    rt: &R,
    host: HostRuntime,
    files: &[&str],
    reason: &'a Reason,
) -> Result<Vec<StdStream<NotedFile<'a>>>, Exit> {
    let mut inputs = Vec::new(rt.alloc());
    for path in files {
        open_into(rt, host, path, reason, &mut inputs)?;
    }
    Ok(inputs)
}

// Opens a file, which has to be regular.
fn open_into<'a, R: Eprint>(
    rt: &R,
    host: HostRuntime,
    path: &str,
    reason: &'a Reason,
    inputs: &mut Vec<StdStream<NotedFile<'a>>>,
) -> Result<(), Exit> {
    let file = open_noted(rt, host, path, reason)?;
    if !file.is_regular() {
        let text = "not a regular file, and only --all reads a file once";
        return Err(said(rt, path, text, Exit::Device));
    }
    match inputs.push(StdStream::new(file)) {
        Ok(()) => Ok(()),
        Err(_) => Err(out_of_memory(rt)),
    }
}

// The first file of which a read failed.
fn first_unread<'a>(files: &[&'a str], ends: &[InputEnd]) -> Option<&'a str> {
    for (path, end) in files.iter().zip(ends) {
        if end.fault.is_some_and(|fault| fault.kind == LineKind::Read) {
            return Some(*path);
        }
    }
    None
}

// Prints where the files break the producer grammar, or the report's line of the first operation
// that no file has.
fn say_ends<R: Eprint + AllocGlobal>(
    rt: &R,
    names: &[Named],
    files: &[&str],
    ends: &[InputEnd],
    report: &str,
) -> Result<(), Exit> {
    say_faults(rt, files, ends)?;
    match counts_of(rt.alloc(), ends) {
        Ok(counts) => none_is_missing(rt, names, &counts, report),
        Err(_) => Err(out_of_memory(rt)),
    }
}

// Prints where the files break the producer grammar, if they do.
fn say_faults<R: Eprint>(rt: &R, files: &[&str], ends: &[InputEnd]) -> Result<(), Exit> {
    let mut valid = true;
    for (path, end) in files.iter().zip(ends) {
        if let Some(fault) = end.fault {
            let _ = eprintln!(rt; "{path}: {fault}");
            valid = false;
        }
    }
    if valid { Ok(()) } else { Err(Exit::Input) }
}

// How many operations the files have.
fn counts_of(alloc: Global, ends: &[InputEnd]) -> Result<Vec<u64>, AllocError> {
    let mut counts = Vec::with_capacity(alloc, ends.len())?;
    for end in ends {
        counts.push(end.count)?;
    }
    Ok(counts)
}

// Prints the report's line of the first operation that no file has, if there is one.
fn none_is_missing<R: Eprint>(
    rt: &R,
    names: &[Named],
    counts: &[u64],
    report: &str,
) -> Result<(), Exit> {
    match first_missing(names, counts) {
        None => Ok(()),
        Some(line) => {
            let _ = eprintln!(rt; "{report}: line {line}: NoSuch");
            Err(Exit::Input)
        }
    }
}

// Extracts the operations from the files, one file after another. Prints the report's line of the
// first operation that no file has.
fn pick_all<R: Print + Eprint + AllocGlobal>(
    rt: &R,
    host: HostRuntime,
    names: &[Named],
    files: &[&str],
    index: Option<&str>,
    report: &str,
) -> Result<(), Exit> {
    let mut counts = Vec::new(rt.alloc());
    pick_each(rt, host, names, files, index, &mut counts)?;
    none_is_missing(rt, names, &counts, report)
}

// Extracts the operations from each file, and counts what each has.
fn pick_each<R: Print + Eprint + AllocGlobal>(
    rt: &R,
    host: HostRuntime,
    names: &[Named],
    files: &[&str],
    index: Option<&str>,
    counts: &mut Vec<u64>,
) -> Result<(), Exit> {
    let mut producer = 0u32;
    for path in files {
        let count = pick_file(rt, host, names, producer, path, index)?;
        if counts.push(count).is_err() {
            return Err(out_of_memory(rt));
        }
        producer = producer.saturating_add(1);
    }
    Ok(())
}

// Extracts the operations from the file of a producer, and returns how many it has.
fn pick_file<R: Print + Eprint + AllocGlobal>(
    rt: &R,
    host: HostRuntime,
    names: &[Named],
    producer: u32,
    path: &str,
    index: Option<&str>,
) -> Result<u64, Exit> {
    let reason = Reason::new();
    let mut input = StdStream::new(open_noted(rt, host, path, &reason)?);
    let mut writer = StdStream::new(io::writer(rt));
    match pick(rt.alloc(), names, producer, &mut input, index, &mut writer) {
        Ok(count) => Ok(count),
        Err(fault) => Err(file_fault(rt, path, fault, reason.get().copied())),
    }
}

// Prints the fault of a file. If that fails, the exit status is the same.
fn file_fault<R: Eprint>(rt: &R, path: &str, fault: PickFault, reason: Option<ErrorKind>) -> Exit {
    match fault {
        PickFault::Input(fault) if fault.kind == LineKind::Read => {
            failed(rt, path, "read failed", reason)
        }
        PickFault::Input(fault) => {
            let _ = eprintln!(rt; "{path}: {fault}");
            exit_of_kind(fault.kind)
        }
        PickFault::Write => {
            let _ = rt.eprintln("write failed");
            Exit::Device
        }
        PickFault::Memory => out_of_memory(rt),
    }
}

// Prints what is wrong with the report.
fn report_fault<R: Eprint>(
    rt: &R,
    path: &str,
    fault: ReportFault,
    reason: Option<ErrorKind>,
) -> Exit {
    match fault {
        ReportFault::BadLine { line } => {
            let _ = eprintln!(rt; "{path}: line {line}: BadLine");
            Exit::Input
        }
        ReportFault::Read => failed(rt, path, "read failed", reason),
        ReportFault::Memory => out_of_memory(rt),
    }
}
