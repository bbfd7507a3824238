//! `relay run`.
use crate::builder::CommandBuilder;
use crate::options::{
    DurationOption, FlagOption, GIVE_UP_AFTER, NO_HOST, NumberOption, Retries, TO, TextOption,
    read_counter, read_retries,
};
use crate::report::{out_of_memory, usage};
use clap::{Arg, ArgAction, ArgMatches, Command};
use relay_action::StdStream;
use relay_core::config::{
    ATTEMPT_LIMIT, BYTES_LEAST, BYTES_LIMIT, CAPACITY_LIMIT, COUNT_LIMIT, DEAL_LIMIT, EPOCH_LIMIT,
    FLYING_LIMIT, HELD_LIMIT, LANE_LIMIT, LINGER_LIMIT,
};
use relay_pace::TICK;
use relay_progress::Log;
use relay_run::files::run_files;
use relay_run::options::RunOptions;
use relay_run::report_file::{NOT_APART, NOT_APART_LEFT_OUT};
use relay_run::run::{Limits, RelayConfig};
use relay_target::{AddressFault, read_address};
use relay_words::Exit;
use std::alloc::{AllocError, Global};
use std::io;
use std::sync::Wait;
use std::thread::Threads;
use std::time::Clock;

const ABOUT: &str =
    "Writes files of operations to an index: each is applied at most once, in order, or reported";

const LONG_ABOUT: &str =
    "Writes files of operations to an index: each is applied at most once, in order, or reported.

Each FILE has operations in the form of the OpenSearch bulk API (see `relay help lines`), and is read by its
own producer; a named pipe is opened by it too, so one without a writer holds up no other. An operation goes to the lane of its document, is assigned the lane's next external version, and
is sent in bulk requests POST /_bulk over HTTP/1.1 to ADDR. A write that is refused with 429 or 503, or whose
request or reply is lost, is sent again with the same version, so the index applies it once; the operations of
a document are sent one after another. A request that gets a 413 is sent again in halves.

    relay run --to 127.0.0.1:9200 --index books ops.ndjson
    zcat dump.gz | relay run --to 127.0.0.1:9200 -

An operation that arrives slowly through a pipe is sent after --linger at the latest, even while the pipe stays
open.

A DURATION is a number and ms, s, m or h, such as 200ms, 30s or 5m.

At the end standard output gets a line for each operation that could not be settled, by producer (the
position of its file, from 0) and number, and then the counts. In an epoch E above 0 a name is E.P:N.

    report P:N INDEX/ID Refused STATUS KIND    the index refused the write
    report P:N INDEX/ID Request STATUS         the request as a whole was refused; with 413, it was alone in it
    report P:N INDEX/ID Conflict               the stored version was not below its own at the first send
    report P:N INDEX/ID GaveUp SENDS           no answer settled it after this many sends
    report P:N INDEX/ID Spent                  its lane had no version left for it
    applied A already B reported C

A counts the operations that an answered request applied, and B those that an earlier request, whose answer
was lost, had already applied. An operation that is reported may still have been applied, once and in order.
Standard error gets a line for each file that could not be put in full, once all have ended:
`FILE: open failed`, `FILE: read failed`, `FILE: out of memory`, `FILE: line N: KIND` or `FILE: NumbersSpent`;
its operations before that were put. Beneath it a line with two blanks before it has the system's reason, or what
the line is about, such as `the member routing is not supported`. `lane N: KIND` means that a lane did not finish,
and `start: KIND` that nothing was started.

What goes wrong meanwhile is written to standard error as it happens, each on a line with the time in UTC and the
address. `down` and `up again`, and `conflicts`, come at most once in 10 s each; `refused` comes once for each type
of error and each status of a whole request, and `too large` once. --log events adds the start and the end of the
run, and --log none leaves all of them out.

    2026-11-27T19:44:44Z 127.0.0.1:9200: down: connection refused
    2026-11-27T19:45:04Z 127.0.0.1:9200: up again after 20.1 s, sends 9
    2026-11-27T19:45:10Z 127.0.0.1:9200: refused: 400 mapper_parsing_exception
    2026-11-27T19:45:10Z 127.0.0.1:9200: refused: 429 for a whole request
    2026-11-27T19:45:11Z 127.0.0.1:9200: too large: a request got 413, and is sent again in halves
    2026-11-27T19:45:12Z 127.0.0.1:9200: conflicts: 3

With --report FILE the reports are also saved, each as soon as it arises, so that a run that is killed leaves
those that it had. The file has one JSON object per line, in no particular order: cause, id, index, number and
producer; kind, status and sends if the cause has them; and epoch if it is above 0. Unlike in the printed
lines, blanks and line ends in an id are escaped. The file has to be new or empty, or --append adds to it and
cuts off a line that an earlier run left torn. `FILE: create failed` and `FILE: append failed` mean that the
file could not be opened or mended, and then nothing was put; `FILE: write failed`, at the end,
that a report could not be written.

With --skip-invalid FILE invalid operations are left out, as long as their action lines tell which lines belong to
them, and these lines are written to FILE, each time after a line {\"invalid\":..} that says what is wrong where.
At the end standard error gets `FILE: invalid operations left out: N`.

The exit status is 0 on success, 1 if the command line is invalid, 2 if a line of a file is, 3 if a file, an
output or a lane's thread failed, 4 if memory ran out, and 5 if operations were reported or left out; if several
apply, the first of 4, 3, 2 and 5.

A run takes no more input once --max-reports operations were reported, and if the index answers a whole request
with 401, 403, 404 or 3xx before it has applied anything. What was read by then is delivered or reported, and
standard error gets one of these lines; the exit status is 5 after the first, and 3 after the second. An input
that is a pipe ends with the operation that arrives next.

    stopped after N reports: --max-reports
    stopped: the index answered a whole request with STATUS before it had applied anything

With --until FILE a run also takes no more input once FILE is there, even while it waits for a pipe; then it says
`stopped: --until`, and its exit status is that of what was read. If no operation ends for --timeout after that, it is
left as it is: `stopped: --until; not all was settled`, and the exit status is 3.

While the index is down, each request that cannot be sent is an attempt, and so is each that is not answered
within --timeout. Between its attempts an operation waits for 1, 2, 4, 8, 16, 32 and 64
ticks of 100 ms: 12.7 s in all with the default of 8 attempts, and 166 s with 32, at most 64 ticks each, plus
the time that connecting takes. Then it is reported. With --give-up-after DURATION, in place of --attempts, an
operation is sent again until so long has passed since it was first sent, and with --give-up-after never
2097152 times, which takes 155 days or more, while the inputs wait. With --patience each attempt keeps trying to connect for
that long before it fails, so an index that is back by then costs only the attempt of what was in
flight when it went down.

A lane holds at most --held operations, and --capacity more wait in front of it, each with its document of up
to 1048576 bytes and less than 2 KB more: at most 4.6 GB per lane with the defaults, and 13 MB if documents
have 1 KB. A --capacity below twice --count is slower, since the next request is then not ready when one is
answered. Reports are kept in memory until the end: a run that is killed prints none.

Versions are the epoch times 2^40 plus a count from 1 in each lane. Every version that the index has stored for
these documents must be at most the epoch times 2^40, so each run over the same documents needs an epoch above
those of all earlier runs; otherwise writes of documents that a later epoch has written are reported as conflicts, if
the index states the stored version, as OpenSearch does. Nobody else may write these documents during the run.
With --epoch-from INDEX/ID the index provides the epoch: before anything else is sent, the run writes this
document by PUT /INDEX/_doc/ID, and its epoch is the version that the index gives it, one more than the last one. So a run that is repeated, on whatever machine, needs nothing typed. Only the relay may write that
document, and nobody may delete it. If there is no epoch, nothing is sent, standard error gets one of these
lines, and the exit status is 3:

    epoch: unreachable                 no connection could be made, or no whole reply came
    epoch: status STATUS TYPE          the index refused the write, with this type of error
    epoch: no version in the answer    the reply states no version from 1 on
    epoch: spent                       the version is above 4194303

The first, and the statuses 429, 502, 503 and 504, are tried again each second for --patience.

    relay run --to 127.0.0.1:9200 --epoch-from relay/epoch --index books ops.ndjson

With --state FILE the run keeps in FILE how far each file is settled, and its epoch: at the start, at most once a
second, and at the end. However it ended, the same command goes on from there in the next epoch, and numbers operations
and lines on. The files have to be the same, and may only have grown; otherwise nothing is sent, and the exit status is
2. Only one run may have a state: a second one ends with status 3, and names the process that has it.

    relay run --to 127.0.0.1:9200 --index books --state state --report report.ndjson ops.ndjson

Otherwise, after a crash, run the same files again, in the next epoch. A request of the old run that still arrives is
applied before the new writes of its document, or not at all. If the old process is still sending, its writes
of a document are refused once the new run has written that document, and are applied elsewhere; the order of
the writes is kept, but its count of operations already applied may be wrong.";

const INDEX: TextOption = TextOption {
    name: "index",
    value: "NAME",
    help: "The index of operations that do not name one, 1 to 255 bytes [default: none, so each operation must name its index]",
};

// The document that counts the epochs.
const COUNTER: TextOption = TextOption {
    name: "epoch-from",
    value: "INDEX/ID",
    help: "Take the epoch from the index: write this document, which no other program may write with a version of its own and nobody may delete, and use the version that the index gives it; INDEX ends at the first slash [default: none, so --epoch applies]",
};

// What is said while a run goes on.
const LOG: TextOption = TextOption {
    name: "log",
    value: "WHAT",
    help: "What to write to standard error while the run goes on: errors (what goes wrong: the index is down, why, and up again; the first refusal of each type; the first 413; conflicts), events (these, and the start and the end of the run) or none",
};

// Where reports go.
const REPORT: TextOption = TextOption {
    name: "report",
    value: "FILE",
    help: "Save what could not be settled to this file as NDJSON, one object per line; it is opened before anything is put, has to be new or empty, and is written as they arise",
};

// Where invalid operations go.
const SKIP_INVALID: TextOption = TextOption {
    name: "skip-invalid",
    value: "FILE",
    help: "Leave out invalid operations, and write their lines to this file, each after a line that says what is wrong; it has to be new or empty, and the run ends with status 5 if any were left out [default: none, so a file is read up to its first fault]",
};

// Where the state of the run is kept.
const STATE: TextOption = TextOption {
    name: "state",
    value: "FILE",
    help: "Keep in this file how far each regular file is settled, and go on from there if it has that already, in an epoch of its own, above its last one; it needs --report, to which it adds, and no other run may use it meanwhile [default: none, so each file is read from its start]",
};

// What ends a run.
const UNTIL: TextOption = TextOption {
    name: "until",
    value: "FILE",
    help: "Take no more input once this file is there, finish what was read, and end; a run that settles nothing for --timeout after that is left as it is, and ends with status 3 [default: none]",
};

// Whether these files may have lines already.
const APPEND: FlagOption = FlagOption {
    name: "append",
    help: "Add to what the files of --report and --skip-invalid have; a line that an earlier run left torn is cut off",
};

const PROGRESS: FlagOption = FlagOption {
    name: "progress",
    help: "Show progress on standard error every second; a terminal gets each line over the one before",
};

// The files of operations.
const FILES: &str = "file";

// The maximum number of files.
const FILE_LIMIT: usize = 16;

const EPOCH: NumberOption = NumberOption {
    name: "epoch",
    least: 0,
    most: EPOCH_LIMIT as u64,
    default: "0",
    help: "The epoch, above those of all earlier runs, from 0 to 4194303",
};

const LANES: NumberOption = NumberOption {
    name: "lanes",
    least: 1,
    most: LANE_LIMIT as u64,
    default: "1",
    help: "Number of lanes, 1 to 8, each with its own connections",
};

const CAPACITY: NumberOption = NumberOption {
    name: "capacity",
    least: 1,
    most: CAPACITY_LIMIT as u64,
    default: "256",
    help: "Maximum number of operations waiting in front of a lane, 1 to 65536; while a lane waits for an answer, the files are read further until that many wait",
};

const HELD: NumberOption = NumberOption {
    name: "held",
    least: 1,
    most: HELD_LIMIT as u64,
    default: "4096",
    help: "Maximum number of operations that a lane holds, sent or still to be sent, 1 to 65536",
};

const COUNT: NumberOption = NumberOption {
    name: "count",
    least: 1,
    most: COUNT_LIMIT as u64,
    default: "500",
    help: "Maximum number of operations in a request, 1 to 10000",
};

const BYTES: NumberOption = NumberOption {
    name: "bytes",
    least: BYTES_LEAST,
    most: BYTES_LIMIT,
    default: "1048576",
    help: "Maximum size of a request's body in bytes, 1024 to 16777216; a single operation may have more",
};

const ATTEMPTS: NumberOption = NumberOption {
    name: "attempts",
    least: 1,
    most: ATTEMPT_LIMIT as u64,
    default: "8",
    help: "Maximum number of requests that carry an operation, not counting those halved after a 413, 1 to 32",
};

const FLYING: NumberOption = NumberOption {
    name: "flying",
    least: 1,
    most: FLYING_LIMIT as u64,
    default: "1",
    help: "Maximum number of requests of a lane in flight, each on its own connection, 1 to 8; more keep a slow index busy, and the order of a document's writes is kept",
};

// The numeric options, in the order of the help.
const NUMBERS: &[NumberOption] = &[EPOCH, LANES, CAPACITY, HELD, COUNT, BYTES, ATTEMPTS, FLYING];

// The option for the number of reports after which a run stops.
const MAX_REPORTS: NumberOption = NumberOption {
    name: "max-reports",
    least: 0,
    most: u32::MAX as u64,
    default: "10000",
    help: "Take no more input once so many operations were reported, finish what was read, and end with status 5; 0 means any number",
};

const LINGER: DurationOption = DurationOption {
    name: "linger",
    unit: TICK,
    most: LINGER_LIMIT as u64,
    default: "200ms",
    help: "How long a request waits to be filled, rounded up to ticks of 100 ms, up to 6553500ms; a bare number counts ticks",
    range: "0 to 6553500ms, or 0 to 65535 ticks",
};

const TIMEOUT: DurationOption = DurationOption {
    name: "timeout",
    unit: 1_000,
    most: WEEK,
    default: "300s",
    help: "How long connecting may take, and writing a request and reading its whole answer, each, before the request counts as lost and is sent again, rounded up to seconds, up to 168h; a bare number counts seconds, and 0 means no limit",
    range: "0 to 168h, or 0 to 604800 seconds",
};

const PATIENCE: DurationOption = DurationOption {
    name: "patience",
    unit: 1_000,
    most: WEEK,
    default: "0s",
    help: "How long to keep trying to connect, once a second, before it counts as an attempt, rounded up to seconds, up to 168h; a bare number counts seconds",
    range: "0 to 168h, or 0 to 604800 seconds",
};

// The number of seconds in a week.
const WEEK: u64 = 604_800;

// The options that are lengths of time, in the order of the help.
const DURATIONS: &[DurationOption] = &[LINGER, TIMEOUT, PATIENCE];

// A state goes with a file for the reports, and counts the epochs and the lines itself.
fn state_arg<'a>(alloc: Global) -> Result<Arg<'a>, AllocError> {
    STATE
        .arg(alloc)
        .requires_arg(REPORT.name)?
        .conflicts_with(SKIP_INVALID.name)?
        .conflicts_with(COUNTER.name)
}

/// Its help and its options.
pub fn command<'a>(alloc: Global, name: &'static str) -> Result<Command<'a>, AllocError> {
    let files = Arg::new(alloc, FILES)
        .value_name("FILE")
        .action(ArgAction::Append)
        .num_args(1..=FILE_LIMIT)
        .required(true)
        .help(
            "Files of operations, 1 to 16, each read by its own producer; `-`, at most once, is standard input",
        );
    CommandBuilder::new(alloc, name, ABOUT, LONG_ABOUT)
        .required_text(&TO)
        .text(&INDEX)
        .try_arg(COUNTER.arg(alloc).conflicts_with(EPOCH.name))
        .numbers(NUMBERS)
        .durations(DURATIONS)
        .try_arg(GIVE_UP_AFTER.arg(alloc).conflicts_with(ATTEMPTS.name))
        .text(&REPORT)
        .text(&SKIP_INVALID)
        .try_arg(state_arg(alloc))
        .text(&UNTIL)
        .try_arg(APPEND.arg(alloc).requires_arg(REPORT.name))
        .number(&MAX_REPORTS)
        .arg(LOG.arg(alloc).default_value("errors"))
        .flag(&PROGRESS)
        .arg(files)
        .build()
}

// The options that are lengths of time, each in its units.
#[derive(Clone, Copy)]
struct Durations {
    linger: u32,
    timeout: u32,
    patience: u32,
}

fn durations_of<R: Eprint>(rt: &R, matches: &ArgMatches<'_>) -> Result<Durations, Exit> {
    Ok(Durations {
        linger: LINGER.get(rt, matches)?,
        timeout: TIMEOUT.get(rt, matches)?,
        patience: PATIENCE.get(rt, matches)?,
    })
}

// How often, and how long, an operation that fails is sent again.
fn retries_of<R: Eprint>(rt: &R, matches: &ArgMatches<'_>) -> Result<Retries, Exit> {
    match GIVE_UP_AFTER.get(matches) {
        Some(word) => read_retries(rt, word),
        None => Ok(Retries {
            attempts: ATTEMPTS.get_u32(matches),
            give_up_after: None,
        }),
    }
}

// What is given by numbers, durations and the address.
#[derive(Clone, Copy)]
struct Given<'a> {
    to: &'a str,
    durations: Durations,
    retries: Retries,
}

// Reads these. If something is wrong with them, prints so, and returns the exit status.
fn given_by<'a, R: Eprint>(rt: &R, matches: &'a ArgMatches<'_>) -> Result<Given<'a>, Exit> {
    let durations = durations_of(rt, matches)?;
    let to = match read_address(TO.get(matches).unwrap_or("")) {
        Ok(address) => address,
        Err(fault) => return Err(usage(rt, address_fault(fault))),
    };
    Ok(Given {
        to,
        durations,
        retries: retries_of(rt, matches)?,
    })
}

// The paths of the files to read.
fn paths_of<'a>(matches: &'a ArgMatches<'_>) -> &'a [&'a str] {
    matches.get_strs(FILES).unwrap_or(&[])
}

fn config_of(matches: &ArgMatches<'_>, linger: u32, retries: Retries) -> RelayConfig {
    RelayConfig {
        lanes: LANES.get_u32(matches),
        producers: u32::try_from(paths_of(matches).len()).unwrap_or(u32::MAX),
        capacity: CAPACITY.get_u32(matches),
        max_held: HELD.get_u32(matches),
        limits: Limits {
            count: COUNT.get_u32(matches),
            bytes: BYTES.get(matches),
            linger,
        },
        attempts: retries.attempts,
        give_up_after: retries.give_up_after,
        in_flight: FLYING.get_u32(matches),
        epoch: EPOCH.get_u32(matches),
        deal: DEAL_LIMIT,
    }
}

// Adds a path to the files to read.
fn add_file(alloc: Global, path: &str, options: &mut RunOptions) -> Result<(), AllocError> {
    options.files.push(String::from_str(alloc, path)?)?;
    Ok(())
}

// Sets the options that are texts, and the files to read.
fn set_texts(
    alloc: Global,
    matches: &ArgMatches<'_>,
    to: &str,
    options: &mut RunOptions,
) -> Result<(), AllocError> {
    for path in paths_of(matches) {
        add_file(alloc, path, options)?;
    }
    options.to = String::from_str(alloc, to)?;
    options.index = INDEX.own(alloc, matches)?;
    options.report = REPORT.own(alloc, matches)?;
    options.skip_invalid = SKIP_INVALID.own(alloc, matches)?;
    options.state = STATE.own(alloc, matches)?;
    options.until = UNTIL.own(alloc, matches)?;
    Ok(())
}

// The options as they were given, without those that are texts, and without what is said meanwhile.
fn options_of(alloc: Global, matches: &ArgMatches<'_>, given: Given<'_>) -> RunOptions {
    RunOptions {
        files: Vec::new(alloc),
        to: String::new(alloc),
        index: None,
        config: config_of(matches, given.durations.linger, given.retries),
        epoch_from: None,
        timeout: given.durations.timeout,
        patience: given.durations.patience,
        report: None,
        skip_invalid: None,
        state: None,
        until: None,
        append: APPEND.is_given(matches),
        max_reports: MAX_REPORTS.get_u32(matches),
        progress: PROGRESS.is_given(matches),
        log: Log::Errors,
    }
}

// What to say while a run goes on. `None`: the value of the option is none of the three.
fn log_of(matches: &ArgMatches<'_>) -> Option<Log> {
    match LOG.get(matches) {
        Some("none") => Some(Log::None),
        Some("errors") | None => Some(Log::Errors),
        Some("events") => Some(Log::Events),
        Some(_) => None,
    }
}

/// What is said of an address that is none.
pub fn address_fault(fault: AddressFault) -> &'static str {
    match fault {
        AddressFault::Secure => {
            "error: --to ADDR: the relay speaks plain HTTP; for https:// run a proxy on this machine, as docs/OPERATING.md shows under \"TLS, credentials and compression\""
        }
        AddressFault::NoPort => {
            "error: --to ADDR has no port: it has to be HOST:PORT, such as 127.0.0.1:9200"
        }
        AddressFault::Form => {
            "error: --to ADDR has to be HOST:PORT, such as 127.0.0.1:9200 or [::1]:9200, without a path or credentials"
        }
    }
}

// What is wrong with options that are valid each by itself, if anything is.
fn fault_of(options: &RunOptions) -> Option<&'static str> {
    if !options.is_valid() {
        Some(NO_HOST)
    } else if !options.reads_input_once() {
        Some("error: '-' is standard input, and can be the FILE of one producer only")
    } else if !options.saves_apart() {
        Some(NOT_APART.trim_end())
    } else if !options.leaves_apart() {
        Some(NOT_APART_LEFT_OUT.trim_end())
    } else if !options.may_resume() {
        Some(
            "error: --state FILE has to be a file of its own: not '-', none of those that are read, and not that of --report",
        )
    } else {
        None
    }
}

// Sets the texts, the counter document, if one was named, and what is said meanwhile. If something is
// wrong with the options, prints so, and returns the exit status.
fn complete<R: Eprint + AllocGlobal>(
    rt: &R,
    matches: &ArgMatches<'_>,
    to: &str,
    options: &mut RunOptions,
) -> Result<(), Exit> {
    if set_texts(rt.alloc(), matches, to, options).is_err() {
        return Err(out_of_memory(rt));
    }
    if let Some(name) = COUNTER.get(matches) {
        options.epoch_from = Some(read_counter(rt, name)?);
    }
    match log_of(matches) {
        Some(log) => options.log = log,
        None => return Err(usage(rt, "error: --log WHAT has to be errors, events or none")),
    }
    match fault_of(options) {
        Some(text) => Err(usage(rt, text)),
        None => Ok(()),
    }
}

/// Runs it over files, sockets, standard output and standard error.
pub fn execute<R>(rt: &R, host: HostRuntime, matches: &ArgMatches<'_>) -> Exit
where
    R: Print + Eprint + AllocGlobal + Threads + Wait + Clock + Copy + Send + 'static,
{
    match given_by(rt, matches) {
        Ok(given) => run_given(rt, host, matches, given),
        Err(exit) => exit,
    }
}

fn run_given<R>(rt: &R, host: HostRuntime, matches: &ArgMatches<'_>, given: Given<'_>) -> Exit
where
    R: Print + Eprint + AllocGlobal + Threads + Wait + Clock + Copy + Send + 'static,
{
    let mut options = options_of(rt.alloc(), matches, given);
    match complete(rt, matches, given.to, &mut options) {
        Ok(()) => run_by(rt, host, &options),
        Err(exit) => exit,
    }
}

fn run_by<R>(rt: &R, host: HostRuntime, options: &RunOptions) -> Exit
where
    R: Print + Eprint + AllocGlobal + Threads + Wait + Clock + Copy + Send + 'static,
{
    let mut out = StdStream::new(io::writer(rt));
    let mut err = StdStream::new(host.stderr());
    run_files(*rt, host, options, &mut out, &mut err)
}
