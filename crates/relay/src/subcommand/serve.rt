//! `relay serve`.
use crate::builder::CommandBuilder;
use crate::options::{
    DurationOption, GIVE_UP_AFTER, NO_HOST, NumberOption, Retries, TO, TextOption, read_counter,
    read_retries,
};
use crate::report::{out_of_memory, usage};
use crate::subcommand::run::address_fault;
use clap::builder::ValueParser;
use clap::{Arg, ArgAction, ArgMatches, Command};
use relay_action::StdStream;
use relay_batch::Limits;
use relay_core::config::{
    ATTEMPT_LIMIT, BYTES_LEAST, BYTES_LIMIT, COUNT_LIMIT, DEAL_LIMIT, EPOCH_LIMIT, LANE_LIMIT,
    PRODUCER_LIMIT,
};
use relay_front::Face;
use relay_lane::RelayConfig;
use relay_serve::{EpochSource, Listening, ServeLog, ServeOptions, serve};
use relay_target::read_address;
use relay_words::{Exit, duration_of};
use std::alloc::{AllocError, Global};
use std::io;
use std::sync::Wait;
use std::thread::Threads;
use std::time::Clock;

const ABOUT: &str =
    "Takes the writes of OpenSearch's clients, and applies each to an index at most once, and in order";

const LONG_ABOUT: &str =
    "Takes the writes of OpenSearch's clients, and applies each to an index at most once, and in order.

It listens at ADDR, or at several, and answers requests of the bulk API and for single documents as an index does, over HTTP/1.1
without TLS. Each operation goes to the lane of its document, is assigned a version, and is sent in the lane's
next bulk request to the index. A request is answered once each of its operations has ended, item by item. An
item that says that an operation was written means that the index applied it. Nothing is stored on disk: a client that got
no answer has to submit again.

    relay serve --listen 127.0.0.1:9300 --to 127.0.0.1:9200 --epoch-from relay/epoch
    curl -XPUT http://127.0.0.1:9300/books/_doc/1 -H 'content-type: application/json' -d '{\"title\":\"Emma\"}'

It takes POST and PUT of /_bulk, /INDEX/_bulk and /INDEX/_doc/_bulk; PUT and POST of /INDEX/_doc/ID, POST of
/INDEX/_doc, and DELETE of /INDEX/_doc/ID. Operations without an id get one (a UUID of version 7), which the answer
states. It answers GET and HEAD of /, /_cluster/health, /_cat/health, /_nodes/http and /_license, and HEAD of /INDEX.
The parameters timeout, refresh, pretty, human, error_trace, filter_path, wait_for_active_shards, master_timeout and
those that begin with _source are ignored; others are refused for writes. A member of an action line other than
_index, _id and _type is refused with its operation, and so are updates and creates with an id: 400 in the item,
while the others go on. A body whose lines cannot be told apart is refused as a whole.

An operation that fails is sent again until --give-up-after has passed since it was first sent.
One that did not end within --answer-within is answered with 503 and relay_timeout; it may still be
applied, and what is put for its document later stays behind it. Errors of the index are passed on with their type and reason.

The epoch has to be above those of all earlier runs over the same documents: --epoch-from takes it from the index, as
`relay run` does; --epoch-file from a file, which is locked while the relay works, and raised and synchronized before
anything is sent; --epoch gives it. Nobody else may write these documents.

It works in terms: after --turn-after operations, or 100,000 that were refused for good or late, it ends what is open and
begins the next term in the next epoch, from the same source; connections stay, and wait for that moment. So neither
versions nor memory run out.

The bytes of requests that were read and not yet answered, beyond the first 16 KiB of each, are at most --max-open-bytes, and one
more request. What does not fit waits, for as long as ,wait=DURATION behind its listener's ADDR says, and is then refused with 429.

Most clients send a request again after a time limit. If a client left before its answer was sent, the answer is kept for
--remember, and the next request that is the same, byte for byte, gets it, or waits for it: so what is sent again is not
written twice. An answer is given once. It is kept only if the request took 100 ms or longer and each of its writes was applied,
until another request puts one of the documents, and as long as there is room: an eighth of --max-open-bytes, and 1024 answers, in
one term.

The end of standard input stops it, and so does `POST /_relay/stop` to a loopback address: it takes nothing more, answers
what it has, and ends. Standard error gets `listening on ADDR, epoch N` at the start for each ADDR, and what --log says, and standard
output the counts at the end:

    applied A already B reported C

--report adds each operation that the index refused, or that was given up, to a file, as lines of a bulk request, so that it can
be submitted again as it is. What was answered with relay_timeout is not in it.

The exit status is 0 after such a stop, 1 if the command line is invalid, 2 if the file of --epoch-file holds
no epoch or that of --report something else than operations, 3 if it cannot listen, open a file or get an epoch, or a lane's
thread failed, and 4 if memory ran out.";

const LISTEN: TextOption = TextOption {
    name: "listen",
    value: "ADDR[,wait=DURATION|never]",
    help: "Where to listen, HOST:PORT: an address or a name of this machine, and a port; may be given several times. With wait, a request waits so long for room before it is refused with 429, up to 168h [default: --answer-within]",
};

const REPORT: TextOption = TextOption {
    name: "report",
    value: "FILE",
    help: "Add each operation that the index refused, or that was given up, to this file",
};

const LOG: TextOption = TextOption {
    name: "log",
    value: "WHAT",
    help: "Say on standard error what goes wrong with the index: `errors`; that and the start and the end: `events`; that and each request: `requests`; or `none`",
};

const REMEMBER: TextOption = TextOption {
    name: "remember",
    value: "DURATION",
    help: "How long to keep the answer to a request whose client left before it was sent, for the next one that is the same, 1ms to 168h; a bare number counts milliseconds. never: not at all",
};

const INDEX: TextOption = TextOption {
    name: "index",
    value: "NAME",
    help: "The index of operations that do not name one, if neither does the path [default: none]",
};

const FACE: TextOption = TextOption {
    name: "face",
    value: "FACE",
    help: "What it says that it is: `compatible`, which the clients of OpenSearch and of Elasticsearch take, or `opensearch`",
};

const COUNTER: TextOption = TextOption {
    name: "epoch-from",
    value: "INDEX/ID",
    help: "Take the epoch from the index, as `relay run` does",
};

const EPOCH_FILE: TextOption = TextOption {
    name: "epoch-file",
    value: "PATH",
    help: "Take the epoch from this file: one more than it holds",
};

const EPOCH: TextOption = TextOption {
    name: "epoch",
    value: "N",
    help: "The epoch, above those of all earlier runs, from 0 to 4194303",
};

const ATTEMPTS: TextOption = TextOption {
    name: "attempts",
    value: "N",
    help: "Give an operation up after so many requests that carried it, not counting those halved after a 413, 1 to 32, in place of --give-up-after",
};

// How long a failing operation is sent again, if nothing else is said.
const GIVE_UP: &str = "8s";

// How long an answer is kept, if nothing else is said.
const REMEMBERED: &str = "5m";

const WORKERS: NumberOption = NumberOption {
    name: "workers",
    least: 1,
    most: PRODUCER_LIMIT as u64,
    default: "64",
    help: "Number of requests that are settled at the same time, 1 to 256",
};

const LANES: NumberOption = NumberOption {
    name: "lanes",
    least: 1,
    most: LANE_LIMIT as u64,
    default: "4",
    help: "Number of lanes, 1 to 8, each with its own connection to the index",
};

const COUNT: NumberOption = NumberOption {
    name: "count",
    least: 1,
    most: COUNT_LIMIT as u64,
    default: "500",
    help: "Maximum number of operations in a request to the index, 1 to 10000",
};

const BYTES: NumberOption = NumberOption {
    name: "bytes",
    least: BYTES_LEAST,
    most: BYTES_LIMIT,
    default: "1048576",
    help: "Maximum size of the body of a request to the index in bytes, 1024 to 16777216; a single operation may have more",
};

const TURN_AFTER: NumberOption = NumberOption {
    name: "turn-after",
    least: 1,
    most: 1 << 39,
    default: "68719476736",
    help: "Begin the next term, in the next epoch, after so many operations, 1 to 549755813888",
};

const MAX_OPEN: NumberOption = NumberOption {
    name: "max-open-bytes",
    least: 1 << 20,
    most: 1 << 40,
    default: "268435456",
    help: "Maximum size of all requests that were read and not yet answered, in bytes, 1048576 to 1099511627776; one request more may be read",
};

// The numeric options, in the order of the help.
const NUMBERS: &[NumberOption] = &[WORKERS, LANES, COUNT, BYTES, TURN_AFTER, MAX_OPEN];

const TIMEOUT: DurationOption = DurationOption {
    name: "timeout",
    unit: 1_000,
    most: 604_800,
    default: "30s",
    help: "How long connecting to the index may take, and writing a request and reading its whole answer, each, before the request counts as lost and is sent again, rounded up to seconds, up to 168h; 0 means no limit",
    range: "0 to 168h, or 0 to 604800 seconds",
};

const PATIENCE: DurationOption = DurationOption {
    name: "patience",
    unit: 1_000,
    most: 604_800,
    default: "0s",
    help: "How long to go on asking for the epoch of --epoch-from, once a second, rounded up to seconds, up to 168h",
    range: "0 to 168h, or 0 to 604800 seconds",
};

const WITHIN: DurationOption = DurationOption {
    name: "answer-within",
    unit: 1,
    most: 3_600_000,
    default: "8s",
    help: "How long a request may take before what has not ended is answered with 503, up to 1h; a bare number counts milliseconds. It should be below the time limits of the clients",
    range: "0 to 1h, or 0 to 3600000 milliseconds",
};

const IDLE: DurationOption = DurationOption {
    name: "idle",
    unit: 1,
    most: 604_800_000,
    default: "75s",
    help: "How long a client's connection may be idle before it is closed, up to 168h; a bare number counts milliseconds",
    range: "0 to 168h, or 0 to 604800000 milliseconds",
};

const DURATIONS: &[DurationOption] = &[WITHIN, TIMEOUT, PATIENCE, IDLE];

// The option that gives the epoch.
fn epoch_arg<'a>(alloc: Global) -> Result<Arg<'a>, AllocError> {
    EPOCH
        .arg(alloc)
        .value_parser(ValueParser::unsigned(0, EPOCH_LIMIT as u64))
        .conflicts_with(COUNTER.name)?
        .conflicts_with(EPOCH_FILE.name)
}

// The option for the number of attempts.
fn attempts_arg<'a>(alloc: Global) -> Result<Arg<'a>, AllocError> {
    ATTEMPTS
        .arg(alloc)
        .value_parser(ValueParser::unsigned(1, ATTEMPT_LIMIT as u64))
        .conflicts_with(GIVE_UP_AFTER.name)
}

// The option for where to listen.
fn listen_arg<'a>(alloc: Global) -> Arg<'a> {
    LISTEN.arg(alloc).action(ArgAction::Append).required(true)
}

/// Its help and its options.
pub fn command<'a>(alloc: Global, name: &'static str) -> Result<Command<'a>, AllocError> {
    CommandBuilder::new(alloc, name, ABOUT, LONG_ABOUT)
        .arg(listen_arg(alloc))
        .required_text(&TO)
        .text(&INDEX)
        .arg(FACE.arg(alloc).default_value("compatible"))
        .text(&COUNTER)
        .try_arg(EPOCH_FILE.arg(alloc).conflicts_with(COUNTER.name))
        .try_arg(epoch_arg(alloc))
        .numbers(NUMBERS)
        .durations(DURATIONS)
        .arg(GIVE_UP_AFTER.arg(alloc).default_value(GIVE_UP))
        .try_arg(attempts_arg(alloc))
        .arg(REMEMBER.arg(alloc).default_value(REMEMBERED))
        .text(&REPORT)
        .arg(LOG.arg(alloc).default_value("errors"))
        .build()
}

// The options that are lengths of time, each in its units.
#[derive(Clone, Copy)]
struct Durations {
    timeout: u32,
    patience: u32,
    within: u32,
    idle: u32,
}

fn durations_of<R: Eprint>(rt: &R, matches: &ArgMatches<'_>) -> Result<Durations, Exit> {
    Ok(Durations {
        timeout: TIMEOUT.get(rt, matches)?,
        patience: PATIENCE.get(rt, matches)?,
        within: WITHIN.get(rt, matches)?,
        idle: IDLE.get(rt, matches)?,
    })
}

const NO_EPOCH: &str =
    "error: one of --epoch-from INDEX/ID, --epoch-file PATH and --epoch N is needed";

const NO_WAIT: &str =
    "error: --listen ADDR may end in `,wait=DURATION`, 0s to 168h, or `,wait=never`, and in nothing else";

const NO_LOG: &str = "error: --log WHAT has to be `none`, `errors`, `events` or `requests`";

const NO_TIME: &str = "error: --remember DURATION has to be 1ms to 168h, or `never`";

const NO_FACE: &str = "error: --face FACE has to be `compatible` or `opensearch`";

// The epoch comes from this document.
fn epoch_from<R: Eprint + AllocGlobal>(rt: &R, name: &str) -> Result<EpochSource, Exit> {
    match read_counter(rt, name) {
        Ok(counter) => Ok(EpochSource::Counter(counter)),
        Err(exit) => Err(exit),
    }
}

// The epoch comes from this file.
fn epoch_file<R: Eprint + AllocGlobal>(rt: &R, path: &str) -> Result<EpochSource, Exit> {
    match String::from_str(rt.alloc(), path) {
        Ok(path) => Ok(EpochSource::File(path)),
        Err(_) => Err(out_of_memory(rt)),
    }
}

// Where the epoch comes from.
fn epoch_of<R: Eprint + AllocGlobal>(
    rt: &R,
    matches: &ArgMatches<'_>,
) -> Result<EpochSource, Exit> {
    if let Some(name) = COUNTER.get(matches) {
        return epoch_from(rt, name);
    }
    if let Some(path) = EPOCH_FILE.get(matches) {
        return epoch_file(rt, path);
    }
    match matches.get_one::<u32>(EPOCH.name) {
        Some(epoch) => Ok(EpochSource::Given(epoch)),
        None => Err(usage(rt, NO_EPOCH)),
    }
}

// How often, and how long, an operation that fails is sent again.
fn retries_of<R: Eprint>(rt: &R, matches: &ArgMatches<'_>) -> Result<Retries, Exit> {
    match matches.get_one::<u32>(ATTEMPTS.name) {
        Some(attempts) => Ok(Retries {
            attempts,
            give_up_after: None,
        }),
        None => read_retries(rt, GIVE_UP_AFTER.get(matches).unwrap_or(GIVE_UP)),
    }
}

fn config_of(matches: &ArgMatches<'_>, retries: Retries) -> RelayConfig {
    RelayConfig {
        lanes: LANES.get_u32(matches),
        producers: WORKERS.get_u32(matches),
        capacity: 1,
        max_held: 1,
        limits: Limits {
            count: COUNT.get_u32(matches),
            bytes: BYTES.get(matches),
            linger: 0,
        },
        attempts: retries.attempts,
        give_up_after: retries.give_up_after,
        in_flight: 1,
        epoch: 0,
        deal: DEAL_LIMIT,
    }
}

// What is given by numbers, durations, words and the address.
#[derive(Clone, Copy)]
struct Given<'a> {
    to: &'a str,
    durations: Durations,
    face: Face,
    log: ServeLog,
    retries: Retries,
    remember: Option<u64>,
}

// Reads these. If something is wrong with them, prints so, and returns the exit status.
fn given_by<'a, R: Eprint>(rt: &R, matches: &'a ArgMatches<'_>) -> Result<Given<'a>, Exit> {
    let durations = durations_of(rt, matches)?;
    let to = match read_address(TO.get(matches).unwrap_or("")) {
        Ok(address) => address,
        Err(fault) => return Err(usage(rt, address_fault(fault))),
    };
    let Some(face) = Face::named(FACE.get(matches).unwrap_or("")) else {
        return Err(usage(rt, NO_FACE));
    };
    let Some(log) = ServeLog::named(LOG.get(matches).unwrap_or("")) else {
        return Err(usage(rt, NO_LOG));
    };
    let Some(remember) = span_of(REMEMBER.get(matches).unwrap_or(REMEMBERED)) else {
        return Err(usage(rt, NO_TIME));
    };
    Ok(Given {
        to,
        durations,
        face,
        log,
        retries: retries_of(rt, matches)?,
        remember,
    })
}

// Sets the options that are texts.
fn set_texts(
    alloc: Global,
    matches: &ArgMatches<'_>,
    to: &str,
    options: &mut ServeOptions,
) -> Result<(), AllocError> {
    options.to = String::from_str(alloc, to)?;
    options.index = INDEX.own(alloc, matches)?;
    options.report = REPORT.own(alloc, matches)?;
    Ok(())
}

// The longest time that a request may wait for room, or an answer is kept, in milliseconds.
const WAIT_LIMIT: u64 = 604_800_000;

// For how many milliseconds a request waits, as the word behind an address says. `None`: the word says
// nothing of the kind.
fn wait_of(word: &str) -> Option<Option<u64>> {
    let time = word.strip_prefix("wait=")?;
    if time == "never" {
        return Some(None);
    }
    match duration_of(time, 1) {
        Some(wait) if wait <= WAIT_LIMIT => Some(Some(wait)),
        _ => None,
    }
}

// For how many milliseconds an answer is kept, if it is, as this says. `None`: it says nothing of the
// kind.
fn span_of(time: &str) -> Option<Option<u64>> {
    if time == "never" {
        return Some(None);
    }
    match duration_of(time, 1) {
        Some(span) if span > 0 && span <= WAIT_LIMIT => Some(Some(span)),
        _ => None,
    }
}

// Where to listen, as a value of the option says.
fn listening_of<R: Eprint + AllocGlobal>(
    rt: &R,
    value: &str,
    within: u64,
) -> Result<Listening, Exit> {
    let (address, wait) = match value.split_once(',') {
        Some((address, word)) => (address, wait_of(word)),
        None => (value, Some(Some(within))),
    };
    let Some(wait) = wait else {
        return Err(usage(rt, NO_WAIT));
    };
    match String::from_str(rt.alloc(), address) {
        Ok(address) => Ok(Listening { address, wait }),
        Err(_) => Err(out_of_memory(rt)),
    }
}

// Where to listen. Without a word of its own, a request waits for as long as one may take.
fn listen_at<R: Eprint + AllocGlobal>(
    rt: &R,
    matches: &ArgMatches<'_>,
    within: u64,
) -> Result<Vec<Listening>, Exit> {
    let mut listen = Vec::new(rt.alloc());
    let Some(values) = matches.get_strs(LISTEN.name) else {
        return Ok(listen);
    };
    for value in values {
        let listening = listening_of(rt, value, within)?;
        if listen.push(listening).is_err() {
            return Err(out_of_memory(rt));
        }
    }
    Ok(listen)
}

// The options as they were given, without those that are texts.
fn options_of(
    alloc: Global,
    matches: &ArgMatches<'_>,
    given: Given<'_>,
    epoch: EpochSource,
) -> ServeOptions {
    ServeOptions {
        listen: Vec::new(alloc),
        to: String::new(alloc),
        index: None,
        face: given.face,
        config: config_of(matches, given.retries),
        epoch,
        timeout: given.durations.timeout,
        patience: given.durations.patience,
        within: u64::from(given.durations.within),
        idle: u64::from(given.durations.idle),
        longest: TURN_AFTER.get(matches),
        room: MAX_OPEN.get(matches),
        remember: given.remember,
        report: None,
        log: given.log,
    }
}

/// Runs it over sockets, standard input, standard output and standard error.
pub fn execute<R>(rt: &R, host: HostRuntime, matches: &ArgMatches<'_>) -> Exit
where
    R: Print + Eprint + AllocGlobal + Threads + Wait + Clock + Copy + Send + 'static,
{
    match given_by(rt, matches) {
        Ok(given) => serve_given(rt, host, matches, given),
        Err(exit) => exit,
    }
}

fn serve_given<R>(rt: &R, host: HostRuntime, matches: &ArgMatches<'_>, given: Given<'_>) -> Exit
where
    R: Print + Eprint + AllocGlobal + Threads + Wait + Clock + Copy + Send + 'static,
{
    match epoch_of(rt, matches) {
        Ok(epoch) => serve_in(rt, host, matches, given, epoch),
        Err(exit) => exit,
    }
}

fn serve_in<R>(
    rt: &R,
    host: HostRuntime,
    matches: &ArgMatches<'_>,
    given: Given<'_>,
    epoch: EpochSource,
) -> Exit
where
    R: Print + Eprint + AllocGlobal + Threads + Wait + Clock + Copy + Send + 'static,
{
    let mut options = options_of(rt.alloc(), matches, given, epoch);
    match listen_at(rt, matches, options.within) {
        Ok(listen) => options.listen = listen,
        Err(exit) => return exit,
    }
    match set_texts(rt.alloc(), matches, given.to, &mut options) {
        Ok(()) => serve_by(rt, host, &options),
        Err(_) => out_of_memory(rt),
    }
}

fn serve_by<R>(rt: &R, host: HostRuntime, options: &ServeOptions) -> Exit
where
    R: Print + Eprint + AllocGlobal + Threads + Wait + Clock + Copy + Send + 'static,
{
    if !options.is_valid() {
        return usage(rt, NO_HOST);
    }
    let mut out = StdStream::new(io::writer(rt));
    let mut err = StdStream::new(host.stderr());
    serve(*rt, host, options, &mut out, &mut err)
}
