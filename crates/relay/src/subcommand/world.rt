//! `relay world`.
use crate::builder::CommandBuilder;
use crate::stand_in::{REASONS, WRITES, served_index};
use clap::{ArgMatches, Command};
use relay_action::StdStream;
use relay_index::Index;
use relay_scenario::exit::exit_of_script;
use relay_scenario::script::{ScriptFault, world_script};
use relay_words::Exit;
use std::alloc::{AllocError, Global};
use std::io;

const ABOUT: &str = "Plays a script of events on lanes, queues and an index";

const LONG_ABOUT: &str = "Plays a script of events on lanes, queues and an index.

Whatever happens, in whatever order, the index should apply each operation once and in its producer's
order, and what was not applied should be reported with its true cause. A script says what happens: its
lines are read from standard input and played one after another on a world without clocks, threads or
sockets, and each is answered by a line on standard output. The lines at the end show the resulting world.

The first line is the configuration, in eleven numbers:

    world LANES PRODUCERS CAPACITY HELD COUNT BYTES LINGER ATTEMPTS FLYING EPOCH DEAL

with 1 to 8 lanes, 1 to 256 producers, 1 to 65536 messages in a lane's queue and as many operations held by
a lane, batches of 1 to 10000 operations and 1024 to 16777216 bytes that wait at most 65535 ticks to be
filled, 1 to 32 attempts, 1 to 8 requests of a lane in flight, an epoch from 0 to 4194303, and 1 to
1099511627775 versions that a lane assigns in it. Each further line is an event:

    put P INDEX ID index SOURCE  producer P puts a document; SOURCE is the rest of the line
    put P INDEX ID delete        or a deletion; each document belongs to one lane
    close P L                    sender P closes at lane L; the first close of a producer ends its puts
    tick L, flush L              the control puts a tick, or a flush, into the queue of lane L
    take L                       lane L takes the front of its queue
    send L                       lane L forms its next request, and it is sent
    run R I                      the index runs item I of request R; any number of times
    run R I STATUS               or refuses it, with 400 to 599 except 404 and 409
    reply R                      request R is answered with the result of the last run of each item
    reply R N ..                 or of its N-th run, with one number for each item
    whole R STATUS               or as a whole, with a status from 201 to 599
    lost R                       or its reply is lost
    restart EPOCH                everything but the requests and the index starts afresh in a higher epoch

Producers and lanes are counted from 0; the control, which closes too, is the sender after the last
producer. Requests are counted from 1 over all lanes, items and runs from 1. Words are separated by one
space, so INDEX and ID contain none; numbers are decimal digits. The last line may lack its end.

Answers are `ok P:N` for a put, with the name of the operation (`ok E.P:N` in an epoch E above 0),
`ok R INDEX/ID@VERSION ..` for a request that was sent, `ok STATUS` for a run, `ok APPLIED ALREADY
REPORTED RETRIED` for a request that was answered, and otherwise `ok`. An event that is not possible is
answered with `no NAME` and changes nothing; the first of these that applies:

    put           NoSuch (producer), Closed, NumbersSpent (2^40 puts), QueueFull
    close         NoSuch (lane, sender), Closed (at this lane), QueueFull
    tick, flush   NoSuch (lane), Closed (the control), QueueFull
    take          NoSuch (lane), NothingQueued, HeldFull (if a put is at the front)
    send          NoSuch (lane), NoRequest
    run           NotSent, BadStatus
    reply         NotSent, NotFlying, NotRun
    whole         NotSent, NotFlying, BadStatus
    lost          NotSent, NotFlying
    restart       NotAbove

The lines at the end are `accepted P COUNT` for each producer, `applied INDEX/ID VERSION P:N` for each write
that the index applied, by document, `report LANE P:N INDEX/ID CAUSE` for each operation that is reported,
with Refused STATUS TYPE, Request STATUS, Conflict, GaveUp SENDS or Spent, and `finished yes` if all senders
have closed at all lanes and nothing is queued or held, otherwise `finished no`. An example:

    printf '%s\\n' 'world 1 1 10 10 10 4096 0 3 1 0 1000' 'put 0 b 1 index {\"a\":1}' \\
        'take 0' 'send 0' 'run 1 1' 'lost 1' 'tick 0' 'take 0' 'send 0' 'run 2 1' 'reply 2' | relay world

The index may have versions from before, from the request of --writes. Then an operation is lost without a
report if it is taken for applied though only a version from before is in its way: that cannot happen if
these are below the first version of the epoch, or with --reasons, if none is one that a lane assigns.

A script has at most 1000000 lines. Any other line ends it with `line N: BadLine` on standard error and
status 2; the answers before it have been written. The exit status is 3 if a read or write fails, and 4 if
memory runs out.";

/// Its help and its options.
pub fn command<'a>(alloc: Global, name: &'static str) -> Result<Command<'a>, AllocError> {
    CommandBuilder::new(alloc, name, ABOUT, LONG_ABOUT)
        .flag(&REASONS)
        .text(&WRITES)
        .build()
}

/// Runs it over standard input and output.
pub fn execute<R: Input + Print + Eprint + AllocGlobal>(
    rt: &R,
    host: HostRuntime,
    matches: &ArgMatches<'_>,
) -> Exit {
    match served_index(rt, host, matches) {
        Ok(index) => play(rt, index),
        Err(exit) => exit,
    }
}

// Plays the script on a world over this index.
fn play<R: Input + Print + Eprint + AllocGlobal>(rt: &R, index: Index) -> Exit {
    let mut reader = StdStream::new(rt.reader());
    let mut writer = StdStream::new(io::writer(rt));
    let played = world_script(rt.alloc(), &mut reader, &mut writer, index);
    exit_after(rt, played)
}

// Prints the fault, if there is one. If that fails, the exit status is the same.
fn exit_after<R: Eprint>(rt: &R, played: Result<(), ScriptFault>) -> Exit {
    match played {
        Ok(()) => Exit::Done,
        Err(fault) => {
            let _ = rt.eprintln(fault);
            exit_of_script(fault)
        }
    }
}
