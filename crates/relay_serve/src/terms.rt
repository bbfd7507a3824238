//! The terms of a server, one after another: each has lanes and workers of its own, and works in an
//! epoch above that of the term before.
ghost use Rattle.std.specs.Prelude.{◌≡◌, ◌+◌, ◌≤◌, IfOk, IsTrue, string_bytes, vec_len};
ghost use Rattle.relay_http.specs.WrittenRequest.{is_host};
ghost use Rattle.relay_wires.specs.Numbers.{numbers};
ghost use Rattle.relay_serve.specs.Answering.{index_in};
ghost use Rattle.relay_serve.specs.Configs.{config_in};
ghost use Rattle.relay_serve.specs.Delivered.{IsDelivered};
ghost use Rattle.relay_serve.specs.Terms.{HaveDelivered, floor_after, rows_of, total_of};

use crate::board::Shared;
use crate::epoch::EpochSource;
use crate::epochs::Epochs;
use crate::options::ServeOptions;
use crate::saying::say;
use crate::started::serve_epoch;
use crate::stopped::Stopped;
use crate::totals::{Totals, count_all};
use crate::wiring::TcpWire;
use crate::workers::Connections;
use http_server::Log;
use relay_action::ByteOut;
use relay_clients::Signals;
use relay_lane::Wire;
use relay_receipts::TakenReceipts;
use relay_telling::Ending;
use relay_threads::Summary;
use relay_words::{Exit, add_number};
use std::alloc::Global;
use std::snapshot::Snapshot;
use std::sync::Wait;
use std::thread;
use std::thread::Threads;
use std::time::{Clock, Duration};

/// What a term leaves that has ended: its epoch, what its lanes have done, and what its workers took
/// from their channels.
#[derive(Drop)]
pub(crate) struct Term {
    pub(crate) epoch: u32,
    pub(crate) summary: Summary<TcpWire>,
    pub(crate) taken: Vec<TakenReceipts<Ending>>,
}

/// What the terms of a server have done so far.
#[derive(Drop)]
pub(crate) struct Terms {
    /// How many operations of all terms ended how.
    pub(crate) totals: Totals,
    /// The terms, in order, for proofs only.
    pub(crate) log: Log<Term, ()>,
    // What the server goes by, for proofs only.
    options: Snapshot<ServeOptions>,
    // The first epoch, and the lowest that may follow.
    first: u32,
    floor: u64,
    ghost delivered: { ∥ HaveDelivered ⟦<TcpWire as Wire>⟧.describes ⟦<TcpWire as Wire>⟧.fits
        ⟦<TcpWire as Wire>⟧.carries (λ w. numbers w.out) options.value.face
        (index_in options.value.index) options.value.config first
        (rows_of log.items) ∥₁ },
    ghost above: { floor_after first (rows_of log.items) ≤ floor },
    ghost applied: { totals.applied ≡ total_of (λ s. s.applied) 0 (rows_of log.items) },
    ghost already: { totals.already ≡ total_of (λ s. s.already) 0 (rows_of log.items) },
    ghost reported: { totals.reported ≡ total_of (λ s. vec_len s.reports) 0 (rows_of log.items) },
}

impl Terms {
    // No term has ended.
    fn none(options: &ServeOptions, first: u32) -> Terms
        ensures options { result.options.value ≡ options.now }
        ensures first { (result.first ≡ first) × (result.floor ≡ first) }
    {
        Terms {
            totals: Totals::NONE,
            log: Log::new(),
            options: Snapshot::of(options),
            first,
            floor: u64::from(first),
        }
    }

    // One more term has ended.
    fn and(self, term: Term) -> Terms
        requires floor { self.floor ≤ term.epoch }
        requires delivered { IsDelivered ⟦<TcpWire as Wire>⟧.describes ⟦<TcpWire as Wire>⟧.fits
            ⟦<TcpWire as Wire>⟧.carries (λ w. numbers w.out) self.options.value.face
            (index_in self.options.value.index)
            (config_in term.epoch self.options.value.config) term.taken.items
            term.summary.lanes.items }
        ensures same { (result.options.value ≡ self.options.value) × (result.first ≡ self.first) }
        ensures floor { result.floor ≡ term.epoch + 1 }
    {
        let Terms {
            totals,
            log,
            options,
            first,
            ..
        } = self;
        let log = log.and(&term, &());
        let Term { epoch, summary, .. } = term;
        Terms {
            totals: count_all(totals, summary),
            log,
            options,
            first,
            floor: u64::from(epoch) + 1,
        }
    }
}

/// Why a server has stopped before it was asked to.
#[derive(Clone, Copy, Debug)]
pub(crate) enum Broken {
    /// A term has not served to its end.
    Term(Stopped),
    /// There is no epoch for the next one. It was said why, and the exit status is this.
    Epoch(Exit),
}

// For how long to wait before asking again for an epoch, in milliseconds.
const AGAIN: u64 = 1_000;

// The epoch of the next term. Where the index keeps the epochs, it asks again until the server ends.
fn next_epoch<R, E>(
    rt: &R,
    host: &HostRuntime,
    alloc: Global,
    options: &ServeOptions,
    epochs: &mut Epochs,
    shared: &Shared,
    err: &mut E,
) -> Result<u32, Exit>
where
    R: Wait + Clock,
    E: ByteOut,
    ensures above { IfOk result (λ epoch. epochs.old.floor ≤ epoch) }
    ensures floor { IfOk result (λ epoch. epochs.new.floor ≡ epoch + 1) }
{
    'tries: for _ in rt.forever() {
        match epochs.next(host, alloc, options, err) {
            Ok(epoch) => return Ok(epoch),
            Err(exit) => {
                if shared.is_ending() || !matches!(options.epoch, EpochSource::Counter(_)) {
                    return Err(exit);
                }
            }
        }
        thread::sleep(rt, Duration::from_millis(AGAIN));
    }
    unreachable!()
}

/// Serves one term after another, the first in this epoch, until the server ends. Returns what the
/// terms have done, and why it stopped, unless it was asked to.
///
/// Each term worked in an epoch above that of the term before, and everything that `serve_epoch` says
/// holds of each: what its workers put was delivered, and what they answered is true. A term that was
/// not served to its end is not among them.
pub(crate) fn serve_terms<R, E>(
    rt: R,
    host: &HostRuntime,
    alloc: Global,
    options: &ServeOptions,
    first: u32,
    epochs: &mut Epochs,
    shared: &Shared,
    connections: &Connections,
    err: &mut E,
) -> (Terms, Option<Broken>)
where
    R: Threads + Wait + Clock + Copy + Send + 'static,
    E: ByteOut,
    requires host { IsTrue (is_host (string_bytes options.now.to)) }
    requires lanes { options.now.config.lanes ≤ 8 }
    requires floor { epochs.old.floor ≡ first + 1 }
    ensures delivered { ∥ HaveDelivered ⟦<TcpWire as Wire>⟧.describes ⟦<TcpWire as Wire>⟧.fits
        ⟦<TcpWire as Wire>⟧.carries (λ w. numbers w.out) options.now.face
        (index_in options.now.index) options.now.config first
        (rows_of result.0.log.items) ∥₁ }
    ensures applied { result.0.totals.applied ≡ total_of (λ s. s.applied) 0
        (rows_of result.0.log.items) }
    ensures already { result.0.totals.already ≡ total_of (λ s. s.already) 0
        (rows_of result.0.log.items) }
    ensures reported { result.0.totals.reported ≡ total_of (λ s. vec_len s.reports) 0
        (rows_of result.0.log.items) }
{
    let mut terms = Terms::none(options, first);
    let mut epoch = first;
    'terms: for _ in rt.forever() {
        shared.begin(epoch);
        shared.memory.clear(&rt);
        let (summary, taken) = match serve_epoch(
            rt,
            host,
            alloc,
            options,
            epoch,
            shared,
            connections,
        ) {
            Ok(served) => served,
            Err(stopped) => return (terms, Some(Broken::Term(stopped))),
        };
        terms = terms.and(Term {
            epoch,
            summary,
            taken,
        });
        if shared.has_ended() {
            return (terms, None);
        }
        epoch = match next_epoch(&rt, host, alloc, options, epochs, shared, err) {
            Ok(epoch) => epoch,
            Err(exit) => return (terms, Some(Broken::Epoch(exit))),
        };
        say_epoch(alloc, epoch, err);
    }
    unreachable!()
}

// Says in which epoch the next term works.
fn say_epoch<E: ByteOut>(alloc: Global, epoch: u32, err: &mut E) {
    let mut text = Vec::new(alloc);
    let number = add_number(&mut text, u64::from(epoch));
    if number.is_ok() {
        say(err, b"epoch ");
        say(err, text.as_slice());
        say(err, b"\n");
    }
}
