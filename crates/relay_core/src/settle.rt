//! Settling the operations of a request by its answer.
ghost use Rattle.std.specs.Prelude.{◌≡◌, Some, true, false, ◌-◌, ◌^◌, min, ◌+◌, ◌≤◌, ◌<◌, ◌++◌};
ghost use Rattle.std.specs.Prelude.{◌∷◌, [], map, length, drop, slice_get, vec_len, vec_capacity};
ghost use Rattle.std.specs.Prelude.{None};
ghost use Rattle.relay_delivery.specs.Lane.{has_age};
ghost use Rattle.std.specs.Vec.Iter.{into_iter_items};
ghost use Rattle.relay_delivery.specs.Machine.{is_applied_fate, is_already_fate};
ghost use Rattle.relay_results.specs.Documents.{document_of};
ghost use Rattle.relay_held.specs.declared.kept.Kept.{Kept};
ghost use Rattle.relay_core.specs.Walk.{waits_here, with_first, without_first, first_of, back};
ghost use Rattle.relay_core.specs.Walk.{after_one, fate_one, reports_one, said, report_of, tally};
ghost use Rattle.relay_core.specs.Walk.{tries_since, allowed_at};
ghost use Rattle.relay_core.specs.Walk.{explained, kept_walk, reports_walk, tally_walk};
ghost use Rattle.relay_core.specs.Walk.{status_in, success_one, successes_walk};
ghost use Rattle.relay_core.specs.Memory.{Carries};
ghost use Rattle.relay_core.specs.State.{config_of, is_reported_fate, is_retried_fate};

use crate::config::RelayConfig;
use crate::fates::{Fate, Way, fate_in};
use crate::report::Report;
use crate::settled::Settled;
use crate::success::Success;
use relay_action::{Text, Write};
use relay_held::Held;
use relay_results::{Cause, Outcome};
use std::vec::IntoIter;

// The pause after this many attempts, in ticks.
fn pause(attempts: u32) -> u64
    ensures { result ≡ min (2 ^ (attempts - 1)) 64 }
{
    match attempts {
        0 | 1 => 1,
        2 => 2,
        3 => 4,
        4 => 8,
        5 => 16,
        6 => 32,
        _ => 64,
    }
}

// The next element of a list that is used up.
fn next_of<T: Drop>(items: &mut IntoIter<T>) -> Option<T>
    ensures value { result ≡ slice_get (into_iter_items items.old) 0 }
    ensures rest { into_iter_items items.new ≡ drop 1 (into_iter_items items.old) }
{
    items.next()
}

// Ends the first operation of a document with a report.
fn report(held: &mut Held, write: Write, cause: Cause, reports: &mut Vec<Report>)
    requires room { vec_len reports.old < vec_capacity reports.old }
    requires flies { (h : Kept) → first_of write.key held.old.list ≡ Some h
        → waits_here h.flies ≡ false }
    ensures held { held.new.list ≡ without_first write.key held.old.list }
    ensures clock { held.new.clock ≡ held.old.clock }
    ensures looks { held.new.looks ≡ held.old.looks }
    ensures reports { (h : Kept) → first_of write.key held.old.list ≡ Some h
        → map report_of reports.new.items ≡ map report_of reports.old.items ++ record {
          name =
              h.name;
          document = document_of write.key;
          cause = cause;
        } ∷ [] }
    ensures len { (h : Kept) → first_of write.key held.old.list ≡ Some h
        → vec_len reports.new ≡ vec_len reports.old + 1 }
    ensures capacity { vec_capacity reports.new ≡ vec_capacity reports.old }
{
    if let Some(name) = held.take(&write.key) {
        reports.push_reserved(Report {
            name,
            key: write.key,
            cause,
        });
    }
}

// Ends the first operation of a document as applied.
fn succeed(held: &mut Held, write: Write, status: Option<u16>, successes: &mut Vec<Success>)
    requires room { vec_len successes.old < vec_capacity successes.old }
    requires flies { (h : Kept) → first_of write.key held.old.list ≡ Some h
        → waits_here h.flies ≡ false }
    ensures held { held.new.list ≡ without_first write.key held.old.list }
    ensures clock { held.new.clock ≡ held.old.clock }
    ensures looks { held.new.looks ≡ held.old.looks }
    ensures successes { (h : Kept) → first_of write.key held.old.list ≡ Some h
        → successes.new.items ≡ successes.old.items ++ record {
          name =
              h.name;
          version = write.version;
          status = status;
        } ∷ [] }
    ensures len { (h : Kept) → first_of write.key held.old.list ≡ Some h
        → vec_len successes.new ≡ vec_len successes.old + 1 }
    ensures capacity { vec_capacity successes.new ≡ vec_capacity successes.old }
{
    if let Some(name) = held.take(&write.key) {
        successes.push_reserved(Success {
            name,
            version: write.version,
            status,
        });
    }
}

// Lets the first operation of a document wait again.
fn land(held: &mut Held, write: Write, clock: u64, attempts: u32)
    requires flies { (h : Kept) → first_of write.key held.old.list ≡ Some h
        → waits_here h.flies ≡ false }
    ensures held { (h : Kept) → h.attempts ≡ attempts → first_of write.key held.old.list ≡ Some h
        → held.new.list ≡ with_first write.key (back clock write) held.old.list }
    ensures clock { held.new.clock ≡ held.old.clock }
    ensures looks { held.new.looks ≡ held.old.looks }
{
    held.land(clock.saturating_add(pause(attempts)), write);
}

// Settles the first operation of a document by its fate.
fn meet(
    held: &mut Held,
    fate: Fate,
    write: Write,
    clock: u64,
    attempts: u32,
    status: Option<u16>,
    reports: &mut Vec<Report>,
    successes: &mut Vec<Success>,
    counts: &mut Settled,
)
    requires room { vec_len reports.old < vec_capacity reports.old }
    requires place { vec_len successes.old < vec_capacity successes.old }
    requires few { counts.old.applied + counts.old.already + counts.old.reported
        + counts.old.retried < 4294967295 }
    requires flies { (h : Kept) → first_of write.key held.old.list ≡ Some h
        → waits_here h.flies ≡ false }
    ensures held { (h : Kept) → h.attempts ≡ attempts → first_of write.key held.old.list ≡ Some h
        → held.new.list ≡ after_one clock write held.old.list (said fate) }
    ensures clock { held.new.clock ≡ held.old.clock }
    ensures looks { held.new.looks ≡ held.old.looks }
    ensures reports { (h : Kept) → first_of write.key held.old.list ≡ Some h
        → map report_of reports.new.items
        ≡ map report_of reports.old.items ++ reports_one (said fate) h write }
    ensures capacity { vec_capacity reports.new ≡ vec_capacity reports.old }
    ensures len { (h : Kept) → first_of write.key held.old.list ≡ Some h
        → vec_len reports.new ≡ vec_len reports.old + tally (is_reported_fate (said fate)) }
    ensures successes { (h : Kept) → first_of write.key held.old.list ≡ Some h
        → successes.new.items ≡ successes.old.items ++ success_one (said fate) status h write }
    ensures places { vec_capacity successes.new ≡ vec_capacity successes.old }
    ensures more { (h : Kept) → first_of write.key held.old.list ≡ Some h
        → vec_len successes.new
        ≡ vec_len successes.old + tally (is_applied_fate (said fate))
        + tally (is_already_fate (said fate)) }
    ensures applied { counts.new.applied
        ≡ counts.old.applied + tally (is_applied_fate (said fate)) }
    ensures already { counts.new.already
        ≡ counts.old.already + tally (is_already_fate (said fate)) }
    ensures reported { counts.new.reported
        ≡ counts.old.reported + tally (is_reported_fate (said fate)) }
    ensures retried { counts.new.retried
        ≡ counts.old.retried + tally (is_retried_fate (said fate)) }
    ensures matched { counts.new.matched ≡ counts.old.matched }
{
    match fate {
        Fate::Applied => {
            succeed(held, write, status, successes);
            counts.applied += 1;
        }
        Fate::Already => {
            succeed(held, write, None, successes);
            counts.already += 1;
        }
        Fate::Retried => {
            land(held, write, clock, attempts);
            counts.retried += 1;
        }
        Fate::Halved(cap) => {
            held.halve(clock, cap, write);
            counts.retried += 1;
        }
        Fate::Reported(cause) => {
            report(held, write, cause, reports);
            counts.reported += 1;
        }
    }
}

// The status of an entry, if there is one.
fn status_in(entry: &Option<Outcome>) -> Option<u16>
    ensures { result ≡ status_in entry.now }
{
    match entry {
        Some(outcome) => Some(outcome.status),
        None => None,
    }
}

// Whether an operation that was first sent at `since` has an age.
fn has_age(age: u32, clock: u64, since: u64) -> bool
    ensures { result ≡ has_age (Some age) clock since }
{
    match since.checked_add(u64::from(age)) {
        Some(end) => end <= clock,
        None => false,
    }
}

// The tries that an operation has that was first sent at `since`.
fn tries_since(config: &RelayConfig, clock: u64, since: u64) -> u32
    ensures { result ≡ tries_since (config_of config.now) clock since }
{
    match config.give_up_after {
        Some(age) if has_age(age, clock, since) => config.attempts.min(1),
        _ => config.attempts,
    }
}

// Settles the operation of a write by its entry.
fn settle_one(
    held: &mut Held,
    config: &RelayConfig,
    clock: u64,
    write: Write,
    whole: Way,
    entry: Option<Outcome>,
    reports: &mut Vec<Report>,
    successes: &mut Vec<Success>,
    counts: &mut Settled,
)
    requires room { vec_len reports.old < vec_capacity reports.old }
    requires place { vec_len successes.old < vec_capacity successes.old }
    requires few { counts.old.applied + counts.old.already + counts.old.reported
        + counts.old.retried < 4294967295 }
    requires flies { (h : Kept) → first_of write.key held.old.list ≡ Some h
        → waits_here h.flies ≡ false }
    ensures held { (h : Kept) → first_of write.key held.old.list ≡ Some h
        → held.new.list ≡ after_one clock write held.old.list
        (fate_one (allowed_at (config_of config.now) clock) whole h entry) }
    ensures clock { held.new.clock ≡ held.old.clock }
    ensures looks { held.new.looks ≡ held.old.looks }
    ensures reports { (h : Kept) → first_of write.key held.old.list ≡ Some h
        → map report_of reports.new.items
        ≡ map report_of reports.old.items
        ++ reports_one (fate_one (allowed_at (config_of config.now) clock) whole h entry) h write }
    ensures capacity { vec_capacity reports.new ≡ vec_capacity reports.old }
    ensures len { (h : Kept) → first_of write.key held.old.list ≡ Some h
        → vec_len reports.new
        ≡ vec_len reports.old
        + tally (is_reported_fate (fate_one (allowed_at (config_of config.now) clock) whole h entry)) }
    ensures successes { (h : Kept) → first_of write.key held.old.list ≡ Some h
        → successes.new.items
        ≡ successes.old.items
        ++ success_one (fate_one (allowed_at (config_of config.now) clock) whole h entry)
        (status_in entry) h write }
    ensures places { vec_capacity successes.new ≡ vec_capacity successes.old }
    ensures more { (h : Kept) → first_of write.key held.old.list ≡ Some h
        → vec_len successes.new
        ≡ vec_len successes.old
        + tally (is_applied_fate (fate_one (allowed_at (config_of config.now) clock) whole h entry))
        + tally (is_already_fate (fate_one (allowed_at (config_of config.now) clock) whole h entry)) }
    ensures applied { (h : Kept) → first_of write.key held.old.list ≡ Some h
        → counts.new.applied
        ≡ counts.old.applied
        + tally (is_applied_fate (fate_one (allowed_at (config_of config.now) clock) whole h entry)) }
    ensures already { (h : Kept) → first_of write.key held.old.list ≡ Some h
        → counts.new.already
        ≡ counts.old.already
        + tally (is_already_fate (fate_one (allowed_at (config_of config.now) clock) whole h entry)) }
    ensures reported { (h : Kept) → first_of write.key held.old.list ≡ Some h
        → counts.new.reported
        ≡ counts.old.reported
        + tally (is_reported_fate (fate_one (allowed_at (config_of config.now) clock) whole h entry)) }
    ensures retried { (h : Kept) → first_of write.key held.old.list ≡ Some h
        → counts.new.retried
        ≡ counts.old.retried
        + tally (is_retried_fate (fate_one (allowed_at (config_of config.now) clock) whole h entry)) }
    ensures matched { counts.new.matched ≡ counts.old.matched }
{
    if let Some(one) = held.first(&write.key) {
        let attempts = one.attempts;
        let status = status_in(&entry);
        let max = tries_since(config, clock, one.since);
        let fate = fate_in(one, whole, entry, max);
        meet(
            held, fate, write, clock, attempts, status, reports, successes, counts,
        );
    }
}

/// Gives the report at this place its reason, if it is on the status of a whole request.
pub(crate) fn explain(reports: &mut Vec<Report>, place: usize, given: Option<Text>)
    ensures reports { map report_of reports.new.items
        ≡ explained place given (map report_of reports.old.items) }
    ensures len { vec_len reports.new ≡ vec_len reports.old }
    ensures capacity { vec_capacity reports.new ≡ vec_capacity reports.old }
{
    if place >= reports.len() {
        return;
    }
    if let Cause::Request { status, .. } = &reports[place].cause {
        let status = *status;
        reports[place].cause = Cause::Request {
            status,
            reason: given,
        };
    }
}

/// Settles the operations of a request by its answer, write by write. There is room for the reports
/// and the successes.
pub(crate) fn settle_walk(
    held: &mut Held,
    reports: &mut Vec<Report>,
    successes: &mut Vec<Success>,
    config: &RelayConfig,
    clock: u64,
    number: u64,
    writes: Vec<Write>,
    whole: Way,
    outcomes: Vec<Outcome>,
) -> Settled
    requires room { vec_len reports.old + length held.old.list ≤ vec_capacity reports.old }
    requires places { vec_len successes.old + length held.old.list ≤ vec_capacity successes.old }
    requires few { length held.old.list ≤ 65536 }
    requires carries { Carries number 0 held.old.list writes.items }
    ensures held { held.new.list
        ≡ kept_walk held.old.list
        (allowed_at (config_of config.now) clock) clock number whole writes.items outcomes.items }
    ensures clock { held.new.clock ≡ held.old.clock }
    ensures looks { held.new.looks ≡ held.old.looks }
    ensures reports { map report_of reports.new.items
        ≡ map report_of reports.old.items
        ++ reports_walk held.old.list
        (allowed_at (config_of config.now) clock) number whole writes.items outcomes.items }
    ensures successes { successes.new.items
        ≡ successes.old.items
        ++ successes_walk held.old.list
        (allowed_at (config_of config.now) clock) number whole writes.items outcomes.items }
    ensures applied { result.applied
        ≡ tally_walk is_applied_fate held.old.list
        (allowed_at (config_of config.now) clock) number whole writes.items outcomes.items }
    ensures already { result.already
        ≡ tally_walk is_already_fate held.old.list
        (allowed_at (config_of config.now) clock) number whole writes.items outcomes.items }
    ensures reported { result.reported
        ≡ tally_walk is_reported_fate held.old.list
        (allowed_at (config_of config.now) clock) number whole writes.items outcomes.items }
    ensures retried { result.retried
        ≡ tally_walk is_retried_fate held.old.list
        (allowed_at (config_of config.now) clock) number whole writes.items outcomes.items }
    ensures room { vec_len reports.new + length held.new.list ≤ vec_capacity reports.new }
    ensures places { vec_len successes.new + length held.new.list ≤ vec_capacity successes.new }
    ensures fewer { length held.new.list ≤ length held.old.list }
    ensures done { result.applied + result.already + length held.new.list ≤ length held.old.list }
    ensures more { vec_len reports.old ≤ vec_len reports.new }
    ensures matched { result.matched ≡ true }
{
    let mut ahead = writes.into_iter();
    let mut left = outcomes.into_iter();
    let mut counts = Settled {
        applied: 0,
        already: 0,
        reported: 0,
        retried: 0,
        matched: true,
    };
    'writes: while let Some(write) = next_of(&mut ahead) {
        let _ = held.len();
        let entry = next_of(&mut left);
        settle_one(
            held,
            config,
            clock,
            write,
            whole,
            entry,
            reports,
            successes,
            &mut counts,
        );
    }
    counts
}
