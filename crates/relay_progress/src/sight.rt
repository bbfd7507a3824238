//! When a line about what goes wrong is written, and which: a function of what was seen and of what
//! was said.
ghost use Rattle.std.specs.Prelude.{◌≡◌, option_map};
ghost use Rattle.relay_progress.specs.Saying.{after, fails, may_say, next_event, noticed, outage_at};
ghost use Rattle.relay_progress.specs.Saying.{outage_begun, outage_event, outage_kept, rest_event};
ghost use Rattle.relay_progress.specs.Saying.{said_of};

use crate::event::Event;
use relay_lane::Loss;

/// The least time between two lines of a kind, in milliseconds.
pub const APART: u64 = 10_000;

/// What is to be seen of a run at a moment.
#[derive(Clone, Copy, Debug, PartialEq, Eq)]
pub struct Sight {
    /// The moment, in milliseconds since the run began.
    pub moment: u64,
    /// Whether nothing was answered since the last failure.
    pub is_down: bool,
    /// Why the last exchange, or try to connect, that failed did.
    pub reason: Loss,
    /// How many failed.
    pub failures: u64,
    /// The number of requests that were sent.
    pub requests: u64,
    /// How many of them were answered with 413.
    pub too_large: u64,
    /// How many operations were reported as conflicts.
    pub conflicts: u64,
}

/// A time without answers.
#[derive(Clone, Copy, Debug, PartialEq, Eq)]
pub struct Outage {
    /// When it was seen first, in milliseconds since the run began.
    pub since: u64,
    /// The number of requests that had been sent by then.
    pub requests: u64,
    /// Whether a line was written about it.
    pub is_said: bool,
}

/// What was said, and when, in milliseconds since the run began.
#[derive(Clone, Copy, Debug, PartialEq, Eq)]
pub struct Said {
    /// The outage, if there is one.
    pub outage: Option<Outage>,
    /// How many failures were seen.
    pub failures: u64,
    /// When it was last said that the address is down.
    pub down: Option<u64>,
    /// When it was last said that it is up again.
    pub up: Option<u64>,
    /// Whether a request was said to be too large.
    pub too_large: bool,
    /// How many conflicts were said.
    pub conflicts: u64,
    /// When they were last said.
    pub conflict: Option<u64>,
}

/// Nothing.
pub const NOTHING: Said = Said {
    outage: None,
    failures: 0,
    down: None,
    up: None,
    too_large: false,
    conflicts: 0,
    conflict: None,
};

/// Whether a line of a kind may be written now, given when the last one was: not within 10 s.
pub fn may_say(last: Option<u64>, now: u64) -> bool
    ensures { result ≡ may_say last now }
{
    match last {
        None => true,
        Some(last) => last as u128 + APART as u128 <= now as u128,
    }
}

// Whether something failed that was not seen before, or nothing is answered.
fn fails(said: &Said, sight: &Sight) -> bool
    ensures { result ≡ fails said.now sight.now }
{
    sight.is_down || said.failures < sight.failures
}

// The outage that begins now, if one does.
fn outage_begun(fails: bool, sight: &Sight) -> Option<Outage>
    ensures { result ≡ outage_begun fails sight.now }
{
    if fails {
        Some(Outage {
            since: sight.moment,
            requests: sight.requests,
            is_said: false,
        })
    } else {
        None
    }
}

// An outage, unless it is over and nothing was said of it.
fn outage_kept(fails: bool, outage: Outage) -> Option<Outage>
    ensures { result ≡ outage_kept fails outage }
{
    if fails || outage.is_said {
        Some(outage)
    } else {
        None
    }
}

// The outage, if there is one now.
fn outage_at(said: &Said, sight: &Sight) -> Option<Outage>
    ensures { result ≡ outage_at said.now sight.now }
{
    let fails = fails(said, sight);
    match said.outage {
        None => outage_begun(fails, sight),
        Some(outage) => outage_kept(fails, outage),
    }
}

/// What was said, once this was seen: an outage begins with a failure, however short, and one of
/// which nothing was said ends with the first answer.
pub fn noticed(said: &Said, sight: &Sight) -> Said
    ensures { result ≡ noticed said.now sight.now }
{
    Said {
        outage: outage_at(said, sight),
        failures: sight.failures,
        ..*said
    }
}

// What is to be said apart from outages.
fn rest_event(said: &Said, sight: &Sight) -> Option<Event>
    ensures { result ≡ rest_event said.now sight.now }
{
    if !said.too_large && 0 < sight.too_large {
        return Some(Event::TooLarge);
    }
    if said.conflicts < sight.conflicts && may_say(said.conflict, sight.moment) {
        return Some(Event::Conflicts {
            count: sight.conflicts,
        });
    }
    None
}

// What is to be said while there is an outage.
fn outage_event(outage: Outage, said: &Said, sight: &Sight) -> Option<Event>
    ensures { result ≡ outage_event outage said.now sight.now }
{
    if !outage.is_said && may_say(said.down, sight.moment) {
        return Some(Event::Down {
            reason: sight.reason,
        });
    }
    if outage.is_said && !sight.is_down && may_say(said.up, sight.moment) {
        return Some(Event::Up {
            millis: sight.moment.saturating_sub(outage.since),
            sends: sight.requests.saturating_sub(outage.requests),
        });
    }
    rest_event(said, sight)
}

/// What is to be said next, if something is: that the address is down, or is up again, once it was
/// said to be down; that a request was too large, once; or how many conflicts there are, if there are
/// more. Of these none but the third within 10 s of the last of its kind.
pub fn next_event(said: &Said, sight: &Sight) -> Option<Event>
    ensures { result ≡ next_event said.now sight.now }
{
    match said.outage {
        None => rest_event(said, sight),
        Some(outage) => outage_event(outage, said, sight),
    }
}

/// What was said, once this was said too, at a moment.
pub fn after(said: &Said, event: &Event, now: u64) -> Said
    ensures { result ≡ after said.now event.now now }
{
    match event {
        Event::Down { .. } => Said {
            outage: outage_said(said.outage),
            down: Some(now),
            ..*said
        },
        Event::Up { .. } => Said {
            outage: None,
            up: Some(now),
            ..*said
        },
        Event::TooLarge => Said {
            too_large: true,
            ..*said
        },
        Event::Conflicts { count } => Said {
            conflicts: *count,
            conflict: Some(now),
            ..*said
        },
        _ => *said,
    }
}

// The outage, if there is one, about which a line was written now.
fn outage_said(outage: Option<Outage>) -> Option<Outage>
    ensures { result ≡ option_map said_of outage }
{
    match outage {
        Some(outage) => Some(Outage {
            is_said: true,
            ..outage
        }),
        None => None,
    }
}
