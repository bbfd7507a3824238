//! Lanes that hold many deletes.
ghost use Rattle.std.specs.Prelude.{◌≡◌, [], IfSome};
ghost use Rattle.relay_lane.specs.Out.{out_of};

use relay_batch::Limits;
use relay_fixtures::config;
use relay_fixtures::desk::{Desk, closes, desk_of, puts};
use relay_lane::RelayConfig;
use std::alloc::Global;

/// One lane and one producer, batches of many documents that are sent immediately, and three
/// attempts.
pub const CONFIG: RelayConfig = RelayConfig {
    max_held: 2_000,
    limits: Limits {
        count: 2_000,
        bytes: 1_048_576,
        linger: 0,
    },
    ..config::CONFIG
};

// Puts a delete of the document whose id is this number, and returns whether it was taken.
fn puts_number(alloc: Global, desk: &mut Desk, number: u64) -> bool
    ensures { out_of desk.new.lane.state ≡ out_of desk.old.lane.state }
{
    match format!(in alloc; "{number}") {
        Ok(id) => puts(alloc, desk, number, id.as_str(), ""),
        Err(_) => false,
    }
}

// Puts deletes of this many documents, with the ids `1`, `2` and so on.
fn puts_all(alloc: Global, desk: &mut Desk, count: u64) -> bool
    ensures { out_of desk.new.lane.state ≡ out_of desk.old.lane.state }
{
    for number in 1..=count {
        if !puts_number(alloc, desk, number) {
            return false;
        }
    }
    true
}

/// A closed lane that took deletes of this many documents, with the ids `1`, `2` and so on.
pub fn numbered(alloc: Global, count: u64) -> Option<Desk>
    ensures { IfSome result (λ d. out_of d.lane.state ≡ []) }
{
    let mut desk = desk_of(alloc, CONFIG)?;
    if puts_all(alloc, &mut desk, count) && closes(&mut desk) {
        Some(desk)
    } else {
        None
    }
}
