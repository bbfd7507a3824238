//! Sending a batch.
ghost use Rattle.std.specs.Prelude.{◌≡◌, ◌+◌, ◌<◌, ◌≤◌, ◌++◌, length, map, option_to_list, take};
ghost use Rattle.std.specs.Prelude.{vec_len, vec_capacity};
ghost use Rattle.relay_held.specs.Queues.{candidates_kept, Rises};
ghost use Rattle.relay_core.specs.Walk.{item_of_kept, launched_kept, freight};

use relay_action::Write;
use relay_held::Held;

// Moves a write, if there is one, into the request.
fn load(writes: &mut Vec<Write>, write: Option<Write>)
    requires room { vec_len writes.old < vec_capacity writes.old }
    ensures items { writes.new.items ≡ writes.old.items ++ option_to_list write }
    ensures len { vec_len writes.new ≤ vec_len writes.old + 1 }
    ensures capacity { vec_capacity writes.new ≡ vec_capacity writes.old }
{
    if let Some(write) = write {
        writes.push_reserved(write);
    }
}

/// Sends the first `count` of the operations that may be sent: their writes move into the request.
pub(crate) fn launch(held: &mut Held, number: u64, count: usize, writes: &mut Vec<Write>)
    requires rises { Rises held.old.list }
    requires count { count ≤ length (candidates_kept held.old.list held.old.clock) }
    requires room { vec_len writes.old + count ≤ vec_capacity writes.old }
    ensures held { held.new.list
        ≡ launched_kept held.old.clock held.old.list number 0
        (map item_of_kept (take count (candidates_kept held.old.list held.old.clock))) }
    ensures clock { held.new.clock ≡ held.old.clock }
    ensures looks { held.new.looks ≡ held.old.looks }
    ensures writes { writes.new.items
        ≡ writes.old.items
        ++ freight held.old.list
        (map item_of_kept (take count (candidates_kept held.old.list held.old.clock))) }
{
    'places: for place in 0..count {
        load(writes, held.launch(number, place as u64));
    }
}
