//! What is outstanding, by number.
ghost use Rattle.std.specs.Prelude.{◌≡◌, ◌==◌};
ghost use Rattle.std.specs.List.{position};
ghost use Rattle.std.specs.VecDeque.{deque_capacity};
ghost use Rattle.relay_wires.specs.Numbers.{entry_of, besides};

use std::collections::VecDeque;

// The place of a number.
pub(crate) fn place_of<T>(out: &VecDeque<(u64, T)>, number: u64) -> Option<usize>
    ensures { result ≡ position (λ e. e.0 == number) out.now.items }
{
    out.iter().position(|entry| entry.0 == number)
}

/// Takes what is outstanding under this number. `None`: nothing is, and nothing changes.
pub fn take<T>(out: &mut VecDeque<(u64, T)>, number: u64) -> Option<T>
    ensures found { result ≡ entry_of number out.old.items }
    ensures besides { out.new.items ≡ besides number out.old.items }
    ensures capacity { deque_capacity out.new ≡ deque_capacity out.old }
{
    let place = place_of(out, number)?;
    let (_, value) = out.remove(place)?;
    Some(value)
}
