//! States, and what the tests expect of them.
use relay_action::{List, Text};
use relay_resume::{InputState, Mark, State};
use std::alloc::Global;

/// The bytes from 0 to 31.
pub const DIGEST: [u8; 32] = [
    0, 1, 2, 3, 4, 5, 6, 7, 8, 9, 10, 11, 12, 13, 14, 15, 16, 17, 18, 19, 20, 21, 22, 23, 24, 25,
    26, 27, 28, 29, 30, 31,
];

/// What is before and after the path in the text of the state of one input.
pub const BEFORE: &[u8] = b"{\"epoch\":7,\"inputs\":[{\"path\":";

pub const AFTER: &[u8] =
    b",\"device\":2049,\"inode\":131,\"checked\":4,\"digest\":\"000102030405060708090a0b0c0d0e0f101112131415161718191a1b1c1d1e1f\",\"offset\":260,\"line\":9,\"count\":5}]}\n";

const MARK: Mark = Mark {
    offset: 260,
    line: 9,
    count: 5,
};

/// An input with this path.
pub fn input_of(alloc: Global, path: &str) -> Option<InputState> {
    Some(InputState {
        path: Text::new(alloc, path).ok()?,
        device: 2_049,
        inode: 131,
        checked: 4,
        digest: DIGEST,
        mark: MARK,
    })
}

/// The state of one input.
pub fn state_of(alloc: Global, path: &str) -> Option<State> {
    match Vec::from_array(alloc, [input_of(alloc, path)?]) {
        Ok(inputs) => Some(State {
            epoch: 7,
            inputs: List::of(inputs),
        }),
        Err(_) => None,
    }
}

/// Texts one after another.
pub fn joined(alloc: Global, parts: &[&[u8]]) -> Option<Vec<u8>> {
    let mut text = Vec::new(alloc);
    for part in parts {
        text.extend_from_slice(*part).ok()?;
    }
    Some(text)
}

fn is_input(input: &InputState, path: &str) -> bool {
    input.path.as_str() == path
        && input.device == 2_049
        && input.inode == 131
        && input.checked == 4
        && input.digest == DIGEST
        && input.mark == MARK
}

/// Whether a state is that of one input with this path.
pub fn is_state_of(state: &State, path: &str) -> bool {
    match state.inputs.as_slice() {
        [input] => state.epoch == 7 && is_input(input, path),
        _ => false,
    }
}
