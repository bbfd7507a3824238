//! The end of standard input.
use crate::board::Shared;
use std::io::Read;
use std::rt::Stdin;
use std::sync::Wait;

/// Reads standard input to its end, and ends the server then.
pub(crate) fn await_input<R: Wait>(rt: &R, input: Stdin, shared: &Shared) {
    let mut input = input;
    let mut dropped = [0; 512];
    for _ in rt.forever() {
        match input.read(&mut dropped) {
            Ok(count) if count > 0 => {}
            _ => break,
        }
    }
    shared.end();
}
