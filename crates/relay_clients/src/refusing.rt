//! Refusals of `http_server` itself, which have no body.
use relay_front::refusal::refusal_message;
use std::alloc::{AllocError, Global};

const FRONT: &[u8] = b"HTTP/1.1 ";

// The place of the last head in what is pending.
fn last_head(pending: &[u8]) -> Option<usize> {
    pending
        .windows(FRONT.len())
        .rposition(|window| window == FRONT)
}

// The status in a head.
fn status_of(head: &[u8]) -> u16 {
    let mut status = 0u16;
    for digit in head.iter().skip(FRONT.len()).take(3) {
        if digit.is_ascii_digit() {
            status = status
                .saturating_mul(10)
                .saturating_add(u16::from(*digit).saturating_sub(48));
        }
    }
    status
}

/// What is pending, with a refusal that has a body in place of the one at its end, and the status
/// of that.
pub(crate) fn with_body(alloc: Global, pending: &[u8]) -> Result<(Vec<u8>, u16), AllocError> {
    let mut message = Vec::new(alloc);
    let Some(place) = last_head(pending) else {
        return Ok((message, 0));
    };
    let Some((answers, head)) = pending.split_at_checked(place) else {
        return Ok((message, 0));
    };
    message.extend_from_slice(answers)?;
    let status = status_of(head);
    let refusal = refusal_message(alloc, status)?;
    message.extend_from_slice(refusal.as_slice())?;
    Ok((message, status))
}
