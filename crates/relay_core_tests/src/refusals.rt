//! Calls of a lane, with any one of their allocations refused (`make refusals`): the refusal
//! changes nothing, and the call succeeds when it is repeated.
use crate::desk::{CONFIG, LIMITS};
use relay_action::{Action, Body, DocKey, Mail, Op};
use relay_batch::Limits;
use relay_core::{Lane, RelayConfig, TakeFault};
use std::alloc::{AllocError, Global};
use std::mem;

/// Ids and sources that are too long to be stored in the value itself.
const DOCUMENTS: [&str; 4] = [
    "the first document of more than thirty-eight bytes",
    "the second document of more than thirty-eight bytes",
    "the third document of more than thirty-eight bytes",
    "the fourth document of more than thirty-eight bytes",
];

/// Three versions: the fourth operation is reported as it is taken.
const SHORT: RelayConfig = RelayConfig { deal: 3, ..CONFIG };

/// A lane with a valid config, made by a second call if an allocation of the first is refused.
pub fn made_again(alloc: Global, config: RelayConfig) -> Option<Lane> {
    if !config.valid() {
        return None;
    }
    match Lane::new(alloc, config) {
        Ok(lane) => Some(lane),
        Err(AllocError) => Lane::new(alloc, config).ok(),
    }
}

fn mail_of(alloc: Global, number: u64, id: &str) -> Option<Mail> {
    let key = DocKey::new(alloc, "books", id).ok()?;
    let Ok(action) = Action::index(alloc, id) else {
        mem::forget(key);
        return None;
    };
    let op = Op {
        epoch: 0,
        producer: 0,
        number,
        key,
        action,
    };
    Some(Mail {
        sender: 0,
        number,
        body: Body::Put(op),
    })
}

fn mail_again(alloc: Global, number: u64, id: &str) -> Option<Mail> {
    match mail_of(alloc, number, id) {
        None => mail_of(alloc, number, id),
        made => made,
    }
}

// Whether a message of a known sender is taken.
fn is_taken(lane: &mut Lane, mail: Mail) -> bool {
    if mail.sender >= lane.senders() {
        mem::forget(mail);
        return false;
    }
    match lane.take(mail) {
        Ok(()) => true,
        Err(_) => false,
    }
}

/// Takes a message, by a second call if an allocation of the first failed and the lane was
/// unchanged.
pub fn takes(lane: &mut Lane, mail: Mail) -> bool {
    let (held, totals) = (lane.held(), lane.totals());
    if mail.sender >= lane.senders() {
        return false;
    }
    match lane.take(mail) {
        Ok(()) => true,
        Err((fault, back)) => {
            let unchanged = lane.held() == held
                && lane.totals() == totals
                && lane.reports().is_empty();
            is_taken(lane, back) && unchanged && fault == TakeFault::Memory
        }
    }
}

fn puts(alloc: Global, lane: &mut Lane, number: u64, id: &str) -> Option<bool> {
    let mail = mail_again(alloc, number, id)?;
    Some(takes(lane, mail))
}

fn puts_all(alloc: Global, lane: &mut Lane) -> Option<bool> {
    let mut number = 0u64;
    let mut taken = true;
    for id in DOCUMENTS {
        number = number.saturating_add(1);
        taken = puts(alloc, lane, number, id)? && taken;
    }
    Some(taken)
}

fn filled(alloc: Global) -> Option<Lane> {
    let mut lane = made_again(alloc, SHORT)?;
    if puts_all(alloc, &mut lane) == Some(true) {
        return Some(lane);
    }
    mem::forget(lane);
    None
}

// Three operations are held, and the fourth, for which no version was left, is reported.
#[test]
fn refused_operations(rt: HostRuntime) {
    let lane = filled(rt.alloc()).expect(&rt, "four operations");
    assert!(rt; lane.held() == 3 && lane.totals().taken == 4 && lane.reports().len() == 1);
    mem::forget(lane);
}

/// Whether the first request is formed, by a second call if the first was refused and changed
/// nothing.
pub fn sends(lane: &mut Lane) -> bool {
    let (held, totals) = (lane.held(), lane.totals());
    match lane.request() {
        Ok(number) => number == Some(1),
        Err(AllocError) => {
            lane.held() == held
                && lane.totals() == totals
                && lane.due_in() == Some(0)
                && lane.writes(1).is_none()
                && lane.has_batch()
                && lane.request() == Ok(Some(1))
        }
    }
}

// Whether a request has the operations that are held, in their order and with their versions.
fn is_sent(lane: &Lane) -> bool {
    let Some(writes) = lane.writes(1) else {
        return false;
    };
    if writes.len() != 3 {
        return false;
    }
    for i in 0..3usize {
        if writes[i].key.id() != DOCUMENTS[i] || writes[i].version != i as u64 + 1 {
            return false;
        }
    }
    true
}

/// Batches that are sent after five ticks.
const LINGERS: RelayConfig = RelayConfig {
    limits: Limits {
        linger: 5,
        ..LIMITS
    },
    ..CONFIG
};

// A lane with an operation that is not to be sent yet.
fn gathering(alloc: Global) -> Option<Lane> {
    let mut lane = made_again(alloc, LINGERS)?;
    if puts(alloc, &mut lane, 1, DOCUMENTS[0]) == Some(true) {
        return Some(lane);
    }
    mem::forget(lane);
    None
}

// Without a batch to send there is no request, even if the memory of a batch is refused.
#[test]
fn refused_without_a_batch(rt: HostRuntime) {
    let mut lane = gathering(rt.alloc()).expect(&rt, "an operation");
    assert!(rt; !lane.has_batch() && lane.request() == Ok(None));
    mem::forget(lane);
}

#[test]
fn refused_request(rt: HostRuntime) {
    let mut lane = filled(rt.alloc()).expect(&rt, "four operations");
    assert!(rt; sends(&mut lane));
    assert!(rt; is_sent(&lane) && lane.flying() == 1);
    mem::forget(lane);
}
