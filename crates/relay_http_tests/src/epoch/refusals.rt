//! Epochs with any one of the allocations refused (`make refusals`): there is an epoch, or the fault
//! is Memory and a second call succeeds.
use crate::epoch::asking::CREATED;
use crate::epoch::desk::{Answer, REQUEST, asks, stream_of};
use relay_epoch::asking::ask;
use relay_epoch::message::put_message;
use relay_epoch::{EpochFault, epoch_of, fault_text};
use std::alloc::{AllocError, Global};

const FAULT: &[u8] =
    b"{\"error\":{\"type\":\"an_error_whose_type_has_more_than_38_bytes_exception\"},\"status\":400}";

const LINE: &[u8] = b"epoch: status 400 an_error_whose_type_has_more_than_38_bytes_exception\n";

// The fault of an answer that states one.
fn fault_once(alloc: Global) -> Option<EpochFault> {
    match epoch_of(alloc, 400, FAULT) {
        Ok(_) => None,
        Err(fault) => Some(fault),
    }
}

fn fault_of(alloc: Global) -> Option<EpochFault> {
    match fault_once(alloc)? {
        EpochFault::Memory => fault_once(alloc),
        fault => Some(fault),
    }
}

fn tells(alloc: Global) -> Option<bool> {
    let fault = fault_of(alloc)?;
    match fault_text(alloc, &fault) {
        Ok(text) => Some(text.as_slice() == LINE),
        Err(AllocError) => Some(fault_text(alloc, &fault).ok()?.as_slice() == LINE),
    }
}

fn reads(alloc: Global) -> bool {
    match epoch_of(alloc, 200, b"{\"_version\":7}") {
        Err(EpochFault::Memory) => epoch_of(alloc, 200, b"{\"_version\":7}") == Ok(7),
        result => result == Ok(7),
    }
}

fn writes(alloc: Global) -> Option<bool> {
    match put_message(alloc, "h:9200", "/relay/_doc/epoch", "{\"to\":1}") {
        Ok(text) => Some(text.as_slice() == REQUEST),
        Err(AllocError) => {
            let text = put_message(alloc, "h:9200", "/relay/_doc/epoch", "{\"to\":1}");
            Some(text.ok()?.as_slice() == REQUEST)
        }
    }
}

fn ask_once(alloc: Global) -> Option<Result<u32, EpochFault>> {
    let stream = stream_of(alloc, CREATED, 0).or_else(|| stream_of(alloc, CREATED, 0))?;
    let (result, stream) = ask(alloc, stream, REQUEST);
    drop(stream);
    Some(result)
}

fn answers(alloc: Global) -> Option<bool> {
    match ask_once(alloc)? {
        Err(EpochFault::Memory) => Some(ask_once(alloc)? == Ok(1)),
        result => Some(result == Ok(1)),
    }
}

// A desk whose connection cannot be allocated refuses it.
fn takes(alloc: Global) -> bool {
    match asks(alloc, &[Answer::Says(CREATED, 0)], 0).0 {
        Err(EpochFault::Memory) | Err(EpochFault::Unreachable) => {
            asks(alloc, &[Answer::Says(CREATED, 0)], 0).0 == Ok(1)
        }
        result => result == Ok(1),
    }
}

#[test]
fn refused_answers(rt: HostRuntime) {
    assert!(rt; reads(rt.alloc()));
    assert!(rt; tells(rt.alloc()) == Some(true));
}

#[test]
fn refused_requests(rt: HostRuntime) {
    assert!(rt; writes(rt.alloc()) == Some(true));
    assert!(rt; answers(rt.alloc()) == Some(true));
    assert!(rt; takes(rt.alloc()));
}
