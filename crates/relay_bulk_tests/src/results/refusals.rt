//! Replies, with any one of their allocations refused (`make refusals`): the refusal is reported,
//! and the call succeeds when it is repeated.
use crate::writes::key_again;
use relay_action::ActionKind;
use relay_results::{
    DoneResult, ErrorDetail, ItemDone, ItemError, Outcome, ReplyFault, VersionConflict,
    read_refusal, read_reply, write_reply,
};
use std::alloc::{AllocError, Global};
use std::process::Abort;

const ID: &str = "an id with a \"quote\", of more than thirty-eight bytes";

const REPLY: &str =
    "{\"errors\":true,\"items\":[{\"index\":{\"_id\":\"an id with a \\\"quote\\\", of more than thirty-eight bytes\",\"_index\":\"books\",\"_seq_no\":7,\"_version\":9,\"result\":\"created\",\"status\":201}},{\"index\":{\"_id\":\"an id with a \\\"quote\\\", of more than thirty-eight bytes\",\"_index\":\"books\",\"error\":{\"reason\":\"[an id with a \\\"quote\\\", of more than thirty-eight bytes]: version conflict, current version [70] is higher or equal to the one provided [9]\",\"type\":\"version_conflict_engine_exception\"},\"status\":409}}],\"took\":1}";

/// The usual form, in which every action was applied.
const USUAL: &str =
    "{\"took\":3,\"errors\":false,\"items\":[{\"index\":{\"_index\":\"books\",\"_id\":\"an id without any quotes, of more than thirty-eight bytes\",\"_version\":9,\"result\":\"created\",\"_shards\":{\"total\":2,\"successful\":1,\"failed\":0},\"_seq_no\":7,\"_primary_term\":1,\"status\":201}}]}";

const VERSIONS: VersionConflict = VersionConflict {
    stored: 70,
    provided: 9,
};

fn item(rt: &impl Abort, alloc: Global, status: u16, became: DoneResult) -> ItemDone {
    ItemDone {
        key: key_again(rt, alloc, ID),
        kind: ActionKind::Index,
        status,
        result: became,
        version: 9,
        seq: 7,
        conflict: (became == DoneResult::Conflict).then_some(VERSIONS),
    }
}

fn error_once(alloc: Global, detail: &ErrorDetail) -> Option<ItemError> {
    ItemError::new(alloc, detail.copy().ok()?).ok()
}

// An error with this detail.
fn error_like(alloc: Global, detail: &ErrorDetail) -> Option<ItemError> {
    match error_once(alloc, detail) {
        None => error_once(alloc, detail),
        made => made,
    }
}

fn copy_of(alloc: Global, error: &ItemError) -> Option<ItemError> {
    match error.copy(alloc) {
        Ok(copy) => Some(copy),
        Err(AllocError) => error.copy(alloc).ok(),
    }
}

fn has_detail(error: Option<ItemError>, detail: &ErrorDetail) -> bool {
    match error {
        Some(error) => error.into_detail() == *detail,
        None => false,
    }
}

// Whether an error states the stored version of the conflict, and so do its copies.
fn is_stated(alloc: Global, error: &ItemError) -> bool {
    let detail = error.detail();
    has_detail(error_like(alloc, detail), detail)
        && has_detail(copy_of(alloc, error), detail)
        && detail.stored == Some(70)
        && detail.reason.is_some()
}

fn is_outcome(alloc: Global, outcome: &Outcome, status: u16, has_error: bool) -> bool {
    let same = match &outcome.error {
        Some(error) => has_error && is_stated(alloc, error),
        None => !has_error,
    };
    same && outcome.id.as_str() == ID && outcome.status == status
}

fn outcome_once(alloc: Global, item: &ItemDone) -> Result<bool, AllocError> {
    match item.outcome(alloc) {
        Ok(outcome) => Ok(is_outcome(alloc, &outcome, 409, true)),
        Err(AllocError) => Err(AllocError),
    }
}

// Whether the outcome of an item is the conflict, by a second call if the first was refused.
fn has_outcome(alloc: Global, item: &ItemDone) -> bool {
    match outcome_once(alloc, item) {
        Err(AllocError) => outcome_once(alloc, item) == Ok(true),
        made => made == Ok(true),
    }
}

fn written_once(alloc: Global, items: &[ItemDone]) -> Result<bool, AllocError> {
    match write_reply(alloc, 1, items) {
        Ok(reply) => Ok(reply.as_str() == REPLY),
        Err(AllocError) => Err(AllocError),
    }
}

// Whether items are written as the reply, by a second call if the first was refused.
fn are_written(alloc: Global, items: &[ItemDone]) -> bool {
    match written_once(alloc, items) {
        Err(AllocError) => written_once(alloc, items) == Ok(true),
        made => made == Ok(true),
    }
}

#[test]
fn refused_items(rt: HostRuntime) {
    let items = [
        item(&rt, rt.alloc(), 201, DoneResult::Created),
        item(&rt, rt.alloc(), 409, DoneResult::Conflict),
    ];
    assert!(rt; are_written(rt.alloc(), &items) && has_outcome(rt.alloc(), &items[1]));
}

fn are_read(alloc: Global, outcomes: &[Outcome]) -> bool {
    match outcomes {
        [one, other] => {
            is_outcome(alloc, one, 201, false) && is_outcome(alloc, other, 409, true)
        }
        [one] => one.status == 201
            && one.id.as_str().starts_with("an id without")
            && one.error.is_none(),
        _ => false,
    }
}

fn read_once(alloc: Global, text: &str) -> Result<bool, ReplyFault> {
    match read_reply(alloc, text.as_bytes()) {
        Ok(outcomes) => Ok(are_read(alloc, &outcomes)),
        Err(fault) => Err(fault),
    }
}

// Whether a reply is read, by a second call if the first was refused.
fn is_read(alloc: Global, text: &str) -> bool {
    match read_once(alloc, text) {
        Err(ReplyFault::Memory) => read_once(alloc, text) == Ok(true),
        read => read == Ok(true),
    }
}

#[test]
fn refused_replies(rt: HostRuntime) {
    assert!(rt; is_read(rt.alloc(), REPLY) && is_read(rt.alloc(), USUAL));
}

const REFUSED: &[u8] =
    b"{\"error\":{\"type\":\"security_exception\",\"reason\":\"missing authentication credentials for [/_bulk]\"},\"status\":401}";

// Whether the reason of a refused request is read.
fn given_once(alloc: Global) -> Result<bool, AllocError> {
    match read_refusal(alloc, REFUSED) {
        Ok(Some(reason)) => {
            Ok(reason.as_str() == "missing authentication credentials for [/_bulk]")
        }
        Ok(None) => Ok(false),
        Err(AllocError) => Err(AllocError),
    }
}

// The same, by a second call if the first was refused.
fn is_given(alloc: Global) -> bool {
    match given_once(alloc) {
        Err(AllocError) => given_once(alloc) == Ok(true),
        read => read == Ok(true),
    }
}

#[test]
fn refused_reasons(rt: HostRuntime) {
    assert!(rt; is_given(rt.alloc()));
}
