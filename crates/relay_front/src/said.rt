//! What the item of an operation says.
ghost use Rattle.std.specs.Prelude.{◌≡◌, IfOk, string_bytes};
ghost use Rattle.relay_front.specs.Said.{Words, Failed, words_of, said_by, cause_said, reason_or};
ghost use Rattle.relay_front.specs.Reasons.{limit_reason, reason_of};
ghost use Rattle.relay_front.specs.Texts.{document_status, illegal_argument, is_failed};
ghost use Rattle.relay_front.specs.Said.{written_status, outcome_by, given_up_status, busy_or_gone};

use crate::ending::End;
use crate::operation::{AskedKind, ItemFault};
use crate::refusal::ILLEGAL_ARGUMENT;
use relay_action::{ActionFault, Text};
use relay_results::{Cause, LastTry};
use std::alloc::{AllocError, Global};

/// What an item says.
#[derive(Clone, Copy, Debug, PartialEq, Eq)]
pub enum Said<'a> {
    /// The operation was applied.
    Written {
        /// The status.
        status: u16,
        /// The result, as OpenSearch names it.
        result: &'static str,
        /// The version.
        version: u64,
    },
    /// The operation was not applied, or it is not known whether it was.
    Failed {
        /// The status.
        status: u16,
        /// The type of the error.
        kind: &'a str,
        /// The reason.
        reason: &'a str,
    },
}

impl<'a> Said<'a> {
    /// Whether it is an error.
    pub fn is_failed(self) -> bool
        ensures { result ≡ is_failed (words_of self.entry) }
    {
        matches!(self, Said::Failed { .. })
    }

    /// The status.
    pub fn status(self) -> u16
        ensures { result ≡ document_status (words_of self.entry) }
    {
        match self {
            Said::Written { status, .. } => status,
            Said::Failed { status, .. } => status,
        }
    }
}

// The status of an operation that an earlier request had applied: as if it had found what it wrote
// over, unless the relay made its id, under which nothing was before.
fn status_of(made: bool, status: Option<u16>) -> u16
    ensures { result ≡ written_status made status }
{
    match status {
        Some(status) => status,
        None => if made { 201 } else { 200 },
    }
}

fn result_of(kind: AskedKind, status: u16) -> &'static str
    ensures { result.now ≡ outcome_by kind status }
{
    match kind {
        AskedKind::Delete => if status == 404 {
            "not_found"
        } else {
            "deleted"
        },
        _ => if status == 201 { "created" } else { "updated" },
    }
}

fn failed<'a>(status: u16, kind: &'a str, reason: &'a str) -> Said<'a>
    ensures { words_of result ≡ Failed status kind.now reason.now }
{
    Said::Failed {
        status,
        kind,
        reason,
    }
}

fn reason_or<'a>(reason: &'a Option<Text>, other: &'static str) -> &'a str
    ensures { result.now ≡ reason_or reason.now other.now }
{
    match reason {
        Some(reason) => reason.as_str(),
        None => other,
    }
}

// The status after the last try of an operation that was given up.
fn given_up_status(last: LastTry) -> u16
    ensures { result ≡ given_up_status last }
{
    match last {
        LastTry::Whole(status) => busy_or_gone(status),
        LastTry::Item(status) => busy_or_gone(status),
        LastTry::Lost(_) => 503,
    }
}

// After 429 the client is to send again.
fn busy_or_gone(status: u16) -> u16
    ensures { result ≡ busy_or_gone status }
{
    if status == 429 { 429 } else { 503 }
}

fn cause_said<'a>(cause: &'a Cause) -> Said<'a>
    ensures { words_of result ≡ cause_said cause.now }
{
    match cause {
        Cause::Refused {
            status,
            kind,
            reason,
        } => failed(
            *status,
            kind.as_str(),
            reason_or(reason, "the index refused the write"),
        ),
        Cause::Request { status, reason } => failed(
            *status,
            "relay_request_refused",
            reason_or(reason, "the index refused the request as a whole"),
        ),
        Cause::Conflict { reason, .. } => failed(
            409,
            "version_conflict_engine_exception",
            reason_or(
                reason,
                "the index has a version that is not below that of the write",
            ),
        ),
        Cause::GaveUp { last, .. } => failed(
            given_up_status(*last),
            "relay_gave_up",
            "no answer of the index settled the write; it may have been applied",
        ),
        Cause::Spent => failed(
            503,
            "relay_versions_spent",
            "no version is left in this epoch; the write was not sent",
        ),
    }
}

/// What the item of an operation says, of which the relay made the id or not, and which ended so.
pub fn said_of<'a>(kind: AskedKind, made: bool, end: &'a End) -> Said<'a>
    ensures { words_of result ≡ said_by kind made end.now }
{
    match end {
        End::Applied { version, status } => {
            let status = status_of(made, *status);
            Said::Written {
                status,
                result: result_of(kind, status),
                version: *version,
            }
        }
        End::Reported(cause) => cause_said(cause),
        End::Late => failed(
            503,
            "relay_timeout",
            "the write did not end within the time of the request; it may still be applied",
        ),
        End::Unput => failed(
            503,
            "relay_timeout",
            "the time of the request was over before the write was begun; it is not sent",
        ),
        End::Gone => failed(
            503,
            "relay_lane_ended",
            "the relay is ending; the write may have been applied",
        ),
    }
}

fn limit_reason(fault: ActionFault) -> &'static str
    ensures { result.now ≡ limit_reason fault }
{
    match fault {
        ActionFault::IndexEmpty => "[_index] must not be empty",
        ActionFault::IndexLong => "[_index] must not have more than 255 bytes",
        ActionFault::IdEmpty => "[_id] must not be empty",
        ActionFault::IdLong => "[_id] must not have more than 512 bytes",
        ActionFault::SourceEmpty => "the source must not be empty",
        ActionFault::SourceLong => "the relay takes sources of at most 1048576 bytes",
        ActionFault::SourceNewline => "the source must be on one line",
        ActionFault::Memory => "the relay ran out of memory",
    }
}

/// The reason of an operation that is refused. It names the relay, and the member if there is one.
pub fn fault_reason(alloc: Global, fault: &ItemFault) -> Result<String, AllocError>
    ensures { IfOk result (λ reason. string_bytes reason ≡ reason_of fault.now) }
{
    let reason = match fault {
        ItemFault::Member(name) => {
            let name = name.as_str();
            return format!(in alloc; "the relay does not support [{name}] in an action line");
        }
        ItemFault::Update =>
            "the relay does not support [update]; send the whole document with [index]",
        ItemFault::CreateWithId => "the relay does not support [create] with an [_id]; use [index]",
        ItemFault::NoIndex => "[_index] is missing",
        ItemFault::IndexForm => "[_index] must be a string",
        ItemFault::NoId => "[_id] is missing",
        ItemFault::IdForm => "[_id] must be a string or a 64-bit integer",
        ItemFault::SourceForm => "the source is not UTF-8",
        ItemFault::Action(fault) => limit_reason(*fault),
    };
    String::from_str(alloc, reason)
}

/// What the item of an operation says that is refused for this reason.
pub fn refused_said(reason: &str) -> Said<'_>
    ensures { words_of result ≡ Failed 400 illegal_argument reason.now }
{
    failed(400, ILLEGAL_ARGUMENT, reason)
}
