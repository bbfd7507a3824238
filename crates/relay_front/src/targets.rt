//! What is replied to a request that writes, by its target.
ghost use Rattle.std.specs.Prelude.{◌≡◌, false, option_map};
ghost use Rattle.relay_ndjson.specs.Metadata.{bytes_given};
ghost use Rattle.relay_front.specs.Routes.{target_of};
ghost use Rattle.relay_front.specs.Service.{Refuses, RepliesTo, RepliesToAdd};
ghost use Rattle.relay_front.specs.Service.{RepliesToBulkAt, RepliesToDelete, RepliesToDocument};
ghost use Rattle.relay_front.specs.Service.{RepliesToPut, RepliesToWriter, meaning_in, parameter_reason};
ghost use Rattle.relay_front.specs.Service.{reply_of};

use crate::document::decoded;
use crate::query::first_meaning;
use crate::refusal::ILLEGAL_ARGUMENT;
use crate::replying::{
    Answer, Short, refuse, refuse_client, reply_to_bulk, reply_to_delete, reply_to_put,
};
use crate::route::Route;
use crate::settle::{Ids, Settle};
use std::alloc::Global;

const NOT_UTF8: &str = "the path is not UTF-8";

/// What is said of a target that the relay does not have.
pub const NO_TARGET: &str = "the relay has no such target: it takes writes by [_bulk] and [_doc]";

// `/INDEX/_bulk`
fn bulk_at<S: Settle, I: Ids>(
    alloc: Global,
    part: &str,
    body: &[u8],
    relay: &mut S,
    ids: &mut I,
) -> Result<Answer, Short>
    ensures { RepliesToBulkAt S.settles part.now body.now relay.old (reply_of result) relay.new }
{
    match decoded(alloc, part)? {
        Some(index) => reply_to_bulk(alloc, Some(index.as_str()), body, relay, ids),
        None => refuse_client(alloc, NOT_UTF8),
    }
}

// `PUT /INDEX/_doc/ID`
fn put_at<S: Settle>(
    alloc: Global,
    index: &str,
    id: &str,
    body: &[u8],
    relay: &mut S,
) -> Result<Answer, Short>
    ensures { RepliesToDocument (λ i n. RepliesToPut S.settles false i n body.now) index.now
        id.now relay.old (reply_of result) relay.new }
{
    let Some(index) = decoded(alloc, index)? else {
        return refuse_client(alloc, NOT_UTF8);
    };
    let Some(id) = decoded(alloc, id)? else {
        return refuse_client(alloc, NOT_UTF8);
    };
    reply_to_put(alloc, false, index.as_str(), id.as_str(), body, relay)
}

// `POST /INDEX/_doc`
fn add_at<S: Settle, I: Ids>(
    alloc: Global,
    index: &str,
    body: &[u8],
    relay: &mut S,
    ids: &mut I,
) -> Result<Answer, Short>
    ensures { RepliesToAdd S.settles index.now body.now relay.old (reply_of result) relay.new }
{
    let Some(index) = decoded(alloc, index)? else {
        return refuse_client(alloc, NOT_UTF8);
    };
    let made = ids.next_id()?;
    reply_to_put(alloc, true, index.as_str(), made.as_str(), body, relay)
}

// `DELETE /INDEX/_doc/ID`
fn delete_at<S: Settle>(
    alloc: Global,
    index: &str,
    id: &str,
    relay: &mut S,
) -> Result<Answer, Short>
    ensures { RepliesToDocument (RepliesToDelete S.settles) index.now id.now relay.old
        (reply_of result) relay.new }
{
    let Some(index) = decoded(alloc, index)? else {
        return refuse_client(alloc, NOT_UTF8);
    };
    let Some(id) = decoded(alloc, id)? else {
        return refuse_client(alloc, NOT_UTF8);
    };
    reply_to_delete(alloc, index.as_str(), id.as_str(), relay)
}

// The reply to a request whose query and whose coding the relay takes.
fn reply_to<S: Settle, I: Ids>(
    alloc: Global,
    default: Option<&str>,
    route: Route<'_>,
    body: &[u8],
    relay: &mut S,
    ids: &mut I,
) -> Result<Answer, Short>
    ensures { RepliesTo S.settles (bytes_given default.entry) (target_of route.entry) body.now
        relay.old (reply_of result) relay.new }
{
    match route {
        Route::Bulk { index: None } => reply_to_bulk(alloc, default, body, relay, ids),
        Route::Bulk { index: Some(part) } => bulk_at(alloc, part, body, relay, ids),
        Route::Put { index, id } => put_at(alloc, index, id, body, relay),
        Route::Add { index } => add_at(alloc, index, body, relay, ids),
        Route::Delete { index, id } => delete_at(alloc, index, id, relay),
        _ => refuse_client(alloc, NO_TARGET),
    }
}

// A parameter that the relay does not take.
fn refuse_parameter(alloc: Global, name: &str) -> Result<Answer, Short>
    ensures { Refuses (parameter_reason name.now) (reply_of result) }
{
    let reason = format!(in alloc; "the relay does not support the parameter [{name}]")?;
    refuse_client(alloc, reason.as_str())
}

/// The reply to a request that writes.
pub fn reply_to_writer<S: Settle, I: Ids>(
    alloc: Global,
    default: Option<&str>,
    route: Route<'_>,
    query: Option<&str>,
    is_coded: bool,
    body: &[u8],
    relay: &mut S,
    ids: &mut I,
) -> Result<Answer, Short>
    ensures { RepliesToWriter S.settles (bytes_given default.entry) (target_of route.entry)
        (bytes_given query.entry) is_coded body.now relay.old (reply_of result) relay.new }
{
    if let Some(name) = meaning_in(query) {
        return refuse_parameter(alloc, name);
    }
    if is_coded {
        return refuse(
            alloc,
            415,
            ILLEGAL_ARGUMENT,
            "the relay takes no [content-encoding]; send the body as it is",
        );
    }
    reply_to(alloc, default, route, body, relay, ids)
}

// The first parameter of a query that may change what a write means.
fn meaning_in<'a>(query: Option<&'a str>) -> Option<&'a str>
    ensures { option_map (λ t. t.now) result ≡ meaning_in (bytes_given query.entry) }
{
    match query {
        Some(query) => first_meaning(query),
        None => None,
    }
}
