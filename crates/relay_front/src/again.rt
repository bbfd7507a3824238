//! Requests that come again, and answers that are given again.
ghost use Rattle.std.specs.Prelude.{◌≡◌, IfOk, IfSome, IsTrue, OnOk, [], option_map, string_bytes};
ghost use Rattle.relay_ndjson.specs.Metadata.{bytes_given};
ghost use Rattle.http_server.specs.Response.{IsBlank};
ghost use Rattle.relay_front.specs.Again.{asking};
ghost use Rattle.relay_front.specs.Fields.{HasFields};
ghost use Rattle.relay_front.specs.Service.{target_asked};

use crate::route::route_of;
use crate::service::{Front, does_write, is_coded};
use crate::settle::{Ids, Settle};
use bytes::Bytes;
use http::{Request, StatusCode};
use http_server::Response;
use std::alloc::{AllocError, Global};
use std::marker::Model;

/// What a request that writes asks for: all that its answer depends on, but for how the writes end,
/// and for ids that are made. Contracts see it as what such a request asks for.
#[derive(Drop)]
pub struct Asked {
    method: String,
    path: String,
    query: Option<String>,
    body: Bytes,
}

impl Model for Asked {
    ghost use Rattle.std.specs.Prelude.{false, option_map, string_bytes};
    ghost use Rattle.relay_front.specs.Again.{Asking};

    ghost Value = { Asking };

    ghost view = { λ a. record { method = string_bytes a.method; path = string_bytes a.path; query = option_map string_bytes a.query; coded = false; body = a.body } };
}

// A copy of a text, if there is one.
fn own(alloc: Global, text: Option<&str>) -> Result<Option<String>, AllocError>
    ensures { IfOk result (λ o. option_map string_bytes o ≡ bytes_given text.entry) }
{
    match text {
        Some(text) => Ok(Some(String::from_str(alloc, text)?)),
        None => Ok(None),
    }
}

// Whether these are the same text, or none.
fn is_same_text(kept: &Option<String>, text: Option<&str>) -> bool
    ensures { IsTrue result → option_map string_bytes kept.now ≡ bytes_given text.entry }
{
    match (kept, text) {
        (Some(kept), Some(text)) => kept.as_str() == text,
        (None, None) => true,
        _ => false,
    }
}

impl Asked {
    /// What the request asks for, if it writes and its body has no coding. The body is shared, and not
    /// copied. `AllocError`: allocation failed.
    pub fn of(alloc: Global, request: &Request<Bytes>) -> Result<Option<Asked>, AllocError>
        ensures { IfOk result (λ o. IfSome o (λ a. a ≡ asking request.now)) }
    {
        let route = route_of(request.method().as_str(), request.uri().path());
        if !does_write(route) || is_coded(request) {
            return Ok(None);
        }
        Ok(Some(Asked {
            method: String::from_str(alloc, request.method().as_str())?,
            path: String::from_str(alloc, request.uri().path())?,
            query: own(alloc, request.uri().query())?,
            body: request.body().clone()?,
        }))
    }

    /// The length of the body, in bytes.
    pub fn len(&self) -> usize {
        self.body.len()
    }

    /// One more of it, which shares the body. `AllocError`: allocation failed.
    pub fn share(&self, alloc: Global) -> Result<Asked, AllocError>
        ensures { IfOk result (λ a. a ≡ self.now) }
    {
        Ok(Asked {
            method: String::from_str(alloc, self.method.as_str())?,
            path: String::from_str(alloc, self.path.as_str())?,
            query: own(alloc, self.query.as_deref())?,
            body: self.body.clone()?,
        })
    }

    /// One more of it, with a body of its own: that of a request may be part of a larger block, which it
    /// keeps. `AllocError`: allocation failed.
    pub fn apart(&self, alloc: Global) -> Result<Asked, AllocError>
        ensures { IfOk result (λ a. a ≡ self.now) }
    {
        Ok(Asked {
            method: String::from_str(alloc, self.method.as_str())?,
            path: String::from_str(alloc, self.path.as_str())?,
            query: own(alloc, self.query.as_deref())?,
            body: Bytes::copy_from_slice(alloc, self.body.as_slice())?,
        })
    }

    /// Whether the request asks for this, byte for byte.
    pub fn is_asked_by(&self, request: &Request<Bytes>) -> bool
        ensures { IsTrue result → self.now ≡ asking request.now }
    {
        self.body.len() == request.body().len()
            && self.path.as_str() == request.uri().path()
            && self.method.as_str() == request.method().as_str()
            && is_same_text(&self.query, request.uri().query())
            && !is_coded(request)
            && self.body.as_slice() == request.body().as_slice()
    }

    /// Whether both are the same, byte for byte.
    pub fn is_same(&self, other: &Asked) -> bool
        ensures { IsTrue result → self.now ≡ other.now }
    {
        self.body.len() == other.body.len()
            && self.path.as_str() == other.path.as_str()
            && self.method.as_str() == other.method.as_str()
            && is_same_text(&self.query, other.query.as_deref())
            && self.body.as_slice() == other.body.as_slice()
    }
}

impl<'a, S: Settle, I: Ids> Front<'a, S, I> {
    /// Answers a request with a status and a text that were the answer to the same before, and the
    /// fields of an answer of now. `AllocError`: allocation failed.
    pub fn repeat(
        &self,
        request: &Request<Bytes>,
        status: StatusCode,
        text: &Bytes,
        response: &mut Response,
    ) -> Result<(), AllocError>
        requires { IsBlank response.old }
        ensures status { OnOk result (response.new.status ≡ status) }
        ensures text { OnOk result (response.new.body.items ≡ text.now) }
        ensures fields { OnOk result
            (HasFields self.now.face (target_asked request.now) response.new) }
    {
        let start = self.relay.begin();
        let text = text.clone()?;
        let route = route_of(request.method().as_str(), request.uri().path());
        self.add_fields(route, response)?;
        response.status = status;
        response.body.clear();
        response.body.push(text)?;
        self.relay.note(start, request, response);
        Ok(())
    }
}

/// Whether an answer to a request that writes says with this status and this text that each write was
/// applied.
pub fn says_applied(status: StatusCode, text: &[u8]) -> bool {
    let status = status.as_u16();
    let is_done = status == 200 || status == 201;
    is_done && (!text.starts_with(BULK) || has_no_error(text))
}

// So the text of an answer to a bulk request begins.
const BULK: &[u8] = b"{\"took\":";

// The second member of such a text, if no item is an error.
const NO_ERROR: &[u8] = b"\"errors\":false";

// Whether the text of an answer to a bulk request says that no item is an error.
fn has_no_error(text: &[u8]) -> bool {
    match text.split(|byte| *byte == b',').nth(1) {
        Some(member) => member == NO_ERROR,
        None => false,
    }
}
