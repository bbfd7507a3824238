//! The service.
ghost use Rattle.std.specs.Prelude.{◌≡◌, ◌⊎◌, ◌++◌, OnOk, ℕ, List, [], IsTrue, codes};
ghost use Rattle.relay_ndjson.specs.Metadata.{bytes_given};
ghost use Rattle.http.specs.Request.{head_of};
ghost use Rattle.http_uri.specs.Uri.{uri_authority};
ghost use Rattle.http_header.specs.FieldValue.{is_visible_text};
ghost use Rattle.http_header.specs.HeaderMap.{get};
ghost use Rattle.http_server.specs.Response.{fields_of};
ghost use Rattle.relay_front.specs.Faces.{IsAddress, down, is_coded, is_coding, nodes_body, stopping, up};
ghost use Rattle.relay_front.specs.Routes.{target_of};
ghost use Rattle.relay_front.specs.Fields.{HasFields, allow_of, close_of, media_of, product_of};
ghost use Rattle.relay_front.specs.Service.{Answers, IsReply, RefusesStop, RepliesBy, RepliesToReader};
ghost use Rattle.relay_front.specs.Service.{does_write, reply_of, status_shown, target_asked};

use crate::face::Face;
use crate::refusal::{FAILED_ROOM, ILLEGAL_ARGUMENT, NO_ANSWER, NO_MEMORY};
use crate::replying::{Answer, Short, refuse, refuse_client};
use crate::route::{Route, route_of};
use crate::settle::{Ids, Settle};
use crate::targets::{NO_TARGET, reply_to_writer};
use crate::text::{add, add_string};
use bytes::{BufMut, Bytes};
use http::{HeaderName, HeaderValue, Request, StatusCode, header};
use http_server::{Response, Service};
use std::alloc::{AllocError, Global};

/// Answers the requests of clients: has the writes of each settled, and says how they ended.
#[derive(Drop)]
pub struct Front<'a, S, I> {
    /// Where texts are allocated.
    pub alloc: Global,
    /// What the relay says that it is.
    pub face: Face,
    /// The index of operations that do not name one, if neither does the path.
    pub index: Option<&'a str>,
    /// What settles the writes.
    pub relay: S,
    /// What makes ids.
    pub ids: I,
}

// The address that the client used: the field `host`, or that of the target.
fn address_of(request: &Request<Bytes>) -> &str
    ensures { IsAddress (uri_authority (head_of request.now).uri)
        (get (head_of request.now).headers (codes "host")) result.now }
{
    if let Some(authority) = request.uri().authority() {
        return authority.as_str();
    }
    match request.headers().get(header::HOST) {
        Some(host) => host.to_str().unwrap_or(""),
        None => "",
    }
}

const CLUSTER_HEALTH: &str =
    "{\"cluster_name\":\"relay\",\"status\":\"green\",\"timed_out\":false,\"number_of_nodes\":1,\"number_of_data_nodes\":1,\"active_primary_shards\":0,\"active_shards\":0,\"relocating_shards\":0,\"initializing_shards\":0,\"unassigned_shards\":0,\"delayed_unassigned_shards\":0,\"number_of_pending_tasks\":0,\"number_of_in_flight_fetch\":0,\"task_max_waiting_in_queue_millis\":0,\"active_shards_percent_as_number\":100.0}";

const CAT_HEALTH: &str = "0 00:00:00 relay green 1 1 0 0 0 0 0 0 - 100.0%\n";

const LICENSE: &str =
    "{\"license\":{\"status\":\"active\",\"uid\":\"relay\",\"type\":\"basic\",\"issue_date\":\"2026-01-01T00:00:00.000Z\",\"issue_date_in_millis\":1767225600000,\"max_nodes\":1000,\"issued_to\":\"relay\",\"issuer\":\"relay\",\"start_date_in_millis\":-1}}";

const UP: &str = "{\"status\":\"up\"}";

const STOPPING: &str = "{\"status\":\"stopping\"}";

const NOT_HERE: &str = "the relay is stopped only by way of a loopback address that it listens at";

// Whether a route writes, so that its query and the coding of its body matter.
pub(crate) fn does_write(route: Route<'_>) -> bool
    ensures { result ≡ does_write (target_of route.entry) }
{
    matches!(
        route,
        Route::Bulk { .. } | Route::Put { .. } | Route::Add { .. } | Route::Delete { .. }
    )
}

// Whether a value of `content-encoding` names a coding.
fn is_coding(coding: &HeaderValue) -> bool
    ensures { result ≡ is_coding coding.now }
{
    coding.as_bytes() != b"identity".as_slice()
}

// Whether the body has a coding.
pub(crate) fn is_coded(request: &Request<Bytes>) -> bool
    ensures { result ≡ is_coded (head_of request.now).headers }
{
    'codings: for coding in request.headers().get_all(header::CONTENT_ENCODING) {
        if is_coding(coding) {
            return true;
        }
    }
    false
}

impl<'a, S: Settle, I: Ids> Front<'a, S, I> {
    fn text(&self, text: &str) -> Result<Answer, Short>
        ensures { IsReply 200 text.now (reply_of result) }
    {
        let mut bytes = Vec::new(self.alloc);
        add(&mut bytes, text)?;
        Ok(Answer {
            status: 200,
            text: bytes,
        })
    }

    // One node, at the address that the client used.
    fn nodes(&self, request: &Request<Bytes>) -> Result<Answer, Short>
        ensures { (address : List ℕ) × IsAddress (uri_authority (head_of request.now).uri)
            (get (head_of request.now).headers (codes "host")) address
            × IsReply 200 (nodes_body address) (reply_of result) }
    {
        let address = address_of(request);
        let alloc = self.alloc;
        let mut text = Vec::new(alloc);
        add(
            &mut text,
            "{\"_nodes\":{\"total\":1,\"successful\":1,\"failed\":0},\"cluster_name\":\"relay\",\"nodes\":{\"relay\":{\"name\":\"relay\",\"version\":\"7.10.2\",\"roles\":[\"data\",\"ingest\",\"master\"],\"http\":{\"bound_address\":[",
        )?;
        add_string(alloc, &mut text, address)?;
        add(&mut text, "],\"publish_address\":")?;
        add_string(alloc, &mut text, address)?;
        add(&mut text, ",\"max_content_length_in_bytes\":104857600}}}}")?;
        Ok(Answer { status: 200, text })
    }

    // Whether writes can be settled, and if not, why.
    fn health(&self) -> Result<Answer, Short>
        ensures { IsReply 200 up (reply_of result)
            ⊎ ((reason : List ℕ) × IsReply 503 (down reason) (reply_of result)) }
    {
        match self.relay.trouble(self.alloc)? {
            Some(reason) => self.down(reason.as_str()),
            None => self.text(UP),
        }
    }

    // No writes can be settled, for this reason.
    fn down(&self, reason: &str) -> Result<Answer, Short>
        ensures { IsReply 503 (down reason.now) (reply_of result) }
    {
        let alloc = self.alloc;
        let mut text = Vec::new(alloc);
        add(&mut text, "{\"status\":\"down\",\"reason\":")?;
        add_string(alloc, &mut text, reason)?;
        add(&mut text, "}")?;
        Ok(Answer { status: 503, text })
    }

    // Has the relay stop, if the client may.
    fn stop(&self) -> Result<Answer, Short>
        ensures { IsReply 200 stopping (reply_of result) ⊎ RefusesStop (reply_of result) }
    {
        if self.relay.stop() {
            self.text(STOPPING)
        } else {
            refuse(self.alloc, 403, ILLEGAL_ARGUMENT, NOT_HERE)
        }
    }

    // The answer to a request with this route.
    fn respond(&mut self, route: Route<'_>, request: &Request<Bytes>) -> Result<Answer, Short>
        ensures reply { RepliesBy (does_write (target_of route.entry)) S.settles self.old.face
            (bytes_given self.old.index) (target_of route.entry) request.now self.old.relay
            (reply_of result) self.new.relay }
        ensures index { self.new.index ≡ self.old.index }
        ensures face { self.new.face ≡ self.old.face }
    {
        if does_write(route) {
            return reply_to_writer(
                self.alloc,
                self.index,
                route,
                request.uri().query(),
                is_coded(request),
                request.body().as_slice(),
                &mut self.relay,
                &mut self.ids,
            );
        }
        self.look(route, request)
    }

    // Answers a request with this route.
    fn answer(&mut self, route: Route<'_>, request: &Request<Bytes>, response: &mut Response)
        requires route { target_of route ≡ target_asked request.now }
        requires none { fields_of response.old ≡ [] }
        ensures answers { Answers S.settles self.old.face (bytes_given self.old.index) self.old.relay
            request.now response.new self.new.relay }
        ensures index { self.new.index ≡ self.old.index }
        ensures face { self.new.face ≡ self.old.face }
    {
        let answer = match self.respond(route, request) {
            Ok(answer) => answer,
            Err(Short::Unput) => return fill_short(response, NO_MEMORY),
            Err(Short::Put) => return fill_short(response, NO_ANSWER),
        };
        if self.add_fields(route, response).is_err()
            || fill(response, answer.status, answer.text).is_err()
        {
            fill_short(response, NO_ANSWER);
        }
    }

    // The answer to a request that writes nothing.
    fn look(&self, route: Route<'_>, request: &Request<Bytes>) -> Result<Answer, Short>
        ensures { RepliesToReader self.now.face (target_of route.entry) (head_of request.now)
            (reply_of result) }
    {
        match route {
            Route::Info => self.text(self.face.info()),
            Route::ClusterHealth => self.text(CLUSTER_HEALTH),
            Route::License => self.text(LICENSE),
            Route::Nodes => self.nodes(request),
            Route::Health => self.health(),
            Route::Metrics => Ok(Answer {
                status: 200,
                text: self.relay.metrics(self.alloc)?,
            }),
            Route::Stop => self.stop(),
            Route::IndexExists => self.text(""),
            Route::CatHealth => self.text(CAT_HEALTH),
            Route::Method { .. } => refuse(
                self.alloc,
                405,
                ILLEGAL_ARGUMENT,
                "the relay does not take this method for this target",
            ),
            _ => refuse_client(self.alloc, NO_TARGET),
        }
    }

    // Adds the fields of the answer to a request with this route.
    pub(crate) fn add_fields(
        &self,
        route: Route<'_>,
        response: &mut Response,
    ) -> Result<(), AllocError>
        requires { fields_of response.old ≡ [] }
        ensures fields { OnOk result (HasFields self.now.face (target_of route.entry) response.new) }
    {
        response.add_header(
            header::CONTENT_TYPE,
            HeaderValue::from_static(media_of(route)),
        )?;
        add_product(self.face, response)?;
        add_allow(self.alloc, route, response)?;
        add_close(self.relay.is_ending(), response)
    }
}

// Adds the product.
fn add_product(face: Face, response: &mut Response) -> Result<(), AllocError>
    ensures { OnOk result (fields_of response.new ≡ fields_of response.old ++ product_of face) }
{
    match face {
        Face::Compatible => response.add_header(
            HeaderName::from_static("x-elastic-product"),
            HeaderValue::from_static("Elasticsearch"),
        ),
        Face::OpenSearch => Ok(()),
    }
}

// Adds the methods of a target that does not have that of the request.
fn add_allow(alloc: Global, route: Route<'_>, response: &mut Response) -> Result<(), AllocError>
    ensures { OnOk result (fields_of response.new
        ≡ fields_of response.old ++ allow_of (target_of route.entry)) }
{
    match route {
        Route::Method { allow } => {
            let allow = HeaderValue::from_str(alloc, allow).map_err(|_| AllocError)?;
            response.add_header(header::ALLOW, allow)
        }
        _ => Ok(()),
    }
}

// Adds that the connection closes, if it does.
fn add_close(is_ending: bool, response: &mut Response) -> Result<(), AllocError>
    ensures { OnOk result (fields_of response.new ≡ fields_of response.old ++ close_of is_ending) }
{
    if is_ending {
        response.add_header(header::CONNECTION, HeaderValue::from_static("close"))
    } else {
        Ok(())
    }
}

// The media type of the answer to a request with this route.
fn media_of(route: Route<'_>) -> &'static str
    ensures text { result.now ≡ media_of (target_of route.entry) }
    ensures visible { IsTrue (is_visible_text result.now) }
{
    match route {
        Route::CatHealth => "text/plain; charset=UTF-8",
        Route::Metrics => "text/plain; version=0.0.4; charset=utf-8",
        _ => "application/json",
    }
}

// Fills the body with one of the texts for which the room was made.
fn fill_short(response: &mut Response, text: &[u8])
    ensures status { response.new.status ≡ 503 }
    ensures fields { fields_of response.new ≡ [] }
{
    response.status = StatusCode::SERVICE_UNAVAILABLE;
    response.headers.clear();
    response.body.clear();
    let _ = response.body.put_slice(text);
}

// The status, if it is one of HTTP, and otherwise 502: the index answered with it.
fn status_of(status: u16) -> StatusCode
    ensures { result ≡ status_shown status }
{
    match StatusCode::from_u16(status) {
        Ok(status) => status,
        Err(_) => StatusCode::BAD_GATEWAY,
    }
}

// Moves a text into the body.
fn fill(response: &mut Response, status: u16, text: Vec<u8>) -> Result<(), AllocError>
    ensures status { OnOk result (response.new.status ≡ status_shown status) }
    ensures body { OnOk result (response.new.body.items ≡ text.items) }
    ensures fields { fields_of response.new ≡ fields_of response.old }
{
    response.status = status_of(status);
    response.body.clear();
    let bytes = Bytes::from_vec(text).map_err(|_| AllocError)?;
    response.body.push(bytes)
}

impl<'a, S: Settle, I: Ids> Service for Front<'a, S, I> {
    ghost answers = { λ old request response new. (new.index ≡ old.index) × (new.face ≡ old.face)
        × Answers S.settles old.face (bytes_given old.index) old.relay request response new.relay };

    fn call(
        &mut self,
        request: &Request<Bytes>,
        response: &mut Response,
    ) -> Result<(), AllocError> {
        response.headers.reserve(4)?;
        response.body.reserve(FAILED_ROOM)?;
        let route = route_of(request.method().as_str(), request.uri().path());
        let start = self.relay.begin();
        self.answer(route, request, response);
        self.relay.note(start, request, response);
        Ok(())
    }
}
