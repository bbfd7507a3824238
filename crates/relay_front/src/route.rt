//! What a request asks for, by its method and its path.
ghost use Rattle.std.specs.Prelude.{◌≡◌, [], ◌∷◌, MatchOption, codes, option_map};
ghost use Rattle.relay_front.specs.Parts.{parts_at};
ghost use Rattle.relay_front.specs.Routes.{target_of, asked_by, by_parts, without_slash};
ghost use Rattle.relay_front.specs.Routes.{one_part, two_parts, three_parts, is_reserved};
ghost use Rattle.relay_front.specs.Routes.{Stop, read_by, only_by, bulk_by, document_by};
ghost use Rattle.relay_front.specs.Routes.{below_index, relay_part};

/// What a request asks for. Parts of the path are as they are there, not yet percent-decoded.
#[derive(Clone, Copy, Debug, PartialEq, Eq)]
pub enum Route<'a> {
    /// `GET` or `HEAD` of `/`: what the relay is.
    Info,
    /// `GET` or `HEAD` of `/_cluster/health`.
    ClusterHealth,
    /// `GET` or `HEAD` of `/_cat/health`.
    CatHealth,
    /// `GET` or `HEAD` of `/_nodes/http` or `/_nodes/_all/http`.
    Nodes,
    /// `GET` or `HEAD` of `/_license`.
    License,
    /// `GET` or `HEAD` of `/_relay/health`: whether the relay can have writes settled.
    Health,
    /// `GET` or `HEAD` of `/_relay/metrics`: what the relay counts.
    Metrics,
    /// `POST /_relay/stop`: the relay takes no further request.
    Stop,
    /// `HEAD /INDEX`.
    IndexExists,
    /// `POST` or `PUT` of `/_bulk`, `/INDEX/_bulk` or `/INDEX/_doc/_bulk`.
    Bulk {
        /// The index of operations that do not name one.
        index: Option<&'a str>,
    },
    /// `PUT` or `POST` of `/INDEX/_doc/ID`.
    Put {
        /// The index.
        index: &'a str,
        /// The id.
        id: &'a str,
    },
    /// `POST /INDEX/_doc`: the relay makes the id.
    Add {
        /// The index.
        index: &'a str,
    },
    /// `DELETE /INDEX/_doc/ID`.
    Delete {
        /// The index.
        index: &'a str,
        /// The id.
        id: &'a str,
    },
    /// There is such a target, with these methods only.
    Method {
        /// The methods, as the field `allow` lists them.
        allow: &'static str,
    },
    /// There is no such target.
    Unknown,
}

// A target that is only read.
fn read_only<'a>(method: &str, route: Route<'a>) -> Route<'a>
    ensures { target_of result ≡ read_by method.now (target_of route.entry) }
{
    match method {
        "GET" | "HEAD" => route,
        _ => Route::Method { allow: "GET, HEAD" },
    }
}

fn bulk<'a>(method: &str, index: Option<&'a str>) -> Route<'a>
    ensures { target_of result ≡ bulk_by method.now (option_map (λ t. t.now) index.entry) }
{
    match method {
        "POST" | "PUT" => Route::Bulk { index },
        _ => Route::Method { allow: "POST, PUT" },
    }
}

fn document<'a>(method: &str, index: &'a str, id: &'a str) -> Route<'a>
    ensures { target_of result ≡ document_by method.now index.now id.now }
{
    match method {
        "PUT" | "POST" => Route::Put { index, id },
        "DELETE" => Route::Delete { index, id },
        _ => Route::Method {
            allow: "PUT, POST, DELETE",
        },
    }
}

// Whether no index has this name: it is empty, or begins with `_`.
fn is_reserved(part: &str) -> bool
    ensures { result ≡ is_reserved part.now }
{
    match part.as_bytes().first() {
        Some(byte) => *byte == b'_',
        None => true,
    }
}

// `/FIRST`
fn one_part<'a>(method: &str, first: &'a str) -> Route<'a>
    ensures { target_of result ≡ one_part method.now first.now }
{
    if first.is_empty() {
        return read_only(method, Route::Info);
    }
    if first == "_bulk" {
        return bulk(method, None);
    }
    if first == "_license" {
        return read_only(method, Route::License);
    }
    if is_reserved(first) {
        return Route::Unknown;
    }
    match method {
        "HEAD" => Route::IndexExists,
        _ => Route::Method { allow: "HEAD" },
    }
}

// `/FIRST/SECOND`
fn two_parts<'a>(method: &str, first: &'a str, second: &'a str) -> Route<'a>
    ensures { target_of result ≡ two_parts method.now first.now second.now }
{
    if first == "_cluster" && second == "health" {
        return read_only(method, Route::ClusterHealth);
    }
    if first == "_cat" && second == "health" {
        return read_only(method, Route::CatHealth);
    }
    if first == "_nodes" && second == "http" {
        return read_only(method, Route::Nodes);
    }
    if first == "_relay" {
        return relay_part(method, second);
    }
    if is_reserved(first) {
        return Route::Unknown;
    }
    below_index(method, first, second)
}

// `/_relay/SECOND`
fn relay_part<'a>(method: &str, second: &str) -> Route<'a>
    ensures { target_of result ≡ relay_part method.now second.now }
{
    match second {
        "health" => read_only(method, Route::Health),
        "metrics" => read_only(method, Route::Metrics),
        "stop" => stop(method),
        _ => Route::Unknown,
    }
}

fn stop<'a>(method: &str) -> Route<'a>
    ensures { target_of result ≡ only_by method.now (codes "POST") Stop }
{
    match method {
        "POST" => Route::Stop,
        _ => Route::Method { allow: "POST" },
    }
}

// `/INDEX/SECOND`
fn below_index<'a>(method: &str, index: &'a str, second: &str) -> Route<'a>
    ensures { target_of result ≡ below_index method.now index.now second.now }
{
    if second == "_bulk" {
        return bulk(method, Some(index));
    }
    if second != "_doc" {
        return Route::Unknown;
    }
    match method {
        "POST" => Route::Add { index },
        _ => Route::Method { allow: "POST" },
    }
}

// `/FIRST/SECOND/THIRD`
fn three_parts<'a>(method: &str, first: &'a str, second: &'a str, third: &'a str) -> Route<'a>
    ensures { target_of result ≡ three_parts method.now first.now second.now third.now }
{
    if first == "_nodes" && second == "_all" && third == "http" {
        return read_only(method, Route::Nodes);
    }
    if is_reserved(first) || second != "_doc" {
        return Route::Unknown;
    }
    if third == "_bulk" {
        return bulk(method, Some(first));
    }
    document(method, first, third)
}

// A path without a slash at its end.
fn without_slash(path: &str) -> &str
    ensures { result.now ≡ without_slash path.now }
{
    match path.strip_suffix('/') {
        Some(front) => front,
        None => path,
    }
}

// What comes before the first slash, and what comes after it.
fn cut(path: &str) -> Option<(&str, &str)>
    ensures { MatchOption result (parts_at 47 path.now ≡ path.now ∷ [])
        (λ cut. parts_at 47 path.now ≡ cut.0.now ∷ parts_at 47 cut.1.now) }
{
    path.split_once('/')
}

// What a path asks for, without the slash at its front.
fn route_in<'a>(method: &str, path: &'a str) -> Route<'a>
    ensures { target_of result ≡ by_parts method.now (parts_at 47 path.now) }
{
    let Some((first, rest)) = cut(path) else {
        return one_part(method, path);
    };
    let Some((second, third)) = cut(rest) else {
        return two_parts(method, first, rest);
    };
    match cut(third) {
        Some(_) => Route::Unknown,
        None => three_parts(method, first, second, third),
    }
}

/// What a request with this method and this path asks for.
pub fn route_of<'a>(method: &str, path: &'a str) -> Route<'a>
    ensures { target_of result ≡ asked_by method.now path.now }
{
    match path.strip_prefix('/') {
        Some(rest) => route_in(method, without_slash(rest)),
        None => Route::Unknown,
    }
}
