//! What the fields of a head say.
ghost use Rattle.std.specs.Prelude.{◌≡◌, ◌<◌, ◌∷◌, ◌++◌, [], ℕ, List, length, map, All, Result, Ok};
ghost use Rattle.std.specs.Prelude.{Err, codes, if◌then◌else◌, nat_le};
ghost use Rattle.std.specs.List.{list_all, list_any};
ghost use Rattle.httparse.specs.Spans.{IsHeaderWithin, header_bytes};
ghost use Rattle.relay_http.specs.Fields.{Header, same_word, has_field, values_named};
ghost use Rattle.relay_http.specs.Fields.{elements_named, elements, number, agrees};
ghost use Rattle.relay_http.specs.Codings.{coding_of, next_coding};
ghost use Rattle.relay_http.specs.Framing.{framing_of, framing_of_fields, framing_of_request};
ghost use Rattle.relay_http.specs.Framing.{is_chunked, is_interim, is_plain, framing_by_length};
ghost use Rattle.relay_http.specs.Framing.{keeps};

use crate::elements::{all_agree, lists_word};
use crate::fault::HttpFault;
use crate::framing::Framing;
use crate::reply::REPLY_LIMIT;
use crate::request::REQUEST_LIMIT;
use crate::word::{parse_number, same_word, trim_ows};
use httparse::spans::HeaderSpan;

/// The transfer coding, from the `Transfer-Encoding` fields.
#[derive(Clone, Copy, Debug, PartialEq, Eq)]
pub enum Coding {
    /// There is no such field.
    Absent,
    /// There is one, which says `chunked`.
    Chunked,
    /// Anything else.
    Other,
}

// ---- one more field

fn add_field(found: bool, name: &[u8], value: &[u8], wanted: &[u8]) -> bool
    ensures { (before : List Header) → found ≡ has_field wanted.now before
        → result ≡ has_field wanted.now (before ++ (name.now, value.now) ∷ []) }
{
    found | same_word(name, wanted)
}

fn next_coding(coding: Coding, value: &[u8]) -> Coding
    ensures { result ≡ next_coding coding value.now }
{
    match coding {
        Coding::Absent if same_word(value, b"chunked") => Coding::Chunked,
        _ => Coding::Other,
    }
}

fn add_coding(coding: Coding, name: &[u8], value: &[u8]) -> Coding
    ensures { (before : List Header)
        → coding ≡ coding_of (values_named (codes "transfer-encoding") before)
        → result ≡ coding_of
        (values_named (codes "transfer-encoding") (before ++ (name.now, value.now) ∷ [])) }
{
    if !same_word(name, b"transfer-encoding") {
        return coding;
    }
    next_coding(coding, value)
}

fn is_plain(value: &[u8]) -> bool
    ensures { result ≡ is_plain value.now }
{
    value.is_empty() || same_word(value, b"identity")
}

fn add_plain(plain: bool, name: &[u8], value: &[u8]) -> bool
    ensures { (before : List Header)
        → plain ≡ list_all is_plain (values_named (codes "content-encoding") before)
        → result ≡ list_all is_plain
        (values_named (codes "content-encoding") (before ++ (name.now, value.now) ∷ [])) }
{
    if !same_word(name, b"content-encoding") {
        return plain;
    }
    plain & is_plain(value)
}

fn add_agreed(all: bool, name: &[u8], value: &[u8], first: &[u8]) -> bool
    ensures { (before : List Header)
        → all ≡ list_all (agrees first.now) (elements_named (codes "content-length") before)
        → result ≡ list_all (agrees first.now)
        (elements_named (codes "content-length") (before ++ (name.now, value.now) ∷ [])) }
{
    if !same_word(name, b"content-length") {
        return all;
    }
    all & all_agree(value, first)
}

fn add_close(close: bool, name: &[u8], value: &[u8]) -> bool
    ensures { (before : List Header)
        → close ≡ list_any
        (λ e. same_word e (codes "close")) (elements_named (codes "connection") before)
        → result ≡ list_any
        (λ e. same_word e (codes "close"))
        (elements_named (codes "connection") (before ++ (name.now, value.now) ∷ [])) }
{
    if !same_word(name, b"connection") {
        return close;
    }
    close | lists_word(value, b"close")
}

// ---- all fields

fn has_field(buf: &[u8], headers: &[HeaderSpan], wanted: &[u8]) -> bool
    requires { All (IsHeaderWithin (length buf.now)) headers.now }
    ensures { result ≡ has_field wanted.now (map (header_bytes buf.now) headers.now) }
{
    let mut found = false;
    for header in headers {
        found = add_field(found, header.name.of(buf), header.value.of(buf), wanted);
    }
    found
}

fn is_chunked(buf: &[u8], headers: &[HeaderSpan]) -> bool
    requires { All (IsHeaderWithin (length buf.now)) headers.now }
    ensures { result
        ≡ is_chunked (values_named (codes "transfer-encoding")
        (map (header_bytes buf.now) headers.now)) }
{
    let mut coding = Coding::Absent;
    for header in headers {
        coding = add_coding(coding, header.name.of(buf), header.value.of(buf));
    }
    coding == Coding::Chunked
}

fn all_plain(buf: &[u8], headers: &[HeaderSpan]) -> bool
    requires { All (IsHeaderWithin (length buf.now)) headers.now }
    ensures { result
        ≡ list_all is_plain
        (values_named (codes "content-encoding") (map (header_bytes buf.now) headers.now)) }
{
    let mut plain = true;
    for header in headers {
        plain = add_plain(plain, header.name.of(buf), header.value.of(buf));
    }
    plain
}

fn all_lengths_agree(buf: &[u8], headers: &[HeaderSpan], first: &[u8]) -> bool
    requires { All (IsHeaderWithin (length buf.now)) headers.now }
    ensures { result
        ≡ list_all (agrees first.now)
        (elements_named (codes "content-length") (map (header_bytes buf.now) headers.now)) }
{
    let mut all = true;
    for header in headers {
        all = add_agreed(all, header.name.of(buf), header.value.of(buf), first);
    }
    all
}

fn closes(buf: &[u8], headers: &[HeaderSpan]) -> bool
    requires { All (IsHeaderWithin (length buf.now)) headers.now }
    ensures { result
        ≡ list_any (λ e. same_word e (codes "close"))
        (elements_named (codes "connection") (map (header_bytes buf.now) headers.now)) }
{
    let mut close = false;
    for header in headers {
        close = add_close(close, header.name.of(buf), header.value.of(buf));
    }
    close
}

// The length that `first` gives, if all agree with it.
fn agreed(first: &[u8], all: bool, limit: u64) -> Result<Framing, HttpFault>
    requires { limit < 4294967296 }
    ensures { (rest : List (List ℕ)) → all ≡ list_all (agrees first.now) (first.now ∷ rest)
        → result ≡
        (if all then (if nat_le (number first.now) limit then Ok (Framing.Sized (number first.now))
        else Err HttpFault.BodyLong) else Err HttpFault.Malformed) }
{
    if !all {
        return Err(HttpFault::Malformed);
    }
    match parse_number(first) {
        Some(size) if size <= limit => Ok(Framing::Sized(size)),
        _ => Err(HttpFault::BodyLong),
    }
}

fn first_element(value: &[u8]) -> &[u8]
    ensures { (rest : List (List ℕ)) × (elements value.now ≡ result.now ∷ rest) }
{
    match value.iter().position(|b| *b == b',') {
        Some(comma) => trim_ows(&value[..comma]),
        None => trim_ows(value),
    }
}

fn sized(
    buf: &[u8],
    headers: &[HeaderSpan],
    limit: u64,
    otherwise: Framing,
) -> Result<Framing, HttpFault>
    requires within { All (IsHeaderWithin (length buf.now)) headers.now }
    requires limit { limit < 4294967296 }
    ensures { result
        ≡ framing_by_length limit otherwise
        (elements_named (codes "content-length") (map (header_bytes buf.now) headers.now)) }
{
    for header in headers {
        if same_word(header.name.of(buf), b"content-length") {
            let first = first_element(header.value.of(buf));
            return agreed(first, all_lengths_agree(buf, headers, first), limit);
        }
    }
    Ok(otherwise)
}

fn framing_of_fields(
    buf: &[u8],
    headers: &[HeaderSpan],
    limit: u64,
    otherwise: Framing,
) -> Result<Framing, HttpFault>
    requires within { All (IsHeaderWithin (length buf.now)) headers.now }
    requires limit { limit < 4294967296 }
    ensures { result ≡ framing_of_fields limit otherwise (map (header_bytes buf.now) headers.now) }
{
    let coded = has_field(buf, headers, b"transfer-encoding");
    if coded && has_field(buf, headers, b"content-length") {
        return Err(HttpFault::BothLengths);
    }
    if (coded && !is_chunked(buf, headers)) || !all_plain(buf, headers) {
        return Err(HttpFault::CodedBody);
    }
    if coded {
        return Ok(Framing::Chunked);
    }
    sized(buf, headers, limit, otherwise)
}

/// Whether a head with this status is interim: it precedes the final one and is dropped.
pub fn is_interim(status: u16) -> bool
    ensures { result ≡ is_interim status }
{
    status >= 100 && status < 200 && status != 101
}

/// Where the body of a reply ends, or why it has none: `TooManyInterim` (the status is interim),
/// `Malformed` (it is not 200 to 599), and the faults of the fields.
pub fn framing(status: u16, buf: &[u8], headers: &[HeaderSpan]) -> Result<Framing, HttpFault>
    requires { All (IsHeaderWithin (length buf.now)) headers.now }
    ensures { result ≡ framing_of status (map (header_bytes buf.now) headers.now) }
{
    if is_interim(status) {
        return Err(HttpFault::TooManyInterim);
    }
    if !(200..=599).contains(&status) {
        return Err(HttpFault::Malformed);
    }
    if status == 204 || status == 304 {
        return Ok(Framing::Absent);
    }
    framing_of_fields(buf, headers, REPLY_LIMIT as u64, Framing::ToEnd)
}

/// Where the body of a request ends.
pub fn request_framing(buf: &[u8], headers: &[HeaderSpan]) -> Result<Framing, HttpFault>
    requires { All (IsHeaderWithin (length buf.now)) headers.now }
    ensures { result ≡ framing_of_request (map (header_bytes buf.now) headers.now) }
{
    framing_of_fields(buf, headers, REQUEST_LIMIT as u64, Framing::Absent)
}

/// Whether the head lets the connection carry a further message.
pub fn keeps(minor: u8, buf: &[u8], headers: &[HeaderSpan]) -> bool
    requires { All (IsHeaderWithin (length buf.now)) headers.now }
    ensures { result ≡ keeps minor (map (header_bytes buf.now) headers.now) }
{
    minor > 0 && !closes(buf, headers)
}
