//! What a worker writes down beside its answers: a line for each request, and operations that are set aside.
use crate::options::ServeLog;
use crate::saying::{say, say_line};
use bytes::Bytes;
use http::Request;
use http_server::Response;
use relay_action::StdStream;
use relay_clients::Client;
use relay_progress::add_stamp;
use relay_words::add_number;
use std::alloc::{AllocError, Global};
use std::fs::File;
use std::io::Write;
use std::net::SocketAddr;
use std::time::{Clock, Instant};

// Of a longer path its front is shown.
const PATH_SHOWN: usize = 512;

// The beginning of a line about a request: the time, and the client.
fn begun_line<R: Clock>(
    rt: &R,
    alloc: Global,
    peer: Option<SocketAddr>,
) -> Result<Vec<u8>, AllocError> {
    let mut text = Vec::new(alloc);
    add_stamp(rt, alloc, &mut text)?;
    match peer {
        Some(peer) => text.extend_from_slice(peer.to_string(alloc)?.as_bytes())?,
        None => text.push(b'-')?,
    }
    text.push(b' ')?;
    Ok(text)
}

// Its end: the status, the bytes of the body and of the answer, and the milliseconds.
fn end_line(text: &mut Vec<u8>, numbers: [u64; 4]) -> Result<(), AllocError> {
    for number in numbers {
        text.push(b' ')?;
        add_number(text, number)?;
    }
    text.push(b'\n')?;
    Ok(())
}

// The line about a request that was not read: it has neither a method nor a path.
fn refusal_line<R: Clock>(
    rt: &R,
    alloc: Global,
    peer: Option<SocketAddr>,
    status: u16,
) -> Result<Vec<u8>, AllocError> {
    let mut text = begun_line(rt, alloc, peer)?;
    text.extend_from_slice(b"- -")?;
    end_line(&mut text, [u64::from(status), 0, 0, 0])?;
    Ok(text)
}

/// Says that a request was refused with this status before it was read.
pub(crate) fn say_refusal(host: HostRuntime, alloc: Global, peer: Option<SocketAddr>, status: u16) {
    if let Ok(line) = refusal_line(&host, alloc, peer, status) {
        let mut err = StdStream::new(host.stderr());
        say(&mut err, line.as_slice());
    }
}

/// Writes down things beside a worker's answers, and knows whom the worker serves.
#[derive(Drop)]
pub(crate) struct Clerk {
    pub(crate) host: HostRuntime,
    pub(crate) alloc: Global,
    pub(crate) log: ServeLog,
    /// Where operations that are reported are set aside, if they are.
    pub(crate) report: Option<File>,
    /// The address of the client, if it is shown.
    pub(crate) peer: Option<SocketAddr>,
    /// Whether the client has come by a loopback address.
    pub(crate) is_local: bool,
}

impl Clerk {
    /// This client is served now.
    pub(crate) fn meet(&mut self, client: &Client) {
        self.is_local = client.origin().is_local;
        self.peer = if self.log.has_requests() {
            client.peer()
        } else {
            None
        };
    }

    /// Adds operations to the file. Returns whether they are there.
    pub(crate) fn save(&self, lines: Option<Vec<u8>>) -> bool {
        let (Some(file), Some(lines)) = (&self.report, lines) else {
            return false;
        };
        match file.try_clone() {
            Ok(mut file) => file.write_all(lines.as_slice()).is_ok(),
            Err(_) => false,
        }
    }

    /// Says that operations are not in the file.
    pub(crate) fn say_unsaved<R: Clock>(&self, rt: &R) {
        let mut err = StdStream::new(self.host.stderr());
        let mut stamp = Vec::new(self.alloc);
        if add_stamp(rt, self.alloc, &mut stamp).is_ok() {
            say(&mut err, stamp.as_slice());
        }
        say_line(&mut err, "report: operations were not saved");
    }

    // The line about a request: the client, the method, the path, the status, the bytes of the body and of
    // the answer, and the milliseconds.
    fn request_line<R: Clock>(
        &self,
        rt: &R,
        start: Option<Instant>,
        request: &Request<Bytes>,
        response: &Response,
    ) -> Result<Vec<u8>, AllocError> {
        let mut text = begun_line(rt, self.alloc, self.peer)?;
        text.extend_from_slice(request.method().as_str().as_bytes())?;
        text.push(b' ')?;
        let path = request.uri().path();
        text.extend_from_slice(&path.as_bytes()[..path.floor_char_boundary(PATH_SHOWN)])?;
        let took = match start {
            Some(start) => start.elapsed(rt).map_or(0, |spent| spent.as_millis()),
            None => 0,
        };
        end_line(
            &mut text,
            [
                u64::from(response.status.as_u16()),
                request.body().len() as u64,
                response.body.len() as u64,
                u64::try_from(took).unwrap_or(u64::MAX),
            ],
        )?;
        Ok(text)
    }

    /// Says that a request was answered, if the log has requests.
    pub(crate) fn say_request<R: Clock>(
        &self,
        rt: &R,
        start: Option<Instant>,
        request: &Request<Bytes>,
        response: &Response,
    ) {
        if !self.log.has_requests() {
            return;
        }
        if let Ok(line) = self.request_line(rt, start, request, response) {
            let mut err = StdStream::new(self.host.stderr());
            say(&mut err, line.as_slice());
        }
    }
}
