//! A table of requests, read in one piece, in pieces of seven bytes, and byte by byte.
use crate::reading::{PIECES, Request, gives_request, over, reads_request, reads_requests};
use relay_http::HttpFault;

const BODIES: &[(&[u8], Request)] = &[
    (
        b"POST /_bulk HTTP/1.1\r\nHost: a\r\nContent-Length: 2\r\n\r\nok",
        Ok(Some((true, b"ok", true))),
    ),
    (
        b"POST /_bulk HTTP/1.1\r\nTransfer-Encoding: chunked\r\n\r\n2\r\nok\r\n0\r\n\r\n",
        Ok(Some((true, b"ok", true))),
    ),
    (b"POST /_bulk HTTP/1.1\r\n\r\n", Ok(Some((true, b"", true)))),
    (
        b"POST /_bulk HTTP/1.1\r\nContent-Length: 16777217\r\n\r\n",
        Err(HttpFault::BodyLong),
    ),
    (
        b"POST /_bulk HTTP/1.1\r\nContent-Length: 16777216\r\n\r\n",
        Err(HttpFault::Ended),
    ),
    (
        b"POST /_bulk HTTP/1.1\r\nTransfer-Encoding: chunked\r\n\r\n1000001\r\n",
        Err(HttpFault::BodyLong),
    ),
    (
        b"POST /_bulk HTTP/1.1\r\nContent-Length: 2\r\nTransfer-Encoding: chunked\r\n\r\n",
        Err(HttpFault::BothLengths),
    ),
    (
        b"POST /_bulk HTTP/1.1\r\nContent-Encoding: gzip\r\nContent-Length: 2\r\n\r\nok",
        Err(HttpFault::CodedBody),
    ),
    (
        b"POST /_bulk HTTP/1.1\r\nContent-Length: 2, 3\r\n\r\nok",
        Err(HttpFault::Malformed),
    ),
    (
        b"POST /_bulk HTTP/1.1\r\nContent-Length: 3\r\n\r\nok",
        Err(HttpFault::Ended),
    ),
    (b"POST /_bulk HTTP/1.1\r\nHost", Err(HttpFault::Ended)),
    (b"\r\n", Err(HttpFault::Ended)),
    (b"", Ok(None)),
];

#[test]
fn bodies_of_requests(rt: HostRuntime) {
    assert!(rt; reads_requests(&rt, rt.alloc(), BODIES));
}

const LINES_AND_KEEPING: &[(&[u8], Request)] = &[
    (b"GET /_bulk HTTP/1.1\r\n\r\n", Ok(Some((false, b"", true)))),
    (
        b"post /_bulk HTTP/1.1\r\n\r\n",
        Ok(Some((false, b"", true))),
    ),
    (
        b"POST /_bulk?refresh HTTP/1.1\r\n\r\n",
        Ok(Some((false, b"", true))),
    ),
    (
        b"POST /books/_bulk HTTP/1.1\r\n\r\n",
        Ok(Some((false, b"", true))),
    ),
    (
        b"POST http://a/_bulk HTTP/1.1\r\n\r\n",
        Ok(Some((false, b"", true))),
    ),
    (
        b"POST /_bulk HTTP/1.0\r\n\r\n",
        Ok(Some((true, b"", false))),
    ),
    (
        b"POST /_bulk HTTP/1.1\r\nConnection: close\r\n\r\n",
        Ok(Some((true, b"", false))),
    ),
    (b"\r\nPOST /_bulk HTTP/1.1\n\n", Ok(Some((true, b"", true)))),
    (b"POST /_bulk\r\n\r\n", Err(HttpFault::Malformed)),
    (b"POST /_bulk HTTP/1.2\r\n\r\n", Err(HttpFault::Malformed)),
];

#[test]
fn which_requests_are_bulk_and_keep(rt: HostRuntime) {
    assert!(rt; reads_requests(&rt, rt.alloc(), LINES_AND_KEEPING));
}

const WHOLE: &[u8] = b"POST /_bulk HTTP/1.1\r\nHost: a\r\nContent-Length: 5\r\n\r\nhello";

#[test]
fn a_request_cut_anywhere_has_ended(rt: HostRuntime) {
    for piece in PIECES {
        for length in 1..WHOLE.len() {
            assert!(rt;
                reads_request(
                    &rt,
                    rt.alloc(),
                    &WHOLE[..length],
                    piece,
                    Err(HttpFault::Ended)
                )
            );
        }
    }
}

const TWO: &[u8] = b"POST /_bulk HTTP/1.1\r\nContent-Length: 2\r\n\r\nokGET / HTTP/1.1\r\n\r\n";

const TWO_REQUESTS: &[Request] = &[
    Ok(Some((true, b"ok", true))),
    Ok(Some((false, b"", true))),
    Ok(None),
    Ok(None),
];

#[test]
fn requests_one_after_another(rt: HostRuntime) {
    for piece in PIECES {
        let mut conn = over(&rt, rt.alloc(), TWO, piece);
        for wanted in TWO_REQUESTS {
            assert!(rt; gives_request(rt.alloc(), &mut conn, *wanted));
        }
    }
}
