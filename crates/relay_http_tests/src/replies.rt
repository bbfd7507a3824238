//! A table of replies, read in one piece, in pieces of seven bytes, and byte by byte.
use crate::reading::{PIECES, Reply, gives_reply, over, reads_replies, reads_reply};
use relay_http::HttpFault;

/// A reply in chunks, after an interim head.
pub const CHUNKED: &[u8] =
    b"HTTP/1.1 100 Continue\r\n\r\nHTTP/1.1 200 OK\r\nTransfer-Encoding: chunked\r\n\r\n5\r\nhello\r\n6\r\n world\r\n0\r\n\r\n";

const WITH_A_LENGTH: &[(&[u8], Reply)] = &[
    (
        b"HTTP/1.1 200 OK\r\nContent-Length: 2\r\n\r\nok",
        Ok((200, b"ok", true)),
    ),
    (
        b"HTTP/1.1 200 OK\r\nContent-Length: 2\r\nContent-Length: 2\r\n\r\nok",
        Ok((200, b"ok", true)),
    ),
    (
        b"HTTP/1.1 200 OK\r\nContent-Length: 2, 2\r\n\r\nok",
        Ok((200, b"ok", true)),
    ),
    (
        b"HTTP/1.1 200 OK\r\nContent-Length: 002\r\nContent-Length: 2 ,0000000000000000000000000000002\r\n\r\nok",
        Ok((200, b"ok", true)),
    ),
    (
        b"HTTP/1.1 200 OK\r\nContent-Length: 0\r\n\r\n",
        Ok((200, b"", true)),
    ),
    (
        b"HTTP/1.1 200 OK\r\nContent-Length: 2, 3\r\n\r\nok",
        Err(HttpFault::Malformed),
    ),
    (
        b"HTTP/1.1 200 OK\r\nContent-Length: 2\r\nContent-Length: 3\r\n\r\nok",
        Err(HttpFault::Malformed),
    ),
    (
        b"HTTP/1.1 200 OK\r\nContent-Length: 2,,2\r\n\r\nok",
        Err(HttpFault::Malformed),
    ),
    (
        b"HTTP/1.1 200 OK\r\nContent-Length: +2\r\n\r\nok",
        Err(HttpFault::Malformed),
    ),
    (
        b"HTTP/1.1 200 OK\r\nContent-Length: -2\r\n\r\nok",
        Err(HttpFault::Malformed),
    ),
    (
        b"HTTP/1.1 200 OK\r\nContent-Length: 0x2\r\n\r\nok",
        Err(HttpFault::Malformed),
    ),
    (
        b"HTTP/1.1 200 OK\r\nContent-Length: 0 2\r\n\r\nok",
        Err(HttpFault::Malformed),
    ),
    (
        b"HTTP/1.1 200 OK\r\nContent-Length: \r\n\r\nok",
        Err(HttpFault::Malformed),
    ),
    (
        b"HTTP/1.1 200 OK\r\nContent-Length: 111111111111111111111111111111\r\n\r\nok",
        Err(HttpFault::BodyLong),
    ),
    (
        b"HTTP/1.1 200 OK\r\nContent-Length: 111111111111111111111111111111, 111111111111111111111111111112\r\n\r\nok",
        Err(HttpFault::Malformed),
    ),
    (
        b"HTTP/1.1 200 OK\r\nContent-Length: 67108865\r\n\r\n",
        Err(HttpFault::BodyLong),
    ),
    (
        b"HTTP/1.1 200 OK\r\nContent-Length: 67108864\r\n\r\n",
        Err(HttpFault::Ended),
    ),
];

#[test]
fn bodies_with_a_length(rt: HostRuntime) {
    assert!(rt; reads_replies(&rt, rt.alloc(), WITH_A_LENGTH));
}

const IN_CHUNKS: &[(&[u8], Reply)] = &[
    (CHUNKED, Ok((200, b"hello world", true))),
    (
        b"HTTP/1.1 200 OK\r\ntransfer-encoding: Chunked\r\n\r\n2;a=b\r\nok\r\n0\r\nX: y\r\nZ: \r\n\r\n",
        Ok((200, b"ok", true)),
    ),
    (
        b"HTTP/1.1 200 OK\r\nTransfer-Encoding: chunked\r\n\r\n0\r\n\r\n",
        Ok((200, b"", true)),
    ),
    (
        b"HTTP/1.1 200 OK\r\nTransfer-Encoding: chunked\r\n\r\n4000001\r\n",
        Err(HttpFault::BodyLong),
    ),
    (
        b"HTTP/1.1 200 OK\r\nTransfer-Encoding: chunked\r\n\r\n2\r\nok\r\n3ffffff\r\n",
        Err(HttpFault::BodyLong),
    ),
    (
        b"HTTP/1.1 200 OK\r\nTransfer-Encoding: chunked\r\n\r\nzz\r\n",
        Err(HttpFault::Malformed),
    ),
    (
        b"HTTP/1.1 200 OK\r\nTransfer-Encoding: chunked\r\n\r\n00000000000000002\r\nok\r\n",
        Err(HttpFault::Malformed),
    ),
    (
        b"HTTP/1.1 200 OK\r\nTransfer-Encoding: chunked\r\n\r\n2\r\nokX\r\n0\r\n\r\n",
        Err(HttpFault::Malformed),
    ),
    (
        b"HTTP/1.1 200 OK\r\nTransfer-Encoding: chunked\r\n\r\n2\r\nok\n0\r\n\r\n",
        Err(HttpFault::Malformed),
    ),
    (
        b"HTTP/1.1 200 OK\r\nTransfer-Encoding: chunked\r\n\r\n2\r\nok\r\n0\r\nbad trailer\r\n\r\n",
        Err(HttpFault::Malformed),
    ),
    (
        b"HTTP/1.1 200 OK\r\nTransfer-Encoding: chunked\r\n\r\n2\r\no",
        Err(HttpFault::Ended),
    ),
    (
        b"HTTP/1.1 200 OK\r\nTransfer-Encoding: chunked\r\n\r\n2\r\nok\r\n0\r\n",
        Err(HttpFault::Ended),
    ),
    (
        b"HTTP/1.1 200 OK\r\nTransfer-Encoding: chunked\r\n\r\n2\r\nok",
        Err(HttpFault::Ended),
    ),
];

#[test]
fn bodies_in_chunks(rt: HostRuntime) {
    assert!(rt; reads_replies(&rt, rt.alloc(), IN_CHUNKS));
}

const CODINGS: &[(&[u8], Reply)] = &[
    (
        b"HTTP/1.1 200 OK\r\nContent-Length: 2\r\nTransfer-Encoding: chunked\r\n\r\nok",
        Err(HttpFault::BothLengths),
    ),
    (
        b"HTTP/1.1 100 Continue\r\n\r\nHTTP/1.1 200 OK\r\nTransfer-Encoding: chunked\r\nContent-Length: 11\r\n\r\n5\r\nhello\r\n",
        Err(HttpFault::BothLengths),
    ),
    (
        b"HTTP/1.1 200 OK\r\nTransfer-Encoding: gzip, chunked\r\n\r\nok",
        Err(HttpFault::CodedBody),
    ),
    (
        b"HTTP/1.1 200 OK\r\nTransfer-Encoding: gzip\r\n\r\nok",
        Err(HttpFault::CodedBody),
    ),
    (
        b"HTTP/1.1 200 OK\r\nTransfer-Encoding: chunked\r\nTransfer-Encoding: chunked\r\n\r\n0\r\n\r\n",
        Err(HttpFault::CodedBody),
    ),
    (
        b"HTTP/1.1 200 OK\r\nTransfer-Encoding: \r\n\r\n0\r\n\r\n",
        Err(HttpFault::CodedBody),
    ),
    (
        b"HTTP/1.1 200 OK\r\nContent-Encoding: gzip\r\nContent-Length: 2\r\n\r\nok",
        Err(HttpFault::CodedBody),
    ),
    (
        b"HTTP/1.1 200 OK\r\nContent-Encoding: identity, identity\r\nContent-Length: 2\r\n\r\nok",
        Err(HttpFault::CodedBody),
    ),
    (
        b"HTTP/1.1 200 OK\r\nContent-Encoding: gzip\r\nContent-Length: 2, 3\r\n\r\nok",
        Err(HttpFault::CodedBody),
    ),
    (
        b"HTTP/1.1 200 OK\r\nContent-Encoding: Identity\r\nContent-Length: 2\r\n\r\nok",
        Ok((200, b"ok", true)),
    ),
    (
        b"HTTP/1.1 200 OK\r\ncontent-encoding: identity\r\nCONTENT-LENGTH: 2\r\n\r\nok",
        Ok((200, b"ok", true)),
    ),
    (
        b"HTTP/1.1 200 OK\r\nContent-Encoding: \r\nContent-Length: 2\r\n\r\nok",
        Ok((200, b"ok", true)),
    ),
    (
        b"HTTP/1.1 204 No Content\r\nContent-Length: 2, 3\r\nTransfer-Encoding: gzip\r\n\r\n",
        Ok((204, b"", true)),
    ),
];

#[test]
fn codings(rt: HostRuntime) {
    assert!(rt; reads_replies(&rt, rt.alloc(), CODINGS));
}

const HEADS_AND_STATUSES: &[(&[u8], Reply)] = &[
    (
        b"HTTP/1.1 101 Switching Protocols\r\n\r\n",
        Err(HttpFault::Malformed),
    ),
    (
        b"HTTP/1.1 199 Early\r\n\r\nHTTP/1.1 304 Not Modified\r\n\r\n",
        Ok((304, b"", true)),
    ),
    (b"HTTP/1.1 099 Low\r\n\r\n", Err(HttpFault::Malformed)),
    (
        b"HTTP/1.1 600 High\r\nContent-Length: 2\r\n\r\nok",
        Err(HttpFault::Malformed),
    ),
    (
        b"HTTP/1.1 999 High\r\nContent-Length: 2\r\n\r\nok",
        Err(HttpFault::Malformed),
    ),
    (
        b"HTTP/1.1 599 \r\nContent-Length: 2\r\n\r\nok",
        Ok((599, b"ok", true)),
    ),
    (
        b"HTTP/1.1 200\r\nContent-Length: 2\r\n\r\nok",
        Ok((200, b"ok", true)),
    ),
    (
        b"HTTP/1.1 200 OK\nContent-Length: 2\n\nok",
        Ok((200, b"ok", true)),
    ),
    (
        b"\r\n\nHTTP/1.1 200 OK\r\nContent-Length: 2\r\n\r\nok",
        Ok((200, b"ok", true)),
    ),
    (
        b"HTTP/1.1 200 OK\r\nX: a\r\n b\r\nContent-Length: 2\r\n\r\nok",
        Err(HttpFault::Malformed),
    ),
    (
        b"HTTP/1.1 200 OK\r\nX: a\0b\r\nContent-Length: 2\r\n\r\nok",
        Err(HttpFault::Malformed),
    ),
    (
        b"HTTP/2.0 200 OK\r\nContent-Length: 2\r\n\r\nok",
        Err(HttpFault::Malformed),
    ),
    (b"HTTP/1.1 20 OK\r\n\r\n", Err(HttpFault::Malformed)),
    (b"no reply\r\n", Err(HttpFault::Malformed)),
    (b"HTTP/1.1 200 OK\r\nContent-Length", Err(HttpFault::Ended)),
    (b"\r\n", Err(HttpFault::Ended)),
    (b"", Err(HttpFault::Ended)),
];

#[test]
fn heads_and_statuses(rt: HostRuntime) {
    assert!(rt; reads_replies(&rt, rt.alloc(), HEADS_AND_STATUSES));
}

const KEEPING: &[(&[u8], Reply)] = &[
    (
        b"HTTP/1.1 200 OK\r\n\r\nto the end",
        Ok((200, b"to the end", false)),
    ),
    (b"HTTP/1.1 200 OK\r\n\r\n", Ok((200, b"", false))),
    (
        b"HTTP/1.0 200 OK\r\nContent-Length: 2\r\n\r\nok",
        Ok((200, b"ok", false)),
    ),
    (
        b"HTTP/1.0 200 OK\r\nConnection: keep-alive\r\nContent-Length: 2\r\n\r\nok",
        Ok((200, b"ok", false)),
    ),
    (
        b"HTTP/1.1 200 OK\r\nConnection: keep-alive, Close\r\nContent-Length: 2\r\n\r\nok",
        Ok((200, b"ok", false)),
    ),
    (
        b"HTTP/1.1 200 OK\r\nConnection: x\r\nconnection:\tclose \r\nContent-Length: 2\r\n\r\nok",
        Ok((200, b"ok", false)),
    ),
    (
        b"HTTP/1.1 200 OK\r\nConnection: closed\r\nContent-Length: 2\r\n\r\nok",
        Ok((200, b"ok", true)),
    ),
    (
        b"HTTP/1.1 204 No Content\r\nConnection: close\r\n\r\n",
        Ok((204, b"", false)),
    ),
];

#[test]
fn which_replies_keep_the_connection(rt: HostRuntime) {
    assert!(rt; reads_replies(&rt, rt.alloc(), KEEPING));
}

#[test]
fn a_reply_cut_anywhere_has_ended(rt: HostRuntime) {
    for piece in PIECES {
        for length in 0..CHUNKED.len() {
            assert!(rt;
                reads_reply(
                    &rt,
                    rt.alloc(),
                    &CHUNKED[..length],
                    piece,
                    Err(HttpFault::Ended)
                )
            );
        }
    }
}

const THREE: &[u8] =
    b"HTTP/1.1 200 OK\r\nContent-Length: 2\r\n\r\nokHTTP/1.1 503 \r\nTransfer-Encoding: chunked\r\n\r\n1\r\na\r\n0\r\n\r\nHTTP/1.1 200 OK\r\n\r\nrest";

const THREE_REPLIES: &[Reply] = &[
    Ok((200, b"ok", true)),
    Ok((503, b"a", true)),
    Ok((200, b"rest", false)),
    Err(HttpFault::Broken),
];

#[test]
fn replies_one_after_another(rt: HostRuntime) {
    for piece in PIECES {
        let mut conn = over(&rt, rt.alloc(), THREE, piece);
        for wanted in THREE_REPLIES {
            assert!(rt; gives_reply(rt.alloc(), &mut conn, *wanted));
        }
    }
}
