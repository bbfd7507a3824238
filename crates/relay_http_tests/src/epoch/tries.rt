//! Repeated tries: on another connection, after faults that may pass and as long as there is
//! patience, and never after an epoch.
use crate::epoch::asking::CREATED;
use crate::epoch::desk::{Answer, Wanted, asks, is_wanted};

const BUSY: &[u8] = b"HTTP/1.1 429 Too Many Requests\r\nContent-Length: 0\r\n\r\n";

const DOWN: &[u8] = b"HTTP/1.1 503 Service Unavailable\r\nContent-Length: 0\r\n\r\n";

const GATEWAY: &[u8] = b"HTTP/1.1 502 Bad Gateway\r\nContent-Length: 0\r\n\r\n";

const LATE: &[u8] = b"HTTP/1.1 504 Gateway Timeout\r\nContent-Length: 0\r\n\r\n";

const FORBIDDEN: &[u8] = b"HTTP/1.1 403 Forbidden\r\nContent-Length: 0\r\n\r\n";

const FAILED: &[u8] = b"HTTP/1.1 500 Internal Server Error\r\nContent-Length: 0\r\n\r\n";

const EMPTY: &[u8] = b"HTTP/1.1 200 OK\r\nContent-Length: 0\r\n\r\n";

// What the connections do, the number of further tries, the result, how many connections were
// dialled, and how many tries are left.
const ROWS: &[(&[Answer<'_>], u32, Wanted, u64, u32)] = &[
    (&[Answer::Says(CREATED, 0)], 0, Wanted::Epoch(1), 1, 0),
    (
        &[Answer::Says(CREATED, 0), Answer::Says(DOWN, 0)],
        3,
        Wanted::Epoch(1),
        1,
        3,
    ),
    (
        &[Answer::Refused, Answer::Says(CREATED, 0)],
        0,
        Wanted::Unreachable,
        1,
        0,
    ),
    (
        &[Answer::Refused, Answer::Says(CREATED, 0)],
        1,
        Wanted::Epoch(1),
        2,
        0,
    ),
    (
        &[Answer::Says(CREATED, 4), Answer::Says(CREATED, 0)],
        1,
        Wanted::Epoch(1),
        2,
        0,
    ),
    (
        &[
            Answer::Says(BUSY, 0),
            Answer::Says(DOWN, 0),
            Answer::Says(GATEWAY, 0),
            Answer::Says(LATE, 0),
            Answer::Says(CREATED, 0),
        ],
        4,
        Wanted::Epoch(1),
        5,
        0,
    ),
    (
        &[Answer::Says(DOWN, 0), Answer::Says(BUSY, 0)],
        1,
        Wanted::Status(429),
        2,
        0,
    ),
    (&[Answer::Says(DOWN, 0)], 1, Wanted::Unreachable, 2, 0),
    (
        &[Answer::Says(FORBIDDEN, 0), Answer::Says(CREATED, 0)],
        9,
        Wanted::Status(403),
        1,
        9,
    ),
    (
        &[Answer::Says(FAILED, 0), Answer::Says(CREATED, 0)],
        9,
        Wanted::Status(500),
        1,
        9,
    ),
    (
        &[Answer::Says(EMPTY, 0), Answer::Says(CREATED, 0)],
        9,
        Wanted::NoVersion,
        1,
        9,
    ),
    (&[], 5, Wanted::Unreachable, 6, 0),
];

#[test]
fn tries(rt: HostRuntime) {
    for (answers, further, wanted, dialled, left) in ROWS {
        let (result, connections, unused) = asks(rt.alloc(), answers, *further);
        assert!(rt; is_wanted(&result, *wanted));
        assert!(rt; connections == *dialled && unused == *left);
    }
}
