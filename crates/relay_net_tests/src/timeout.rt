//! Calls on connections with a time limit.
use crate::listening::address_of;
use relay_action::{ByteIn, ByteOut};
use relay_http::{Listen, Peek};
use relay_net::{TcpDial, TcpListen, TimedDial};
use relay_wires::Dial;
use std::net::Net;
use std::process::Abort;
use std::time::{Clock, Duration, Instant};

// Whether a read fails on a connection to a listener that accepts none, on which nothing arrives.
fn silent_read_fails<R: Net + Abort + AllocGlobal>(rt: &R) -> bool {
    let listener = TcpListen::bind(rt, "127.0.0.1:0").expect(rt, "a port");
    let mut dial = TcpDial::new(rt, address_of(rt, &listener)).with_timeout(1);
    let mut stream = dial.dial().expect(rt, "a connection");
    stream.read(&mut [0; 1]).is_err()
}

// Whether a call with a limit of one second took about that long.
fn is_in_time(taken: Duration) -> bool {
    (Duration::from_millis(900)..Duration::from_secs(20)).contains(&taken)
}

#[test]
fn a_read_that_waits_too_long(rt: HostRuntime) {
    let start = Instant::now(&rt).expect(&rt, "the time");
    assert!(rt; silent_read_fails(&rt));
    assert!(rt; is_in_time(start.elapsed(&rt).expect(&rt, "the time")));
}

// Whether a second read fails on a connection on which a byte arrives and nothing more, and the
// calls are not limited themselves; and whether it then says that it ran out of time, and not before.
fn second_read_fails<R: Net + Clock + Abort + AllocGlobal + Copy>(rt: R) -> bool {
    let mut listener = TcpListen::bind(&rt, "127.0.0.1:0").expect(&rt, "a port");
    let dial = TcpDial::new(rt, address_of(&rt, &listener));
    let mut stream = TimedDial::new(dial, rt, 1)
        .dial()
        .expect(&rt, "a connection");
    let mut peer = listener.accept().expect(&rt, "a connection");
    let sent = peer.write(b"x").expect(&rt, "a byte");
    let first = stream.read(&mut [0; 1]).is_ok() && !stream.has_timed_out();
    let second = stream.read(&mut [0; 1]).is_err() && stream.has_timed_out();
    listener.close(peer);
    sent == 1 && first && second
}

#[test]
fn a_message_that_takes_too_long(rt: HostRuntime) {
    let start = Instant::now(&rt).expect(&rt, "the time");
    assert!(rt; second_read_fails(rt));
    assert!(rt; is_in_time(start.elapsed(&rt).expect(&rt, "the time")));
}
