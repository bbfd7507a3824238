//! Watched dials.
use relay_net::{TcpDial, TcpListen};
use relay_progress::{CountedDial, Counts, Trouble};
use relay_wires::Dial;
use std::net::Net;
use std::process::Abort;
use std::sync::Arc;

// Whether a connection to an address is made, and what is known of it.
fn dials<R: Net + Abort + AllocGlobal>(rt: &R, address: String) -> (bool, Trouble) {
    let counts = Counts::shared(rt.alloc()).expect(rt, "memory");
    let shared = Arc::try_clone(&counts).expect(rt, "a handle");
    let mut dial = CountedDial::new(TcpDial::new(rt, address), Some(shared));
    let made = dial.dial().is_ok();
    (made, counts.trouble())
}

// An address on which something listens, until the listener that comes with it is gone.
fn listener<R: Net + Abort + AllocGlobal>(rt: &R) -> (TcpListen<R>, String) {
    let listener = TcpListen::bind(rt, "127.0.0.1:0").expect(rt, "a port");
    let address = listener.local_addr().expect(rt, "an address");
    let text = format!(in rt.alloc(); "{address}").expect(rt, "memory");
    (listener, text)
}

#[test]
fn with_and_without_a_listener(rt: HostRuntime) {
    let (listener, address) = listener(&rt);
    let other = address.clone().expect(&rt, "memory");
    assert!(rt; dials(&rt, other) == (true, Trouble::None));
    drop(listener);
    assert!(rt; dials(&rt, address) == (false, Trouble::Refused));
}

#[test]
fn no_address(rt: HostRuntime) {
    let nowhere = "nowhere".to_string(rt.alloc()).expect(&rt, "memory");
    assert!(rt; dials(&rt, nowhere) == (false, Trouble::Other));
}
