//! Sockets on the loopback.
ghost use Rattle.std.specs.Prelude.{◌≡◌, []};

use crate::listening::{address_of, serves_with, wired};
use relay_fixtures::asking::{Told, sends, told_by};
use relay_index::Index;
use relay_net::{TcpDial, TcpListen};
use relay_wires::{Dial, Wire};
use std::net::Net;
use std::process::Abort;

// The result of a delete over a wire to a listener. The request is small enough to wait in the
// socket until the connection is accepted.
fn exchange<R: Net + Abort + AllocGlobal, W: Wire>(
    rt: &R,
    listener: &mut TcpListen<R>,
    wire: &mut W,
) -> Told
    requires { W.out wire.old ≡ [] }
{
    if let Err(told) = sends(rt.alloc(), wire, 1, "2", 2) {
        return told;
    }
    serves_with(rt, listener, 1, &mut Index::new(rt.alloc()));
    told_by(wire.receive(1))
}

#[test]
fn a_request_over_a_socket(rt: HostRuntime) {
    let mut listener = TcpListen::bind(&rt, "127.0.0.1:0").expect(&rt, "a port");
    let mut wire = wired(rt, address_of(&rt, &listener));
    assert!(rt; exchange(&rt, &mut listener, &mut wire) == Told::Entries(1, 404));
}

// Whether an address can be dialled, and listened on.
fn around<R: Net + Abort + AllocGlobal>(rt: &R, address: &str) -> (bool, bool) {
    let dialled = address.to_string(rt.alloc()).expect(rt, "memory");
    let is_dialled = TcpDial::new(rt, dialled).dial().is_ok();
    (is_dialled, TcpListen::bind(rt, address).is_ok())
}

// The address of a listener can be dialled and not listened on while it listens, and the other way
// round when it is gone.
#[test]
fn with_and_without_a_listener(rt: HostRuntime) {
    let listener = TcpListen::bind(&rt, "localhost:0").expect(&rt, "a port");
    let address = address_of(&rt, &listener);
    assert!(rt; around(&rt, address.as_str()) == (true, false));
    drop(listener);
    assert!(rt; around(&rt, address.as_str()) == (false, true));
}

const NO_ADDRESSES: &[&str] = &[
    "",
    ":",
    "127.0.0.1",
    "127.0.0.1:",
    "127.0.0.1:65536",
    "no host:1",
];

#[test]
fn no_addresses(rt: HostRuntime) {
    for address in NO_ADDRESSES {
        assert!(rt; around(&rt, *address) == (false, false), "{address}");
    }
}
