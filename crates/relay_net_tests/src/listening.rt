//! Listeners and wires to them.
ghost use Rattle.std.specs.Prelude.{◌≡◌, []};

use relay_action::StdStream;
use relay_http::is_host;
use relay_index::{Index, Script};
use relay_net::{Sockets, TcpDial, TcpListen};
use relay_stub::stub_serve;
use relay_wires::{HttpWire, Unknown};
use std::net::Net;
use std::process::Abort;

/// Serves this many connections with an index that refuses nothing.
pub fn serves_with<R: Net + Abort + AllocGlobal>(
    rt: &R,
    listener: &mut TcpListen<R>,
    requests: u64,
    index: &mut Index,
) {
    let mut script = Script::new(rt.alloc());
    stub_serve(rt.alloc(), listener, requests, index, &mut script).expect(rt, "the connections");
}

/// The address of a listener as text.
pub fn address_of<R: Net + Abort + AllocGlobal>(rt: &R, listener: &TcpListen<R>) -> String {
    let address = listener.local_addr().expect(rt, "an address");
    format!(in rt.alloc(); "{address}").expect(rt, "memory")
}

/// A wire to an address, with one outstanding request at a time.
pub fn wired<R: Net + Abort + AllocGlobal + Copy>(
    rt: R,
    address: String,
) -> HttpWire<StdStream<R::Stream>, TcpDial<Sockets<R>>, Unknown>
    ensures { result.out ≡ [] }
{
    let host = address.clone().expect(&rt, "memory");
    assert!(rt; is_host(host.as_str()));
    HttpWire::new(rt.alloc(), TcpDial::new(rt, address), Unknown, host, 1).expect(&rt, "memory")
}
