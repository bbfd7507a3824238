//! A server in its own thread.
ghost use Rattle.std.specs.Prelude.{◌≡◌, []};

use crate::listening::{address_of, serves_with, wired};
use relay_fixtures::asking::{Told, asks};
use relay_index::Index;
use relay_net::TcpListen;
use relay_wires::Wire;
use std::alloc::Global;
use std::net::Net;
use std::process::Abort;
use std::thread;

// How many writes an index has applied to its first document after serving this many connections.
fn serves<R: Net + Abort + AllocGlobal>(
    rt: &R,
    mut listener: TcpListen<R>,
    requests: u64,
) -> usize {
    let mut index = Index::new(rt.alloc());
    serves_with(rt, &mut listener, requests, &mut index);
    let keys = index.keys(rt.alloc()).expect(rt, "memory");
    index.applied(keys.first().expect(rt, "a document")).len()
}

// The results of three deletes of one document with versions 2, 1 and 3.
fn asks_all<W: Wire>(alloc: Global, wire: &mut W) -> [Told; 3]
    requires { W.out wire.old ≡ [] }
{
    let second = asks(alloc, wire, 1, "2", 2);
    let first = asks(alloc, wire, 1, "2", 1);
    [second, first, asks(alloc, wire, 1, "2", 3)]
}

// The results of the three over sockets, and how many of them the server applied.
#[test]
fn a_server_in_a_thread(rt: HostRuntime) {
    let listener = TcpListen::bind(&rt, "127.0.0.1:0").expect(&rt, "a port");
    let mut wire = wired(rt, address_of(&rt, &listener));
    let server = thread::spawn(&rt, move || serves(&rt, listener, 3)).expect(&rt, "a thread");
    let told = [
        Told::Entries(1, 404),
        Told::Entries(1, 409),
        Told::Entries(1, 404),
    ];
    assert!(rt; asks_all(rt.alloc(), &mut wire) == told);
    assert!(rt; server.join(&rt) == 2);
}
