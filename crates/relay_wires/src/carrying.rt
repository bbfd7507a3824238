//! One request on one connection.
ghost use Rattle.std.specs.Prelude.{◌≡◌, ◌==◌, ◌&&◌, ◌∷◌, ◌++◌, []};
ghost use Rattle.std.specs.Prelude.{if◌then◌else◌, ◌+◌, ◌<◌, ◌≤◌};
ghost use Rattle.std.specs.Prelude.{length, vec_len, vec_capacity, true, IsTrue};
ghost use Rattle.std.specs.Prelude.{Some, None, IfOk, IfErr, OnErr, MatchResult};
ghost use Rattle.relay_ndjson.specs.Bulk.{text_of};
ghost use Rattle.relay_http.specs.Connection.{is_open, HasNone};
ghost use Rattle.relay_http.specs.Framing.{request_limit};
ghost use Rattle.relay_http.specs.WrittenRequest.{is_host};
ghost use Rattle.relay_lane.specs.Wires.{IsWireReply};
ghost use Rattle.relay_wires.specs.Carriers.{AllFree, FindsFree, PicksOne};
ghost use Rattle.relay_wires.specs.Carriers.{WritesOn, loss_by, loss_dialled};
ghost use Rattle.relay_wires.specs.Carriers.{Heard, BringsFrom};
ghost use Rattle.relay_wires.specs.Peers.{Serves, Drops};

use crate::peer::Peer;
use crate::told::tell;
use relay_action::{ByteIn, ByteOut, ByteStream, Write};
use relay_http::{Conn, Dial, DialFault, HttpFault, Peek};
use relay_lane::{Loss, WireReply};
use std::alloc::Global;

// Takes the free connection that was freed last among those on which nothing has arrived since.
// Those freed after it are dropped.
fn take_quiet<S: Peek + Drop>(free: &mut Vec<Conn<S>>) -> Option<Conn<S>>
    requires { AllFree free.old.items }
    ensures finds { FindsFree free.old.items free.new.items result }
    ensures free_left { AllFree free.new.items }
    ensures capacity { vec_capacity free.new ≡ vec_capacity free.old }
{
    'looking: while let Some(conn) = free.pop() {
        if conn.is_quiet() {
            return Some(conn);
        }
    }
    None
}

// A connection for a request: a free one on which nothing has arrived, or a fresh one.
pub(crate) fn pick<S: Peek + Drop, D: Dial<S>>(
    alloc: Global,
    free: &mut Vec<Conn<S>>,
    dial: &mut D,
) -> Result<Conn<S>, Loss>
    requires { AllFree free.old.items }
    ensures picks { PicksOne free.old.items free.new.items (D.failed dial.old) (D.failed dial.new)
        (D.dialled dial.old) (D.dialled dial.new) result }
    ensures free_left { AllFree free.new.items }
    ensures capacity { vec_capacity free.new ≡ vec_capacity free.old }
{
    if let Some(conn) = take_quiet(free) {
        return Ok(conn);
    }
    let stream = match dial.dial() {
        Ok(stream) => stream,
        Err(fault) => return Err(loss_dialled(fault)),
    };
    Conn::new(alloc, stream).map_err(|_| Loss::Memory)
}

// What a dial that failed means to the lane.
fn loss_dialled(fault: DialFault) -> Loss
    ensures { result ≡ loss_dialled fault }
{
    match fault {
        DialFault::Refused => Loss::Refused,
        DialFault::TimedOut => Loss::TimedOut,
        DialFault::Unreachable => Loss::Unreachable,
    }
}

pub(crate) fn carry<S: ByteOut + Peek + Drop>(
    alloc: Global,
    conn: &mut Conn<S>,
    host: &str,
    writes: &[Write],
) -> Result<(), Loss>
    requires lasts { IsTrue (is_open conn.old.phase) }
    requires host { IsTrue (is_host host.now) }
    requires few { length writes.now ≤ 10000 }
    requires size { length (text_of writes.now) ≤ request_limit }
    ensures { WritesOn host.now writes.now conn.old conn.new result }
{
    match conn.write_request(alloc, host, writes) {
        Ok(()) => Ok(()),
        Err(fault) => Err(loss_by(conn.has_timed_out(), fault)),
    }
}

// What a fault of a connection means to the lane. `late`: its stream had no time left.
fn loss_by(late: bool, fault: HttpFault) -> Loss
    ensures { result ≡ loss_by late fault }
{
    match fault {
        HttpFault::Read | HttpFault::Write if late => Loss::TimedOut,
        HttpFault::Read | HttpFault::Write | HttpFault::Ended | HttpFault::Broken => Loss::Closed,
        HttpFault::Memory => Loss::Memory,
        _ => Loss::Unreadable,
    }
}

// A connection that may carry a further message is free, unless it holds bytes beyond its last
// reply.
fn release<S: ByteStream + Drop>(conn: Conn<S>, keep: bool, free: &mut Vec<Conn<S>>)
    requires { vec_len free.old < vec_capacity free.old }
    ensures free { free.new.items ≡ (if keep && (length conn.held == 0)
        then free.old.items ++ conn ∷ [] else free.old.items) }
    ensures capacity { vec_capacity free.new ≡ vec_capacity free.old }
{
    if keep && conn.held() == 0 {
        free.push_reserved(conn);
    }
}

// Lets the far end have the request with this number, which was written on this connection.
pub(crate) fn hear<S: ByteStream + Drop, P: Peer<S>>(
    peer: &mut P,
    number: u64,
    conn: Conn<S>,
) -> Result<Conn<S>, Loss>
    ensures describes { P.describes peer.new ≡ P.describes peer.old }
    ensures heard { IfOk result (Heard (P.describes peer.old) conn) }
    ensures memory { IfErr result (λ f. f ≡ Loss.Memory) }
    ensures described { OnErr result (P.describes peer.old ≡ true) }
    ensures took { IsTrue (P.describes peer.old) → IfOk result (λ c. HasNone c.written) }
    ensures does { MatchResult result
        (λ c. P.does peer.old peer.new number conn.written (Some c.left))
        (λ _. P.does peer.old peer.new number conn.written None) }
    ensures outside { IsTrue (P.describes peer.old) → MatchResult result
        (λ c. Serves P.fits peer.old peer.new number conn.written c.left)
        (λ _. Drops P.fits peer.old peer.new number conn.written) }
{
    let (stream, rest) = conn.apart();
    match peer.hear(number, stream) {
        Ok(stream) => Ok(rest.over(stream)),
        Err(_) => Err(Loss::Memory),
    }
}

// Reads a reply from a connection. The connection is then free if it may carry a further message
// and no byte beyond the reply was read.
pub(crate) fn bring<S: ByteIn + Peek + Drop>(
    alloc: Global,
    mut conn: Conn<S>,
    free: &mut Vec<Conn<S>>,
) -> Result<WireReply, Loss>
    requires lasts { IsTrue (is_open conn.phase) }
    requires room { vec_len free.old < vec_capacity free.old }
    requires all_free { AllFree free.old.items }
    ensures brings { BringsFrom conn free.old.items free.new.items result }
    ensures reply { IsWireReply result }
    ensures free_left { AllFree free.new.items }
    ensures capacity { vec_capacity free.new ≡ vec_capacity free.old }
    ensures grows { vec_len free.new ≤ vec_len free.old + 1 }
{
    let reply = match conn.read_reply(alloc) {
        Ok(reply) => reply,
        Err(fault) => return Err(loss_by(conn.has_timed_out(), fault)),
    };
    release(conn, reply.keep, free);
    tell(alloc, &reply)
}
