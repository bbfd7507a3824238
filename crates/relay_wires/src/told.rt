//! What an HTTP reply means to a lane.
ghost use Rattle.relay_http.specs.Reply.{reply_view};
ghost use Rattle.relay_wires.specs.Meaning.{Tells};

use relay_http::HttpReply;
use relay_lane::{Loss, WireReply};
use relay_results::{ReplyFault, read_refusal, read_reply};
use std::alloc::Global;

// The status of a reply whose body has entries.
const OK: u16 = 200;

/// What a reply means to a lane, by its status: 200 returns its entries, and any other status is
/// the answer to the request as a whole, with the reason that the body gives. `Unreadable`: the status is 200, and the body is not a
/// bulk reply. `Memory`: an allocation failed.
pub fn tell(alloc: Global, reply: &HttpReply) -> Result<WireReply, Loss>
    ensures { Tells (reply_view reply.now) result }
{
    if reply.status != OK {
        return match read_refusal(alloc, reply.body.as_slice()) {
            Ok(reason) => Ok(WireReply::Whole(reply.status, reason)),
            Err(_) => Err(Loss::Memory),
        };
    }
    match read_reply(alloc, reply.body.as_slice()) {
        Ok(outcomes) => Ok(WireReply::Items(outcomes)),
        Err(ReplyFault::Memory) => Err(Loss::Memory),
        Err(_) => Err(Loss::Unreadable),
    }
}
