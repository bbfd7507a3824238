//! What the definitions of `specs/` say of a wire to the stand-in index. This function does
//! nothing; its contract is the law.
ghost use Rattle.relay_loop.specs.Exchanges.{ReceivedIsExchange};

/// What `receive` of a wire to the index returns for a request: its entries are the outcomes of its
/// items, which were run once each and in order; a 413 says that nothing was run; a lost reply, one
/// of the two; and after a failed allocation the first items were run.
pub fn received_is_exchange()
    ensures { ReceivedIsExchange }
{}
