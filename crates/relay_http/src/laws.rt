//! Laws of the definitions: a stream begins with at most one message, and no message is a proper
//! prefix of another.
ghost use Rattle.std.specs.Prelude.{◌≡◌, ◌++◌, ℕ, List, [], false};
ghost use Rattle.relay_http.specs.Forms.{IsUnique};
ghost use Rattle.relay_http.specs.Reply.{IsReplyMessage, Reply};
ghost use Rattle.relay_http.specs.Request.{IsRequest, Request};

/// A law: no stream begins with two messages, or with the same one at two lengths.
pub fn messages_are_unique()
    ensures replies { IsUnique IsReplyMessage }
    ensures requests { IsUnique IsRequest }
{}

/// A law: no message that ends by itself is a proper prefix of another; this holds of all messages
/// that are written.
pub fn no_proper_prefix()
    ensures replies { (x y more : List ℕ) (a b : Reply) → IsReplyMessage x false a
        → IsReplyMessage y false b → x ++ more ≡ y → more ≡ [] }
    ensures requests { (x y more : List ℕ) (a b : Request) → IsRequest x false a
        → IsRequest y false b → x ++ more ≡ y → more ≡ [] }
{}
