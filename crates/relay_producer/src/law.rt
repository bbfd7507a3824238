//! What a producer put can be read from its ends.
ghost use Rattle.std.specs.Prelude.{◌≡◌, ℕ, ◌<◌, List, length};
ghost use Rattle.relay_action.specs.declared.operation.Op.{Op};
ghost use Rattle.relay_queue.specs.Ends.{SenderEnd};
ghost use Rattle.relay_producer.specs.Puts.{HasPut};

/// The law of what was put: the ends of a producer show only one list of operations. If each of two
/// lists is what it put, they are the same. The law is the contract; the body does nothing.
pub fn law_of_puts()
    ensures { (producer count : ℕ) (puts : List SenderEnd) (first second : List Op)
        → 0 < length puts → HasPut producer count puts first → HasPut producer count puts second
        → first ≡ second }
{}
