//! Putting the operations of an input.
ghost use Rattle.std.specs.Prelude.{◌≡◌, ◌≢◌, IfErr, IsTrue, is_some};
ghost use Rattle.relay_ndjson.specs.declared.parser.Phase.TheVariants as phase;
ghost use Rattle.relay_producer.specs.Ends.{identities, open_puts};
ghost use Rattle.relay_run.specs.Feeding.{FeedsAllTelling, FeedsTelling, Puts, failed_by};
ghost use Rattle.relay_run.specs.Feeding.{fault_of, last_line};

use crate::settling::Telling;
use crate::stopping::{SharedStop, is_stopped};
use relay_action::{Action, ByteIn, DocKey};
use relay_ndjson::{Input, InputFault};
use relay_producer::{Producer, PutFaultKind};
use std::sync::Wait;

/// Why a producer was not fed all of an input.
#[derive(Clone, Copy, Debug, PartialEq, Eq)]
pub enum FeedFault {
    /// A line breaks the producer grammar, a read failed, or an allocation for a line did. All
    /// operations before it were put.
    Input(InputFault),
    /// The producer has put 2^40 operations. The next one was read, but not put.
    NumbersSpent,
    /// The lane of the next operation is gone. The operation was read, but not put.
    LaneGone,
    /// The run takes no more input. Everything that was read was put.
    Stopped,
}

/// Puts the operations of an input, in order, until there are no more, there is a fault, or the run
/// is to stop, which it looks at before each. It tells each operation before it is put, by the place
/// where it ends, and sends what it told before it may wait for the input. The producer is not closed.
/// It waits for the input, and while the queue of an operation's lane is full.
pub fn feed<R: Wait, S: ByteIn>(
    rt: &R,
    input: &mut Input<'_, S>,
    producer: &mut Producer,
    stop: &Option<SharedStop>,
    telling: &mut Telling,
) -> Result<(), FeedFault>
    requires { input.old.phase ≡ phase.Open }
    ensures feeds { FeedsAllTelling input.old input.new producer.old producer.new telling.old
        telling.new
        result }
    ensures failed { input.new.failed ≡ failed_by result input.old.failed }
    ensures same { identities (open_puts producer.new.ends)
        ≡ identities (open_puts producer.old.ends) }
    ensures producer { producer.new.producer ≡ producer.old.producer }
    ensures asked { IfErr result (λ e. e ≡ FeedFault.Stopped → IsTrue (is_some stop.now)) }
{
    'operations: loop {
        if is_stopped(stop) {
            return Err(FeedFault::Stopped);
        }
        match feed_next(rt, input, producer, telling)? {
            Next::Put => {}
            Next::Ended => return Ok(()),
        }
    }
}

// What the next line was.
#[derive(Clone, Copy, Debug, PartialEq, Eq)]
enum Next {
    // An operation, which was put.
    Put,
    // The end of the input.
    Ended,
}

// Sends what was told, if the next operation may have to wait for the input.
fn flush_before<R: Wait, S: ByteIn>(rt: &R, input: &Input<'_, S>, telling: &mut Telling)
    ensures { telling.new ≡ telling.old }
{
    if telling.has_unsent() && !input.is_ready() {
        telling.flush(rt);
    }
}

// Puts the next operation.
fn feed_next<R: Wait, S: ByteIn>(
    rt: &R,
    input: &mut Input<'_, S>,
    producer: &mut Producer,
    telling: &mut Telling,
) -> Result<Next, FeedFault>
    requires { input.old.phase ≡ phase.Open }
    ensures next { FeedsTelling input.old input.new producer.old producer.new telling.old
        telling.new
        result }
    ensures reads { IfErr result (λ e. e ≢ FeedFault.Stopped) }
    ensures failed { input.new.failed ≡ failed_by result input.old.failed }
    ensures same { identities (open_puts producer.new.ends)
        ≡ identities (open_puts producer.old.ends) }
{
    flush_before(rt, input, telling);
    match input.next() {
        Ok(Some((key, action))) => {
            telling.put(rt, last_line(input.line(), &action), input.used());
            put(rt, producer, key, action)?;
            Ok(Next::Put)
        }
        Ok(None) => Ok(Next::Ended),
        Err(fault) => Err(FeedFault::Input(fault)),
    }
}

// The number of the last line of an operation, given that of its action line.
fn last_line(line: u64, action: &Action) -> u64
    ensures { result ≡ last_line line action.now }
{
    match action {
        Action::Index(_) => line.saturating_add(1),
        Action::Delete => line,
    }
}

// Puts an operation.
fn put<R: Wait>(
    rt: &R,
    producer: &mut Producer,
    key: DocKey,
    action: Action,
) -> Result<(), FeedFault>
    ensures puts { Puts key action producer.old producer.new result }
    ensures same { identities (open_puts producer.new.ends)
        ≡ identities (open_puts producer.old.ends) }
{
    match producer.put(rt, key, action) {
        Ok(_) => Ok(()),
        Err(fault) => Err(fault_of(fault.kind)),
    }
}

fn fault_of(kind: PutFaultKind) -> FeedFault
    ensures { result ≡ fault_of kind }
{
    match kind {
        PutFaultKind::LaneGone => FeedFault::LaneGone,
        PutFaultKind::NumbersSpent => FeedFault::NumbersSpent,
    }
}
