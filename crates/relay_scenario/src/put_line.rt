//! The lines of puts.
ghost use Rattle.std.specs.Prelude.{◌≡◌, ℕ, ◌<◌, ◌^◌, IfOk, IfErr, IfSome, IfNone};
ghost use Rattle.relay_scenario.specs.Words.{IsWord};
ghost use Rattle.relay_words.specs.Numbers.{IsNumber};
ghost use Rattle.relay_scenario.specs.Events.{AsksFor, IsActionFault, IsKey, IsKeyFault};
ghost use Rattle.relay_scenario.specs.Events.{IsPutFault, Puts, fault_of};

use crate::event_line::LineFault;
use crate::words::cut;
use relay_action::{Action, ActionFault, DocKey};
use relay_words::number_of;
use relay_world::Event;
use std::alloc::Global;

/// The event of the text after `put`. `Bad`: no event has this text. `Memory`: allocation failed.
pub fn read_put(alloc: Global, text: &str) -> Result<Event, LineFault>
    ensures ok { IfOk result (Puts text.now) }
    ensures err { IfErr result (IsPutFault text.now) }
{
    let Some((word, rest)) = cut(text) else {
        return Err(LineFault::Bad);
    };
    let Some(producer) = producer_of(word) else {
        return Err(LineFault::Bad);
    };
    let (key, rest) = read_key(alloc, rest)?;
    let action = read_action(alloc, rest)?;
    Ok(Event::Put(producer, key, action))
}

fn producer_of(word: &str) -> Option<u32>
    ensures some { IfSome result (IsNumber word.now) }
    ensures none { IfNone result ((n : ℕ) → IsNumber word.now n → n < 2 ^ 32 → ⊥) }
{
    u32::try_from(number_of(word)?).ok()
}

fn fault_of(fault: ActionFault) -> LineFault
    ensures { result ≡ fault_of fault }
{
    match fault {
        ActionFault::Memory => LineFault::Memory,
        _ => LineFault::Bad,
    }
}

// The document in the first two words, and what follows them.
fn read_key(alloc: Global, text: &str) -> Result<(DocKey, &str), LineFault>
    ensures ok { IfOk result (λ r. IsKey text.now r.0 r.1.now) }
    ensures err { IfErr result (IsKeyFault text.now) }
{
    let Some((index, rest)) = cut(text) else {
        return Err(LineFault::Bad);
    };
    let Some((id, rest)) = cut(rest) else {
        return Err(LineFault::Bad);
    };
    match DocKey::new(alloc, index, id) {
        Ok(key) => Ok((key, rest)),
        Err(fault) => Err(fault_of(fault)),
    }
}

// The action in the text after the document.
fn read_action(alloc: Global, text: &str) -> Result<Action, LineFault>
    ensures ok { IfOk result (AsksFor text.now) }
    ensures err { IfErr result (IsActionFault text.now) }
{
    let Some((word, source)) = cut(text) else {
        return read_deletion(text);
    };
    if word != "index" {
        return Err(LineFault::Bad);
    }
    match Action::index(alloc, source) {
        Ok(action) => Ok(action),
        Err(fault) => Err(fault_of(fault)),
    }
}

// The delete, if the word asks for one.
fn read_deletion(word: &str) -> Result<Action, LineFault>
    requires { IsWord word.now }
    ensures ok { IfOk result (AsksFor word.now) }
    ensures err { IfErr result (IsActionFault word.now) }
{
    if word == "delete" {
        Ok(Action::delete())
    } else {
        Err(LineFault::Bad)
    }
}
