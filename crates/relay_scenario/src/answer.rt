//! The lines that answer events.
ghost use Rattle.std.specs.Prelude.{◌≡◌, [], ◌++◌, codes, OnOk};
ghost use Rattle.relay_scenario.specs.Answers.{AddsItems, IsAnswer, IsAnswerLine};
ghost use Rattle.relay_scenario.specs.Answers.{counts_text, item_text, refusal_name};
ghost use Rattle.relay_words.specs.Texts.{name_text, spaced_number};

use relay_action::{DocKey, OpName};
use relay_core::Settled;
use relay_words::{add_document, add_name, add_number, add_spaced};
use relay_world::{Refusal, StepAnswer, World};
use std::alloc::AllocError;

/// Replaces the text by the line that answers an event. The world is the one after the event.
/// `AllocError`: allocation failed.
pub fn write_answer(world: &World, answer: StepAnswer, line: &mut Vec<u8>) -> Result<(), AllocError>
    ensures { OnOk result (IsAnswerLine world.now answer line.new.items) }
{
    line.clear();
    add_answer(line, world, answer)?;
    line.push(b'\n')?;
    Ok(())
}

// Adds the answer to an event to an empty line.
fn add_answer(line: &mut Vec<u8>, world: &World, answer: StepAnswer) -> Result<(), AllocError>
    requires { line.old.items ≡ [] }
    ensures { OnOk result (IsAnswer world.now answer line.new.items) }
{
    match answer {
        StepAnswer::Refused(refusal) => add_refusal(line, refusal),
        StepAnswer::Put(name) => add_accepted(line, name),
        StepAnswer::Sent(request) => add_sent(line, world, request),
        StepAnswer::Ran(status) => add_ran(line, status),
        StepAnswer::Settled(settled) => add_settled(line, settled),
        StepAnswer::Done => line.extend_from_slice(b"ok"),
    }
}

fn refusal_name(refusal: Refusal) -> &'static str
    ensures { result.now ≡ refusal_name refusal }
{
    match refusal {
        Refusal::Closed => "Closed",
        Refusal::QueueFull => "QueueFull",
        Refusal::NothingQueued => "NothingQueued",
        Refusal::HeldFull => "HeldFull",
        Refusal::NoRequest => "NoRequest",
        Refusal::NotSent => "NotSent",
        Refusal::NotFlying => "NotFlying",
        Refusal::NotRun => "NotRun",
        Refusal::BadStatus => "BadStatus",
        Refusal::NoSuch => "NoSuch",
        Refusal::NumbersSpent => "NumbersSpent",
        Refusal::NotAbove => "NotAbove",
    }
}

fn add_refusal(line: &mut Vec<u8>, refusal: Refusal) -> Result<(), AllocError>
    ensures { OnOk result (line.new.items ≡ line.old.items ++ codes "no " ++ refusal_name refusal) }
{
    line.extend_from_slice(b"no ")?;
    line.extend_from_slice(refusal_name(refusal).as_bytes())
}

fn add_accepted(line: &mut Vec<u8>, name: OpName) -> Result<(), AllocError>
    ensures { OnOk result (line.new.items ≡ line.old.items ++ codes "ok " ++ name_text name) }
{
    line.extend_from_slice(b"ok ")?;
    add_name(line, name)
}

fn add_ran(line: &mut Vec<u8>, status: u16) -> Result<(), AllocError>
    ensures { OnOk result (line.new.items ≡ line.old.items ++ codes "ok" ++ spaced_number status) }
{
    line.extend_from_slice(b"ok")?;
    add_spaced(line, status as u64)
}

// Adds how the operations of a request ended.
fn add_settled(line: &mut Vec<u8>, settled: Settled) -> Result<(), AllocError>
    ensures { OnOk result (line.new.items ≡ line.old.items ++ codes "ok" ++ counts_text settled) }
{
    line.extend_from_slice(b"ok")?;
    add_spaced(line, settled.applied as u64)?;
    add_spaced(line, settled.already as u64)?;
    add_spaced(line, settled.reported as u64)?;
    add_spaced(line, settled.retried as u64)
}

// Adds the request that was sent, and its items.
fn add_sent(line: &mut Vec<u8>, world: &World, request: u64) -> Result<(), AllocError>
    ensures { OnOk result (AddsItems world.now request
        (line.old.items ++ codes "ok" ++ spaced_number request) line.new.items) }
{
    line.extend_from_slice(b"ok")?;
    add_spaced(line, request)?;
    add_items(line, world, request)
}

fn add_items(line: &mut Vec<u8>, world: &World, request: u64) -> Result<(), AllocError>
    ensures { OnOk result (AddsItems world.now request line.old.items line.new.items) }
{
    let mut item = 1;
    'items: while let Some((key, version)) = world.sent(request, item) {
        add_item(line, key, version)?;
        item += 1;
    }
    Ok(())
}

// Adds an item, a space and `INDEX/ID@VERSION`.
fn add_item(line: &mut Vec<u8>, key: &DocKey, version: u64) -> Result<(), AllocError>
    ensures { OnOk result (line.new.items ≡ line.old.items ++ item_text (key.now, version)) }
{
    line.extend_from_slice(b" ")?;
    add_document(line, key)?;
    line.extend_from_slice(b"@")?;
    add_number(line, version)
}
