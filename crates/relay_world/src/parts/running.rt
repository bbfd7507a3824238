//! Items are run.
ghost use Rattle.std.specs.Prelude.{◌≡◌, ◌-◌, ◌<◌, None, Some};
ghost use Rattle.std.specs.Prelude.{true, OnErr, IfOk, IfSome, option_map, is_some};
ghost use Rattle.relay_world.specs.declared.event.Event.TheVariants as event;
ghost use Rattle.relay_world.specs.State.{item_at};
ghost use Rattle.relay_world.specs.State.{write_at};
ghost use Rattle.relay_world.specs.Refusals.{may_choose};
ghost use Rattle.relay_world.specs.Refusals.{refusal};
ghost use Rattle.relay_world.specs.Changes.{RunsItem};
ghost use Rattle.relay_world.specs.Steps.{Steps};
ghost use Rattle.relay_world.specs.Memory.{IsItemOf, IsWriteAt};

use super::Parts;
use crate::event::{Refusal, StepAnswer};
use crate::request::SentItem;
use relay_action::{DocKey, OpName, Write};
use relay_index::{Choice, may_refuse};
use std::alloc::AllocError;

// Whether an index may be told to do this.
fn may_choose(choice: Choice) -> bool
    ensures { result ≡ may_choose choice }
{
    match choice {
        Choice::Run => true,
        Choice::Refuse(status) => may_refuse(status),
    }
}

impl Parts {
    // The item of a request, both by number.
    fn item(&self, request: u64, item: u64) -> Option<&SentItem>
        ensures { option_map (λ i. i.now) result ≡ item_at self.now request item }
    {
        match self.request(request) {
            Some(sent) if item > 0 => sent.items().get((item - 1) as usize),
            _ => None,
        }
    }

    // The name and the write of an item of a request.
    fn write(&self, request: u64, item: u64) -> Result<Option<(OpName, Write)>, AllocError>
        ensures found { IfOk result
            (λ o. is_some o ≡ is_some (write_at self.now request item)) }
        ensures write { IfOk result
            (λ o. IfSome o (λ p. IsItemOf self.now request item p.0 p.1)) }
    {
        let Some(sent) = self.request(request) else {
            return Ok(None);
        };
        let Some(item) = self.item(request, item) else {
            return Ok(None);
        };
        let Some(op) = self.op_with(sent.lane(), item.version()) else {
            return Ok(None);
        };
        let write = Write {
            key: op.key.copy()?,
            version: item.version(),
            action: op.action.copy()?,
        };
        Ok(Some((op.name(), write)))
    }

    pub(crate) fn run(
        &mut self,
        request: u64,
        item: u64,
        choice: Choice,
    ) -> Result<StepAnswer, AllocError>
        ensures ok { IfOk result
            (λ x. Steps self.old (event.Run request item choice) x self.new) }
        ensures unchanged { OnErr result (self.new ≡ self.old) }
        ensures no_refusal { OnErr result (refusal self.old (event.Run request item choice) ≡ None) }
    {
        if self.sent(request, item).is_none() {
            return Ok(StepAnswer::Refused(Refusal::NotSent));
        }
        if !may_choose(choice) {
            return Ok(StepAnswer::Refused(Refusal::BadStatus));
        }
        let Some((name, write)) = self.write(request, item)? else {
            unreachable!();
        };
        let status = self.run_write(request, item, name, &write, choice)?;
        Ok(StepAnswer::Ran(status))
    }

    // Runs the write of an item.
    fn run_write(
        &mut self,
        request: u64,
        item: u64,
        name: OpName,
        write: &Write,
        choice: Choice,
    ) -> Result<u16, AllocError>
        requires item { IsItemOf self.old request item name write.now }
        requires choice { may_choose choice ≡ true }
        ensures ok { IfOk result
            (λ s. RunsItem self.old request item choice (StepAnswer.Ran s) self.new) }
        ensures unchanged { OnErr result (self.new ≡ self.old) }
    {
        self.sent[request.saturating_sub(1) as usize].run(
            item,
            &mut self.names,
            &mut self.index,
            name,
            write,
            choice,
        )
    }

    // The document and the version of an item of a sent request.
    pub(crate) fn sent(&self, request: u64, item: u64) -> Option<(&DocKey, u64)>
        ensures found { is_some result ≡ is_some (write_at self.now request item) }
        ensures write { IfSome result
            (λ p. IsWriteAt self.now request item p.0.now p.1) }
    {
        let sent = self.request(request)?;
        let item = self.item(request, item)?;
        let op = self.op_with(sent.lane(), item.version())?;
        Some((&op.key, item.version()))
    }
}
