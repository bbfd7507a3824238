//! What was accepted from a producer.
ghost use Rattle.std.specs.Prelude.{◌≡◌, [], ◌∷◌, ◌++◌, IfOk, OnOk, OnErr, length, option_map};
ghost use Rattle.std.specs.Prelude.{replicate, slice_get};
ghost use Rattle.relay_action.specs.declared.mail.Body.TheVariants as body;
ghost use Rattle.relay_world.specs.Changes.{after_post};
ghost use Rattle.relay_world.specs.Memory.{IsOpenAt};

use crate::desk::Desk;
use relay_action::{Body, Op};
use std::alloc::{AllocError, Global};
use std::marker::Model;

// What was accepted from a producer, in order. Contracts see it as the list of its operations.
#[derive(Drop)]
pub(crate) struct Accepted {
    ops: Vec<Op>,
}

impl Model for Accepted {
    ghost use Rattle.std.specs.Prelude.{List};
    ghost use Rattle.relay_action.specs.declared.operation.Op.{Op};

    ghost Value = { List Op };

    ghost view = { λ a. a.ops.items };
}

pub(crate) fn none_accepted(alloc: Global, producers: u32) -> Result<Vec<Accepted>, AllocError>
    ensures { IfOk result (λ v. v.items ≡ replicate producers []) }
{
    let mut accepted = Vec::with_capacity(alloc, producers as usize)?;
    'lists: for _ in 0..producers {
        accepted.push(Accepted::new(alloc))?;
    }
    Ok(accepted)
}

impl Accepted {
    pub(crate) fn new(alloc: Global) -> Accepted
        ensures { result ≡ [] }
    {
        Accepted {
            ops: Vec::new(alloc),
        }
    }

    pub(crate) fn of(ops: Vec<Op>) -> Accepted
        ensures { result ≡ ops.items }
    {
        Accepted { ops }
    }

    pub(crate) fn as_slice(&self) -> &[Op]
        ensures { result.now ≡ self.now }
    {
        self.ops.as_slice()
    }

    pub(crate) fn op_at(&self, place: u64) -> Option<&Op>
        ensures { option_map (λ o. o.now) result ≡ slice_get self.now place }
    {
        self.ops.get(place as usize)
    }

    pub(crate) fn len(&self) -> u64
        ensures { result ≡ length self.now }
    {
        self.ops.len() as u64
    }

    // Accepts an operation and puts it into the queue of its lane. `AllocError`: allocation failed;
    // nothing changed.
    pub(crate) fn accept(&mut self, op: Op, desk: &mut Desk) -> Result<(), AllocError>
        requires { IsOpenAt op.producer desk.old }
        ensures list { OnOk result (self.new ≡ self.old ++ op ∷ []) }
        ensures queue { OnOk result (desk.new ≡ after_post op.producer (body.Put op) desk.old) }
        ensures unchanged { OnErr result (self.new ≡ self.old) }
        ensures same_queue { OnErr result (desk.new ≡ desk.old) }
    {
        let sent = op.copy()?;
        self.ops.reserve(1)?;
        desk.post(op.producer, Body::Put(sent))?;
        self.ops.push_reserved(op);
        Ok(())
    }
}
