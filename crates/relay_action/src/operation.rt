//! Operations that producers put, and their names.
ghost use Rattle.std.specs.Prelude.{◌≡◌, IfOk};

use crate::action::Action;
use crate::key::DocKey;
use std::alloc::AllocError;

/// The name of an operation: the epoch in which it was put, its producer, and its number among the
/// producer's operations in that epoch, over all lanes.
#[derive(Clone, Copy, Debug, PartialEq, Eq)]
pub struct OpName {
    /// The epoch in which the operation was put.
    pub epoch: u32,
    /// The producer, from 0.
    pub producer: u32,
    /// The operation's number among those of its producer in the epoch, from 1.
    pub number: u64,
}

/// An operation of a producer.
#[derive(Debug, Drop)]
pub struct Op {
    /// The epoch in which the operation was put.
    pub epoch: u32,
    /// The producer, from 0.
    pub producer: u32,
    /// The operation's number among those of its producer in the epoch, from 1.
    pub number: u64,
    /// The document that it changes.
    pub key: DocKey,
    /// The change.
    pub action: Action,
}

impl Op {
    /// The operation's name.
    pub fn name(&self) -> OpName
        ensures { result
            ≡ record {
              epoch = self.now.epoch;
              producer = self.now.producer;
              number =
                  self.now.number;
            } }
    {
        let Op {
            epoch,
            producer,
            number,
            ..
        } = self;
        OpName {
            epoch: *epoch,
            producer: *producer,
            number: *number,
        }
    }

    /// A copy of the operation. `AllocError`: allocation failed.
    pub fn copy(&self) -> Result<Op, AllocError>
        ensures { IfOk result (λ o. o ≡ self.now) }
    {
        Ok(Op {
            epoch: self.epoch,
            producer: self.producer,
            number: self.number,
            key: self.key.copy()?,
            action: self.action.copy()?,
        })
    }
}
