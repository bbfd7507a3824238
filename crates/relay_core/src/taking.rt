//! Taking an operation.
ghost use Rattle.std.specs.Prelude.{◌≡◌, true, ◌+◌, ◌^◌, ◌≤◌, ◌<◌, is_some, IfSome, OnOk, length};
ghost use Rattle.std.specs.Prelude.{vec_len, vec_capacity};
ghost use Rattle.relay_ndjson.specs.Bulk.{write_text};
ghost use Rattle.relay_results.specs.Documents.{write_for};
ghost use Rattle.relay_core.specs.Memory.{kept_new};

use crate::report::Report;
use crate::settled::TakeFault;
use crate::success::Success;
use relay_action::{Body, DocKey, Mail, Op, Write};
use relay_held::{Held, Kept};
use relay_ndjson::write_len;
use std::alloc::AllocError;

/// An operation that was not taken.
#[derive(Debug, Drop)]
pub struct NoRoom {
    /// The operation.
    pub op: Op,
}

/// Makes room for the later report, or success, of each operation that is held and of one more.
pub(crate) fn make_room(
    held: &Held,
    reports: &mut Vec<Report>,
    successes: &mut Vec<Success>,
) -> Result<(), AllocError>
    requires { length held.now.list + 1 < 2 ^ 32 }
    ensures reports { reports.new.items ≡ reports.old.items }
    ensures reports_len { vec_len reports.new ≡ vec_len reports.old }
    ensures capacity { vec_capacity reports.old ≤ vec_capacity reports.new }
    ensures reports_room { OnOk result
        (vec_len reports.new + length held.now.list + 1 ≤ vec_capacity reports.new) }
    ensures successes { successes.new.items ≡ successes.old.items }
    ensures successes_len { vec_len successes.new ≡ vec_len successes.old }
    ensures places { vec_capacity successes.old ≤ vec_capacity successes.new }
    ensures successes_room { OnOk result
        (vec_len successes.new + length held.now.list + 1 ≤ vec_capacity successes.new) }
{
    let more = held.len() + 1;
    reports.reserve(more)?;
    successes.reserve(more)?;
    Ok(())
}

/// An operation as it is held, and a copy of its document.
pub(crate) fn kept_of(op: Op, key: DocKey, version: u64, clock: u64, cap: u32) -> Kept
    requires { key ≡ op.key }
    ensures { result ≡ kept_new op version (length (write_text (write_for op version))) clock cap }
{
    let kind = op.action.kind();
    let name = op.name();
    let write = Write {
        key: op.key,
        version,
        action: op.action,
    };
    Kept {
        name,
        key,
        kind,
        version,
        bytes: write_len(&write),
        cap,
        taken_at: clock,
        since: clock,
        due: clock,
        sends: 0,
        attempts: 0,
        flies: None,
        write: Some(write),
    }
}

/// The operation again, if it was not held.
pub(crate) fn op_of(one: Kept) -> Op
    requires { is_some one.write ≡ true }
    ensures { IfSome one.write (λ w. result ≡ record {
      epoch = one.name.epoch;
      producer = one.name.producer;
      number = one.name.number;
      key = w.key;
      action = w.action;
    }) }
{
    let Kept { name, write, .. } = one;
    match write {
        Some(write) => Op {
            epoch: name.epoch,
            producer: name.producer,
            number: name.number,
            key: write.key,
            action: write.action,
        },
        None => unreachable!(),
    }
}

/// A refused message, with the reason.
pub(crate) fn refused(fault: TakeFault, sender: u32, number: u64, body: Body) -> (TakeFault, Mail)
    ensures { result ≡ (fault, record { sender = sender; number = number; body = body }) }
{
    (
        fault,
        Mail {
            sender,
            number,
            body,
        },
    )
}
