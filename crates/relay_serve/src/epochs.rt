//! The epochs of a server's terms.
ghost use Rattle.std.specs.Prelude.{◌≡◌, ◌+◌, ◌≤◌, IfErr, IfOk};

use crate::epoch::{EpochSource, FileFault, open_epoch, raise_epoch};
use crate::options::ServeOptions;
use crate::saying::{say, say_line};
use relay_action::ByteOut;
use relay_common::leasing::lease;
use relay_core::config::EPOCH_LIMIT;
use relay_epoch::{EpochFault, fault_text};
use relay_words::Exit;
use std::alloc::Global;
use std::fs::File;

/// Gives an epoch for each term, above those that it gave before.
#[derive(Drop)]
pub(crate) struct Epochs {
    // The file that the epochs come from, once it is open: it stays locked.
    file: Option<File>,
    /// No epoch below this one is given.
    pub(crate) floor: u32,
}

fn exit_of_file(fault: FileFault) -> Exit {
    match fault {
        FileFault::Memory => Exit::Memory,
        FileFault::Form => Exit::Input,
        FileFault::Device | FileFault::Locked | FileFault::Spent => Exit::Device,
    }
}

// Raises the epoch in a file, which is opened and locked if it is not yet.
fn raise_in(
    host: &HostRuntime,
    alloc: Global,
    path: &str,
    file: &mut Option<File>,
    floor: u32,
) -> Result<u32, FileFault> {
    let mut open = match file.take() {
        Some(open) => open,
        None => open_epoch(host, path)?,
    };
    let raised = raise_epoch(alloc, &mut open, floor);
    *file = Some(open);
    raised
}

// The next epoch from a file. If there is none, says why.
fn from_file<E: ByteOut>(
    host: &HostRuntime,
    alloc: Global,
    path: &str,
    file: &mut Option<File>,
    floor: u32,
    err: &mut E,
) -> Result<u32, Exit> {
    match raise_in(host, alloc, path, file, floor) {
        Ok(epoch) => Ok(epoch),
        Err(fault) => {
            say(err, path.as_bytes());
            say(err, b": ");
            say_line(err, fault.text());
            Err(exit_of_file(fault))
        }
    }
}

fn say_no_epoch<E: ByteOut>(alloc: Global, fault: &EpochFault, err: &mut E) -> Exit {
    if let Ok(text) = fault_text(alloc, fault) {
        say(err, text.as_slice());
    }
    match fault {
        EpochFault::Memory => Exit::Memory,
        _ => Exit::Device,
    }
}

impl Epochs {
    /// None was given yet.
    pub(crate) fn new() -> Epochs
        ensures { result.floor ≡ 0 }
    {
        Epochs {
            file: None,
            floor: 0,
        }
    }

    // An epoch from where the options say. If there is none, says why.
    fn ask<E: ByteOut>(
        &mut self,
        host: &HostRuntime,
        alloc: Global,
        options: &ServeOptions,
        err: &mut E,
    ) -> Result<u32, Exit>
        ensures { self.new.floor ≡ self.old.floor }
    {
        match &options.epoch {
            EpochSource::Given(epoch) => Ok((*epoch).max(self.floor)),
            EpochSource::File(path) => {
                from_file(host, alloc, path.as_str(), &mut self.file, self.floor, err)
            }
            EpochSource::Counter(counter) => {
                let to = options.to.as_str();
                lease(*host, alloc, counter, to, options.timeout, options.patience).map_err(
                    |fault| say_no_epoch(alloc, &fault, err),
                )
            }
        }
    }

    /// The epoch of the next term. If there is none, says why on `err`, and returns the exit status.
    pub(crate) fn next<E: ByteOut>(
        &mut self,
        host: &HostRuntime,
        alloc: Global,
        options: &ServeOptions,
        err: &mut E,
    ) -> Result<u32, Exit>
        ensures above { IfOk result (λ epoch. self.old.floor ≤ epoch) }
        ensures floor { IfOk result (λ epoch. self.new.floor ≡ epoch + 1) }
        ensures none { IfErr result (λ _. self.new.floor ≡ self.old.floor) }
    {
        let epoch = self.ask(host, alloc, options, err)?;
        if epoch < self.floor {
            say_line(err, "the epoch is not above the one before");
            return Err(Exit::Device);
        }
        if epoch > EPOCH_LIMIT {
            say_line(err, "there is no epoch above 4194303");
            return Err(Exit::Device);
        }
        self.floor = epoch + 1;
        Ok(epoch)
    }
}
