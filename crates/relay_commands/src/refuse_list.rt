//! The refusals that a command line asks for.
ghost use Rattle.std.specs.Prelude.{◌↔◌, ℕ, List, IsTrue};
ghost use Rattle.std.specs.Prelude.{IfSome, IfNone, IfOk, IfErr, OnOk, MatchOption};
ghost use Rattle.relay_index.specs.Choices.{MayRefuse};
ghost use Rattle.relay_commands.specs.Cuts.{Adds, IsSplitAt, IsPartFault, IsUncut};
ghost use Rattle.relay_commands.specs.Refusals.{IsList, IsListFault, Refuses};
ghost use Rattle.relay_commands.specs.Refusals.{IsNoRefusal, IsRefusal};

use relay_index::{Script, may_refuse};
use relay_words::number_of;
use std::alloc::Global;
use thiserror::Error;

/// Why a text has no script.
#[derive(Clone, Copy, Debug, PartialEq, Eq, Error)]
pub enum ListFault {
    /// The text is not a list of refusals: after `before` valid pairs there is an invalid one.
    #[error("BadList")]
    BadList {
        /// The number of valid pairs before it.
        before: u64,
    },
    /// An allocation for the script failed.
    #[error("Memory")]
    Memory,
}

/// The script of a list of refusals, such as `2:429,5:400`: pairs of a position and a status in
/// decimal digits, with a colon in each pair and commas between them. Positions count items from 1,
/// up to 2^64 - 1; a status is from 400 to 599, except 404 and 409. Leading zeros are allowed,
/// signs and spaces are not. If a position is given twice, its last status counts.
///
/// `BadList`: the text is not such a list; it names the first invalid pair. `Memory`: an allocation
/// for the script failed.
pub fn refuse_list(alloc: Global, list: &str) -> Result<Script, ListFault>
    ensures ok { IfOk result (λ script. (refusals : List (ℕ × ℕ)) × IsList list.now refusals
        × Refuses refusals script) }
    ensures err { IfErr result (IsListFault list.now) }
{
    let mut script = Script::new(alloc);
    let mut rest = list;
    let mut before = 0;
    'parts: while let Some((part, later)) = cut_at_comma(rest) {
        add(&mut script, part, before)?;
        rest = later;
        before += 1;
    }
    add(&mut script, rest, before)?;
    Ok(script)
}

// The parts of a text before its first colon and after it.
fn cut_at_colon(text: &str) -> Option<(&str, &str)>
    ensures { MatchOption result (IsUncut 58 text.now)
        (λ x. IsSplitAt 58 text.now x.0.now x.1.now) }
{
    text.split_once(':')
}

// The parts of a text before its first comma and after it.
fn cut_at_comma(text: &str) -> Option<(&str, &str)>
    ensures { MatchOption result (IsUncut 44 text.now)
        (λ x. IsSplitAt 44 text.now x.0.now x.1.now) }
{
    text.split_once(',')
}

// Whether a number is a status with which an index may refuse an item.
fn is_refusal(status: u64) -> bool
    ensures { IsTrue result ↔ MayRefuse status }
{
    u16::try_from(status).is_ok_and(may_refuse)
}

// The position and the status of a refusal.
fn refusal_of(part: &str) -> Option<(u64, u16)>
    ensures some { IfSome result (λ r. IsRefusal part.now r.0 r.1) }
    ensures none { IfNone result (IsNoRefusal part.now) }
{
    let (place, status) = cut_at_colon(part)?;
    let place = number_of(place)?;
    let status = number_of(status)?;
    if place == 0 || !is_refusal(status) {
        return None;
    }
    Some((place, status as u16))
}

// Adds the refusal of a part of a list, which is preceded by `before` others.
fn add(script: &mut Script, part: &str, before: u64) -> Result<(), ListFault>
    ensures ok { OnOk result ((place : ℕ) × (status : ℕ) × IsRefusal part.now place status
        × Adds script.old script.new place status) }
    ensures err { IfErr result (IsPartFault part.now before) }
{
    let Some((place, status)) = refusal_of(part) else {
        return Err(ListFault::BadList { before });
    };
    match script.refuse(place, status) {
        Ok(()) => Ok(()),
        Err(_) => Err(ListFault::Memory),
    }
}
