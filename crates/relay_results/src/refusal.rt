//! Reading what is said of a request that was refused as a whole.
ghost use Rattle.std.specs.Prelude.{◌≡◌, Option, Err, IfOk, IfErr};
ghost use Rattle.std.specs.Prelude.{codes, option_map, option_and_then};
ghost use Rattle.serde_json.specs.Data.{Data};
ghost use Rattle.serde_json.specs.Find.{get};
ghost use Rattle.relay_json.specs.Walks.{IsRead, IsRefused, IsPast};
ghost use Rattle.relay_results.specs.Replies.{ReadsAs, KeepsGiven, reason_given};
ghost use Rattle.relay_results.specs.Parts.{HoldsReason, HoldsGiven};

use crate::reading::reason_of;
use relay_action::Text;
use relay_json::{Gather, ReadFault, Scratch, Walk, read_object};
use std::alloc::{AllocError, Global};

// The reason of an error, if it is a string.
#[derive(Clone, Copy, Drop)]
struct Reason<'t> {
    reason: Option<&'t str>,
}

impl<'t> Gather<'t> for Reason<'t> {
    ghost Holds = { HoldsReason };

    ghost MayFail = { ⊥ };

    fn member(&mut self, name: &'t str, walk: &mut Walk<'t>) -> Result<(), ReadFault> {
        if name == "reason" {
            self.reason = walk.leaf()?.as_str();
        } else {
            walk.leaf()?;
        }
        Ok(())
    }
}

// The reason in an error: that of an object, or the error itself if it is a string.
fn read_given<'t>(walk: &mut Walk<'t>) -> Result<Option<&'t str>, ReadFault>
    ensures ok { IfOk result (λ r. (d : Data) × IsRead walk.old d walk.new
        × (option_map (λ t. t.now) r ≡ reason_given d)) }
    ensures err { IfErr result (λ e. (e ≡ ReadFault.NotJson) × IsRefused walk.old) }
    ensures past { IsPast walk.old walk.new }
{
    match walk.gather_or_leaf(Reason { reason: None })? {
        Ok(error) => Ok(error.reason),
        Err(leaf) => Ok(leaf.as_str()),
    }
}

// The reason in the member `error` of an object.
#[derive(Clone, Copy, Drop)]
struct Given<'t> {
    reason: Option<&'t str>,
}

impl<'t> Gather<'t> for Given<'t> {
    ghost Holds = { HoldsGiven };

    ghost MayFail = { ⊥ };

    fn member(&mut self, name: &'t str, walk: &mut Walk<'t>) -> Result<(), ReadFault> {
        if name == "error" {
            self.reason = read_given(walk)?;
        } else {
            walk.leaf()?;
        }
        Ok(())
    }
}

// The reason that a body gives, if it is JSON and gives one.
fn find_given<'t>(bytes: &'t [u8], scratch: &'t mut Scratch) -> Result<Option<&'t str>, ReadFault>
    ensures ok { IfOk result (λ r. (d : Data) × ReadsAs bytes.now d
        × (option_map (λ t. t.now) r
        ≡ option_and_then reason_given (get (codes "error") d))) }
    ensures err { result ≡ Err ReadFault.NotJson → (d : Data) → ReadsAs bytes.now d → ⊥ }
{
    let Some(given) = read_object(bytes, scratch, Given { reason: None })? else {
        return Ok(None);
    };
    Ok(given.reason)
}

/// The reason that the body of an answer to a request as a whole gives, if it gives one: the
/// string `reason` of its member `error`, or that member itself if it is a string (OpenSearch,
/// error responses), cut to the longest prefix of at most 512 bytes that ends at a character
/// boundary. A body that is not JSON, or has no such member, gives none. `AllocError`: allocation
/// failed.
pub fn read_refusal(alloc: Global, bytes: &[u8]) -> Result<Option<Text>, AllocError>
    ensures { IfOk result (KeepsGiven bytes.now) }
{
    let mut scratch = Scratch::new(alloc);
    match find_given(bytes, &mut scratch) {
        Ok(given) => reason_of(alloc, given),
        Err(ReadFault::NotJson) => Ok(None),
        Err(ReadFault::Memory) => Err(AllocError),
    }
}
