//! The keeper of the marks of a run.
ghost use Rattle.std.specs.Prelude.{◌≡◌, ◌+◌, List, [], ◌∷◌, ◌++◌, IfOk, IfErr, IfSome, true};
ghost use Rattle.std.specs.Prelude.{vec_len};
ghost use Rattle.relay_receipts.specs.declared.notice.Notice.{Notice as NoticeOf};
ghost use Rattle.relay_keeping.specs.declared.told.Told.{Told as ToldOf};
ghost use Rattle.relay_keeping.specs.Keepers.{IsMarkAfter, TakesOne, and_given, new_keeper};
ghost use Rattle.relay_keeping.specs.Meeting.{AllFounded, AreSeated, input_ends, input_starts};
ghost use Rattle.relay_keeping.specs.Meeting.{lane_ends};
ghost use Rattle.relay_keeping.specs.Steps.{FollowAll, starts_of};

use crate::meeting::{meet_inputs, meet_lanes};
use crate::tellers::{InputTelling, LaneTelling};
use crate::told::Told;
use crate::trails::{Followed, follow, follow_from};
use http_server::Log;
use relay_receipts::{Gone, Notice, ReceiptTake, TakenReceipts};
use relay_resume::Mark;
use std::alloc::{AllocError, Global};
use std::marker::Model;
use std::sync::Wait;

/// The keeper of the marks of a run: it takes what the threads tell, and knows before which place of
/// each input every operation is settled. Contracts see its channel, what it took, and the marks that
/// it gave.
#[derive(Drop)]
pub struct MarkKeeper {
    take: ReceiptTake<Told>,
    inputs: Vec<Followed>,
    // Whether the inputs follow all that was taken: no allocation failed.
    is_whole: bool,
    // The marks that were given, for proofs only.
    given: Log<u32, Mark>,
}

impl Model for MarkKeeper {
    ghost use Rattle.std.specs.Prelude.{◌≡◌, true};
    ghost use Rattle.relay_keeping.specs.Keepers.{Keeping, AllWere};
    ghost use Rattle.relay_keeping.specs.Steps.{FollowAll, starts_of};

    ghost Value = { Keeping };

    ghost view = { λ k. record {
      channel = k.take.channel;
      tellers = k.take.lanes;
      starts = starts_of k.inputs.items;
      taken = k.take.taken;
      given = k.given.items;
    } };

    ghost invariant = { λ k. (k.is_whole ≡ true → FollowAll k.take.taken k.inputs.items)
        × AllWere (starts_of k.inputs.items) k.take.taken k.given.items };
}

impl MarkKeeper {
    /// A keeper that takes by this end of a channel, from which nothing was taken, and whose
    /// producers' inputs are read from these marks on. `AllocError`: allocation failed.
    pub(crate) fn new(
        alloc: Global,
        take: ReceiptTake<Told>,
        starts: &[Mark],
    ) -> Result<MarkKeeper, AllocError>
        requires { take.taken ≡ [] }
        ensures { IfOk result (λ k. k ≡ new_keeper take.channel take.lanes starts.now) }
    {
        Ok(MarkKeeper {
            take,
            inputs: follow_from(alloc, starts)?,
            is_whole: true,
            given: Log::new(),
        })
    }

    /// Takes the first notice that is queued, if there is one, and follows it. Returns whether it did.
    /// It does not wait. `Gone`: all tellers' ends are dropped, and nothing is queued; no contract says
    /// when it is returned.
    pub fn try_follow<R: Wait>(&mut self, rt: &R) -> Result<bool, Gone>
        ensures took { IfOk result (λ took. TakesOne took self.old self.new) }
        ensures gone { IfErr result (λ _. self.new ≡ self.old) }
    {
        match self.take.try_take(rt)? {
            Some(notice) => {
                self.is_whole = follow_if(self.is_whole, &mut self.inputs, notice);
                Ok(true)
            }
            None => Ok(false),
        }
    }

    /// The place before which every operation of this producer's input is settled, by what was taken so
    /// far. `None`: there is no such producer, or an allocation failed in an earlier call. It does not
    /// allocate.
    pub fn mark(&mut self, producer: u32) -> Option<Mark>
        ensures mark { IfSome result (λ m. IsMarkAfter self.old.starts self.old.taken producer m) }
        ensures given { self.new
            ≡ record self.old { given = and_given producer result self.old.given } }
    {
        if !self.is_whole {
            return None;
        }
        let mark = mark_at(&self.inputs, producer)?;
        self.given = self.given.and(&producer, &mark);
        Some(mark)
    }

    /// Takes no more. What is queued is dropped with the last end of the channel.
    pub fn end(self) -> Kept
        ensures { result ≡ self }
    {
        let MarkKeeper {
            take,
            inputs,
            is_whole: _,
            given,
        } = self;
        Kept {
            taken: take.end(),
            inputs,
            given,
        }
    }
}

/// What a keeper took and gave, after its end. Contracts see it as a [`MarkKeeper`].
#[derive(Drop)]
pub struct Kept {
    taken: TakenReceipts<Told>,
    inputs: Vec<Followed>,
    given: Log<u32, Mark>,
}

impl Model for Kept {
    ghost use Rattle.relay_receipts.specs.Notices.{IsWellTaken};
    ghost use Rattle.relay_keeping.specs.Keepers.{Keeping, AllWere};
    ghost use Rattle.relay_keeping.specs.Steps.{starts_of};

    ghost Value = { Keeping };

    ghost view = { λ k. record {
      channel = k.taken.channel;
      tellers = k.taken.lanes;
      starts = starts_of k.inputs.items;
      taken = k.taken.taken;
      given = k.given.items;
    } };

    ghost invariant = { λ k. IsWellTaken k.taken.lanes k.taken.taken
        × AllWere (starts_of k.inputs.items) k.taken.taken k.given.items };
}

impl Kept {
    /// Compares what was taken with what each producer's thread and each lane told. In proofs, and only
    /// there, this shows of each mark that was given what is before it: operations whose places the
    /// producer of that input told, each of which a lane was given as applied, or as one whose report
    /// was saved. It does not allocate.
    pub fn meet(self, inputs: Vec<InputTelling>, lanes: Vec<LaneTelling>) -> Kept
        requires inputs { AreSeated self.channel 0 (input_ends inputs.items) }
        requires lanes { AreSeated self.channel (vec_len inputs) (lane_ends lanes.items) }
        requires all { self.tellers ≡ vec_len inputs + vec_len lanes }
        requires starts { input_starts inputs.items ≡ self.starts }
        ensures same { result ≡ self }
        ensures founded { AllFounded inputs.items lanes.items self.given }
    {
        let Kept {
            taken,
            inputs: followed,
            given,
        } = self;
        let taken = meet_inputs(taken, inputs);
        let taken = meet_lanes(taken, lanes);
        Kept {
            taken,
            inputs: followed,
            given,
        }
    }
}

// Follows a notice, if the inputs follow all that was taken before it. Returns whether they follow
// all.
fn follow_if(is_whole: bool, inputs: &mut Vec<Followed>, notice: Notice<Told>) -> bool
    ensures follows { result ≡ true → (is_whole ≡ true)
        × ((taken : List (NoticeOf ToldOf)) → FollowAll taken inputs.old.items
        → FollowAll (taken ++ notice ∷ []) inputs.new.items) }
    ensures starts { starts_of inputs.new.items ≡ starts_of inputs.old.items }
{
    if !is_whole {
        return false;
    }
    match follow(inputs, &notice) {
        Ok(()) => true,
        Err(_) => false,
    }
}

// The mark of a producer's input, if it has one.
fn mark_at(inputs: &[Followed], producer: u32) -> Option<Mark>
    ensures { IfSome result (λ m. (taken : List (NoticeOf ToldOf)) → FollowAll taken inputs.now
        → IsMarkAfter (starts_of inputs.now) taken producer m) }
{
    match inputs.get(producer as usize) {
        Some(input) => Some(input.trail.mark()),
        None => None,
    }
}
