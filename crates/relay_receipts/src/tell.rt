//! The lanes' ends.
ghost use Rattle.std.specs.Prelude.{◌≡◌, [], ◌∷◌, ◌++◌, true, false, IfErr, OnOk, OnErr};

use crate::bell::Bell;
use crate::notice::{Gone, Notice};
use crate::rule::{NoticePass, NoticeSender, Says};
use crossbeam_channel::SendError;
use std::marker::Model;
use std::sync::Wait;

/// A lane's end of a channel of receipts. Contracts see its channel, its lane, the list of what it
/// told, and whether it has closed.
#[derive(Drop)]
pub struct LaneTell<T: Drop> {
    pub(crate) channel: NoticeSender<T>,
    pub(crate) pass: NoticePass<T>,
    pub(crate) lane: u32,
    pub(crate) closed: bool,
    pub(crate) bell: Bell,
}

impl<T: Drop> Model for LaneTell<T> {
    ghost use Rattle.std.specs.Prelude.{◌≡◌};
    ghost use Rattle.crossbeam_channel.specs.Claims.{view as known_by, IsSeatAt};
    ghost use Rattle.crossbeam_channel.specs.Ends.{sends_on};
    ghost use Rattle.relay_receipts.specs.Ends.{TellEnd, channel_of};
    ghost use Rattle.relay_receipts.specs.Steps.{IsLane, lane_of, told_of, closed_of};

    ghost Value = { TellEnd T };

    ghost view = { λ a. record {
      channel = channel_of a.pass;
      lane = a.lane;
      told = told_of (known_by a.pass);
      closed = a.closed;
    } };

    ghost invariant = { λ a. IsSeatAt (sends_on a.channel) a.pass
        × IsLane (known_by a.pass)
        × (lane_of (known_by a.pass) ≡ a.lane)
        × (closed_of (known_by a.pass) ≡ a.closed) };
}

impl<T: Drop> LaneTell<T> {
    /// Tells the producer how one of its operations ended. It waits while the channel is full, which
    /// it is not as long as the producer keeps its window, and does not allocate.
    ///
    /// `Err` returns the ending, and nothing was told: this end has closed, or the producer's end is
    /// dropped. No contract says when that is.
    pub fn tell<R: Wait>(&mut self, rt: &R, ending: T) -> Result<(), T>
        ensures same { (self.new.channel ≡ self.old.channel) × (self.new.lane ≡ self.old.lane)
            × (self.new.closed ≡ self.old.closed) }
        ensures told { OnOk result (self.new.told ≡ self.old.told ++ ending ∷ []) }
        ensures is_open { OnOk result (self.old.closed ≡ false) }
        ensures gone { IfErr result (λ back. (back ≡ ending) × (self.new ≡ self.old)) }
    {
        if self.closed {
            return Err(ending);
        }
        let notice = Notice {
            lane: self.lane,
            told: Some(ending),
        };
        match self.channel.send_as::<Says, R>(rt, &mut self.pass, notice) {
            Ok(()) => {
                self.bell.ring();
                Ok(())
            }
            Err(
                SendError::Disconnected(
                    Notice {
                        told: Some(ending),
                        ..
                    },
                ),
            ) => Err(ending),
            Err(_) => unreachable!(),
        }
    }

    /// Sends the lane's last notice, which says that it tells no more, unless it has done so. It
    /// waits while the channel is full, and does not allocate. `Gone`: the producer's end is
    /// dropped, and the end has not closed.
    pub fn close<R: Wait>(&mut self, rt: &R) -> Result<(), Gone>
        ensures closed { OnOk result (self.new ≡ record self.old { closed = true }) }
        ensures gone { OnErr result ((self.old.closed ≡ false) × (self.new ≡ self.old)) }
    {
        if self.closed {
            return Ok(());
        }
        let notice = Notice {
            lane: self.lane,
            told: None,
        };
        match self.channel.send_as::<Says, R>(rt, &mut self.pass, notice) {
            Ok(()) => {
                self.closed = true;
                self.bell.ring();
                Ok(())
            }
            Err(_) => Err(Gone),
        }
    }

    /// Tells no more, whether or not it has closed.
    pub fn end(self) -> ToldLane<T>
        ensures { result ≡ self }
    {
        let LaneTell {
            channel,
            pass,
            lane: _,
            closed: _,
            bell: _,
        } = self;
        ToldLane { channel, pass }
    }
}

/// A lane's end that tells no more, to be met with what the producer took. Contracts see it as a
/// [`LaneTell`].
///
/// It keeps its end of the channel, and until it is dropped, the producer learns of no disconnect.
#[derive(Drop)]
pub struct ToldLane<T: Drop> {
    pub(crate) channel: NoticeSender<T>,
    pub(crate) pass: NoticePass<T>,
}

impl<T: Drop> Model for ToldLane<T> {
    ghost use Rattle.crossbeam_channel.specs.Claims.{view as known_by, IsSeatAt};
    ghost use Rattle.crossbeam_channel.specs.Ends.{sends_on};
    ghost use Rattle.relay_receipts.specs.Ends.{TellEnd, channel_of};
    ghost use Rattle.relay_receipts.specs.Steps.{IsLane, lane_of, told_of, closed_of};

    ghost Value = { TellEnd T };

    ghost view = { λ a. record {
      channel = channel_of a.pass;
      lane = lane_of (known_by a.pass);
      told = told_of (known_by a.pass);
      closed = closed_of (known_by a.pass);
    } };

    ghost invariant = { λ a. IsSeatAt (sends_on a.channel) a.pass × IsLane (known_by a.pass) };
}
