//! What a worker's front puts its writes by, and where it gets ids.
ghost use Rattle.std.specs.Prelude.{◌≡◌};
ghost use Rattle.relay_producer.specs.Ends.{ClosesAll};
ghost use Rattle.relay_common.specs.Identities.{identity_of, identity_of_closed};
ghost use Rattle.relay_serve.specs.Settling.{Settles};

use crate::clerk::Clerk;
use crate::marks::Marks;
use crate::metrics::metrics_text;
use crate::settler::Settler;
use bytes::Bytes;
use http::Request;
use http_server::Response;
use rand_pcg::Pcg64;
use relay_action::{Action, DocKey, Text};
use relay_clients::Signals;
use relay_front::{Front, Ids, Settle, Settled};
use relay_producer::ClosedProducer;
use relay_receipts::ReceiptTake;
use relay_telling::Ending;
use std::alloc::{AllocError, Global};
use std::sync::Wait;
use std::time::{Clock, Instant};
use uuid::{ContextV7, Uuid};

/// A settler in the hands of a thread that may wait.
#[derive(Drop)]
pub(crate) struct Producing<'a, R: Wait + Clock> {
    pub(crate) rt: &'a R,
    pub(crate) settler: Settler,
    pub(crate) clerk: Clerk,
    /// Of the request whose writes were settled last.
    pub(crate) marks: Marks,
}

impl<'a, R: Wait + Clock> Settle for Producing<'a, R> {
    ghost settles = { λ old writes ends new.
        Settles old.settler.producer writes ends new.settler.producer };

    fn settle(&mut self, writes: Vec<(DocKey, Action)>) -> Result<Settled, AllocError> {
        let marks = self.settler.tally.shared.memory.mark(writes.as_slice())?;
        let settled = self.settler.settle(self.rt, writes)?;
        self.settler.tally.shared.memory.look_after(&marks);
        self.marks = marks;
        self.settler.tally.shared.counts.add(&settled);
        self.settler.tally.shared.turn_if_due(self.rt);
        Ok(settled)
    }

    fn is_ending(&self) -> bool {
        self.settler.tally.shared.is_ending()
    }

    fn trouble(&self, alloc: Global) -> Result<Option<String>, AllocError> {
        self.settler
            .tally
            .shared
            .trouble(alloc, Instant::now(self.rt).ok())
    }

    fn metrics(&self, alloc: Global) -> Result<Vec<u8>, AllocError> {
        metrics_text(
            alloc,
            &self.settler.tally.shared,
            Instant::now(self.rt).ok(),
        )
    }

    fn stop(&self) -> bool {
        if self.clerk.is_local {
            self.settler.tally.shared.end();
        }
        self.clerk.is_local
    }

    fn sets_aside(&self) -> bool {
        self.clerk.report.is_some()
    }

    fn set_aside(&self, lines: Option<Vec<u8>>) {
        if !self.clerk.save(lines) {
            self.settler.tally.shared.add_unsaved();
            self.clerk.say_unsaved(self.rt);
        }
    }

    fn begin(&self) -> Option<Instant> {
        if self.clerk.log.has_requests() {
            Instant::now(self.rt).ok()
        } else {
            None
        }
    }

    fn note(&self, start: Option<Instant>, request: &Request<Bytes>, response: &Response) {
        self.clerk.say_request(self.rt, start, request, response);
    }
}

impl<'a, R: Wait + Clock> Producing<'a, R> {
    /// Closes the producer, and returns it with its end of the channel of its receipts.
    pub(crate) fn close(self) -> (ClosedProducer, ReceiptTake<Ending>)
        ensures closes { ClosesAll self.entry.settler.producer.producer.ends result.0.ends }
        ensures same { (result.0.producer ≡ self.entry.settler.producer.producer.producer)
            × (result.0.put ≡ self.entry.settler.producer.producer.put) }
        ensures identity { identity_of_closed result.0
            ≡ identity_of self.entry.settler.producer.producer }
        ensures receipts { result.1 ≡ self.entry.settler.producer.receipts }
    {
        let Producing { rt, settler, .. } = self;
        settler.close(rt)
    }
}

/// What makes ids for a worker's requests.
#[derive(Drop)]
pub(crate) struct Making {
    pub(crate) alloc: Global,
    pub(crate) ids: ContextV7,
    pub(crate) dice: Pcg64,
}

/// What makes ids, in the hands of a thread that has a clock.
#[derive(Drop)]
pub(crate) struct MakingIds<'a, R: Clock> {
    pub(crate) rt: &'a R,
    pub(crate) making: Making,
}

impl<'a, R: Clock> Ids for MakingIds<'a, R> {
    fn next_id(&mut self) -> Result<Text, AllocError> {
        let alloc = self.making.alloc;
        let Ok(id) = self.making.ids.now_v7(self.rt, &mut self.making.dice) else {
            return Err(AllocError);
        };
        let mut buffer = Uuid::encode_buffer();
        Text::new(alloc, id.hyphenated().encode_lower(&mut buffer))
    }
}

/// The front of a worker.
pub(crate) type WorkerFront<'a, R> = Front<'a, Producing<'a, R>, MakingIds<'a, R>>;
