//! A counted reader.
ghost use Rattle.std.specs.Prelude.{◌≡◌};

use crate::counts::Shared;
use relay_action::{ByteIn, ByteStream, StreamFailed};
use std::marker::Model;

/// A reader that wraps another, and counts the bytes that it reads, if it has counts. It keeps the
/// promises of the reader inside, which is what contracts see.
#[derive(Drop)]
pub struct CountedReader<S> {
    reader: S,
    counts: Option<Shared>,
}

impl<S> Model for CountedReader<S> {
    ghost Value = { S };

    ghost view = { λ r. r.reader };
}

impl<S> CountedReader<S> {
    /// A reader that adds to these counts.
    pub fn new(reader: S, counts: Option<Shared>) -> CountedReader<S>
        ensures { result ≡ reader }
    {
        CountedReader { reader, counts }
    }
}

impl<S: ByteStream> ByteStream for CountedReader<S> {
    ghost left = { λ r. S.left r };

    ghost written = { λ r. S.written r };

    ghost failed = { λ r. S.failed r };
}

impl<S: ByteIn> ByteIn for CountedReader<S> {
    fn read(&mut self, buffer: &mut [u8]) -> Result<usize, StreamFailed> {
        let result = self.reader.read(buffer);
        if let (Some(counts), Ok(count)) = (&self.counts, &result) {
            counts.add_read(*count as u64);
        }
        result
    }
}
