//! What was answered to what was asked, to be known again.
ghost use Rattle.std.specs.Prelude.{◌≡◌, [], IfOk, IfSome, IsTrue};

use bytes::{Buf, Bytes};
use http::StatusCode;
use http_server::Response;
use relay_front::Asked;
use std::alloc::{AllocError, Global};

/// What a request asked for, and the status and the text of the answer to it.
#[derive(Drop)]
pub(crate) struct Entry {
    pub(crate) asked: Asked,
    pub(crate) status: StatusCode,
    pub(crate) text: Bytes,
}

/// The text of an answer, copied. `None`: it does not lie together, or allocation failed.
pub(crate) fn text_of(alloc: Global, response: &Response) -> Option<Bytes>
    ensures { IfSome result (λ t. t ≡ response.now.body.items) }
{
    let text = response.body.chunk();
    if text.len() != response.body.len() {
        return None;
    }
    Bytes::copy_from_slice(alloc, text).ok()
}

impl Entry {
    /// One more of it, which shares the bytes. `AllocError`: allocation failed.
    pub(crate) fn share(&self, alloc: Global) -> Result<Entry, AllocError>
        ensures { IfOk result (λ e. e ≡ self.now) }
    {
        let asked = self.asked.share(alloc)?;
        let text = self.text.clone()?;
        Ok(Entry {
            asked,
            status: self.status,
            text,
        })
    }

    /// Whether both are the same, byte for byte.
    pub(crate) fn is_same(&self, other: &Entry) -> bool
        ensures { IsTrue result → self.now ≡ other.now }
    {
        self.status == other.status
            && self.text.len() == other.text.len()
            && self.asked.is_same(&other.asked)
            && self.text.as_slice() == other.text.as_slice()
    }

    /// The length of the body and of the text, in bytes.
    pub(crate) fn len(&self) -> u64 {
        let body = self.asked.len() as u64;
        body.saturating_add(self.text.len() as u64)
    }
}

/// What a worker has given to the memory, and what it has answered from it, each in order.
#[derive(Drop)]
pub(crate) struct Spoken {
    pub(crate) given: Vec<Entry>,
    pub(crate) repeated: Vec<Entry>,
}

impl Spoken {
    /// Nothing was given, and nothing answered.
    pub(crate) fn new(alloc: Global) -> Spoken
        ensures given { result.given.items ≡ [] }
        ensures repeated { result.repeated.items ≡ [] }
    {
        Spoken {
            given: Vec::new(alloc),
            repeated: Vec::new(alloc),
        }
    }
}
