//! How the operations of a request ended.
use relay_results::Cause;

/// How an operation of a request ended, as far as is known when the request is answered.
#[derive(Debug, Drop)]
pub enum End {
    /// The index applied it.
    Applied {
        /// The version that it was assigned.
        version: u64,
        /// The status of its entry in the answer that settled it. `None`: an earlier request, whose
        /// answer was lost, had applied it.
        status: Option<u16>,
    },
    /// It is reported with this cause.
    Reported(Cause),
    /// It was put, and did not end within the time of the request.
    Late,
    /// The time of the request was over before it was put. It is not sent.
    Unput,
    /// Its lane ended before it did, or it could not be put since its lane had ended.
    Gone,
}
