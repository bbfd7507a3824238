//! The address of a document in the API of OpenSearch: the request target `/INDEX/_doc/ID`, whose
//! parts are percent-encoded (RFC 3986, section 2.1), and `INDEX/ID` and `HOST:PORT`, as they are
//! given on a command line. It depends on `relay_action` for documents and on `percent_encoding`.
//!
//! What is proved: what is written is the target of the document, and a target is read as the
//! document whose percent-decoded parts it has.
#![tactic(auto)]

pub mod address;
mod key;
pub mod name;
pub mod reading;
pub mod writing;

pub use address::{AddressFault, read_address};
pub use name::read_name;
pub use reading::read_target;
pub use writing::document_target;
