//! The vocabulary that all other crates share: documents, sources, actions and writes, whose types
//! keep the limits; operations, and the mail that carries them to a lane; and the byte streams that
//! are read and written. It depends on no other crate of the workspace.
//!
//! What is proved: a constructor accepts exactly what is within the limits, a copy equals its
//! original, and a stream that shows its bytes shows exactly those that went through it.
#![tactic(auto)]

pub mod action;
pub mod fault;
pub mod key;
pub mod lane;
pub mod laws;
pub mod list;
mod long;
pub mod mail;
pub mod memory;
pub mod operation;
mod short;
pub mod standard;
pub mod stream;
pub mod text;
pub mod write;

pub use action::{Action, ActionKind, SOURCE_LIMIT, Source};
pub use fault::ActionFault;
pub use key::{DocKey, ID_LIMIT, INDEX_LIMIT};
pub use lane::lane_of;
pub use list::List;
pub use mail::{Body, Mail};
pub use memory::MemStream;
pub use operation::{Op, OpName};
pub use standard::StdStream;
pub use stream::{ByteIn, ByteOut, ByteStream, StreamFailed, write_all};
pub use text::Text;
pub use write::{LAST_VERSION, Write};
