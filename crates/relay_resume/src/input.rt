//! Whether an input is the one that a state describes.
ghost use Rattle.std.specs.Prelude.{◌≡◌, bytes_eq};
ghost use Rattle.relay_resume.specs.Inputs.{resumes};

use crate::mark::Mark;
use crate::state::InputState;
use thiserror::Error;

/// An input as it is now.
#[derive(Clone, Copy, Debug, PartialEq, Eq)]
pub struct Found {
    /// The number of its device.
    pub device: u64,
    /// The number of its inode.
    pub inode: u64,
    /// Its length in bytes.
    pub length: u64,
    /// The SHA-256 digest of as many bytes at its start as the state's digest is of.
    pub digest: [u8; 32],
}

/// The first difference between an input and the one that a state describes.
#[derive(Clone, Copy, Debug, PartialEq, Eq, Error)]
pub enum Changed {
    /// It is on another device.
    #[error("it is on another device")]
    Device,
    /// It has another inode.
    #[error("it is another file")]
    Inode,
    /// It is shorter than what was settled, or than what the digest is of.
    #[error("it is shorter than it was")]
    Shorter,
    /// It begins with other bytes.
    #[error("it begins with other bytes")]
    Start,
}

// Whether two digests are the same.
fn is_same(one: &[u8], other: &[u8]) -> bool
    ensures { result ≡ bytes_eq one.now other.now }
{
    one == other
}

/// The place from which to read an input on, if it is the one that a state describes: it has the
/// same device and inode, is at least as long as its mark's offset and as what the digest is of, and
/// begins with the same bytes. Otherwise the first of these that differs.
pub fn resumes(now: &Found, then: &InputState) -> Result<Mark, Changed>
    ensures { result ≡ resumes now.now then.now }
{
    if now.device != then.device {
        return Err(Changed::Device);
    }
    if now.inode != then.inode {
        return Err(Changed::Inode);
    }
    if now.length < then.mark.offset || now.length < then.checked {
        return Err(Changed::Shorter);
    }
    if !is_same(&now.digest, &then.digest) {
        return Err(Changed::Start);
    }
    Ok(then.mark)
}
