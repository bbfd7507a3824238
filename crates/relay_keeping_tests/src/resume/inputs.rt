//! Inputs that are the same, and inputs that changed.
use crate::resume::desk::{DIGEST, input_of};
use relay_resume::{Changed, Found, InputState, Mark, resumes};
use std::mem;

const MARK: Mark = Mark {
    offset: 260,
    line: 9,
    count: 5,
};

// The digest with another last byte.
const OTHER: [u8; 32] = [
    0, 1, 2, 3, 4, 5, 6, 7, 8, 9, 10, 11, 12, 13, 14, 15, 16, 17, 18, 19, 20, 21, 22, 23, 24, 25,
    26, 27, 28, 29, 30, 32,
];

// The device, the inode, the length and the digest of an input now, of how many bytes the digest was
// then, and whether the run resumes at the mark. The first difference counts, and an input may be longer
// than its mark's offset and shorter than what the digest is of.
type Row = (u64, u64, u64, [u8; 32], u64, Result<Mark, Changed>);

const ROWS: &[Row] = &[
    (2_049, 131, 260, DIGEST, 4, Ok(MARK)),
    (2_049, 131, u64::MAX, DIGEST, 4, Ok(MARK)),
    (2_048, 131, 260, DIGEST, 4, Err(Changed::Device)),
    (2_049, 132, 260, DIGEST, 4, Err(Changed::Inode)),
    (2_049, 131, 259, DIGEST, 4, Err(Changed::Shorter)),
    (2_049, 131, 260, OTHER, 4, Err(Changed::Start)),
    (0, 0, 0, OTHER, 4, Err(Changed::Device)),
    (2_049, 0, 0, OTHER, 4, Err(Changed::Inode)),
    (2_049, 131, 0, OTHER, 4, Err(Changed::Shorter)),
    (2_049, 131, 299, DIGEST, 300, Err(Changed::Shorter)),
    (2_049, 131, 300, DIGEST, 300, Ok(MARK)),
];

// Whether each row is so.
fn are_so(then: &mut InputState, rows: &[Row]) -> bool {
    for (device, inode, length, digest, checked, wanted) in rows {
        then.checked = *checked;
        let now = Found {
            device: *device,
            inode: *inode,
            length: *length,
            digest: *digest,
        };
        if resumes(&now, then) != *wanted {
            return false;
        }
    }
    true
}

#[test]
fn differences(rt: HostRuntime) {
    let mut then = input_of(rt.alloc(), "p").expect(&rt, "an input");
    assert!(rt; are_so(&mut then, ROWS));
    mem::forget(then);
}
