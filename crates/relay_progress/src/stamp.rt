//! The time at the front of a line.
use jiff::Timestamp;
use std::alloc::{AllocError, Global};
use std::time::{Clock, SystemTime, UNIX_EPOCH};

// The time in UTC to the second, if the clock can be read.
fn time_now<R: Clock>(rt: &R) -> Option<Timestamp> {
    let now = SystemTime::now(rt).ok()?;
    let since = now.duration_since(UNIX_EPOCH).ok()?;
    let seconds = i64::try_from(since.as_secs()).ok()?;
    Timestamp::from_second(seconds).ok()
}

/// Adds the time in UTC, such as `2026-11-27T19:44:44Z`, and a blank, unless the clock cannot be read.
/// `AllocError`: allocation failed; a part of that may have been added.
pub fn add_stamp<R: Clock>(rt: &R, alloc: Global, text: &mut Vec<u8>) -> Result<(), AllocError> {
    if let Some(time) = time_now(rt) {
        let stamp = format!(in alloc; "{time} ")?;
        text.extend_from_slice(stamp.as_bytes())?;
    }
    Ok(())
}
