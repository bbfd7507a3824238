//! What `relay run` and `relay serve` have in common: the epoch that they lease from the index, the
//! ticks that wake their lanes, and the line of counts that they end with; and, for both, what
//! producers put that are passed to threads and come back closed.
#![tactic(auto)]

pub mod counts;
pub mod leasing;
pub mod ticking;
