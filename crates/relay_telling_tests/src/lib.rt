//! The tests of `relay_receipts` and `relay_telling`: what lanes tell on the channels of two
//! producers, and what the lanes of running relays tell producers that keep windows.
#![tactic(auto)]

#[cfg(test)]
mod channels;
#[cfg(test)]
mod limits;
#[cfg(test)]
mod many;
#[cfg(test)]
mod refusals;
#[cfg(test)]
mod relays;
#[cfg(test)]
mod waiting;
#[cfg(test)]
mod within;
