//! Tests of `relay_http`, over its public items: tables of replies and requests, in pieces of
//! several sizes and cut at each position; messages at their limits; what is written; failing
//! streams; and what other programs write. In a folder those of `relay_epoch`.
#![tactic(auto)]

#[cfg(test)]
mod epoch;
#[cfg(test)]
mod failing;
#[cfg(test)]
mod growth;
#[cfg(test)]
mod large;
#[cfg(test)]
mod limits;
#[cfg(test)]
mod peers;
#[cfg(test)]
mod puts;
#[cfg(test)]
mod reading;
#[cfg(test)]
mod refusals;
#[cfg(test)]
mod replies;
#[cfg(test)]
mod requests;
#[cfg(test)]
mod written;
