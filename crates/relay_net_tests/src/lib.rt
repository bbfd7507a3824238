//! Tests of `relay_net`: requests over the loopback, from a wire's dial to the stand-in server's
//! listener and back, also to a server in its own thread; addresses that cannot be dialled or
//! listened on; names with several addresses; dials that try again; and reads that wait too long. In
//! folders those of `relay_stub` and of `relay_progress`.
#![tactic(auto)]

#[cfg(test)]
mod beside;
#[cfg(test)]
mod listening;
#[cfg(test)]
mod loopback;
#[cfg(test)]
mod names;
#[cfg(test)]
mod patience;
#[cfg(test)]
mod progress;
#[cfg(test)]
mod stub;
#[cfg(test)]
mod timeout;
