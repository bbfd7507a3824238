//! The tests of `relay_core`, and in a folder those of `relay_world`.
#![tactic(auto)]

#[cfg(test)]
mod causes;
#[cfg(test)]
mod desk;
#[cfg(test)]
mod limits;
#[cfg(test)]
mod many;
#[cfg(test)]
mod refusals;
#[cfg(test)]
mod schedules;
#[cfg(test)]
mod successes;
#[cfg(test)]
mod world;
