//! The tests of `relay_lane`, and in folders those of `relay_pace`, `relay_wires` and `relay_loop`.
#![tactic(auto)]

#[cfg(test)]
mod documents;
#[cfg(test)]
mod examples;
#[cfg(test)]
mod losing;
#[cfg(test)]
mod many;
#[cfg(test)]
mod pace;
#[cfg(test)]
mod refusals;
#[cfg(test)]
mod telling;
#[cfg(test)]
mod wires;
