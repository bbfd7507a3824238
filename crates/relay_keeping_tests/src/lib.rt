//! The tests of `relay_keeping`: the marks of two inputs, by what two producers and two lanes tell. In
//! a folder those of `relay_resume`.
#![tactic(auto)]

#[cfg(test)]
mod marks;
#[cfg(test)]
mod refusals;
#[cfg(test)]
mod resume;
