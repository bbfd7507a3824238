//! The tests of `relay_world`.

mod before;
mod causes;
mod many;
mod refusals;
mod restarts;
mod script;
mod worked;
