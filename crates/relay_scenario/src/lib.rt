//! The script of the world: lines of text that are played, one after another, as events among
//! producers, lanes and an index of `relay_world`; each is answered by a line, and at the end lines
//! say how the world ended. This is the function behind `relay world`, over any reader and writer.
//!
//! It depends on `relay_ndjson` for the lines of a stream and on `relay_world` for the events.
#![tactic(auto)]

mod answer;
pub mod config_line;
mod ending;
pub mod event_line;
pub mod exit;
mod numbered;
mod numbers;
mod playing;
mod put_line;
pub mod script;
mod words;
