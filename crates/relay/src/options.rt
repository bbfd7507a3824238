//! Options that several subcommands have.
use crate::report::{out_of_memory, usage};
use clap::builder::ValueParser;
use clap::{Arg, ArgAction, ArgMatches};
use relay_action::DocKey;
use relay_core::config::{AGE_LIMIT, ATTEMPTS_UNLIMITED};
use relay_target::read_name;
use relay_words::{Exit, duration_of};
use std::alloc::{AllocError, Global};

/// An option whose value is a text.
#[derive(Clone, Copy)]
pub struct TextOption {
    pub name: &'static str,
    /// What its value is called in the help.
    pub value: &'static str,
    pub help: &'static str,
}

/// An option without a value.
#[derive(Clone, Copy)]
pub struct FlagOption {
    pub name: &'static str,
    pub help: &'static str,
}

/// An option whose value is a number from `least` to `most`.
#[derive(Clone, Copy)]
pub struct NumberOption {
    pub name: &'static str,
    pub least: u64,
    pub most: u64,
    pub default: &'static str,
    pub help: &'static str,
}

/// An option whose value is a length of time, at most `most` units of `unit` milliseconds.
#[derive(Clone, Copy)]
pub struct DurationOption {
    pub name: &'static str,
    pub unit: u64,
    pub most: u64,
    pub default: &'static str,
    pub help: &'static str,
    pub range: &'static str,
}

/// How often an operation that fails is sent again, and for how many ticks since its first send.
#[derive(Clone, Copy)]
pub struct Retries {
    pub attempts: u32,
    pub give_up_after: Option<u32>,
}

/// How long an operation that fails is sent again.
pub const GIVE_UP_AFTER: TextOption = TextOption {
    name: "give-up-after",
    value: "DURATION",
    help: "Send an operation that fails again until so long has passed since it was first sent, rounded up to seconds, 1s to 168h; a bare number counts seconds. never: after 2097152 attempts, which take 155 days or more",
};

/// The address of the index.
pub const TO: TextOption = TextOption {
    name: "to",
    value: "ADDR",
    help: "The address of the index, HOST:PORT, 1 to 255 visible ASCII characters; `http://` before it is dropped",
};

/// What is said of an address that cannot be the host of a request.
pub const NO_HOST: &str = "error: --to ADDR has to be 1 to 255 visible ASCII characters";

// What is said of a counter that is no document.
const NO_COUNTER: &str =
    "error: --epoch-from INDEX/ID has to name an index, 1 to 255 bytes, and after a slash an id, 1 to 512 bytes";

impl TextOption {
    pub fn arg<'a>(&self, alloc: Global) -> Arg<'a> {
        Arg::new(alloc, self.name)
            .long(self.name)
            .value_name(self.value)
            .action(ArgAction::Set)
            .help(self.help)
    }

    /// The value, if it was given or has a default.
    pub fn get<'m>(&self, matches: &'m ArgMatches<'_>) -> Option<&'m str> {
        matches.get_str(self.name)
    }

    /// A copy of the value, if there is one.
    pub fn own(
        &self,
        alloc: Global,
        matches: &ArgMatches<'_>,
    ) -> Result<Option<String>, AllocError> {
        match self.get(matches) {
            Some(text) => Ok(Some(String::from_str(alloc, text)?)),
            None => Ok(None),
        }
    }
}

impl FlagOption {
    pub fn arg<'a>(&self, alloc: Global) -> Arg<'a> {
        Arg::new(alloc, self.name)
            .long(self.name)
            .action(ArgAction::SetTrue)
            .help(self.help)
    }

    /// Whether it was given.
    pub fn is_given(&self, matches: &ArgMatches<'_>) -> bool {
        matches.get_flag(self.name)
    }
}

impl NumberOption {
    pub fn arg<'a>(&self, alloc: Global) -> Arg<'a> {
        Arg::new(alloc, self.name)
            .long(self.name)
            .value_name("N")
            .action(ArgAction::Set)
            .value_parser(ValueParser::unsigned(self.least, self.most))
            .default_value(self.default)
            .help(self.help)
    }

    /// The value, which is there since the option has a default.
    pub fn get(&self, matches: &ArgMatches<'_>) -> u64 {
        matches.get_one::<u64>(self.name).unwrap_or(self.least)
    }

    /// The same for an option whose values have 32 bits.
    pub fn get_u32(&self, matches: &ArgMatches<'_>) -> u32 {
        u32::try_from(self.get(matches)).unwrap_or(u32::MAX)
    }
}

impl DurationOption {
    pub fn arg<'a>(&self, alloc: Global) -> Arg<'a> {
        Arg::new(alloc, self.name)
            .long(self.name)
            .value_name("DURATION")
            .action(ArgAction::Set)
            .default_value(self.default)
            .help(self.help)
    }

    /// The value in its units. If it is not a length of time, or too long, prints so, and returns
    /// the exit status.
    pub fn get<R: Eprint>(&self, rt: &R, matches: &ArgMatches<'_>) -> Result<u32, Exit> {
        let word = matches.get_str(self.name).unwrap_or(self.default);
        let value = duration_of(word, self.unit.max(1)).filter(|value| *value <= self.most);
        match value.and_then(|value| u32::try_from(value).ok()) {
            Some(value) => Ok(value),
            None => {
                let (name, range) = (self.name, self.range);
                let _ = eprintln!(rt;
                    "error: invalid value '{word}' for '--{name} <DURATION>': not a number of ms, s, m or h from {range}"
                );
                Err(Exit::Usage)
            }
        }
    }
}

// The ticks in a second.
const TICKS: u64 = 10;

/// What the value of the option for how long an operation is sent again says. If it is neither `never`
/// nor a length of time, or too short or too long, prints so, and returns the exit status.
pub fn read_retries<R: Eprint>(rt: &R, word: &str) -> Result<Retries, Exit> {
    if word == "never" {
        return Ok(Retries {
            attempts: ATTEMPTS_UNLIMITED,
            give_up_after: None,
        });
    }
    let ticks = duration_of(word, 1_000).and_then(|seconds| seconds.checked_mul(TICKS));
    match ticks.and_then(|ticks| u32::try_from(ticks).ok()) {
        Some(ticks) if 0 < ticks && ticks <= AGE_LIMIT => Ok(Retries {
            attempts: ATTEMPTS_UNLIMITED,
            give_up_after: Some(ticks),
        }),
        _ => {
            let name = GIVE_UP_AFTER.name;
            let _ = eprintln!(rt;
                "error: invalid value '{word}' for '--{name} <DURATION>': neither `never` nor a number of ms, s, m or h from 1s to 168h, or of seconds"
            );
            Err(Exit::Usage)
        }
    }
}

/// The counter document of this name. If the name is not one of a document, prints so, and returns
/// the exit status.
pub fn read_counter<R: Eprint + AllocGlobal>(rt: &R, name: &str) -> Result<DocKey, Exit> {
    match read_name(rt.alloc(), name) {
        Ok(Some(counter)) => Ok(counter),
        Ok(None) => Err(usage(rt, NO_COUNTER)),
        Err(_) => Err(out_of_memory(rt)),
    }
}
