//! The command line of a subcommand, as it is built.
use crate::options::{DurationOption, FlagOption, NumberOption, TextOption};
use clap::{Arg, Command};
use std::alloc::{AllocError, Global};

/// A command to which options are added. If an allocation fails, the rest is left out, and
/// [`Self::build`] returns the error.
#[derive(Drop)]
pub struct CommandBuilder<'a> {
    alloc: Global,
    command: Result<Command<'a>, AllocError>,
}

impl<'a> CommandBuilder<'a> {
    /// A command with its help.
    pub fn new(alloc: Global, name: &'a str, about: &'a str, long_about: &'a str) -> Self {
        let command = Command::new(alloc, name)
            .about(about)
            .long_about(long_about);
        CommandBuilder {
            alloc,
            command: Ok(command),
        }
    }

    /// Adds an argument, if it could be made.
    pub fn try_arg(self, arg: Result<Arg<'a>, AllocError>) -> Self {
        let CommandBuilder { alloc, command } = self;
        CommandBuilder {
            alloc,
            command: with_arg(command, arg),
        }
    }

    pub fn arg(self, arg: Arg<'a>) -> Self {
        self.try_arg(Ok(arg))
    }

    pub fn text(self, option: &TextOption) -> Self {
        let arg = option.arg(self.alloc);
        self.arg(arg)
    }

    pub fn required_text(self, option: &TextOption) -> Self {
        let arg = option.arg(self.alloc).required(true);
        self.arg(arg)
    }

    pub fn flag(self, option: &FlagOption) -> Self {
        let arg = option.arg(self.alloc);
        self.arg(arg)
    }

    pub fn number(self, option: &NumberOption) -> Self {
        let arg = option.arg(self.alloc);
        self.arg(arg)
    }

    pub fn numbers(self, options: &[NumberOption]) -> Self {
        let mut builder = self;
        for option in options {
            builder = builder.number(option);
        }
        builder
    }

    pub fn durations(self, options: &[DurationOption]) -> Self {
        let mut builder = self;
        for option in options {
            let arg = option.arg(builder.alloc);
            builder = builder.arg(arg);
        }
        builder
    }

    pub fn build(self) -> Result<Command<'a>, AllocError> {
        self.command
    }
}

fn with_arg<'a>(
    command: Result<Command<'a>, AllocError>,
    arg: Result<Arg<'a>, AllocError>,
) -> Result<Command<'a>, AllocError> {
    let command = command?;
    command.arg(arg?)
}
