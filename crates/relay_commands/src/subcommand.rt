//! The subcommands of the program, and their names on the command line.
ghost use Rattle.std.specs.Prelude.{◌≡◌};
ghost use Rattle.relay_commands.specs.Subcommands.{subcommand_of, word_of};

/// The subcommands of the program.
#[derive(Clone, Copy, Debug, PartialEq, Eq)]
pub enum Subcommand {
    /// `relay lines`.
    Lines,
    /// `relay apply`.
    Apply,
    /// `relay run`.
    Run,
    /// `relay pick`.
    Pick,
    /// `relay stub`.
    Stub,
    /// `relay world`.
    World,
    /// `relay serve`.
    Serve,
}

impl Subcommand {
    /// All of them, in the order of the help.
    pub const ALL: [Subcommand; 7] = [
        Subcommand::Lines,
        Subcommand::Apply,
        Subcommand::Run,
        Subcommand::Pick,
        Subcommand::Stub,
        Subcommand::World,
        Subcommand::Serve,
    ];

    /// The name of the subcommand on the command line.
    pub fn name(self) -> &'static str
        ensures { result.now ≡ word_of self }
    {
        match self {
            Subcommand::Lines => "lines",
            Subcommand::Apply => "apply",
            Subcommand::Run => "run",
            Subcommand::Pick => "pick",
            Subcommand::Stub => "stub",
            Subcommand::World => "world",
            Subcommand::Serve => "serve",
        }
    }

    /// The subcommand with this name. `None`: no subcommand has it.
    pub fn named(name: &str) -> Option<Subcommand>
        ensures { result ≡ subcommand_of name.now }
    {
        match name {
            "lines" => Some(Subcommand::Lines),
            "apply" => Some(Subcommand::Apply),
            "run" => Some(Subcommand::Run),
            "pick" => Some(Subcommand::Pick),
            "stub" => Some(Subcommand::Stub),
            "world" => Some(Subcommand::World),
            "serve" => Some(Subcommand::Serve),
            _ => None,
        }
    }
}
