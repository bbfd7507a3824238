//! The words of a line, separated by single spaces.
ghost use Rattle.std.specs.Prelude.{MatchOption};
ghost use Rattle.relay_scenario.specs.Words.{Begins, IsWord};

/// The first word of a text, and what follows the space after it. `None`: there is no space.
pub fn cut(text: &str) -> Option<(&str, &str)>
    ensures { MatchOption result (IsWord text.now) (λ x. Begins text.now x.0.now x.1.now) }
{
    text.split_once(' ')
}
