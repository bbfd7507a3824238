//! The numbers in a line.
ghost use Rattle.std.specs.Prelude.{◌≡◌, ℕ, [], ◌∷◌, ◌++◌, IfOk, IfErr, OnOk};
ghost use Rattle.relay_words.specs.Numbers.{IsNumber};
ghost use Rattle.relay_scenario.specs.Numbers.{AreNumbers, IsNumbersFault, IsWordFault};

use crate::event_line::LineFault;
use crate::words::cut;
use relay_words::number_of;
use std::alloc::Global;

// Adds the number of a word to a list.
fn push_number(numbers: &mut Vec<u64>, word: &str) -> Result<(), LineFault>
    ensures ok { OnOk result ((n : ℕ) × IsNumber word.now n
        × (numbers.new.items ≡ numbers.old.items ++ n ∷ [])) }
    ensures err { IfErr result (IsWordFault word.now) }
{
    let Some(number) = number_of(word) else {
        return Err(LineFault::Bad);
    };
    match numbers.push(number) {
        Ok(()) => Ok(()),
        Err(_) => Err(LineFault::Memory),
    }
}

/// The numbers of a text: one or more, separated by single spaces. `Bad`: it has another form.
/// `Memory`: allocation failed.
pub fn numbers_of(alloc: Global, text: &str) -> Result<Vec<u64>, LineFault>
    ensures ok { IfOk result (λ v. AreNumbers text.now v.items) }
    ensures err { IfErr result (IsNumbersFault text.now) }
{
    let mut numbers = Vec::new(alloc);
    push_numbers(&mut numbers, text)?;
    Ok(numbers)
}

// Adds the numbers of a text to an empty list.
fn push_numbers(numbers: &mut Vec<u64>, text: &str) -> Result<(), LineFault>
    requires { numbers.old.items ≡ [] }
    ensures ok { OnOk result (AreNumbers text.now numbers.new.items) }
    ensures err { IfErr result (IsNumbersFault text.now) }
{
    let mut rest = text;
    'words: while let Some((word, later)) = cut(rest) {
        push_number(numbers, word)?;
        rest = later;
    }
    push_number(numbers, rest)
}
