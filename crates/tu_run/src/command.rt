// The words of a command.
ghost use Rattle.std.specs.Prelude.{◌≡◌, ◌⊎◌, ◌<◌, ◌≤◌, ◌↔◌, ℕ, List, false, true, IsTrue, IfSome, IfNone, MatchOption, length, map, codes};
ghost use Rattle.std.specs.List.{list_all};
ghost use Rattle.std.specs.Char.{is_ascii_digit};
ghost use Rattle.tu_run.specs.Command.{value_behind, IsBudget, SaysBudget, IsUsage};
ghost use Rattle.tu_run.specs.Commands.{IsCommand};

use tu_base::{Bytes, Words};

/// What the words ask for.
#[derive(Clone, Copy)]
pub enum Command<'a> {
    /// Compile the program in a file, and run it for at most `budget` instructions.
    Run { file: &'a Bytes, budget: u64 },
    /// Check the program in a file.
    Check { file: &'a Bytes },
    /// Compile the program in a file, and keep its image.
    Build { file: &'a Bytes, image: &'a Bytes },
    /// Run an image for at most `budget` instructions.
    Exec { image: &'a Bytes, budget: u64 },
}

// In instructions.
const DEFAULT_BUDGET: u64 = 10_000_000_000;

const LARGEST_BUDGET: u64 = 9_223_372_036_854_775_807;

const MOST_DIGITS: usize = 19;

fn all_digits(text: &[u8]) -> bool
    ensures { result ≡ list_all is_ascii_digit text.now }
{
    text.iter().all(|byte| byte.is_ascii_digit())
}

// The number that digits spell, unless it is too large for a budget.
fn value(digits: &[u8]) -> Option<u64>
    ensures { MatchOption result (9223372036854775807 < value_behind 0 digits.now) (λ n. (value_behind 0 digits.now ≡ n) × (n ≤ 9223372036854775807)) }
{
    let mut number = 0u64;
    for digit in digits {
        let more = (*digit as u64).saturating_sub(48);
        number = number.saturating_mul(10).saturating_add(more);
        if number > LARGEST_BUDGET {
            return None;
        }
    }
    Some(number)
}

// The N of `budget=N`.
fn budget_in(word: &[u8]) -> Option<u64>
    ensures { MatchOption result ((n : ℕ) → ¬ (IsBudget word.now n)) (λ n. IsBudget word.now n) }
{
    let digits = word.strip_prefix(b"budget=".as_slice())?;
    if digits.is_empty() || digits.len() > MOST_DIGITS || !all_digits(digits) {
        return None;
    }
    value(digits)
}

// The budget that the words behind a name say, which are none or one.
fn budget_of(more: &[Bytes]) -> Option<u64>
    ensures { MatchOption result ((n : ℕ) → ¬ (SaysBudget more.now n)) (λ n. SaysBudget more.now n) }
{
    match more {
        [] => Some(DEFAULT_BUDGET),
        [word] => budget_in(word.as_slice()),
        _ => None,
    }
}

/// The command that the words ask for, or None where they are no command.
pub fn command_of(words: &Words) -> Option<Command<'_>>
    ensures found { IfSome result (λ command. IsCommand words.now command) }
    ensures none { IfNone result (IsUsage words.now) }
{
    let [verb, first, more @ ..] = words.as_slice() else {
        return None;
    };
    if first.is_empty() {
        return None;
    }
    match verb.as_slice() {
        b"run" => match budget_of(more) {
            Some(budget) => Some(Command::Run {
                file: first,
                budget,
            }),
            None => None,
        },
        b"check" => match more {
            [] => Some(Command::Check { file: first }),
            _ => None,
        },
        b"build" => match more {
            [image] if !image.is_empty() => Some(Command::Build { file: first, image }),
            _ => None,
        },
        b"exec" => match budget_of(more) {
            Some(budget) => Some(Command::Exec {
                image: first,
                budget,
            }),
            None => None,
        },
        _ => None,
    }
}
