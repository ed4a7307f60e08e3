//! The words that the program is called with.

ghost use Rattle.std.specs.Prelude.{◌≡◌, ◌≢◌, ℕ, ◌≤◌, IfSome, IfNone, ◌∷◌, []};
ghost use Rattle.std.specs.Fmt.{decimal};
ghost use Rattle.run_definitions.specs.Words.{texts, AsksFor, IsNoCommand};

use cable_definitions::command::Command;
use cable_text::read_number;

/// The most works of a budget.
const MOST_WORKS: u32 = 50_000;

/// What the program is asked to do: `plan N` or `plan N LANES`, with a budget N from 1 to 50,000 works and
/// from 1 to 16 lanes; `check`, `site`, `judge` or `report`; or `drill K TURBINES N`, with a number K from 0
/// to 1,000,000,000, from 1 to 200 turbines and a budget N. Each number has its one spelling. It is `None`
/// exactly where the words are no such command. No memory is taken.
pub fn words_of(words: &[String]) -> Option<Command>
    ensures command { IfSome result (AsksFor (texts words.now)) }
    ensures none { IfNone result (IsNoCommand (texts words.now)) }
{
    match words {
        [only] => command_of(only.as_bytes()),
        [first, second] => plan_of(first.as_bytes(), second.as_bytes()),
        [first, second, third] => {
            plan_over(first.as_bytes(), second.as_bytes(), third.as_bytes())
        }
        [first, second, third, fourth] => drill_of(
            first.as_bytes(),
            second.as_bytes(),
            third.as_bytes(),
            fourth.as_bytes(),
        ),
        _ => None,
    }
}

/// The command of one word.
fn command_of(word: &[u8]) -> Option<Command>
    ensures command { IfSome result (AsksFor (word.now ∷ [])) }
    ensures none { IfNone result (IsNoCommand (word.now ∷ [])) }
{
    if word == b"check".as_slice() {
        return Some(Command::Check);
    }
    if word == b"site".as_slice() {
        return Some(Command::Site);
    }
    if word == b"judge".as_slice() {
        return Some(Command::Judge);
    }
    if word == b"report".as_slice() {
        return Some(Command::Report);
    }
    None
}

/// The plan over one lane that two words ask for.
fn plan_of(first: &[u8], second: &[u8]) -> Option<Command>
    ensures command { IfSome result (AsksFor (first.now ∷ second.now ∷ [])) }
    ensures none { IfNone result (IsNoCommand (first.now ∷ second.now ∷ [])) }
{
    if first != b"plan".as_slice() {
        return None;
    }
    let Some(budget) = number_of(second, 1, MOST_WORKS) else {
        return None;
    };
    Some(Command::Plan { budget, lanes: 1 })
}

/// The plan over several lanes that three words ask for.
fn plan_over(first: &[u8], second: &[u8], third: &[u8]) -> Option<Command>
    ensures command { IfSome result (AsksFor (first.now ∷ second.now ∷ third.now ∷ [])) }
    ensures none { IfNone result (IsNoCommand (first.now ∷ second.now ∷ third.now ∷ [])) }
{
    if first != b"plan".as_slice() {
        return None;
    }
    let Some(budget) = number_of(second, 1, MOST_WORKS) else {
        return None;
    };
    let Some(lanes) = number_of(third, 1, 16) else {
        return None;
    };
    Some(Command::Plan { budget, lanes })
}

/// The drill that four words ask for.
fn drill_of(first: &[u8], second: &[u8], third: &[u8], fourth: &[u8]) -> Option<Command>
    ensures command { IfSome result (AsksFor (first.now ∷ second.now ∷ third.now ∷ fourth.now ∷ [])) }
    ensures none { IfNone result (IsNoCommand (first.now ∷ second.now ∷ third.now ∷ fourth.now ∷ [])) }
{
    if first != b"drill".as_slice() {
        return None;
    }
    let Some(k) = number_of(second, 0, 1_000_000_000) else {
        return None;
    };
    let Some(turbines) = number_of(third, 1, 200) else {
        return None;
    };
    let Some(budget) = number_of(fourth, 1, MOST_WORKS) else {
        return None;
    };
    Some(Command::Drill {
        k: u64::from(k),
        turbines,
        budget,
    })
}

/// The number from `least` to `most` that a word spells; None exactly where it spells no such number.
fn number_of(word: &[u8], least: u32, most: u32) -> Option<u32>
    ensures spelled { IfSome result (λ n. word.now ≡ decimal n) }
    ensures least { IfSome result (λ n. least ≤ n) }
    ensures most { IfSome result (λ n. n ≤ most) }
    ensures none { IfNone result ((n : ℕ) → least ≤ n → n ≤ most → word.now ≢ decimal n) }
{
    match read_number(word, i128::from(least), i128::from(most)) {
        Ok(number) => Some(number as u32),
        Err(_) => None,
    }
}
