//! What the words of a line say, before its numbers are looked at.

ghost use Rattle.std.specs.Prelude.{◌≡◌, ◌≢◌, [], ◌∷◌, ℤ, ℕ, List, codes, IfNone, IfSome};
ghost use Rattle.cable_definitions.specs.Numeral.{spelling};
ghost use Rattle.cable_definitions.specs.Refusal.{RawAct, RawClaim, act_spelling, claim_spelling};
ghost use Rattle.line_words.specs.Words.{held};
ghost use Rattle.line_words.specs.Numbers.{Is};
ghost use Rattle.line_words.specs.Said.{IsAct, IsClaim};

use crate::number::{Number, number_of};
use crate::words::{Words, are_two, four_words, is_one, three_words, two_words};
use cable_text::is_word;

/// An act, with any numbers.
#[derive(Clone, Copy)]
pub(crate) enum SaidAct {
    Split(Number),
    Stop,
    Full,
    Row(Number),
    Pair(Number, Number),
    Load(Number),
    Loop(Number),
    Power(Number),
    Ceiling,
}

/// A verdict, with any numbers and any name.
#[derive(Clone, Copy)]
pub(crate) enum SaidClaim<'a> {
    Optimal(Number),
    Gap(Number, Number),
    Open(Number, &'a [u8]),
    Infeasible,
}

/// The number that follows this word on the line; none where the line is another.
pub(crate) fn number_after(words: Words, word: &[u8]) -> Option<Number>
    ensures some { IfSome result (λ n. (z : ℤ) × (held words.entry ≡ word.now ∷ spelling z ∷ []) × Is n z) }
    ensures none { IfNone result ((z : ℤ) → held words.entry ≢ word.now ∷ spelling z ∷ []) }
{
    let Some((first, second)) = two_words(words) else {
        return None;
    };
    if !is_word(first, word) {
        return None;
    }
    number_of(second)
}

/// The two numbers that follow this word on the line; none where the line is another.
pub(crate) fn numbers_after(words: Words, word: &[u8]) -> Option<(Number, Number)>
    ensures some { IfSome result (λ n. (y z : ℤ) × (held words.entry ≡ word.now ∷ spelling y ∷ spelling z ∷ []) × Is n.0 y × Is n.1 z) }
    ensures none { IfNone result ((y z : ℤ) → held words.entry ≢ word.now ∷ spelling y ∷ spelling z ∷ []) }
{
    let Some((first, second, third)) = three_words(words) else {
        return None;
    };
    if !is_word(first, word) {
        return None;
    }
    let Some(a) = number_of(second) else {
        return None;
    };
    let Some(b) = number_of(third) else {
        return None;
    };
    Some((a, b))
}

/// The number that follows these two words on the line; none where the line is another.
fn number_behind(words: Words, word: &[u8], next: &[u8]) -> Option<Number>
    ensures some { IfSome result (λ n. (z : ℤ) × (held words.entry ≡ word.now ∷ next.now ∷ spelling z ∷ []) × Is n z) }
    ensures none { IfNone result ((z : ℤ) → held words.entry ≢ word.now ∷ next.now ∷ spelling z ∷ []) }
{
    let Some((first, second, third)) = three_words(words) else {
        return None;
    };
    if !is_word(first, word) {
        return None;
    }
    if !is_word(second, next) {
        return None;
    }
    number_of(third)
}

/// The two numbers that follow these two words on the line; none where the line is another.
fn numbers_behind(words: Words, word: &[u8], next: &[u8]) -> Option<(Number, Number)>
    ensures some { IfSome result (λ n. (y z : ℤ) × (held words.entry ≡ word.now ∷ next.now ∷ spelling y ∷ spelling z ∷ []) × Is n.0 y × Is n.1 z) }
    ensures none { IfNone result ((y z : ℤ) → held words.entry ≢ word.now ∷ next.now ∷ spelling y ∷ spelling z ∷ []) }
{
    let Some((first, second, third, fourth)) = four_words(words) else {
        return None;
    };
    if !is_word(first, word) {
        return None;
    }
    if !is_word(second, next) {
        return None;
    }
    let Some(a) = number_of(third) else {
        return None;
    };
    let Some(b) = number_of(fourth) else {
        return None;
    };
    Some((a, b))
}

/// The act of a line; none where the line is another.
pub(crate) fn act_said(words: Words) -> Option<SaidAct>
    ensures some { IfSome result (λ act. (raw : RawAct) × (held words.entry ≡ act_spelling raw) × IsAct act raw) }
    ensures none { IfNone result ((raw : RawAct) → held words.entry ≢ act_spelling raw) }
{
    if is_one(words, b"stop") {
        return Some(SaidAct::Stop);
    }
    if is_one(words, b"full") {
        return Some(SaidAct::Full);
    }
    if are_two(words, b"dead", b"ceiling") {
        return Some(SaidAct::Ceiling);
    }
    if let Some(arc) = number_after(words, b"split") {
        return Some(SaidAct::Split(arc));
    }
    if let Some(row) = number_behind(words, b"dead", b"row") {
        return Some(SaidAct::Row(row));
    }
    if let Some(point) = number_behind(words, b"dead", b"load") {
        return Some(SaidAct::Load(point));
    }
    if let Some(point) = number_behind(words, b"dead", b"loop") {
        return Some(SaidAct::Loop(point));
    }
    if let Some(point) = number_behind(words, b"dead", b"power") {
        return Some(SaidAct::Power(point));
    }
    if let Some((a, b)) = numbers_behind(words, b"dead", b"pair") {
        return Some(SaidAct::Pair(a, b));
    }
    None
}

/// The bound and the name of a verdict of a part that can't be joined further; none where the line is
/// another.
fn open_said(words: Words<'_>) -> Option<(Number, &[u8])>
    ensures some { IfSome result (λ said. (z : ℤ) × (held words.entry ≡ codes "open" ∷ spelling z ∷ codes "stuck" ∷ said.1.now ∷ []) × Is said.0 z) }
    ensures none { IfNone result ((z : ℤ) (name : List ℕ) → held words.entry ≢ codes "open" ∷ spelling z ∷ codes "stuck" ∷ name ∷ []) }
{
    let Some((first, bound, third, name)) = four_words(words) else {
        return None;
    };
    if !is_word(first, b"open") {
        return None;
    }
    if !is_word(third, b"stuck") {
        return None;
    }
    let Some(number) = number_of(bound) else {
        return None;
    };
    Some((number, name))
}

/// The verdict of a line; none where the line is another.
pub(crate) fn claim_said(words: Words<'_>) -> Option<SaidClaim<'_>>
    ensures some { IfSome result (λ claim. (raw : RawClaim) × (held words.entry ≡ claim_spelling raw) × IsClaim claim raw) }
    ensures none { IfNone result ((raw : RawClaim) → held words.entry ≢ claim_spelling raw) }
{
    if is_one(words, b"infeasible") {
        return Some(SaidClaim::Infeasible);
    }
    if let Some(cost) = number_after(words, b"optimal") {
        return Some(SaidClaim::Optimal(cost));
    }
    if let Some((cost, bound)) = numbers_after(words, b"gap") {
        return Some(SaidClaim::Gap(cost, bound));
    }
    if let Some((bound, name)) = open_said(words) {
        return Some(SaidClaim::Open(bound, name));
    }
    None
}

/// The names and the type's number of a cable line; none where the line is another.
pub fn cable_said(words: Words<'_>) -> Option<(&[u8], &[u8], Number)>
    ensures some { IfSome result (λ c. (z : ℤ) × (held words.entry ≡ codes "cable" ∷ c.0.now ∷ c.1.now ∷ spelling z ∷ []) × Is c.2 z) }
    ensures none { IfNone result ((a b : List ℕ) (z : ℤ) → held words.entry ≢ codes "cable" ∷ a ∷ b ∷ spelling z ∷ []) }
{
    let Some((first, from, to, grade)) = four_words(words) else {
        return None;
    };
    if !is_word(first, b"cable") {
        return None;
    }
    let Some(number) = number_of(grade) else {
        return None;
    };
    Some((from, to, number))
}
