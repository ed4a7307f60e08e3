//! The words of a line, one after another.

ghost use Rattle.std.specs.Prelude.{◌≡◌, ◌≢◌, [], ◌∷◌, ◌↔◌, List, ℕ, IfNone, IfSome, IsTrue};
ghost use Rattle.cable_definitions.specs.Text.{HasNoNewline};
ghost use Rattle.line_words.specs.Words.{AreFull, IsCut, held};

use cable_text::{cut, is_word};

/// The words that are left of a line; a line that has an empty one has none.
#[derive(Clone, Copy)]
pub struct Words<'a> {
    rest: Option<&'a [u8]>,
}

/// The words of a line.
pub fn words_of(text: &[u8]) -> Words<'_>
    requires { HasNoNewline text.now }
    ensures { IsCut text.now (held result) }
{
    let words = Words { rest: Some(text) };
    if are_full(words) {
        return words;
    }
    Words { rest: None }
}

/// The next word, and those behind it; none where none is left.
pub(crate) fn next_word<'a>(words: Words<'a>) -> Option<(&'a [u8], Words<'a>)>
    ensures none { IfNone result (held words.entry ≡ []) }
    ensures word { IfSome result (λ r. held words.entry ≡ r.0.now ∷ held r.1) }
{
    let Some(text) = words.rest else {
        return None;
    };
    let (word, rest) = cut(text);
    Some((word, Words { rest }))
}

/// Whether none of the words is empty.
fn are_full(words: Words) -> bool
    ensures { IsTrue result ↔ AreFull (held words.entry) }
{
    let mut left = words;
    while let Some((word, rest)) = next_word(left) {
        if word.is_empty() {
            return false;
        }
        left = rest;
    }
    true
}

/// The one word; none where there are none or more.
pub(crate) fn one_word<'a>(words: Words<'a>) -> Option<&'a [u8]>
    ensures some { IfSome result (λ a. held words.entry ≡ a.now ∷ []) }
    ensures none { IfNone result ((a : List ℕ) → held words.entry ≢ a ∷ []) }
{
    let Some((word, rest)) = next_word(words) else {
        return None;
    };
    match next_word(rest) {
        Some(_) => None,
        None => Some(word),
    }
}

/// The two words; none where there are fewer or more.
pub(crate) fn two_words<'a>(words: Words<'a>) -> Option<(&'a [u8], &'a [u8])>
    ensures some { IfSome result (λ r. held words.entry ≡ r.0.now ∷ r.1.now ∷ []) }
    ensures none { IfNone result ((a b : List ℕ) → held words.entry ≢ a ∷ b ∷ []) }
{
    let Some((first, rest)) = next_word(words) else {
        return None;
    };
    let Some(second) = one_word(rest) else {
        return None;
    };
    Some((first, second))
}

/// The three words; none where there are fewer or more.
pub(crate) fn three_words<'a>(words: Words<'a>) -> Option<(&'a [u8], &'a [u8], &'a [u8])>
    ensures some { IfSome result (λ r. held words.entry ≡ r.0.now ∷ r.1.now ∷ r.2.now ∷ []) }
    ensures none { IfNone result ((a b c : List ℕ) → held words.entry ≢ a ∷ b ∷ c ∷ []) }
{
    let Some((first, rest)) = next_word(words) else {
        return None;
    };
    let Some((second, third)) = two_words(rest) else {
        return None;
    };
    Some((first, second, third))
}

/// The four words; none where there are fewer or more.
pub(crate) fn four_words<'a>(words: Words<'a>) -> Option<(&'a [u8], &'a [u8], &'a [u8], &'a [u8])>
    ensures some { IfSome result (λ r. held words.entry ≡ r.0.now ∷ r.1.now ∷ r.2.now ∷ r.3.now ∷ []) }
    ensures none { IfNone result ((a b c d : List ℕ) → held words.entry ≢ a ∷ b ∷ c ∷ d ∷ []) }
{
    let Some((first, rest)) = next_word(words) else {
        return None;
    };
    let Some((second, third, fourth)) = three_words(rest) else {
        return None;
    };
    Some((first, second, third, fourth))
}

/// Whether the line is this one word.
pub(crate) fn is_one(words: Words, word: &[u8]) -> bool
    ensures { IsTrue result ↔ (held words.entry ≡ word.now ∷ []) }
{
    match one_word(words) {
        Some(first) => is_word(first, word),
        None => false,
    }
}

/// Whether the line is these two words.
pub(crate) fn are_two(words: Words, word: &[u8], second: &[u8]) -> bool
    ensures { IsTrue result ↔ (held words.entry ≡ word.now ∷ second.now ∷ []) }
{
    match two_words(words) {
        Some((a, b)) => {
            if !is_word(a, word) {
                return false;
            }
            is_word(b, second)
        }
        None => false,
    }
}
