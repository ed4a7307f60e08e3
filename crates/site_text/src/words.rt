//! The words of a line, cut off one after another.

ghost use Rattle.std.specs.Prelude.{◌≡◌, ℕ, [], ◌∷◌, suc, true, false, IfNone, IfSome};
ghost use Rattle.std.specs.Option.{option_copied};
ghost use Rattle.cable_text.specs.Words.{rest_parts};
ghost use Rattle.site_text.specs.Words.{are_fields};

use cable_text::cut;

/// The next word, and what follows it; none where there is none, or an empty one.
fn next_word<'a>(rest: Option<&'a [u8]>) -> Option<(&'a [u8], Option<&'a [u8]>)>
    ensures none { IfNone result ((n : ℕ) → are_fields (suc n) (rest_parts (option_copied rest.entry)) ≡ false) }
    ensures word { IfSome result (λ r.
        rest_parts (option_copied rest.entry) ≡ r.0.now ∷ rest_parts (option_copied r.1)) }
    ensures full { IfSome result (λ r. (n : ℕ) →
        are_fields (suc n) (rest_parts (option_copied rest.entry)) ≡ are_fields n (rest_parts (option_copied r.1))) }
{
    let (word, rest) = cut(rest?);
    if word.is_empty() {
        None
    } else {
        Some((word, rest))
    }
}

/// The one word that is left; none where there is another number of words, or an empty one.
pub fn one_word<'a>(rest: Option<&'a [u8]>) -> Option<&'a [u8]>
    ensures none { IfNone result (are_fields 1 (rest_parts (option_copied rest.entry)) ≡ false) }
    ensures words { IfSome result (λ a. rest_parts (option_copied rest.entry) ≡ a.now ∷ []) }
    ensures full { IfSome result (λ _. are_fields 1 (rest_parts (option_copied rest.entry)) ≡ true) }
{
    let Some((word, rest)) = next_word(rest) else {
        return None;
    };
    if rest.is_some() { None } else { Some(word) }
}

/// The two words that are left; none where there is another number of words, or an empty one.
pub fn two_words<'a>(rest: Option<&'a [u8]>) -> Option<(&'a [u8], &'a [u8])>
    ensures none { IfNone result (are_fields 2 (rest_parts (option_copied rest.entry)) ≡ false) }
    ensures words { IfSome result (λ r. rest_parts (option_copied rest.entry)
        ≡ r.0.now ∷ r.1.now ∷ []) }
    ensures full { IfSome result (λ _. are_fields 2 (rest_parts (option_copied rest.entry)) ≡ true) }
{
    let Some((a, rest)) = next_word(rest) else {
        return None;
    };
    let Some(b) = one_word(rest) else {
        return None;
    };
    Some((a, b))
}

/// The three words that are left; none where there is another number of words, or an empty one.
pub fn three_words<'a>(rest: Option<&'a [u8]>) -> Option<(&'a [u8], &'a [u8], &'a [u8])>
    ensures none { IfNone result (are_fields 3 (rest_parts (option_copied rest.entry)) ≡ false) }
    ensures words { IfSome result (λ r. rest_parts (option_copied rest.entry)
        ≡ r.0.now ∷ r.1.now ∷ r.2.now ∷ []) }
    ensures full { IfSome result (λ _. are_fields 3 (rest_parts (option_copied rest.entry)) ≡ true) }
{
    let Some((a, rest)) = next_word(rest) else {
        return None;
    };
    let Some((b, c)) = two_words(rest) else {
        return None;
    };
    Some((a, b, c))
}

/// The four words that are left; none where there is another number of words, or an empty one.
pub fn four_words<'a>(rest: Option<&'a [u8]>) -> Option<(&'a [u8], &'a [u8], &'a [u8], &'a [u8])>
    ensures none { IfNone result (are_fields 4 (rest_parts (option_copied rest.entry)) ≡ false) }
    ensures words { IfSome result (λ r. rest_parts (option_copied rest.entry)
        ≡ r.0.now ∷ r.1.now ∷ r.2.now ∷ r.3.now ∷ []) }
    ensures full { IfSome result (λ _. are_fields 4 (rest_parts (option_copied rest.entry)) ≡ true) }
{
    let Some((a, rest)) = next_word(rest) else {
        return None;
    };
    let Some((b, c, d)) = three_words(rest) else {
        return None;
    };
    Some((a, b, c, d))
}

/// The five words that are left; none where there is another number of words, or an empty one.
pub fn five_words<'a>(
    rest: Option<&'a [u8]>,
) -> Option<(&'a [u8], &'a [u8], &'a [u8], &'a [u8], &'a [u8])>
    ensures none { IfNone result (are_fields 5 (rest_parts (option_copied rest.entry)) ≡ false) }
    ensures words { IfSome result (λ r. rest_parts (option_copied rest.entry)
        ≡ r.0.now ∷ r.1.now ∷ r.2.now ∷ r.3.now ∷ r.4.now ∷ []) }
    ensures full { IfSome result (λ _. are_fields 5 (rest_parts (option_copied rest.entry)) ≡ true) }
{
    let Some((a, rest)) = next_word(rest) else {
        return None;
    };
    let Some((b, c, d, e)) = four_words(rest) else {
        return None;
    };
    Some((a, b, c, d, e))
}
