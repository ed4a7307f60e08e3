//! The words of a text, cut off at its spaces.

ghost use Rattle.std.specs.Prelude.{◌≡◌, ◌∷◌, ◌↔◌, IsTrue};
ghost use Rattle.std.specs.Option.{option_copied};
ghost use Rattle.cable_text.specs.Words.{parts, rest_parts};

/// What stands before the first space of a text, and what stands behind it; none where there is no
/// space.
pub fn cut(text: &[u8]) -> (&[u8], Option<&[u8]>)
    ensures { parts text.now ≡ result.0.now ∷ rest_parts (option_copied result.1) }
{
    for (i, byte) in text.iter().enumerate() {
        if *byte == b' ' {
            return (&text[..i], Some(&text[i + 1..]));
        }
    }
    (text, None)
}

/// Whether the word is this one.
pub fn is_word(word: &[u8], text: &[u8]) -> bool
    ensures { IsTrue result ↔ (word.now ≡ text.now) }
{
    word == text
}
