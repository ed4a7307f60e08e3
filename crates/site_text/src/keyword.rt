//! The words that a line may begin with.

ghost use Rattle.std.specs.Prelude.{◌≡◌, ◌≢◌, IfNone, IfSome};
ghost use Rattle.site_text.specs.declared.keyword.Keyword.{Keyword as Key};
ghost use Rattle.site_text.specs.Keyword.{keyword_text};

use cable_text::is_word;

/// The first word of a line of a site.
#[derive(Clone, Copy, Debug, PartialEq, Eq)]
pub enum Keyword {
    Site,
    Mode,
    CableType,
    Substation,
    Turbine,
    Bend,
    Obstacle,
    Corner,
    Charge,
    Closed,
    End,
}

/// The keyword that the word is; none where it is none.
pub fn keyword_of(word: &[u8]) -> Option<Keyword>
    ensures some { IfSome result (λ k. word.now ≡ keyword_text k) }
    ensures none { IfNone result ((k : Key) → word.now ≢ keyword_text k) }
{
    if is_word(word, b"site") {
        return Some(Keyword::Site);
    }
    if is_word(word, b"mode") {
        return Some(Keyword::Mode);
    }
    if is_word(word, b"type") {
        return Some(Keyword::CableType);
    }
    if is_word(word, b"substation") {
        return Some(Keyword::Substation);
    }
    if is_word(word, b"turbine") {
        return Some(Keyword::Turbine);
    }
    if is_word(word, b"bend") {
        return Some(Keyword::Bend);
    }
    if is_word(word, b"obstacle") {
        return Some(Keyword::Obstacle);
    }
    if is_word(word, b"corner") {
        return Some(Keyword::Corner);
    }
    if is_word(word, b"charge") {
        return Some(Keyword::Charge);
    }
    if is_word(word, b"closed") {
        return Some(Keyword::Closed);
    }
    if is_word(word, b"end") {
        return Some(Keyword::End);
    }
    None
}
