//! The line of a row.

ghost use Rattle.std.specs.Prelude.{◌≡◌, ◌≢◌, ◌≤◌, ◌↔◌, ℕ, ℤ, List, pos, length, map, IfNone, IfSome, IfOk, IfErr, IsTrue};
ghost use Rattle.cable_definitions.specs.declared.row.RowKind.{RowKind as AnyKind};
ghost use Rattle.cable_definitions.specs.Row.{has_one_member};
ghost use Rattle.cable_definitions.specs.Text.{kind_word};
ghost use Rattle.cable_definitions.specs.Refusal.{AtItem, RowLine, member_field};
ghost use Rattle.line_words.specs.Words.{held};
ghost use Rattle.line_words.specs.Members.{up_to};
ghost use Rattle.line_words.specs.Said.{IsRow};
ghost use Rattle.line_words.specs.Judged.{IsGoodLine, IsBad, IsStanding};

use crate::judging::{LAST_ARC, LAST_POINT};
use crate::members::{MemberList, members_in};
use crate::words::{Words, next_word};
use cable_definitions::claim::Cause;
use cable_definitions::row::RowKind;
use cable_text::is_word;

/// The kind of rows that a word names.
fn kind_of(word: &[u8]) -> Option<RowKind>
    ensures some { IfSome result (λ kind. word.now ≡ kind_word kind) }
    ensures none { IfNone result ((kind : AnyKind) → word.now ≢ kind_word kind) }
{
    if is_word(word, b"out") {
        return Some(RowKind::Out);
    }
    if is_word(word, b"flow") {
        return Some(RowKind::Flow);
    }
    if is_word(word, b"inlet") {
        return Some(RowKind::Inlet);
    }
    if is_word(word, b"bend") {
        return Some(RowKind::Bend);
    }
    if is_word(word, b"power") {
        return Some(RowKind::Power);
    }
    if is_word(word, b"one") {
        return Some(RowKind::One);
    }
    if is_word(word, b"cut") {
        return Some(RowKind::Cut);
    }
    None
}

/// Whether rows of this kind have exactly one member.
fn is_single(kind: RowKind) -> bool
    ensures { result ≡ has_one_member kind }
{
    match kind {
        RowKind::One => false,
        RowKind::Cut => false,
        _ => true,
    }
}

/// Whether a row of this kind may have so many members.
fn may_have(kind: RowKind, members: Words) -> bool
    ensures { IsTrue result ↔ ((1 ≤ length (held members.entry)) × (IsTrue (has_one_member kind) → length (held members.entry) ≡ 1)) }
{
    let Some((_, rest)) = next_word(members) else {
        return false;
    };
    if next_word(rest).is_none() {
        return true;
    }
    !is_single(kind)
}

/// The greatest number of a member of a row of this kind.
fn last_member(kind: RowKind) -> u32
    ensures small { result ≤ 65279 }
    ensures field { (z : ℤ) → member_field kind z ≡ up_to result z }
{
    match kind {
        RowKind::One => LAST_ARC,
        _ => LAST_POINT,
    }
}

/// The words of the members of a row line, with its kind; none where the line is another.
fn row_said<'a>(words: Words<'a>) -> Option<(RowKind, Words<'a>)>
    ensures some { IfSome result (λ r. IsRow (held words.entry) r.0 (held r.1)) }
    ensures none { IfNone result ((kind : AnyKind) (members : List (List ℕ)) → ¬ (IsRow (held words.entry) kind members)) }
{
    let Some((first, rest)) = next_word(words) else {
        return None;
    };
    if !is_word(first, b"row") {
        return None;
    }
    let Some((second, members)) = next_word(rest) else {
        return None;
    };
    let Some(kind) = kind_of(second) else {
        return None;
    };
    if may_have(kind, members) {
        return Some((kind, members));
    }
    None
}

/// The kind of the row of a line, and its members in `members`; none where the line is no row. `Limit`
/// where a member is out of range or there are more than 256.
pub(crate) fn row_in(words: Words, members: &mut MemberList) -> Result<Option<RowKind>, Cause>
    ensures good { IfOk result (λ row. IfSome row (λ kind. IsGoodLine AtItem (held words.entry) (RowLine kind (map pos members.new)))) }
    ensures none { IfOk result (λ row. IfNone row ((kind : AnyKind) (zs : List ℤ) → ¬ (IsStanding AtItem (held words.entry) (RowLine kind zs)))) }
    ensures bad { IfErr result (λ cause. IsBad AtItem (held words.entry) cause) }
{
    let Some((kind, spelled)) = row_said(words) else {
        return Ok(None);
    };
    let Some(fits) = members_in(spelled, last_member(kind), members) else {
        return Ok(None);
    };
    if fits {
        return Ok(Some(kind));
    }
    Err(Cause::Limit)
}
