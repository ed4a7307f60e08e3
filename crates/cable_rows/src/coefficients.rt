//! What a row counts an arc as, by the arc's ends.

ghost use Rattle.std.specs.Prelude.{◌≡◌, ◌≢◌, ℕ, List, pos, neg_ℤ, ◌≤ℤ◌};
ghost use Rattle.cable_definitions.specs.Row.{is_member, one_if as one_where, on_use, on_load};

use cable_definitions::row::RowKind;

/// 1 where the test passes, and else 0.
fn one_if(passes: bool) -> i8
    ensures value { result ≡ one_where passes }
    ensures least { pos 0 ≤ℤ result }
    ensures most { result ≤ℤ pos 1 }
{
    if passes { 1 } else { 0 }
}

/// -1 where the test passes, and else 0.
pub(crate) fn minus_one_if(passes: bool) -> i8
    ensures { result ≡ neg_ℤ (one_where passes) }
{
    if passes { -1 } else { 0 }
}

/// What a row on points counts a use of an arc as and each unit of its load, where `starts` says whether the arc's start is a member, and
/// `ends` whether its end is one. A row on arcs counts nothing by ends.
pub(crate) fn of_ends(kind: RowKind, starts: bool, ends: bool) -> (i8, i8)
    ensures on_use { kind ≢ RowKind.One → (members : List ℕ) (a p q : ℕ) → starts ≡ is_member members p → ends ≡ is_member members q → result.0 ≡ on_use kind members a p q }
    ensures on_load { kind ≢ RowKind.One → (members : List ℕ) (p q : ℕ) → starts ≡ is_member members p → ends ≡ is_member members q → result.1 ≡ on_load kind members p q }
{
    match kind {
        RowKind::Out => (one_if(starts), 0),
        RowKind::Flow => (0, one_if(starts) - one_if(ends)),
        RowKind::Inlet => (minus_one_if(ends), 0),
        RowKind::Bend => (one_if(starts) - one_if(ends), 0),
        RowKind::Power => (0, minus_one_if(ends)),
        RowKind::One => (0, 0),
        RowKind::Cut => (one_if(starts && !ends), 0),
    }
}
