//! Lines of a document.

ghost use Rattle.std.specs.Prelude.{◌≡◌, ℕ, List};
ghost use Rattle.cable_definitions.specs.Refusal.{DocLine, IsSpelled};

/// A text spells at most one line of a document.
pub fn a_line_is_determined()
    ensures { (text : List ℕ) (l other : DocLine) → IsSpelled text l → IsSpelled text other → l ≡ other }
{}
