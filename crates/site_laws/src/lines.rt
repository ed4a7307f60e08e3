//! Lines of bytes, and what they say.

ghost use Rattle.std.specs.Prelude.{◌≡◌, ℕ, List, false};
ghost use Rattle.cable_definitions.specs.declared.site.Version.{Version};
ghost use Rattle.cable_definitions.specs.Text.{Piece, Whole, NoLine, IsNext};
ghost use Rattle.cable_definitions.specs.Items.{RawItem, is_broken_line, IsItemAt};

/// The bytes determine which piece stands next, and what is left behind a whole line or behind the end.
pub fn pieces_are_determined()
    ensures piece { (bytes : List ℕ) (piece other : Piece) (rest left : List ℕ) → IsNext bytes piece rest → IsNext bytes other left → piece ≡ other }
    ensures line { (bytes text other rest left : List ℕ) → IsNext bytes (Whole text) rest → IsNext bytes (Whole other) left → rest ≡ left }
    ensures end { (bytes rest left : List ℕ) → IsNext bytes NoLine rest → IsNext bytes NoLine left → rest ≡ left }
{}

/// The bytes determine the next item, and what is left behind a line that isn't broken.
pub fn items_are_determined()
    ensures item { (version : Version) (bytes : List ℕ) (item other : RawItem) (rest left : List ℕ) → IsItemAt version bytes item rest
        → IsItemAt version bytes other left → item ≡ other }
    ensures rest { (version : Version) (bytes : List ℕ) (item other : RawItem) (rest left : List ℕ) → IsItemAt version bytes item rest
        → IsItemAt version bytes other left → is_broken_line item ≡ false → rest ≡ left }
{}
