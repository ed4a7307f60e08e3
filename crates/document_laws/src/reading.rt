//! Where a reader of a document stands.

ghost use Rattle.std.specs.Prelude.{◌≡◌, ◌⊎◌, ℕ, ℤ, List, []};
ghost use Rattle.cable_definitions.specs.declared.cable.Arc.{Arc};
ghost use Rattle.cable_definitions.specs.declared.claim.Cause.{Cause};
ghost use Rattle.cable_definitions.specs.Site.{Site, IsValid};
ghost use Rattle.cable_definitions.specs.Text.{Piece, IsNext};
ghost use Rattle.cable_definitions.specs.Refusal.{DocLine, Reader, IsFirstCause, GoesOn, ReadsLines};
ghost use Rattle.document_laws.specs.Runs.{GoesFurther};

/// After a line a reader stands in one place.
pub fn going_on_is_determined()
    ensures { (s : Site) (arcs : List Arc) (r : Reader) (l : DocLine) (next other : Reader) → IsValid s → GoesOn s arcs r l next
        → GoesOn s arcs r l other → next ≡ other }
{}

/// Of two runs of one reader over the same bytes one is the beginning of the other. A run ends where a cause is found, and one cause comes
/// first there.
pub fn reading_is_determined()
    ensures runs { (s : Site) (arcs : List Arc) (r : Reader) (bytes : List ℕ) (lines others : List DocLine) (stop end : Reader) (left rest : List ℕ) → IsValid s
        → ReadsLines s arcs r bytes lines stop left → ReadsLines s arcs r bytes others end rest
        → GoesFurther s arcs lines stop left others end rest ⊎ GoesFurther s arcs others end rest lines stop left }
    ensures ends { (s : Site) (arcs : List Arc) (stop end : Reader) (left rest further : List ℕ) (piece : Piece) (cause : Cause) (more : List DocLine)
        → IsNext left piece rest → IsFirstCause s arcs stop piece cause → ReadsLines s arcs stop left more end further → more ≡ [] }
    ensures cause { (s : Site) (arcs : List Arc) (r : Reader) (piece : Piece) (cause other : Cause) → IsFirstCause s arcs r piece cause
        → IsFirstCause s arcs r piece other → cause ≡ other }
{}
