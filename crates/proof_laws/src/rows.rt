//! Rows of legal layouts.

ghost use Rattle.std.specs.Prelude.{◌≡◌, ◌≢◌, ◌≤◌, ℕ, List, [], ◌∷◌, IsTrue, length, slice_get, Some, sum_by};
ghost use Rattle.cable_definitions.specs.declared.cable.Arc.{Arc};
ghost use Rattle.cable_definitions.specs.declared.cable.Cable.{Cable};
ghost use Rattle.cable_definitions.specs.declared.row.Mark.{Mark};
ghost use Rattle.cable_definitions.specs.declared.row.RowKind.TheVariants.{Out, Cut};
ghost use Rattle.cable_definitions.specs.Site.{Site, IsValid};
ghost use Rattle.cable_definitions.specs.Arcs.{AreArcs, power_of};
ghost use Rattle.cable_definitions.specs.Layout.{IsLegal};
ghost use Rattle.cable_definitions.specs.Row.{Row, is_member, Holds, IsWellFormed};
ghost use Rattle.cable_definitions.specs.Tree.{CannotMeet};

/// Each well-formed row holds of each legal layout of a valid site: one cable leaves each turbine, what leaves a turbine or a bend is what it
/// feeds in and what comes to it, no more cables end in a point than its inlet takes, as many cables start as end in a bend, no more comes to a
/// substation than its power, at most one of arcs that are incompatible in pairs is used, and enough cables leave a set of points without
/// substations.
pub fn rows_hold()
    ensures { (s : Site) (arcs : List Arc) (cables : List Cable) (row : Row) → IsValid s → AreArcs s arcs → IsWellFormed s arcs row
        → IsLegal s cables → Holds s arcs row cables }
{}

/// No box meets the row of a turbine in which no candidate arc starts, nor the row of a set with some power that no candidate arc leaves.
pub fn rows_without_arcs()
    ensures out { (s : Site) (arcs : List Arc) (marks : List Mark) (p : ℕ) → IsValid s → AreArcs s arcs → length marks ≡ length arcs
        → ((k : ℕ) (a : Arc) → slice_get arcs k ≡ Some a → a.from ≢ p)
        → CannotMeet s arcs marks (record { kind = Out; members = p ∷ [] }) }
    ensures cut { (s : Site) (arcs : List Arc) (marks : List Mark) (members : List ℕ) → IsValid s → AreArcs s arcs
        → length marks ≡ length arcs → 1 ≤ sum_by (power_of s) members
        → ((k : ℕ) (a : Arc) → slice_get arcs k ≡ Some a → IsTrue (is_member members a.from) → IsTrue (is_member members a.to))
        → CannotMeet s arcs marks (record { kind = Cut; members = members }) }
{}
