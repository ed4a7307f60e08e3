//! The candidate arcs that a layout uses.

ghost use Rattle.std.specs.Prelude.{◌≡◌, ℕ, ℤ, pos, List, if◌then◌else◌};
ghost use Rattle.cable_definitions.specs.declared.cable.Arc.{Arc};
ghost use Rattle.cable_definitions.specs.declared.cable.Cable.{Cable};
ghost use Rattle.cable_definitions.specs.Site.{Site};
ghost use Rattle.cable_definitions.specs.Arcs.{AreArcs};
ghost use Rattle.cable_definitions.specs.Layout.{KeepsCandidate};
ghost use Rattle.cable_definitions.specs.Row.{has_arc};
ghost use Rattle.cable_definitions.specs.Sums.{sum_int};
ghost use Rattle.layout_laws.specs.Alike.{StartsDiffer};

/// Where all cables are candidate arcs and no start comes twice, what is summed over the arcs that are used is what is summed over the cables.
pub fn used_arcs()
    ensures { (s : Site) (arcs : List Arc) (cables : List Cable) → AreArcs s arcs → ((i : ℕ) → KeepsCandidate s cables i)
        → StartsDiffer cables → (f : ℕ → ℕ → ℤ)
        → sum_int (λ a. if has_arc cables a then f a.from a.to else pos 0) arcs ≡ sum_int (λ c. f c.from c.to) cables }
{}
