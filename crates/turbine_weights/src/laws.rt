//! What the weights of turbines are in the first node.

ghost use Rattle.std.specs.Prelude.{◌≡◌, ◌≢◌, ℕ, ℤ, List, All, slice_get, Some};
ghost use Rattle.cable_definitions.specs.declared.cable.Arc.{Arc};
ghost use Rattle.cable_definitions.specs.declared.row.Mark.{Mark};
ghost use Rattle.cable_definitions.specs.declared.row.Mark.TheVariants.{Unused};
ghost use Rattle.cable_definitions.specs.Site.{Site};
ghost use Rattle.cable_definitions.specs.Arcs.{AreArcs};
ghost use Rattle.cable_definitions.specs.Row.{Row, IsWellFormed};
ghost use Rattle.proof_laws.specs.Decided.{HasPointRows};
ghost use Rattle.proof_laws.specs.OutWeights.{AreOutWeights, AreNearestWeights};
ghost use Rattle.turbine_weights.specs.Turbines.{AreTurbineWeights};

/// Where no arc is marked unused and all rows of single points are listed, the weights of the turbines are the least costs out of them, once for
/// each turbine: their value reaches the sum of these costs.
pub fn all_free_weights_reach_the_nearest()
    ensures nearest { (s : Site) (arcs : List Arc) (rows : List Row) (marks : List Mark) (weights : List (ℕ × ℤ)) → AreArcs s arcs
        → All (IsWellFormed s arcs) rows → HasPointRows s arcs rows → ((a : ℕ) → slice_get marks a ≢ Some Unused)
        → AreTurbineWeights s arcs rows marks weights → AreNearestWeights s rows weights }
    ensures out { (s : Site) (arcs : List Arc) (rows : List Row) (marks : List Mark) (weights : List (ℕ × ℤ)) → AreArcs s arcs
        → All (IsWellFormed s arcs) rows → HasPointRows s arcs rows → ((a : ℕ) → slice_get marks a ≢ Some Unused)
        → AreTurbineWeights s arcs rows marks weights → AreOutWeights s arcs rows marks weights }
{}
