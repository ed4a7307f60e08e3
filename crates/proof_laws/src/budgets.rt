//! Budgets of works.

ghost use Rattle.std.specs.Prelude.{◌≡◌, ◌+◌, ◌<◌, ◌≤◌, ℕ, List, Some};
ghost use Rattle.cable_definitions.specs.declared.cable.Arc.{Arc};
ghost use Rattle.cable_definitions.specs.Site.{Site, IsValid};
ghost use Rattle.cable_definitions.specs.Arcs.{AreArcs};
ghost use Rattle.cable_definitions.specs.Budget.{enough_budget};
ghost use Rattle.cable_definitions.specs.Tree.{Unworked, Node, Item, ProofState, node_of, IsAccepted};
ghost use Rattle.proof_laws.specs.WorksLeft.{works_left};

/// The works of accepted items, and the most that their unworked nodes can still take, are together at most the budget that is always enough; so
/// while an unworked node stands, the works are fewer than that.
pub fn works_stay_within_enough()
    ensures together { (s : Site) (arcs : List Arc) (n : ℕ) (items : List Item) (kept : ProofState) → IsValid s → AreArcs s arcs
        → IsAccepted s arcs n items kept → kept.works + works_left arcs kept.nodes ≤ enough_budget arcs }
    ensures below { (s : Site) (arcs : List Arc) (n : ℕ) (items : List Item) (kept : ProofState) → IsValid s → AreArcs s arcs
        → IsAccepted s arcs n items kept → (v : ℕ) (node : Node) → node_of kept.nodes v ≡ Some node → node.status ≡ Unworked
        → kept.works < enough_budget arcs }
{}
