//! What is accepted.

ghost use Rattle.std.specs.Prelude.{◌≡◌, ℕ, ℤ, List};
ghost use Rattle.cable_definitions.specs.declared.cable.Arc.{Arc};
ghost use Rattle.cable_definitions.specs.declared.cable.Cable.{Cable};
ghost use Rattle.cable_definitions.specs.declared.row.Act.{Act};
ghost use Rattle.cable_definitions.specs.declared.claim.Claim.{Claim};
ghost use Rattle.cable_definitions.specs.declared.claim.Cause.{Cause};
ghost use Rattle.cable_definitions.specs.Site.{Site};
ghost use Rattle.cable_definitions.specs.Arcs.{AreArcs};
ghost use Rattle.cable_definitions.specs.Row.{Row};
ghost use Rattle.cable_definitions.specs.Tree.{Item, RowItem, WorkItem, ProofState, Accepts, Agrees};
ghost use Rattle.cable_definitions.specs.Refusal.{IsRowRefused, IsWorkRefused, IsClaimRefused};

/// A site has one list of candidate arcs.
pub fn arcs_are_determined()
    ensures { (s : Site) (arcs others : List Arc) → AreArcs s arcs → AreArcs s others → arcs ≡ others }
{}

/// An item that is accepted leaves one new state.
pub fn accepting_is_determined()
    ensures { (s : Site) (arcs : List Arc) (n : ℕ) (old : ProofState) (item : Item) (new other : ProofState) → Accepts s arcs n old item new
        → Accepts s arcs n old item other → new ≡ other }
{}

/// No cause refuses an item that is accepted, nor a claim that agrees.
pub fn accepted_is_not_refused()
    ensures row { (s : Site) (arcs : List Arc) (n : ℕ) (kept new : ProofState) (row : Row) (cause : Cause) → Accepts s arcs n kept (RowItem row) new
        → ¬ (IsRowRefused s arcs kept row cause) }
    ensures work { (s : Site) (arcs : List Arc) (n : ℕ) (kept new : ProofState) (v : ℕ) (weights : List (ℕ × ℤ)) (act : Act) (cause : Cause)
        → Accepts s arcs n kept (WorkItem v weights act) new → ¬ (IsWorkRefused s arcs n kept v weights act cause) }
    ensures claim { (s : Site) (n : ℕ) (kept : ProofState) (cables : List Cable) (claim : Claim) (cause : Cause) → Agrees s n kept cables claim
        → ¬ (IsClaimRefused s n kept cables claim cause) }
{}
