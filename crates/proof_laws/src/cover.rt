//! Accepted items.

ghost use Rattle.std.specs.Prelude.{◌≡◌, ◌≤◌, ◌⊎◌, ◌+◌, ◌*◌, ◌^◌, ℕ, ℤ, pos, ◌≤ℤ◌, List, length, slice_set, IsTrue, Some};
ghost use Rattle.cable_definitions.specs.declared.cable.Arc.{Arc};
ghost use Rattle.cable_definitions.specs.declared.cable.Cable.{Cable};
ghost use Rattle.cable_definitions.specs.declared.row.Mark.TheVariants.{Used, Unused};
ghost use Rattle.cable_definitions.specs.declared.row.Act.{Act};
ghost use Rattle.cable_definitions.specs.declared.row.Act.TheVariants.{Split};
ghost use Rattle.cable_definitions.specs.declared.claim.Claim.{Claim};
ghost use Rattle.cable_definitions.specs.declared.claim.Claim.TheVariants.{Optimal};
ghost use Rattle.cable_definitions.specs.Site.{Site, IsValid};
ghost use Rattle.cable_definitions.specs.Arcs.{AreArcs};
ghost use Rattle.cable_definitions.specs.Budget.{IsNearest};
ghost use Rattle.cable_definitions.specs.Layout.{IsLegal, cost, Least, HasNone};
ghost use Rattle.cable_definitions.specs.Choice.{IsInBox};
ghost use Rattle.cable_definitions.specs.Tree.{Node, Item, ProofState, node_of, marks_of, IsWorked, Leads, IsAccepted, is_open_leaf, IsLeastBound, AllDead, Agrees, Says};
ghost use Rattle.cable_definitions.specs.Document.{IsAcceptedDocument};
ghost use Rattle.proof_laws.specs.OutWeights.{AreOutWeights};

/// Node 1's box holds every list of cables, whatever items are accepted.
pub fn first_box_holds_all()
    ensures { (s : Site) (arcs : List Arc) (n : ℕ) (items : List Item) (kept : ProofState) → IsAccepted s arcs n items kept
        → (cables : List Cable) → IsInBox arcs (marks_of arcs kept.nodes 1) cables }
{}

/// Later items change no mark of a node that was made before them.
pub fn later_items_keep_marks()
    ensures { (s : Site) (arcs : List Arc) (n : ℕ) (items more : List Item) (old new : ProofState) → IsValid s → AreArcs s arcs
        → IsAccepted s arcs n items old → Leads s arcs n old more new
        → (v : ℕ) → v ≤ length old.nodes → marks_of arcs new.nodes v ≡ marks_of arcs old.nodes v }
{}

/// A split makes two nodes whose marks are those of the split node, but at the arc of the split, which is used in the first and unused in the
/// second; a layout in the split node's box lies in the box of exactly one of them.
pub fn splits_divide_boxes()
    ensures used { (s : Site) (arcs : List Arc) (n : ℕ) (items : List Item) (old new : ProofState) (v a : ℕ) (weights : List (ℕ × ℤ)) → IsValid s
        → AreArcs s arcs → IsAccepted s arcs n items old → IsWorked s arcs n old v weights (Split a) new
        → marks_of arcs new.nodes (length old.nodes + 1) ≡ slice_set (marks_of arcs old.nodes v) a Used }
    ensures unused { (s : Site) (arcs : List Arc) (n : ℕ) (items : List Item) (old new : ProofState) (v a : ℕ) (weights : List (ℕ × ℤ)) → IsValid s
        → AreArcs s arcs → IsAccepted s arcs n items old → IsWorked s arcs n old v weights (Split a) new
        → marks_of arcs new.nodes (length old.nodes + 2) ≡ slice_set (marks_of arcs old.nodes v) a Unused }
    ensures one_of { (s : Site) (arcs : List Arc) (n : ℕ) (items : List Item) (old new : ProofState) (v a : ℕ) (weights : List (ℕ × ℤ)) (cables : List Cable)
        → IsValid s → AreArcs s arcs → IsAccepted s arcs n items old → IsWorked s arcs n old v weights (Split a) new
        → IsInBox arcs (marks_of arcs old.nodes v) cables
        → let used = IsInBox arcs (marks_of arcs new.nodes (length old.nodes + 1)) cables
        in let unused = IsInBox arcs (marks_of arcs new.nodes (length old.nodes + 2)) cables in (used × (¬ unused)) ⊎ ((¬ used) × unused) }
{}

/// In the box of each node that accepted items make, every legal layout costs at least the node's bound.
pub fn bounds_hold_in_boxes()
    ensures { (s : Site) (arcs : List Arc) (n : ℕ) (items : List Item) (kept : ProofState) → IsValid s → AreArcs s arcs → IsAccepted s arcs n items kept
        → (v : ℕ) (node : Node) → node_of kept.nodes v ≡ Some node → (cables : List Cable) → IsLegal s cables
        → IsInBox arcs (marks_of arcs kept.nodes v) cables → node.bound ≤ cost s cables }
{}

/// Whatever items are accepted, every legal layout lies in the box of an open leaf.
pub fn open_leaves_cover()
    ensures { (s : Site) (arcs : List Arc) (n : ℕ) (items : List Item) (kept : ProofState) → IsValid s → AreArcs s arcs → IsAccepted s arcs n items kept
        → (cables : List Cable) → IsLegal s cables
        → (v : ℕ) × (node : Node) × (node_of kept.nodes v ≡ Some node) × IsTrue (is_open_leaf node.status) × IsInBox arcs (marks_of arcs kept.nodes v) cables }
{}

/// Every legal layout costs at least the least bound over the open leaves of accepted items.
pub fn least_bound_holds()
    ensures { (s : Site) (arcs : List Arc) (n : ℕ) (items : List Item) (kept : ProofState) (bound : ℕ) → IsValid s → AreArcs s arcs
        → IsAccepted s arcs n items kept → IsLeastBound kept bound → Least s bound }
{}

/// Where accepted items leave dead leaves alone, the site has no legal layout.
pub fn dead_leaves_leave_none()
    ensures { (s : Site) (arcs : List Arc) (n : ℕ) (items : List Item) (kept : ProofState) → IsValid s → AreArcs s arcs → IsAccepted s arcs n items kept
        → AllDead kept → HasNone s }
{}

/// What a claim says of all legal layouts is so, where it agrees with accepted items.
pub fn agreeing_claims_hold()
    ensures { (s : Site) (arcs : List Arc) (n : ℕ) (items : List Item) (kept : ProofState) (cables : List Cable) (claim : Claim) → IsValid s → AreArcs s arcs
        → IsAccepted s arcs n items kept → Agrees s n kept cables claim → Says s claim }
{}

/// What an accepted document claims of all legal layouts of its site is so.
pub fn documents_are_true()
    ensures { (bytes : List ℕ) (s : Site) (claim : Claim) → IsAcceptedDocument bytes s claim → Says s claim }
{}

/// Where an accepted document claims a cost to be optimal, some legal layout has that cost and none costs less.
pub fn optimal_documents_are_true()
    ensures reached { (bytes : List ℕ) (s : Site) (best : ℕ) → IsAcceptedDocument bytes s (Optimal best) → (cables : List Cable) × IsLegal s cables × (cost s cables ≡ best) }
    ensures least { (bytes : List ℕ) (s : Site) (best : ℕ) → IsAcceptedDocument bytes s (Optimal best) → Least s best }
{}

/// Where each made node's bound is at least some number, so is that of each node after later items.
pub fn bounds_never_fall()
    ensures { (s : Site) (arcs : List Arc) (n m : ℕ) (items more : List Item) (old new : ProofState) → IsValid s → AreArcs s arcs
        → IsAccepted s arcs n items old → Leads s arcs n old more new
        → ((v : ℕ) (node : Node) → node_of old.nodes v ≡ Some node → m ≤ node.bound)
        → (v : ℕ) (node : Node) → node_of new.nodes v ≡ Some node → m ≤ node.bound }
{}

/// Where the first work's value, over 2^20, reaches a number that every legal layout costs at least, no bound after that work is below the number;
/// so the weights of the nearest arcs keep all bounds at the sum of the least costs out of the turbines or above.
pub fn first_values_hold()
    ensures reached { (s : Site) (arcs : List Arc) (n m : ℕ) (items more : List Item) (old mid new : ProofState) (v : ℕ) (weights : List (ℕ × ℤ)) (act : Act)
        → IsValid s → AreArcs s arcs → Least s m → IsAccepted s arcs n items old → old.works ≡ 0
        → (work : IsWorked s arcs n old v weights act mid) → pos (2 ^ 20 * m) ≤ℤ work.value → Leads s arcs n mid more new
        → (u : ℕ) (node : Node) → node_of new.nodes u ≡ Some node → m ≤ node.bound }
    ensures nearest { (s : Site) (arcs : List Arc) (n nearest : ℕ) (items more : List Item) (old mid new : ProofState) (v : ℕ) (weights : List (ℕ × ℤ)) (act : Act)
        → IsValid s → AreArcs s arcs → IsNearest s nearest → IsAccepted s arcs n items old → old.works ≡ 0
        → IsWorked s arcs n old v weights act mid → AreOutWeights s arcs old.rows (marks_of arcs old.nodes v) weights → Leads s arcs n mid more new
        → (u : ℕ) (node : Node) → node_of new.nodes u ≡ Some node → nearest ≤ node.bound }
{}
