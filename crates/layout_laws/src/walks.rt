//! Walks along the cables.

ghost use Rattle.std.specs.Prelude.{◌≡◌, ℕ, ◌+◌, ◌≤◌, List, Bool, ◌==◌, if◌then◌else◌, IsTrue, Some};
ghost use Rattle.cable_definitions.specs.declared.cable.Cable.{Cable};
ghost use Rattle.cable_definitions.specs.Site.{Site};
ghost use Rattle.cable_definitions.specs.Walk.{cable_out, walk_end, most_steps, passes};
ghost use Rattle.cable_definitions.specs.Layout.{Starts, KeepsCandidate, KeepsEnd};
ghost use Rattle.layout_laws.specs.Alike.{StartsDiffer};
ghost use Rattle.layout_laws.specs.Visits.{visits, visits_into, WalksEnd, LeavesBy};

/// A walk passes a point exactly where it stands there after some number of steps, and passes the point where it begins.
pub fn points_passed()
    ensures reached { (cables : List Cable) (p t steps : ℕ) → steps ≤ most_steps → walk_end steps cables t ≡ p → IsTrue (passes cables p t) }
    ensures after_steps { (cables : List Cable) (p t : ℕ) → IsTrue (passes cables p t)
        → (steps : ℕ) × (steps ≤ most_steps) × (walk_end steps cables t ≡ p) }
    ensures own_start { (cables : List Cable) (p : ℕ) → IsTrue (passes cables p p) }
{}

/// A walk that comes to a point that starts no cable comes to no point twice.
pub fn no_return()
    ensures { (cables : List Cable) (steps t p : ℕ) → ¬ (Starts cables (walk_end steps cables t)) → visits cables p steps t ≤ 1 }
{}

/// A walk comes to a point as often as it comes to the starts of the cables that end there, and once more if it begins there.
pub fn visits_over_cables()
    ensures { (cables : List Cable) → StartsDiffer cables → (p steps t : ℕ)
        → visits cables p (steps + 1) t ≡ (if t == p then 1 else 0) + visits_into cables p steps t }
{}

/// Where all cables are candidate arcs and no walk from a cable is lost, each walk comes to a point that starts no cable; and then a walk
/// that passes the start of a cable passes its end.
pub fn walks_that_end()
    ensures ends { (s : Site) (cables : List Cable) → ((i : ℕ) → KeepsCandidate s cables i) → ((p : ℕ) → KeepsEnd s cables p)
        → WalksEnd cables }
    ensures next { (cables : List Cable) → WalksEnd cables → (t : ℕ) (c : Cable) → cable_out cables c.from ≡ Some c
        → IsTrue (passes cables c.from t) → IsTrue (passes cables c.to t) }
{}

/// A walk that begins in a set of points and ends outside passes over a cable that leaves the set.
pub fn leaving_a_set()
    ensures { (cables : List Cable) (inside : ℕ → Bool) (t : ℕ) → IsTrue (inside t)
        → ¬ (IsTrue (inside (walk_end most_steps cables t))) → (c : Cable) × LeavesBy cables inside t c }
{}
