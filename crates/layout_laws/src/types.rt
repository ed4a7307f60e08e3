//! The choice of types for the cables of a list.

ghost use Rattle.std.specs.Prelude.{◌≡◌, ℕ, ◌≤◌, ◌⊎◌, List, length, IsTrue};
ghost use Rattle.cable_definitions.specs.declared.cable.Cable.{Cable};
ghost use Rattle.cable_definitions.specs.Site.{Site};
ghost use Rattle.cable_definitions.specs.Arcs.{IsCandidate, kind_of, is_turbine, largest_capacity, cost_of, Bears, IsCheapest};
ghost use Rattle.cable_definitions.specs.Layout.{Starts, KeepsRange, KeepsJoined, KeepsCapacity, IsLegal, cost};
ghost use Rattle.cable_definitions.specs.Part.{IsGrown, IsTarget, IsBlocked, SameArcs, AreCheapTyped};
ghost use Rattle.layout_laws.specs.Typable.{IsTypable, extended_by};

/// Where some type bears a load one of them is the cheapest, and a load is borne exactly where it is at most the largest capacity.
pub fn cheapest_type()
    ensures exists { (s : Site) (from to load : ℕ) → ((grade : ℕ) → ¬ (Bears s grade load)) ⊎ ((grade : ℕ) × IsCheapest s from to load grade) }
    ensures unique { (s : Site) (from to load a b : ℕ) → IsCheapest s from to load a → IsCheapest s from to load b → a ≡ b }
    ensures cheapest { (s : Site) (from to load grade other : ℕ) → IsCheapest s from to load grade → Bears s other load
        → cost_of s from to grade load ≤ cost_of s from to other load }
    ensures borne { (s : Site) (grade load : ℕ) → Bears s grade load → load ≤ largest_capacity s }
    ensures bears { (s : Site) (load : ℕ) → 1 ≤ length s.types → load ≤ largest_capacity s → (grade : ℕ) × Bears s grade load }
{}

/// Each list of cables has exactly one choice of cheapest types.
pub fn cheapest_types()
    ensures exists { (s : Site) (cables : List Cable) → (cheap : List Cable) × AreCheapTyped s cables cheap }
    ensures unique { (s : Site) (cables xs ys : List Cable) → AreCheapTyped s cables xs → AreCheapTyped s cables ys → xs ≡ ys }
{}

/// Some choice of types makes a list of cables grown exactly where its cheapest types do, and that is where all rules but those on types are
/// kept and no cable carries more than the largest capacity.
pub fn types_of_grown_parts()
    ensures cheapest { (s : Site) (cables cheap typed : List Cable) → AreCheapTyped s cables cheap → SameArcs typed cables
        → IsGrown s typed → IsGrown s cheap }
    ensures rules { (s : Site) (cables typed : List Cable) → SameArcs typed cables → IsGrown s typed → IsTypable s cables }
    ensures typable { (s : Site) (cables cheap : List Cable) → 1 ≤ length s.types → IsTypable s cables → AreCheapTyped s cables cheap
        → IsGrown s cheap }
{}

/// The same of legal layouts, which are the grown parts that join all turbines.
pub fn types_of_layouts()
    ensures grown { (s : Site) (cables : List Cable) → IsLegal s cables → IsGrown s cables }
    ensures legal { (s : Site) (cables : List Cable) → IsGrown s cables → ((p : ℕ) → KeepsJoined s cables p) → IsLegal s cables }
    ensures cheapest { (s : Site) (cables cheap typed : List Cable) → AreCheapTyped s cables cheap → SameArcs typed cables
        → IsLegal s typed → IsLegal s cheap }
    ensures rules { (s : Site) (cables typed : List Cable) → SameArcs typed cables → IsLegal s typed
        → IsTypable s cables × ((p : ℕ) → KeepsJoined s cables p) }
    ensures typable { (s : Site) (cables cheap : List Cable) → 1 ≤ length s.types → IsTypable s cables → ((p : ℕ) → KeepsJoined s cables p)
        → AreCheapTyped s cables cheap → IsLegal s cheap }
{}

/// Of all choices of types that bear the loads of the cables, so of all that make a legal layout, the cheapest types cost least.
pub fn cost_of_types()
    ensures borne { (s : Site) (cables cheap typed : List Cable) → AreCheapTyped s cables cheap → SameArcs typed cables
        → ((i : ℕ) → KeepsRange s typed i) → ((p : ℕ) → KeepsCapacity s typed p) → cost s cheap ≤ cost s typed }
    ensures legal { (s : Site) (cables cheap typed : List Cable) → AreCheapTyped s cables cheap → SameArcs typed cables → IsLegal s typed
        → cost s cheap ≤ cost s typed }
{}

/// A turbine is blocked exactly where no cable to a joined turbine or a substation makes a grown part with the cheapest types.
pub fn types_of_blocked_turbines()
    ensures blocked { (s : Site) (part : List Cable) (turbine : ℕ) → IsGrown s part → IsTrue (is_turbine (kind_of s turbine))
        → ¬ (Starts part turbine)
        → ((q : ℕ) (cheap : List Cable) → IsTarget s part q → IsCandidate s turbine q → AreCheapTyped s (extended_by part turbine q) cheap
        → ¬ (IsGrown s cheap))
        → IsBlocked s part turbine }
    ensures cheapest { (s : Site) (part : List Cable) (turbine : ℕ) → IsBlocked s part turbine
        → (q : ℕ) (cheap : List Cable) → IsTarget s part q → IsCandidate s turbine q → AreCheapTyped s (extended_by part turbine q) cheap
        → ¬ (IsGrown s cheap) }
{}
