//! The order of a list of cables, and the types of its cables.

ghost use Rattle.std.specs.Prelude.{◌≡◌, ◌≢◌, ℕ, List};
ghost use Rattle.cable_definitions.specs.declared.cable.Cable.{Cable};
ghost use Rattle.cable_definitions.specs.declared.cable.Rule.{Rule};
ghost use Rattle.cable_definitions.specs.declared.cable.Rule.TheVariants.{Range, Overload};
ghost use Rattle.cable_definitions.specs.Site.{Site};
ghost use Rattle.cable_definitions.specs.Walk.{walk, walk_end, passes, load, starts_in, ends_in, load_into};
ghost use Rattle.cable_definitions.specs.Layout.{Starts, Keeps, KeepsRange, KeepsCapacity, IsLegal, cost};
ghost use Rattle.cable_definitions.specs.Part.{IsGrown, IsSettled, IsBlocked};
ghost use Rattle.layout_laws.specs.Alike.{StartsDiffer, SameOuts, SameEnds};

/// Two lists whose cables out of each point are the same have the same walks; if no start comes twice in either of them, they have one
/// cost, keep the same rules, and are alike legal, grown, settled and blocked.
pub fn order_of_cables()
    ensures ends { (xs ys : List Cable) → SameOuts xs ys → SameEnds xs ys }
    ensures rules { (s : Site) (xs ys : List Cable) → StartsDiffer xs → StartsDiffer ys → SameOuts xs ys
        → (rule : Rule) → ((i j : ℕ) → Keeps s xs rule i j) → (i j : ℕ) → Keeps s ys rule i j }
    ensures legal { (s : Site) (xs ys : List Cable) → StartsDiffer ys → SameOuts xs ys → IsLegal s xs → IsLegal s ys }
    ensures cost { (s : Site) (xs ys : List Cable) → StartsDiffer xs → StartsDiffer ys → SameOuts xs ys → cost s xs ≡ cost s ys }
    ensures grown { (s : Site) (xs ys : List Cable) → StartsDiffer ys → SameOuts xs ys → IsGrown s xs → IsGrown s ys }
    ensures settled { (s : Site) (xs ys : List Cable) → StartsDiffer ys → SameOuts xs ys → IsSettled s xs → IsSettled s ys }
    ensures blocked { (s : Site) (xs ys : List Cable) → StartsDiffer ys → SameOuts xs ys
        → (turbine : ℕ) → IsBlocked s xs turbine → IsBlocked s ys turbine }
{}

/// Two lists whose cables out of each point end in the same point have the same walks, loads and starts, whatever the types.
pub fn walks_without_types()
    ensures walks { (xs ys : List Cable) → SameEnds xs ys → (steps p : ℕ) → walk steps xs p ≡ walk steps ys p }
    ensures ends { (xs ys : List Cable) → SameEnds xs ys → (steps p : ℕ) → walk_end steps xs p ≡ walk_end steps ys p }
    ensures passes { (xs ys : List Cable) → SameEnds xs ys → (p t : ℕ) → passes xs p t ≡ passes ys p t }
    ensures loads { (s : Site) (xs ys : List Cable) → SameEnds xs ys → (p : ℕ) → load s xs p ≡ load s ys p }
    ensures starts { (xs ys : List Cable) → SameEnds xs ys → (p : ℕ) → Starts xs p → Starts ys p }
{}

/// If no start comes twice in either list, they have the same counts and the same loads into each point, and keep the same rules except
/// those on types.
pub fn rules_without_types()
    ensures starts_in { (xs ys : List Cable) → StartsDiffer xs → StartsDiffer ys → SameEnds xs ys → (p : ℕ) → starts_in xs p ≡ starts_in ys p }
    ensures ends_in { (xs ys : List Cable) → StartsDiffer xs → StartsDiffer ys → SameEnds xs ys → (p : ℕ) → ends_in xs p ≡ ends_in ys p }
    ensures load_into { (s : Site) (xs ys : List Cable) → StartsDiffer xs → StartsDiffer ys → SameEnds xs ys
        → (p : ℕ) → load_into s xs p ≡ load_into s ys p }
    ensures rules { (s : Site) (xs ys : List Cable) → StartsDiffer xs → StartsDiffer ys → SameEnds xs ys
        → (rule : Rule) → rule ≢ Range → rule ≢ Overload → ((i j : ℕ) → Keeps s xs rule i j) → (i j : ℕ) → Keeps s ys rule i j }
    ensures legal { (s : Site) (xs ys : List Cable) → StartsDiffer ys → SameEnds xs ys → IsLegal s xs
        → ((i : ℕ) → KeepsRange s ys i) → ((p : ℕ) → KeepsCapacity s ys p) → IsLegal s ys }
{}
