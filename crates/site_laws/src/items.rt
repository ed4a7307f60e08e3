//! Items, one after another, and the sites that they build.

ghost use Rattle.std.specs.Prelude.{◌≡◌, ◌≢◌, ℕ, List, AllPairs};
ghost use Rattle.cable_definitions.specs.declared.site.SiteCode.{SiteCode};
ghost use Rattle.cable_definitions.specs.Items.{RawItem, Draft, empty_draft, Adds, Builds, IsItemFault};

/// What an item makes of a site so far is determined, where the names of its points differ.
pub fn adding_is_determined()
    ensures { (d e f : Draft) (item : RawItem) → AllPairs (λ p q. p.name ≢ q.name) d.site.points → Adds d item e → Adds d item f → e ≡ f }
{}

/// Good items, from nothing on, lead to one site so far.
pub fn building_is_determined()
    ensures { (items : List RawItem) (d e : Draft) → Builds empty_draft items d → Builds empty_draft items e → d ≡ e }
{}

/// Good items have no fault.
pub fn good_items_have_no_fault()
    ensures { (items : List RawItem) (d : Draft) (code : SiteCode) (place : ℕ) → Builds empty_draft items d → ¬ (IsItemFault items code place) }
{}

/// The items determine their fault: its code and its place.
pub fn an_item_fault_is_determined()
    ensures { (items : List RawItem) (code other : SiteCode) (place there : ℕ) → IsItemFault items code place → IsItemFault items other there
        → (code ≡ other) × (place ≡ there) }
{}
