//! Sites in lines, and their faults.

ghost use Rattle.std.specs.Prelude.{◌≡◌, ℕ, List, ◌++◌, length, Bool};
ghost use Rattle.cable_definitions.specs.declared.site.SiteCode.{SiteCode};
ghost use Rattle.cable_definitions.specs.Site.{Site, IsValid};
ghost use Rattle.cable_definitions.specs.Text.{site_lines, line_count};
ghost use Rattle.cable_definitions.specs.Items.{RawItem, Draft, empty_draft, ReadsItems, IsLineFault};
ghost use Rattle.cable_definitions.specs.Document.{IsSiteAtFront};

/// The lines of a valid site, whatever follows them, are good items, one a line, that lead to the site and its end.
pub fn valid_sites_are_good_items()
    ensures { (s : Site) (rest : List ℕ) → IsValid s
        → (items : List RawItem) × (draft : Draft) × ReadsItems empty_draft (site_lines s ++ rest) items draft rest × (draft.stage ≡ 6)
        × (draft.site ≡ s) × (length items ≡ line_count (site_lines s)) }
{}

/// Bytes that begin with a site have no fault.
pub fn a_fault_excludes_a_site()
    ensures { (bytes rest : List ℕ) (s : Site) (base : ℕ) (code : SiteCode) (place : ℕ) (broken_line : Bool) → IsSiteAtFront bytes s rest
        → ¬ (IsLineFault bytes base code place broken_line) }
{}

/// Bytes begin with at most one site, and determine what follows it.
pub fn bytes_determine_a_site()
    ensures { (bytes rest other : List ℕ) (s t : Site) → IsSiteAtFront bytes s rest → IsSiteAtFront bytes t other → (s ≡ t) × (rest ≡ other) }
{}

/// The bytes determine the fault of a site in lines: its code, its place, and whether its line is broken.
pub fn a_line_fault_is_determined()
    ensures { (bytes : List ℕ) (base : ℕ) (code other : SiteCode) (place there : ℕ) (broken_line broken : Bool)
        → IsLineFault bytes base code place broken_line → IsLineFault bytes base other there broken
        → (code ≡ other) × (place ≡ there) × (broken_line ≡ broken) }
{}
