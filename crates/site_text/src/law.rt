//! What a run of good items reads.

ghost use Rattle.std.specs.Prelude.{◌≡◌, ℕ, List};
ghost use Rattle.cable_definitions.specs.Items.{RawItem, Draft, empty_draft, ReadsItems};
ghost use Rattle.cable_definitions.specs.Document.{IsSiteAtFront};

/// Lines that are good items, one after another up to the end of a site, are the lines of a valid
/// site: the one that they lead to.
pub fn good_items_are_a_site()
    ensures { (bytes rest : List ℕ) (items : List RawItem) (last : Draft) →
        ReadsItems empty_draft bytes items last rest → last.stage ≡ 6 → IsSiteAtFront bytes last.site rest }
{}
