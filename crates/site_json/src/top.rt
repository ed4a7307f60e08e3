//! The top level of a tree: its keys, the version and the mode.

ghost use Rattle.std.specs.Prelude.{◌≡◌, ◌≤◌, codes, IfOk, IfErr};
ghost use Rattle.serde_json.specs.Find.{get};
ghost use Rattle.serde_json.specs.View.{view};
ghost use Rattle.cable_definitions.specs.Site.{version_number, latest_version};
ghost use Rattle.cable_definitions.specs.Items.{AVersion, empty_draft, IsFirstCode};
ghost use Rattle.site_model.specs.Drafts.{item_of_version};
ghost use Rattle.run_definitions.specs.Json.{whole, is_top, mode_of};

use crate::members::{are_arrays, count_there, has_all, is_text_at, whole_at};
use serde_json::Value;
use site_model::{Mode, SiteCode, Version};

/// Whether the top level is an object with the keys of a site, whose lists are arrays.
pub(crate) fn is_top(tree: &Value) -> bool
    ensures { result ≡ is_top (view tree.now) }
{
    let Some(members) = tree.as_object() else {
        return false;
    };
    if !has_all(tree, &["site", "mode", "types", "points"]) {
        return false;
    }
    if members.len() != 4 + count_there(tree, &["obstacles", "pairs"]) {
        return false;
    }
    are_arrays(tree, &["types", "points", "obstacles", "pairs"])
}

/// The version that the tree tells, or the first code that its item breaks.
pub(crate) fn version_of(tree: &Value) -> Result<Version, SiteCode>
    ensures item { IfOk result (λ version. AVersion (whole (get (codes "site") (view tree.now))) ≡ item_of_version version) }
    ensures latest { IfOk result (λ version. version_number version ≤ latest_version) }
    ensures code { IfErr result (λ code. IsFirstCode empty_draft (AVersion (whole (get (codes "site") (view tree.now)))) code) }
{
    let Some(number) = whole_at(tree, "site") else {
        return Err(SiteCode::Shape);
    };
    if number != 1 {
        return Err(SiteCode::Range);
    }
    Ok(Version::One)
}

/// The mode that the tree tells, where it is one.
pub(crate) fn mode_of(tree: &Value) -> Option<Mode>
    ensures { result ≡ mode_of (get (codes "mode") (view tree.now)) }
{
    if is_text_at(tree, "mode", "tree") {
        return Some(Mode::Tree);
    }
    if is_text_at(tree, "mode", "strings") {
        return Some(Mode::Strings);
    }
    None
}
