//! Sites in JSON, read over the tree that `serde_json` reads.
#![tactic(auto)]

ghost use Rattle.std.specs.Prelude.{◌≡◌, ◌≢◌, ℕ, Bool, Err, IfOk, false};
ghost use Rattle.serde_json.specs.View.{view};
ghost use Rattle.cable_definitions.specs.declared.site.SiteCode.{SiteCode};
ghost use Rattle.cable_definitions.specs.Items.{empty_draft};
ghost use Rattle.run_definitions.specs.Json.{raw_items};
ghost use Rattle.run_definitions.specs.Bytes.{IsJsonSite, IsJsonFault};
ghost use Rattle.site_json.specs.Faults.{Fails, GivesSite};

mod items;
pub mod laws;
mod lists;
mod members;
mod top;

use crate::lists::{add_lists, fault_at};
use crate::top::{is_top, mode_of, version_of};
use serde_json::Value;
use site_model::{Site, SiteBuilder, SiteCode, SiteFault};
use std::alloc::Global;

/// The most bytes that a JSON site may have.
const MOST_BYTES: usize = 8_388_608;

/// Reads a site in JSON.
///
/// # Errors
///
/// `Refused` exactly where the bytes are no site: `TooLong` at place 0 where there are more than
/// 8,388,608 bytes, `Form` at place 0 where `serde_json` can't read them, `Shape` at place 1 where
/// the top level is another, and else the least code of the first item that breaks a rule, at the
/// place that the item's line has in the line form. `Memory` where there is none for the tree or
/// the site. It never answers `Read`.
pub fn read_json(alloc: Global, bytes: &[u8]) -> Result<Site, SiteFault>
    ensures site { IfOk result (λ s. IsJsonSite bytes.now s) }
    ensures refused { (code : SiteCode) (place : ℕ) (broken : Bool) → result ≡ Err (SiteFault.Refused code place broken)
        → IsJsonFault bytes.now code place × (broken ≡ false) }
    ensures read { result ≢ Err SiteFault.Read }
{
    if bytes.len() > MOST_BYTES {
        return Err(SiteFault::refused(SiteCode::TooLong, 0));
    }
    let tree = match Value::from_slice(alloc, bytes) {
        Ok(tree) => tree,
        Err(error) => {
            if error.is_memory() {
                return Err(SiteFault::Memory);
            }
            return Err(SiteFault::refused(SiteCode::Form, 0));
        }
    };
    if !is_top(&tree) {
        return Err(SiteFault::refused(SiteCode::Shape, 1));
    }
    site_of(alloc, &tree)
}

/// The site that the items of a tree give.
fn site_of(alloc: Global, tree: &Value) -> Result<Site, SiteFault>
    ensures site { IfOk result (λ s. GivesSite (raw_items (view tree.now)) s) }
    ensures refused { (code : SiteCode) (place : ℕ) (broken : Bool) → result ≡ Err (SiteFault.Refused code place broken)
        → Fails empty_draft 0 (raw_items (view tree.now)) code place broken }
    ensures read { result ≢ Err SiteFault.Read }
{
    let version = match version_of(tree) {
        Ok(version) => version,
        Err(code) => return Err(SiteFault::refused(code, 1)),
    };
    let Some(mode) = mode_of(tree) else {
        return Err(SiteFault::refused(SiteCode::Shape, 2));
    };
    let Ok(mut builder) = SiteBuilder::new(alloc, version, mode) else {
        return Err(SiteFault::Memory);
    };
    let placed = add_lists(&mut builder, version, tree)?;
    match builder.build() {
        Ok(site) => Ok(site),
        Err(fault) => Err(fault_at(placed + 1, fault)),
    }
}
