//! Rows that a node's shares violate, listed while they are found.

ghost use Rattle.std.specs.Prelude.{◌≡◌, ◌^◌, pos, ◌≤ℤ◌, ◌<ℤ◌, unsigned_abs, length, false, Ok, All, OnOk, IfOk, IfNone};
ghost use Rattle.cable_definitions.specs.Arcs.{AreArcs};
ghost use Rattle.cable_definitions.specs.Row.{IsWellFormed};
ghost use Rattle.cable_definitions.specs.Tree.{ceiling as ceiling_of};
ghost use Rattle.stored_makers.specs.Makers.{MakesSoundRows};
ghost use Rattle.search_progress.specs.Lists.{Lists};
ghost use Rattle.search_core.specs.Calls.{IsOneCall, IsCalled};
ghost use Rattle.search_core.specs.Raised.{IsRaised};
ghost use Rattle.search_progress.specs.Settled.{IsSettledAt};

use crate::worth::{Worth, improved_weights};
use bound_shares::Shares;
use bound_value::rounded_bound;
use cable_rows::{Row, RowPool};
use candidate_cables::Arcs;
use node_reasons::NodeBox;
use node_works::Decisions;
use search_progress::{Choice, closing};
use site_model::Site;
use std::alloc::{AllocError, Global};
use stored_makers::CutMaker;

/// The most calls of the maker for one node.
const MOST_CALLS: u32 = 4;

/// Lists the row that the maker answers, and raises the weights by one turn with it. Answers false where the maker answers none, or the pool has no room
/// for the row; nothing but the maker's counts changes then. The row isn't tested: what is known of the maker says that it is well formed.
///
/// # Errors
///
/// `AllocError` where there is no memory; the row may be listed then.
fn cut_again<F: Fn(&Site, &Arcs, &Shares) -> Result<Option<Row>, AllocError>>(
    alloc: Global,
    site: &Site,
    arcs: &Arcs,
    maker: &mut CutMaker<'_, F>,
    pool: &mut RowPool,
    decisions: &Decisions,
    worth: &mut Worth,
) -> Result<bool, AllocError>
    requires arcs { AreArcs site.now arcs.now }
    requires marks_count { length decisions.now ≡ length arcs.now }
    requires well_formed { All (IsWellFormed site.now arcs.now) pool.old }
    requires makes { MakesSoundRows F.Fn maker.old.make maker.old.site }
    requires maker_site { maker.old.site ≡ site.now }
    requires raised { IsRaised site.now arcs.now pool.old decisions.now worth.old }
    ensures lists { Lists site.now arcs.now pool.old pool.new }
    ensures same_make { maker.new.make ≡ maker.old.make }
    ensures same_site { maker.new.site ≡ maker.old.site }
    ensures raised { OnOk result (IsRaised site.now arcs.now pool.new decisions.now worth.new) }
    ensures risen { OnOk result (worth.old.value ≤ℤ worth.new.value) }
    ensures same_pool { result ≡ Ok false → pool.new ≡ pool.old }
    ensures same_worth { result ≡ Ok false → worth.new ≡ worth.old }
    ensures called { IfOk result (IsOneCall maker.old maker.new pool.old pool.new) }
{
    let Some(row) = maker.call(site, arcs, &worth.shares)? else {
        return Ok(false);
    };
    match pool.add(site, arcs, row.kind, row.members.as_slice()) {
        Ok(_) => {}
        Err(_) => return Ok(false),
    }
    *worth = improved_weights(alloc, site, arcs, pool, decisions, &worth.weights, 1)?;
    Ok(true)
}

/// Lists rows that the maker answers, up to four, and raises a node's weights with each, while the node needs a split; answers what is done with it where it
/// needs none. `parent` is the bound of the node above, in cost units.
///
/// # Errors
///
/// `AllocError` where there is no memory; some rows may be listed then.
pub(crate) fn sharpen<F: Fn(&Site, &Arcs, &Shares) -> Result<Option<Row>, AllocError>>(
    alloc: Global,
    site: &Site,
    arcs: &Arcs,
    maker: &mut CutMaker<'_, F>,
    pool: &mut RowPool,
    decisions: &Decisions,
    node: &NodeBox,
    ceiling: u64,
    known: Option<u64>,
    parent: i128,
    worth: &mut Worth,
) -> Result<Option<Choice>, AllocError>
    requires arcs { AreArcs site.now arcs.now }
    requires marks_count { length decisions.now ≡ length arcs.now }
    requires node { node.now ≡ record { site = site.now; arcs = arcs.now; marks = decisions.now } }
    requires ceiling { ceiling ≡ ceiling_of site.now arcs.now }
    requires well_formed { All (IsWellFormed site.now arcs.now) pool.old }
    requires makes { MakesSoundRows F.Fn maker.old.make maker.old.site }
    requires maker_site { maker.old.site ≡ site.now }
    requires parent { pos 0 ≤ℤ parent }
    requires parent_small { parent <ℤ pos (2 ^ 100) }
    requires raised { IsRaised site.now arcs.now pool.old decisions.now worth.old }
    ensures lists { Lists site.now arcs.now pool.old pool.new }
    ensures same_make { maker.new.make ≡ maker.old.make }
    ensures same_site { maker.new.site ≡ maker.old.site }
    ensures raised { OnOk result (IsRaised site.now arcs.now pool.new decisions.now worth.new) }
    ensures risen { OnOk result (worth.old.value ≤ℤ worth.new.value) }
    ensures settled { IfOk result (IsSettledAt site.now arcs.now pool.new decisions.now known (unsigned_abs parent) worth.new.value) }
    ensures called { IfOk result (λ closed. IfNone closed (IsCalled maker.old maker.new pool.old pool.new)) }
{
    for call in 0..MOST_CALLS {
        let bound = rounded_bound(parent, worth.value);
        if let Some(choice) = closing(node, pool, ceiling, known, bound) {
            return Ok(Some(choice));
        }
        if !cut_again(alloc, site, arcs, maker, pool, decisions, worth)? {
            return Ok(None);
        }
    }
    let bound = rounded_bound(parent, worth.value);
    Ok(closing(node, pool, ceiling, known, bound))
}
