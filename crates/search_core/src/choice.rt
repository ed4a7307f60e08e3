//! What is done with a node.

ghost use Rattle.std.specs.Prelude.{◌≡◌, ◌≢◌, ℕ, ◌^◌, ◌≤◌, pos, ◌≤ℤ◌, ◌<ℤ◌, unsigned_abs, length, slice_get, Some, All, IfOk};
ghost use Rattle.cable_definitions.specs.Arcs.{AreArcs};
ghost use Rattle.cable_definitions.specs.Choice.{AreLawful};
ghost use Rattle.cable_definitions.specs.Row.{IsWellFormed};
ghost use Rattle.cable_definitions.specs.Tree.{ceiling as ceiling_of};
ghost use Rattle.proof_laws.specs.Decided.{HasPointRows};
ghost use Rattle.stored_makers.specs.Makers.{MakesSoundRows};
ghost use Rattle.stored_makers.specs.Choosers.{ChoosesFreeArcs, AreBeside};
ghost use Rattle.search_progress.specs.Lists.{Lists};
ghost use Rattle.search_core.specs.Calls.{IsCalled};
ghost use Rattle.search_progress.specs.Chosen.{IsActFor, IsNodeBound};
ghost use Rattle.search_core.specs.Raised.{BeatTurbines, BeatLast};

use crate::sharpening::sharpen;
use crate::worth::{Worth, improved_weights};
use bound_shares::Shares;
use bound_value::{rounded_bound, weigh};
use branch_tree::Act;
use cable_rows::{Row, RowPool};
use candidate_cables::Arcs;
use node_reasons::NodeBox;
use node_works::{Decisions, Mark, Weights};
use row_lifts::copied;
use search_progress::{Choice, closing};
use site_model::Site;
use std::alloc::{AllocError, Global};
use stored_makers::{Chooser, CutMaker};

/// The free arc that the chooser names, where not all arcs are decided.
fn free_arc<G: Fn(&Arcs, &Decisions, &Shares) -> Option<u32>>(
    arcs: &Arcs,
    chooser: &Chooser<G>,
    decisions: &Decisions,
    shares: &Shares,
) -> u32
    requires chooses { ChoosesFreeArcs G.Fn chooser.now }
    requires beside { AreBeside arcs.now decisions.now shares.now }
    requires some_free { ¬ ((a : ℕ) → slice_get decisions.now a ≢ Some Mark.Free) }
    ensures { slice_get decisions.now result ≡ Some Mark.Free }
{
    match chooser.call(arcs, decisions, shares) {
        Some(arc) => arc,
        None => unreachable!(),
    }
}

/// Chooses what is done with a node by raised weights, while the maker's rows are listed: a split where it still needs one.
///
/// # Errors
///
/// `AllocError` where there is no memory; some rows may be listed then.
fn choose_with_rows<
    F: Fn(&Site, &Arcs, &Shares) -> Result<Option<Row>, AllocError>,
    G: Fn(&Arcs, &Decisions, &Shares) -> Option<u32>,
>(
    alloc: Global,
    site: &Site,
    arcs: &Arcs,
    maker: &mut CutMaker<'_, F>,
    chooser: &Chooser<G>,
    pool: &mut RowPool,
    decisions: &Decisions,
    node: &NodeBox,
    ceiling: u64,
    known: Option<u64>,
    parent: i128,
    turns: u32,
    last: &mut Weights,
    weights: &mut Weights,
) -> Result<Choice, AllocError>
    requires arcs { AreArcs site.now arcs.now }
    requires marks_count { length decisions.now ≡ length arcs.now }
    requires node { node.now ≡ record { site = site.now; arcs = arcs.now; marks = decisions.now } }
    requires ceiling { ceiling ≡ ceiling_of site.now arcs.now }
    requires rows { HasPointRows site.now arcs.now pool.old }
    requires well_formed { All (IsWellFormed site.now arcs.now) pool.old }
    requires makes { MakesSoundRows F.Fn maker.old.make maker.old.site }
    requires maker_site { maker.old.site ≡ site.now }
    requires chooses { ChoosesFreeArcs G.Fn chooser.now }
    requires parent { pos 0 ≤ℤ parent }
    requires parent_small { parent <ℤ pos (2 ^ 100) }
    requires few { length weights.old ≤ 1024 }
    ensures lists { Lists site.now arcs.now pool.old pool.new }
    ensures same_make { maker.new.make ≡ maker.old.make }
    ensures same_site { maker.new.site ≡ maker.old.site }
    ensures lawful { IfOk result (λ choice. AreLawful pool.new weights.new) }
    ensures few { length weights.new ≤ 1024 }
    ensures chosen { IfOk result (λ choice. (bound : ℕ) × IsNodeBound site.now arcs.now pool.new decisions.now weights.new (unsigned_abs parent) bound
        × IsActFor site.now arcs.now pool.new decisions.now known weights.new bound choice.act (unsigned_abs choice.bound)) }
    ensures not_negative { IfOk result (λ choice. pos 0 ≤ℤ choice.bound) }
    ensures small { IfOk result (λ choice. choice.bound <ℤ pos (2 ^ 100)) }
    ensures cost { IfOk result (λ choice. choice.act ≡ Act.Full → choice.bound <ℤ pos (2 ^ 64)) }
    ensures floor { IfOk result (λ choice. (a : ℕ) → choice.act ≡ Act.Split a → BeatTurbines site.now arcs.now pool.new decisions.now weights.new) }
    ensures last { IfOk result (λ choice. (a : ℕ) → choice.act ≡ Act.Split a → AreLawful pool.old last.old → BeatLast site.now arcs.now pool.old pool.new decisions.now last.old weights.new) }
    ensures called { IfOk result (λ choice. (a : ℕ) → choice.act ≡ Act.Split a → IsCalled maker.old maker.new pool.old pool.new) }
{
    // The points of a site come with the fact that it is valid: a node without a free arc is dead or full.
    let _valid = site.points();
    let mut worth = improved_weights(alloc, site, arcs, pool, decisions, last, turns)?;
    let closed = sharpen(
        alloc, site, arcs, maker, pool, decisions, node, ceiling, known, parent, &mut worth,
    )?;
    let Worth {
        weights: raised,
        value,
        shares,
    } = worth;
    *weights = copied(alloc, &raised)?;
    *last = raised;
    match closed {
        Some(choice) => Ok(choice),
        None => Ok(Choice {
            act: Act::Split(free_arc(arcs, chooser, decisions, &shares)),
            bound: rounded_bound(parent, value),
        }),
    }
}

/// Chooses what is done with a node with these decisions, where this is the ceiling of the site and this cost is known, lists the rows that this takes, and leaves the weights of the work in
/// `weights`; `last` are the weights with which these begin, and become those that were raised. A node that needs no split by the bound of the node above,
/// `parent`, and by what its used arcs cost, has no weights.
///
/// # Errors
///
/// `AllocError` where there is no memory; some rows may be listed then.
pub(crate) fn choose<
    F: Fn(&Site, &Arcs, &Shares) -> Result<Option<Row>, AllocError>,
    G: Fn(&Arcs, &Decisions, &Shares) -> Option<u32>,
>(
    alloc: Global,
    site: &Site,
    arcs: &Arcs,
    maker: &mut CutMaker<'_, F>,
    chooser: &Chooser<G>,
    pool: &mut RowPool,
    decisions: &Decisions,
    ceiling: u64,
    known: Option<u64>,
    parent: i128,
    turns: u32,
    last: &mut Weights,
    weights: &mut Weights,
) -> Result<Choice, AllocError>
    requires arcs { AreArcs site.now arcs.now }
    requires marks_count { length decisions.now ≡ length arcs.now }
    requires ceiling { ceiling ≡ ceiling_of site.now arcs.now }
    requires rows { HasPointRows site.now arcs.now pool.old }
    requires well_formed { All (IsWellFormed site.now arcs.now) pool.old }
    requires makes { MakesSoundRows F.Fn maker.old.make maker.old.site }
    requires maker_site { maker.old.site ≡ site.now }
    requires chooses { ChoosesFreeArcs G.Fn chooser.now }
    requires parent { pos 0 ≤ℤ parent }
    requires parent_small { parent <ℤ pos (2 ^ 100) }
    ensures lists { Lists site.now arcs.now pool.old pool.new }
    ensures same_make { maker.new.make ≡ maker.old.make }
    ensures same_site { maker.new.site ≡ maker.old.site }
    ensures lawful { IfOk result (λ choice. AreLawful pool.new weights.new) }
    ensures few { length weights.new ≤ 1024 }
    ensures chosen { IfOk result (λ choice. (bound : ℕ) × IsNodeBound site.now arcs.now pool.new decisions.now weights.new (unsigned_abs parent) bound
        × IsActFor site.now arcs.now pool.new decisions.now known weights.new bound choice.act (unsigned_abs choice.bound)) }
    ensures not_negative { IfOk result (λ choice. pos 0 ≤ℤ choice.bound) }
    ensures small { IfOk result (λ choice. choice.bound <ℤ pos (2 ^ 100)) }
    ensures cost { IfOk result (λ choice. choice.act ≡ Act.Full → choice.bound <ℤ pos (2 ^ 64)) }
    ensures floor { IfOk result (λ choice. (a : ℕ) → choice.act ≡ Act.Split a → BeatTurbines site.now arcs.now pool.new decisions.now weights.new) }
    ensures last { IfOk result (λ choice. (a : ℕ) → choice.act ≡ Act.Split a → AreLawful pool.old last.old → BeatLast site.now arcs.now pool.old pool.new decisions.now last.old weights.new) }
    ensures called { IfOk result (λ choice. (a : ℕ) → choice.act ≡ Act.Split a → IsCalled maker.old maker.new pool.old pool.new) }
{
    weights.clear();
    let bare = rounded_bound(parent, weigh(site, arcs, pool, decisions, weights));
    let node = NodeBox::new(site, arcs, decisions);
    match closing(&node, pool, ceiling, known, bare) {
        Some(choice) => Ok(choice),
        None => choose_with_rows(
            alloc, site, arcs, maker, chooser, pool, decisions, &node, ceiling, known, parent,
            turns, last, weights,
        ),
    }
}
