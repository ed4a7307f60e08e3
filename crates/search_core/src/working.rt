//! The work on a node.

ghost use Rattle.std.specs.Prelude.{◌≡◌, ℕ, List, ◌++◌, slice_get, Some, OnOk, OnErr};
ghost use Rattle.cable_definitions.specs.Arcs.{AreArcs};
ghost use Rattle.cable_definitions.specs.Choice.{AreLawful};
ghost use Rattle.cable_definitions.specs.InTree.{HasNoBends};
ghost use Rattle.cable_definitions.specs.Tree.{Item, Node, node_of};
ghost use Rattle.cable_definitions.specs.Core.{Works};
ghost use Rattle.stored_makers.specs.Makers.{MakesSoundRows};
ghost use Rattle.stored_makers.specs.Choosers.{ChoosesFreeArcs};
ghost use Rattle.floor_rows.specs.Reached.{ReachFloor};
ghost use Rattle.search_progress.specs.Lists.{Lists, AreFew};
ghost use Rattle.search_core.specs.Calls.{IsCalled};
ghost use Rattle.search_progress.specs.Progress.{core_of, IsSearching, HasFirstRoom};
ghost use Rattle.search_core.specs.Works.{items_since, IsOnlyListed};
ghost use Rattle.search_parts.specs.Floored.{IsFloored};

use crate::choice::choose;
use bound_shares::Shares;
use branch_tree::Act;
use cable_rows::{Row, RowPool};
use candidate_cables::Arcs;
use floor_rows::list_floor_rows;
use intree_floor::has_no_bends;
use node_works::{Decisions, Weights};
use search_progress::{Progress, list_load_rows};
use site_model::Site;
use std::alloc::{AllocError, Global};
use stored_makers::{Chooser, CutMaker};

/// How many turns improve the weights of a node: more in node 1, whose weights the others begin with.
fn turns_of(node: u32) -> u32 {
    if node == 1 { 8 } else { 2 }
}

/// Lists the rows with which the weights of node 1 begin, where that is worked: those on the loads of single points, and on a site without bends those of
/// sets of turbines by which no in-tree costs less than the cheapest one. Their weights become the last ones. Where there is no in-tree, one of the rows
/// can't be met.
///
/// # Errors
///
/// `AllocError` where there is no memory; some rows may be listed then.
fn list_rows_of_node(
    alloc: Global,
    site: &Site,
    arcs: &Arcs,
    pool: &mut RowPool,
    last: &mut Weights,
    node: u32,
) -> Result<(), AllocError>
    requires arcs { AreArcs site.now arcs.now }
    requires room { node ≡ 1 → AreFew pool.old 768 }
    ensures lists { Lists site.now arcs.now pool.old pool.new }
    ensures lawful { OnOk result (node ≡ 1 → HasNoBends site.now → AreLawful pool.new last.new) }
    ensures floor { OnOk result (node ≡ 1 → HasNoBends site.now → ReachFloor site.now arcs.now pool.new last.new) }
{
    if node != 1 {
        return Ok(());
    }
    list_load_rows(site, arcs, pool);
    if !has_no_bends(site) {
        return Ok(());
    }
    let floor = list_floor_rows(alloc, site, arcs, pool)?;
    *last = floor;
    Ok(())
}

/// Works the node that a lane holds: lists rows, and does the act that is chosen on the node, by weights that become those of the last work. Node 1 is
/// left dead, or with a bound of at least the sum of the least costs out of the turbines, and on a site without bends of at least the cost of the cheapest
/// in-tree; where there is no in-tree it is dead.
///
/// # Errors
///
/// `AllocError` where there is no memory; some rows may be listed then, and nothing else is done.
pub(crate) fn work_node<
    F: Fn(&Site, &Arcs, &Shares) -> Result<Option<Row>, AllocError>,
    G: Fn(&Arcs, &Decisions, &Shares) -> Option<u32>,
>(
    alloc: Global,
    site: &Site,
    arcs: &Arcs,
    maker: &mut CutMaker<'_, F>,
    chooser: &Chooser<G>,
    progress: &mut Progress,
    lane: u32,
    node: u32,
) -> Result<(), AllocError>
    requires arcs { AreArcs site.now arcs.now }
    requires searching { (n : ℕ) × IsSearching site.now arcs.now n progress.old }
    requires room { HasFirstRoom progress.old }
    requires held { slice_get progress.old.lanes.items lane ≡ Some (Some node) }
    requires makes { MakesSoundRows F.Fn maker.old.make maker.old.site }
    requires maker_site { maker.old.site ≡ site.now }
    requires chooses { ChoosesFreeArcs G.Fn chooser.now }
    ensures lists { Lists site.now arcs.now progress.old.pool progress.new.pool }
    ensures works { OnOk result ((n : ℕ) (items : List Item) → IsSearching site.now arcs.now n progress.old
        → Works site.now arcs.now n (core_of items progress.old) lane (core_of (items ++ items_since progress.old progress.new) progress.new)) }
    ensures only_listed { OnErr result (IsOnlyListed progress.old progress.new) }
    ensures searching { (n : ℕ) → IsSearching site.now arcs.now n progress.old → IsSearching site.now arcs.now n progress.new }
    ensures room { OnOk result (HasFirstRoom progress.new) }
    ensures called { OnOk result ((a : ℕ) → progress.new.work.act ≡ Act.Split a → IsCalled maker.old maker.new progress.old.pool progress.new.pool) }
    ensures floor { OnOk result (node ≡ 1 → (n : ℕ) (made : Node) → IsSearching site.now arcs.now n progress.old → node_of progress.new.tree.nodes 1 ≡ Some made → IsFloored site.now made) }
    ensures node { OnOk result (progress.new.work.node ≡ node) }
    ensures same_make { maker.new.make ≡ maker.old.make }
    ensures same_site { maker.new.site ≡ maker.old.site }
{
    let mut weights = Weights::new(alloc)?;
    list_rows_of_node(
        alloc,
        site,
        arcs,
        &mut progress.pool,
        &mut progress.last,
        node,
    )?;
    progress.tree.decisions(node, &mut progress.decisions);
    let parent = progress.tree.bound(node);
    let choice = choose(
        alloc,
        site,
        arcs,
        maker,
        chooser,
        &mut progress.pool,
        &progress.decisions,
        progress.ceiling,
        progress.known,
        parent,
        turns_of(node),
        &mut progress.last,
        &mut weights,
    )?;
    progress.work.weights = weights;
    progress.act(site, arcs, lane, node, choice);
    Ok(())
}
