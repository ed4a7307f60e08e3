//! The rows of the sets that prove the cost of the cheapest in-tree.

ghost use Rattle.std.specs.Prelude.{◌≡◌, ◌*◌, ◌^◌, ◌≤◌, ◌<◌, ◌++◌, ◌∷◌, [], pos, length, map, sum_by, IfOk};
ghost use Rattle.cable_definitions.specs.Arcs.{AreArcs};
ghost use Rattle.cable_definitions.specs.Choice.{AreLawful};
ghost use Rattle.cable_definitions.specs.InTree.{HasNoBends};
ghost use Rattle.site_model.specs.Best.{most_cost};
ghost use Rattle.intree_floor.specs.Weights.{IsTurbineSet};
ghost use Rattle.floor_rows.specs.Listed.{HasRoom, ListsSets, cut_row, set_rows, weights_of, AreSmallSets};
ghost use Rattle.floor_rows.specs.Reached.{ReachFloor};

use cable_rows::{RowKind, RowPool};
use candidate_cables::Arcs;
use intree_floor::{Floor, SetWeight, floor};
use node_works::Weights;
use site_model::Site;
use std::alloc::{AllocError, Global};

/// How many units of a weight make a cost unit.
const UNITS: u128 = 1_048_576;

/// The weight of a set's row: 2^20 times the weight of the set.
fn weight_of(weight: u64) -> i128
    requires { weight ≤ most_cost }
    ensures { result ≡ pos (2 ^ 20 * weight) }
{
    (u128::from(weight) * UNITS) as i128
}

/// Lists the `Cut` of a set of turbines, and answers its number. It takes no memory.
fn list_set(site: &Site, arcs: &Arcs, pool: &mut RowPool, members: &[u32]) -> u32
    requires arcs { AreArcs site.now arcs.now }
    requires set { IsTurbineSet site.now members.now }
    requires rows { length pool.old < 16384 }
    requires members { sum_by (λ r. length r.members) pool.old ≤ 1048320 }
    ensures number { result ≡ length pool.old }
    ensures listed { pool.new ≡ pool.old ++ cut_row members.now ∷ [] }
{
    // The points of a site come with the fact that it is valid.
    let _points = site.points();
    pool.add(site, arcs, RowKind::Cut, members).unwrap()
}

/// Lists the `Cut` of each of these sets, and adds its weight. It takes no memory.
fn list_sets(
    site: &Site,
    arcs: &Arcs,
    pool: &mut RowPool,
    sets: &[SetWeight],
    weights: &mut Weights,
)
    requires arcs { AreArcs site.now arcs.now }
    requires sets { AreSmallSets site.now sets.now }
    requires room { HasRoom pool.old }
    requires none { weights.old ≡ [] }
    ensures rows { pool.new ≡ pool.old ++ set_rows sets.now }
    ensures weights { weights.new ≡ weights_of (length pool.old) sets.now }
{
    // The points of a site come with the fact that it is valid.
    let _points = site.points();
    for set in sets {
        let row = list_set(site, arcs, pool, set.members.as_slice());
        weights.push(row, weight_of(set.weight)).unwrap();
    }
}

/// Lists a row for each set of turbines that proves the cost of the cheapest in-tree of a site without bends, and answers the weights, over
/// 2^20, with which these rows reach that cost in the box of every node. Where there is no in-tree, it lists the row of a set of turbines that
/// no candidate arc leaves, which no box can meet, and answers no weights. The pool has room: at most 2,048 rows are listed, with at most 2,048
/// members together.
///
/// # Errors
///
/// `AllocError` where there is no memory.
pub fn list_floor_rows(
    alloc: Global,
    site: &Site,
    arcs: &Arcs,
    pool: &mut RowPool,
) -> Result<Weights, AllocError>
    requires arcs { AreArcs site.now arcs.now }
    requires no_bends { HasNoBends site.now }
    requires room { HasRoom pool.old }
    ensures lists { ListsSets site.now arcs.now pool.old pool.new }
    ensures lawful { IfOk result (AreLawful pool.new) }
    ensures few { IfOk result (λ weights. length weights ≤ 1024) }
    ensures floor { IfOk result (ReachFloor site.now arcs.now pool.new) }
{
    // The points of a site come with the fact that it is valid.
    let _points = site.points();
    let mut weights = Weights::new(alloc)?;
    let found = floor(alloc, site, arcs)?;
    match &found {
        Floor::NoTree { set } => {
            list_set(site, arcs, pool, set.as_slice());
        }
        Floor::Least { sets, .. } => {
            list_sets(site, arcs, pool, sets.as_slice(), &mut weights);
        }
    }
    Ok(weights)
}
