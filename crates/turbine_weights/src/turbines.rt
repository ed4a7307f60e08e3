//! Weights on the rows of the cables out of turbines.

ghost use Rattle.std.specs.Prelude.{◌≡◌, ◌≢◌, ℕ, ◌+◌, ◌*◌, ◌^◌, ◌≤◌, ◌<◌, pos, length, slice_get, Some, All, IfSome, IfNone};
ghost use Rattle.cable_definitions.specs.Arcs.{AreArcs};
ghost use Rattle.cable_definitions.specs.Choice.{AreLawful};
ghost use Rattle.cable_definitions.specs.Row.{IsWellFormed};
ghost use Rattle.site_model.specs.Best.{most_cost};
ghost use Rattle.turbine_weights.specs.Turbines.{out_row, AreTurbineWeights};
ghost use Rattle.turbine_weights.specs.Weighing.{AreWeighed};

use crate::least::least_due;
use cable_definitions::row::RowKind;
use cable_rows::RowPool;
use candidate_cables::Arcs;
use node_works::{Decisions, Weights};
use site_model::Site;

/// How many units of a weight make a cost unit.
const UNITS: u128 = 1_048_576;

/// The turbine of a listed row on the cables out of one. None exactly where the row states something else.
fn turbine_of(site: &Site, arcs: &Arcs, pool: &RowPool, row: u32) -> Option<u32>
    requires arcs { AreArcs site.now arcs.now }
    requires well_formed { All (IsWellFormed site.now arcs.now) pool.now }
    requires row { row < length pool.now }
    ensures none { IfNone result ((p : ℕ) → slice_get pool.now row ≢ Some (out_row p)) }
    ensures turbine { IfSome result (λ p. slice_get pool.now row ≡ Some (out_row p)) }
    ensures within { IfSome result (λ p. p < 256) }
{
    // The points of a site come with the fact that it is valid.
    let _points = site.points();
    let RowKind::Out = pool.kind(row) else {
        return None;
    };
    Some(pool.members(row)[0])
}

/// The weight of a cost: 2^20 times the cost.
fn weight_of(cost: u64) -> i128
    requires { cost ≤ most_cost }
    ensures { result ≡ pos (2 ^ 20 * cost) }
{
    (u128::from(cost) * UNITS) as i128
}

/// Weighs the turbine of one more row, unless an earlier row weighed it.
fn weigh_row(
    site: &Site,
    arcs: &Arcs,
    pool: &RowPool,
    decisions: &Decisions,
    row: u32,
    weighed: &mut [bool; 256],
    weights: &mut Weights,
)
    requires arcs { AreArcs site.now arcs.now }
    requires marks { length decisions.now ≡ length arcs.now }
    requires well_formed { All (IsWellFormed site.now arcs.now) pool.now }
    requires row { row < length pool.now }
    requires before { AreWeighed site.now arcs.now pool.now decisions.now row weighed.old weights.old }
    ensures { AreWeighed site.now arcs.now pool.now decisions.now (row + 1) weighed.new weights.new }
{
    let Some(turbine) = turbine_of(site, arcs, pool, row) else {
        return;
    };
    if weighed[turbine as usize] {
        return;
    }
    weighed[turbine as usize] = true;
    let Some(cost) = least_due(site, arcs, decisions, turbine) else {
        return;
    };
    match weights.push(row, weight_of(cost)) {
        Ok(()) => {}
        // There are at most 256 turbines.
        Err(_) => {}
    }
}

/// Replaces `weights` by one on the first listed row on the cables out of each turbine: 2^20 times the least cost, at the turbine's own power, of
/// an arc out of it that isn't marked unused. A turbine without such an arc, or with one that costs nothing, gets none. The rows are well formed,
/// and the arcs are those of the site, with one mark each. It takes no memory.
pub fn weigh_turbines(
    site: &Site,
    arcs: &Arcs,
    pool: &RowPool,
    decisions: &Decisions,
    weights: &mut Weights,
)
    requires arcs { AreArcs site.now arcs.now }
    requires marks { length decisions.now ≡ length arcs.now }
    requires well_formed { All (IsWellFormed site.now arcs.now) pool.now }
    ensures weights { AreTurbineWeights site.now arcs.now pool.now decisions.now weights.new }
    ensures lawful { AreLawful pool.now weights.new }
{
    // The points of a site come with the fact that it is valid.
    let _points = site.points();
    let mut weighed = [false; 256];
    weights.clear();
    for row in 0..pool.len() {
        weigh_row(site, arcs, pool, decisions, row, &mut weighed, weights);
    }
}
