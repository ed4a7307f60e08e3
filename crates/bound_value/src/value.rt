//! The value of weights in a node's box, and the bound that it gives.

ghost use Rattle.std.specs.Prelude.{◌≡◌, ℕ, ◌*◌, ◌^◌, ◌≤◌, ◌<◌, pos, ◌*ℤ◌, ◌≤ℤ◌, ◌<ℤ◌, length, unsigned_abs};
ghost use Rattle.cable_definitions.specs.Arcs.{AreArcs};
ghost use Rattle.cable_definitions.specs.Row.{right};
ghost use Rattle.cable_definitions.specs.Choice.{AreLawful, AtMost, IsSumOfExtremes, IsValue, reduced_cost, sum_weighted};
ghost use Rattle.cable_definitions.specs.Tree.{IsBound};
ghost use Rattle.cable_rows.specs.Sums.{sets_of, ArePointSums, AreSmallSums};

use arc_choices::least_choice;
use cable_rows::{PointSums, RowPool, WeightList, find_near, find_sets, turn_to, weighted};
use candidate_cables::{Arc, Arcs};
use node_works::{Decisions, Weights};
use site_model::Site;

/// How many units of a weight or a value make a cost unit.
const UNITS: u128 = 1_048_576;

/// The weighted sum of the right sides of the weighted rows.
fn weighted_right_sides(site: &Site, pool: &RowPool, weights: &Weights) -> i128
    requires { AreLawful pool.now weights.now }
    ensures sum { result ≡ sum_weighted (λ row. right site.now row.kind row.members) pool.now weights.now }
    ensures small { unsigned_abs result ≤ 1024 * (2 ^ 76 * 76800000) }
{
    let mut sum: i128 = 0;
    for weight in weights.as_slice() {
        sum += weighted(weight.1, pool.right(site, weight.0));
    }
    sum
}

/// The sums of what weights count by the ends of arcs.
fn point_sums(pool: &RowPool, weights: &Weights) -> PointSums
    requires { AreLawful pool.now weights.now }
    ensures sums { ArePointSums pool.now weights.now result }
    ensures small { AreSmallSums result }
    ensures few { length weights.now ≤ 1024 }
{
    let mut sums = PointSums::new();
    sums.sum_up(pool, weights);
    sums
}

/// The weights on rows that count arcs by more than one of their ends.
fn weights_on_sets(pool: &RowPool, weights: &Weights) -> WeightList
    requires { AreLawful pool.now weights.now }
    ensures { result ≡ sets_of pool.now weights.now }
{
    let mut sets = WeightList::new();
    find_sets(pool, weights, &mut sets);
    sets
}

/// The sum over the arcs of the least that a choice leaves of its cost.
fn least_choices(
    site: &Site,
    arcs: &Arcs,
    pool: &RowPool,
    decisions: &Decisions,
    weights: &Weights,
) -> i128
    requires arcs { AreArcs site.now arcs.now }
    requires marks { length decisions.now ≡ length arcs.now }
    requires lawful { AreLawful pool.now weights.now }
    ensures sum { IsSumOfExtremes AtMost site.now arcs.now decisions.now (reduced_cost site.now pool.now weights.now) result }
    ensures small { unsigned_abs result ≤ 65280 * 10 ^ 30 }
{
    let sums = point_sums(pool, weights);
    let sets = weights_on_sets(pool, weights);
    let mut near = WeightList::new();
    find_near(arcs, pool, &sets, 0, &mut near);
    let mut at = 0;
    let mut sum: i128 = 0;
    for number in 0..arcs.len() {
        let Arc { from, .. } = arcs.get(number);
        turn_to(arcs, pool, &sets, at, from, &mut near);
        at = from;
        let counts = sums.counts(site, arcs, pool, near.as_slice(), number);
        let mark = decisions.mark(number);
        sum += least_choice(site, arcs, number, mark, counts.on_use, counts.on_load);
    }
    sum
}

/// The value of weights in the box of a node's decisions, over 2^20 of a cost unit: the weighted sum of the right sides of the weighted rows
/// and, over the arcs, the least that a choice leaves of its cost. It is the Lagrangian dual function of the listed rows (Geoffrion, 1974),
/// arc by arc. The weights have to be lawful; then the 2^20th part of their value is at most the cost of each legal layout in the box, which
/// `values_are_bounds` in proof_laws proves. The arcs are those of the site, with one mark each. It takes no memory.
pub fn weigh(
    site: &Site,
    arcs: &Arcs,
    pool: &RowPool,
    decisions: &Decisions,
    weights: &Weights,
) -> i128
    requires arcs { AreArcs site.now arcs.now }
    requires marks { length decisions.now ≡ length arcs.now }
    requires lawful { AreLawful pool.now weights.now }
    ensures value { IsValue site.now arcs.now pool.now decisions.now weights.now result }
    ensures small { unsigned_abs result ≤ 10 ^ 36 }
{
    weighted_right_sides(site, pool, weights) + least_choices(site, arcs, pool, decisions, weights)
}

/// The least number of cost units that is at least a value over 2^20 of a cost unit: 0 for a value below 0.
fn cost_units(value: i128) -> u128
    requires { unsigned_abs value ≤ 10 ^ 36 }
    ensures enough { value ≤ℤ pos (2 ^ 20 * result) }
    ensures least { (m : ℕ) → value ≤ℤ pos (2 ^ 20 * m) → result ≤ m }
    ensures most { result < 2 ^ 100 }
{
    if value <= 0 {
        return 0;
    }
    (value.unsigned_abs() + (UNITS - 1)) / UNITS
}

/// The bound of a node in cost units, from its parent's bound and the value of weights over 2^20 of a cost unit: the greater of the bound and
/// the value rounded up to cost units.
pub fn rounded_bound(parent: i128, value: i128) -> i128
    requires parent { pos 0 ≤ℤ parent }
    requires value { unsigned_abs value ≤ 10 ^ 36 }
    ensures bound { IsBound (unsigned_abs parent) value (unsigned_abs result) }
    ensures at_least { pos 0 ≤ℤ result }
    ensures small { parent <ℤ pos (2 ^ 100) → result <ℤ pos (2 ^ 100) }
{
    parent.max(cost_units(value) as i128)
}
