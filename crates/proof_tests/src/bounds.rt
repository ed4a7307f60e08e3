//! The ceiling of a site, and the values of weights in nodes.

ghost use Rattle.std.specs.Prelude.{◌≡◌, ◌<◌, length};
ghost use Rattle.cable_definitions.specs.Arcs.{AreArcs};

use crate::tables::{list, listed, marked};
use arc_choices::{ceiling, least_choice};
use bound_value::{lawful, rounded_bound, weigh};
use cable_rows::{RowKind, RowPool};
use candidate_cables::Arcs;
use node_works::{Decisions, Mark, Weights};
use sample_sites::{FORK, site_of};
use site_model::Site;
use std::alloc::Global;
use std::test::Fail;

/// How many units of a weight or a value make a cost unit.
const UNIT: i128 = 1_048_576;

#[test]
fn the_ceiling_of_a_small_site(rt: HostRuntime) -> Result<(), Fail> {
    let site = site_of(rt.alloc(), FORK)?;
    let arcs = Arcs::new(rt.alloc(), &site)?;
    assert!(&rt; ceiling(&site, &arcs) == 3864);
    Ok(())
}

/// The value, in cost units, of weights that have to be lawful and have a whole one.
fn units_of(
    site: &Site,
    arcs: &Arcs,
    pool: &RowPool,
    decisions: &Decisions,
    weights: &Weights,
) -> Result<i128, Fail>
    requires arcs { AreArcs site.now arcs.now }
    requires marks { length decisions.now ≡ length arcs.now }
{
    if !lawful(pool, weights) {
        return Err(Fail::from("the weights are not lawful"));
    }
    let value = weigh(site, arcs, pool, decisions, weights);
    if value % UNIT != 0 {
        return Err(Fail::from("the value is not whole"));
    }
    Ok(value / UNIT)
}

/// Lists rows, each with its weight.
fn list_weighed(
    pool: &mut RowPool,
    weights: &mut Weights,
    site: &Site,
    arcs: &Arcs,
    rows: &[(RowKind, &[u32], i128)],
) -> Result<(), Fail>
    requires { AreArcs site.now arcs.now }
{
    for row in rows {
        weights.push(list(pool, site, arcs, row.0, row.1)?, row.2)?;
    }
    Ok(())
}

/// The value, in cost units, of a fork with these rows and their weights, and these marks.
fn value_of(
    alloc: Global,
    rows: &[(RowKind, &[u32], i128)],
    marks: &[(u32, Mark)],
) -> Result<i128, Fail> {
    let site = site_of(alloc, FORK)?;
    let arcs = Arcs::new(alloc, &site)?;
    let mut pool = RowPool::new(alloc)?;
    let mut weights = Weights::new(alloc)?;
    list_weighed(&mut pool, &mut weights, &site, &arcs, rows)?;
    let decisions = marked(alloc, &arcs, marks)?;
    units_of(&site, &arcs, &pool, &decisions, &weights)
}

/// Half a thousand cost units on the cables out of each turbine.
const OUT: [(RowKind, &[u32], i128); 3] = [
    (RowKind::Out, &[1], 500 * UNIT),
    (RowKind::Out, &[2], 500 * UNIT),
    (RowKind::Out, &[3], 500 * UNIT),
];

/// The same, and as much on the cables out of all three.
const OUT_AND_CUT: [(RowKind, &[u32], i128); 4] = [
    (RowKind::Out, &[1], 500 * UNIT),
    (RowKind::Out, &[2], 500 * UNIT),
    (RowKind::Out, &[3], 500 * UNIT),
    (RowKind::Cut, &[1, 2, 3], 500 * UNIT),
];

/// Two cost units a unit of the flow through A.
const FLOW: [(RowKind, &[u32], i128); 1] = [(RowKind::Flow, &[1], 2 * UNIT)];

/// Rows with weights, marks, and the value in cost units.
const VALUES: [(&[(RowKind, &[u32], i128)], &[(u32, Mark)], i128); 7] = [
    (&[], &[], 0),
    (
        &[],
        &[
            (0, Mark::Used),
            (4, Mark::Used),
            (7, Mark::Used),
            (3, Mark::Unused),
        ],
        2000,
    ),
    // Each turbine's arcs to the others leave at least nothing, so only the right sides are left.
    (&OUT, &[], 1500),
    (&OUT_AND_CUT, &[], 2000),
    // The arc from B to the substation leaves 1432 - 500 - 500.
    (&OUT_AND_CUT, &[(0, Mark::Unused), (3, Mark::Used)], 2432),
    // The right side is 2 * 100, and the arcs from A to B and to C leave 500 - 2 * 400 at the capacity.
    (&FLOW, &[], -400),
    // The arc from B to A leaves 500 + 2 * 100 at B's power.
    (&FLOW, &[(4, Mark::Used), (1, Mark::Unused)], 600),
];

#[test]
fn weights_and_marks_have_a_value(rt: HostRuntime) -> Result<(), Fail> {
    for (rows, marks, value) in VALUES {
        assert_eq!(rt; value_of(rt.alloc(), rows, marks)?, value);
    }
    Ok(())
}

#[test]
fn values_are_rounded_up(rt: HostRuntime) {
    assert_eq!(rt; rounded_bound(0, 2000 * 1_048_576), 2000);
    assert_eq!(rt; rounded_bound(0, 2000 * 1_048_576 + 1), 2001);
    assert_eq!(rt; rounded_bound(7, 2 * 1_048_576), 7);
    assert_eq!(rt; rounded_bound(7, -1), 7);
}

/// A substation and a turbine of power 100, 1,000 metres apart, and two types; arc 0 is from the turbine to the substation.
const ONE_ARC: &str =
    "site 1\nmode tree\ntype 150 1\ntype 400 2\nsubstation S 0 0 4 10000\nturbine A 0 1000 100\nend site\n";

/// The least choice of arc 0, where a use and each unit of load count as so many cost units.
fn least_at(site: &Site, arcs: &Arcs, mark: Mark, on_use: i32, on_load: i32) -> i128
    requires arcs { AreArcs site.now arcs.now }
    requires some { 0 < length arcs.now }
{
    let on_use = i128::from(on_use) * 1_048_576;
    let on_load = i128::from(on_load) * 1_048_576;
    least_choice(site, arcs, 0, mark, on_use, on_load)
}

#[test]
fn the_least_choices_of_an_arc(rt: HostRuntime) -> Result<(), Fail> {
    let site = site_of(rt.alloc(), ONE_ARC)?;
    let arcs = Arcs::new(rt.alloc(), &site)?;
    assert!(&rt; arcs.len() == 1);
    for (mark, on_use, on_load, least) in [
        (Mark::Unused, 5000, 7, 0),
        (Mark::Free, 999, 0, 0),
        (Mark::Free, 1001, 0, -1),
        (Mark::Free, 0, 6, -400),
        (Mark::Used, 0, 0, 1000),
        (Mark::Used, 1001, 0, -1),
        (Mark::Used, 0, 1, 850),
        (Mark::Used, 0, 5, 0),
        (Mark::Used, 0, -1, 1100),
    ] {
        assert_eq!(&rt;
            least_at(&site, &arcs, mark, on_use, on_load),
            least * 1_048_576
        );
    }
    Ok(())
}

/// 2^76.
const MOST: i128 = 75_557_863_725_914_323_419_136;

/// Whether these weights are lawful on two rows, of which the first is an equation.
fn are_lawful(alloc: Global, pairs: &[(u32, i128)]) -> Result<bool, Fail> {
    let site = site_of(alloc, ONE_ARC)?;
    let arcs = Arcs::new(alloc, &site)?;
    let rows: [(RowKind, &[u32]); 2] = [(RowKind::Out, &[1]), (RowKind::Cut, &[1])];
    let pool = listed(alloc, &site, &arcs, &rows)?;
    let mut weights = Weights::new(alloc)?;
    for pair in pairs {
        weights.push(pair.0, pair.1)?;
    }
    Ok(lawful(&pool, &weights))
}

/// Weights, each with the number of its row, and whether they are lawful.
const LAWFUL: [(&[(u32, i128)], bool); 12] = [
    (&[], true),
    (&[(0, 5), (1, 3)], true),
    (&[(0, -5), (1, 3)], true),
    (&[(0, MOST), (1, MOST)], true),
    (&[(0, -MOST), (1, 3)], true),
    (&[(1, 3), (0, 5)], false),
    (&[(1, 3), (1, 3)], false),
    (&[(0, 5), (2, 3)], false),
    (&[(0, 0), (1, 3)], false),
    (&[(0, 5), (1, -3)], false),
    (&[(0, 5), (1, MOST + 1)], false),
    (&[(0, -MOST - 1), (1, 3)], false),
];

#[test]
fn lawful_weights(rt: HostRuntime) -> Result<(), Fail> {
    for (pairs, want) in LAWFUL {
        assert_eq!(rt; are_lawful(rt.alloc(), pairs)?, want);
    }
    Ok(())
}
