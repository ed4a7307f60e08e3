//! The arcs that clash with one, beside a test of every arc.

ghost use Rattle.std.specs.Prelude.{◌<◌, IsTrue, length};

use candidate_cables::{Arc, Arcs};
use crossing_index::Crossings;
use sample_sites::site_of;
use site_model::Site;
use std::alloc::{AllocError, Global};
use std::test::Fail;

/// A substation and fourteen turbines that stand by no order; some stand in one row or on a line with others.
const SCATTERED: &str =
    "site 1\nmode tree\ntype 400 1\nsubstation S 700 650 16 10000\nturbine A 0 0 100\nturbine B 400 100 100\nturbine C 900 0 100\nturbine D 1300 200 100\nturbine E 100 500 100\nturbine F 500 400 100\nturbine G 1000 500 100\nturbine H 1400 600 100\nturbine I 0 900 100\nturbine J 400 1000 100\nturbine K 800 900 100\nturbine L 1200 1100 100\nturbine M 600 700 100\nturbine N 1000 800 100\nend site\n";

/// A substation and three turbines on the corners of a square.
const SQUARE: &str =
    "site 1\nmode tree\ntype 400 1\nsubstation S 0 0 4 10000\nturbine A 1000 1000 100\nturbine B 1000 0 100\nturbine C 0 1000 100\nend site\n";

/// Whether both ends of an arc are points.
fn joins_points(points: u32, arc: Arc) -> bool
    ensures { IsTrue result → (arc.from < points) × (arc.to < points) }
{
    arc.from < points && arc.to < points
}

/// Whether two arcs join other pairs of points and clash, by the geometry alone.
fn is_clash(site: &Site, arc: Arc, other: Arc) -> bool {
    let points = site.points().len() as u32;
    joins_points(points, arc)
        && joins_points(points, other)
        && site.pairs_clash(arc.from, arc.to, other.from, other.to)
}

/// The numbers of the arcs that clash with one, by a test of every arc.
fn clashing_by_tests(
    alloc: Global,
    site: &Site,
    arcs: &Arcs,
    arc: u32,
) -> Result<Vec<u32>, AllocError>
    requires { arc < length arcs.now }
{
    let own = arcs.get(arc);
    let mut numbers = Vec::new(alloc);
    for other in 0..arcs.len() {
        if is_clash(site, own, arcs.get(other)) {
            numbers.push(other)?;
        }
    }
    Ok(numbers)
}

#[test]
fn finds_the_arcs_that_cross(rt: HostRuntime) -> Result<(), Fail> {
    let alloc = rt.alloc();
    let site = site_of(alloc, SQUARE)?;
    let arcs = Arcs::new(alloc, &site)?;
    let crossings = Crossings::new(alloc, &site, &arcs)?;
    // The arcs are A-S, A-B, A-C, B-S, B-A, B-C, C-S, C-A, C-B: the diagonals of a square cross.
    let table: [(u32, &[u32]); 5] = [(0, &[5, 8]), (1, &[]), (5, &[0]), (7, &[]), (8, &[0])];
    for (arc, expected) in table {
        assert!(&rt; arc < arcs.len());
        let found = crossings.clashing(alloc, arc)?;
        assert_eq!(rt; found.as_slice(), expected);
    }
    Ok(())
}

#[test]
fn finds_what_a_test_of_every_arc_finds(rt: HostRuntime) -> Result<(), Fail> {
    let alloc = rt.alloc();
    let site = site_of(alloc, SCATTERED)?;
    let arcs = Arcs::new(alloc, &site)?;
    let crossings = Crossings::new(alloc, &site, &arcs)?;
    for arc in 0..arcs.len() {
        let expected = clashing_by_tests(alloc, &site, &arcs, arc)?;
        let found = crossings.clashing(alloc, arc)?;
        assert_eq!(rt; found.as_slice(), expected.as_slice());
    }
    Ok(())
}
