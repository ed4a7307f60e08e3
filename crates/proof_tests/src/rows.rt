//! The form, the sides and the coefficients of rows.

ghost use Rattle.cable_definitions.specs.Arcs.{AreArcs};

use crate::tables::listed;
use cable_rows::{Row, RowFault, RowKind, RowPool, row_form};
use candidate_cables::Arcs;
use sample_sites::{FORK, site_of};
use site_model::Site;
use std::alloc::Global;
use std::test::Fail;

/// Kinds and members of rows, and the fault.
const FORMS: [(RowKind, &[u32], Result<(), RowFault>); 14] = [
    (RowKind::Out, &[], Err(RowFault::Empty)),
    (RowKind::Out, &[1, 2], Err(RowFault::Count)),
    (RowKind::Cut, &[1; 257], Err(RowFault::Count)),
    (RowKind::Out, &[4], Err(RowFault::Range(4))),
    (RowKind::One, &[8, 9, 10], Err(RowFault::Range(9))),
    (RowKind::Cut, &[1, 3, 2], Err(RowFault::Order(2))),
    (RowKind::Cut, &[1, 1], Err(RowFault::Order(1))),
    (RowKind::Out, &[0], Err(RowFault::OtherKind(0))),
    (RowKind::Flow, &[0], Err(RowFault::OtherKind(0))),
    (RowKind::Bend, &[1], Err(RowFault::OtherKind(1))),
    (RowKind::Power, &[3], Err(RowFault::OtherKind(3))),
    (RowKind::Cut, &[0, 1], Err(RowFault::Substation(0))),
    (
        RowKind::One,
        &[0, 1, 3],
        Err(RowFault::NotIncompatible(0, 3)),
    ),
    (RowKind::One, &[0, 1, 2], Ok(())),
];

#[test]
fn faults_of_members_and_kinds(rt: HostRuntime) -> Result<(), Fail> {
    let site = site_of(rt.alloc(), FORK)?;
    let arcs = Arcs::new(rt.alloc(), &site)?;
    for (kind, members, want) in FORMS {
        assert_eq!(rt; row_form(&site, &arcs, kind, members), want);
    }
    Ok(())
}

#[test]
fn a_row_keeps_its_members(rt: HostRuntime) -> Result<(), Fail> {
    let row = Row::new(rt.alloc(), RowKind::Cut, &[1, 2])?;
    assert_eq!(rt; row.kind, RowKind::Cut);
    assert_eq!(rt; row.members.as_slice(), [1, 2].as_slice());
    Ok(())
}

/// Rows of a fork.
const SIDES: [(RowKind, &[u32]); 5] = [
    (RowKind::Flow, &[1]),
    (RowKind::Inlet, &[0]),
    (RowKind::Power, &[0]),
    (RowKind::One, &[0, 1, 2]),
    (RowKind::Cut, &[1, 2, 3]),
];

/// The right sides of all rows.
fn right_sides(alloc: Global, site: &Site, pool: &RowPool) -> Result<Vec<i128>, Fail> {
    let mut sides = Vec::new(alloc);
    for row in 0..pool.len() {
        sides.push(i128::from(pool.right(site, row)))?;
    }
    Ok(sides)
}

/// Whether a row is an equation, and whether it has these members; nothing, where it isn't listed.
fn is_equation_of(pool: &RowPool, row: u32, members: &[u32]) -> Option<(bool, bool)> {
    if row < pool.len() {
        return Some((pool.is_equation(row), pool.members(row) == members));
    }
    None
}

#[test]
fn sides_of_listed_rows(rt: HostRuntime) -> Result<(), Fail> {
    let site = site_of(rt.alloc(), FORK)?;
    let arcs = Arcs::new(rt.alloc(), &site)?;
    let pool = listed(rt.alloc(), &site, &arcs, &SIDES)?;
    let sides = right_sides(rt.alloc(), &site, &pool)?;
    assert_eq!(rt; sides.as_slice(), [100, -4, -10000, -1, 1].as_slice());
    assert!(&rt; is_equation_of(&pool, 0, &[1]) == Some((true, true)));
    assert!(&rt; is_equation_of(&pool, 4, &[1, 2, 3]) == Some((false, true)));
    Ok(())
}

/// Further rows of a fork.
const ROWS: [(RowKind, &[u32]); 4] = [
    (RowKind::Out, &[1]),
    (RowKind::Flow, &[1]),
    (RowKind::One, &[0, 1, 2]),
    (RowKind::Cut, &[1, 2]),
];

/// A row, an arc, and the coefficients of its use and its load.
const COEFFICIENTS: [(u32, u32, (i8, i8)); 8] = [
    (0, 0, (1, 0)),
    (0, 4, (0, 0)),
    (1, 0, (0, 1)),
    (1, 4, (0, -1)),
    (2, 1, (-1, 0)),
    (2, 3, (0, 0)),
    (3, 0, (1, 0)),
    (3, 4, (0, 0)),
];

/// Whether a listed row has these coefficients at an arc.
fn has_coefficients(
    site: &Site,
    arcs: &Arcs,
    pool: &RowPool,
    row: u32,
    arc: u32,
    want: (i8, i8),
) -> bool
    requires { AreArcs site.now arcs.now }
{
    if row < pool.len() && arc < arcs.len() {
        return pool.coefficients(site, arcs, row, arc) == want;
    }
    false
}

#[test]
fn coefficients_of_listed_rows(rt: HostRuntime) -> Result<(), Fail> {
    let site = site_of(rt.alloc(), FORK)?;
    let arcs = Arcs::new(rt.alloc(), &site)?;
    let pool = listed(rt.alloc(), &site, &arcs, &ROWS)?;
    for (row, arc, want) in COEFFICIENTS {
        assert!(&rt;
            has_coefficients(&site, &arcs, &pool, row, arc, want),
            "{row} {arc}"
        );
    }
    Ok(())
}
