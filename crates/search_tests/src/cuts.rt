//! The rows that shares violate: sets of points, and arcs that can't be together.

ghost use Rattle.std.specs.Prelude.{◌≡◌, length, IfOk};

use bound_shares::Shares;
use cable_rows::{Row, RowKind};
use candidate_cables::Arcs;
use crossing_index::Crossings;
use cut_makers::connect_row;
use row_makers::{capacity_row, crossing_row};
use sample_sites::site_of;
use site_model::Site;
use std::alloc::Global;
use std::test::Fail;

/// The share of a whole cable, of half a cable, and of a quarter of one.
const WHOLE: u32 = 1_048_576;

const HALF: u32 = 524_288;

const QUARTER: u32 = 262_144;

/// The points of a substation and three turbines of power 100.
const POINTS: &str =
    "substation S 0 0 4 10000\nturbine A 0 1000 100\nturbine B 300 1400 100\nturbine C 700 1300 100\nend site\n";

/// The site of these points, at this capacity of the cables.
fn small_site(alloc: Global, capacity: u32) -> Result<Site, Fail> {
    let lines = format!(in alloc; "site 1\nmode tree\ntype {capacity} 1\n{POINTS}")?;
    site_of(alloc, lines.as_str())
}

/// A substation and three turbines in the corners of a square: the arcs between 0 and 2 clash with those between 1 and 3.
const SQUARE: &str =
    "site 1\nmode tree\ntype 400 1\nsubstation S 0 0 4 10000\nturbine A 1000 0 100\nturbine B 1000 1000 100\nturbine C 0 1000 100\nend site\n";

/// These shares of arcs, which are given by start and end.
fn shares_of(alloc: Global, arcs: &Arcs, cables: &[(u32, u32, u32)]) -> Result<Shares, Fail>
    ensures { IfOk result (λ shares. length shares ≡ length arcs.now) }
{
    let mut shares = Shares::new(alloc, arcs.len())?;
    for cable in cables {
        let (from, to, share) = *cable;
        if let Some(arc) = arcs.number(from, to) {
            shares.set(arc, share.min(WHOLE));
        }
    }
    Ok(shares)
}

/// Fails where a row isn't one of this kind with these members, or where there is one and no members are wanted.
fn expect_row(row: Option<Row>, kind: RowKind, members: Option<&[u32]>) -> Result<(), Fail> {
    match (row, members) {
        (None, None) => Ok(()),
        (None, Some(_)) => Err(Fail::from("no row is found")),
        (Some(_), None) => Err(Fail::from("a row is found")),
        (Some(row), Some(members)) => {
            if row.kind == kind && row.members.as_slice() == members {
                return Ok(());
            }
            Err(Fail::from("another row is found"))
        }
    }
}

#[test]
fn the_poorest_set_is_found(rt: HostRuntime) -> Result<(), Fail> {
    let alloc = rt.alloc();
    let site = small_site(alloc, 400)?;
    let arcs = Arcs::new(alloc, &site)?;
    let chain = [(1, 0, WHOLE), (2, 1, WHOLE), (3, 2, WHOLE)];
    let circle = [(1, 0, WHOLE), (2, 3, WHOLE), (3, 2, WHOLE)];
    let thin = [(1, 0, WHOLE), (2, 1, HALF), (3, 2, QUARTER)];
    let three = [3].as_slice();
    for (cables, members) in [
        ([].as_slice(), Some([1].as_slice())),
        (chain.as_slice(), None),
        (circle.as_slice(), Some([2, 3].as_slice())),
        (thin.as_slice(), Some(three)),
    ] {
        let shares = shares_of(alloc, &arcs, cables)?;
        let row = connect_row(alloc, &site, &arcs, &shares)?;
        expect_row(row, RowKind::Cut, members)?;
    }
    Ok(())
}

#[test]
fn power_asks_for_cables(rt: HostRuntime) -> Result<(), Fail> {
    let alloc = rt.alloc();
    let chain = [(1, 0, WHOLE), (2, 1, WHOLE), (3, 2, WHOLE)];
    let short = [(1, 0, WHOLE), (2, 1, WHOLE)];
    let fork = [(1, 0, WHOLE), (2, 0, WHOLE), (3, 2, WHOLE)];
    for (capacity, cables, members) in [
        (400, chain.as_slice(), None),
        (200, fork.as_slice(), None),
        (400, short.as_slice(), Some([3].as_slice())),
        (150, fork.as_slice(), Some([2, 3].as_slice())),
        (200, chain.as_slice(), Some([1, 2, 3].as_slice())),
    ] {
        let site = small_site(alloc, capacity)?;
        let arcs = Arcs::new(alloc, &site)?;
        let shares = shares_of(alloc, &arcs, cables)?;
        let row = capacity_row(alloc, &site, &arcs, &shares)?;
        expect_row(row, RowKind::Cut, members)?;
    }
    Ok(())
}

#[test]
fn arcs_that_cannot_be_together(rt: HostRuntime) -> Result<(), Fail> {
    let alloc = rt.alloc();
    let site = site_of(alloc, SQUARE)?;
    let arcs = Arcs::new(alloc, &site)?;
    let crossings = Crossings::new(alloc, &site, &arcs)?;
    // The arcs: 0 A>S, 1 A>B, 2 A>C, 3 B>S, 4 B>A, 5 B>C, 6 C>S, 7 C>A, 8 C>B.
    let apart = [(1, 0, WHOLE), (2, 1, WHOLE), (3, 2, WHOLE)];
    let halves = [(2, 0, HALF), (1, 3, HALF)];
    let crossing = [(2, 0, WHOLE), (1, 3, HALF)];
    let more = [
        (2, 0, WHOLE),
        (1, 3, QUARTER),
        (3, 1, QUARTER),
        (1, 0, QUARTER),
    ];
    let start = [(1, 0, QUARTER), (1, 2, WHOLE)];
    let back = [(1, 2, HALF), (2, 1, WHOLE)];
    for (cables, members) in [
        (apart.as_slice(), None),
        (halves.as_slice(), None),
        (crossing.as_slice(), Some([2, 3].as_slice())),
        (more.as_slice(), Some([2, 3, 7].as_slice())),
        (start.as_slice(), Some([0, 1].as_slice())),
        (back.as_slice(), Some([1, 4].as_slice())),
    ] {
        let shares = shares_of(alloc, &arcs, cables)?;
        let row = crossing_row(alloc, &site, &arcs, &crossings, &shares)?;
        expect_row(row, RowKind::One, members)?;
    }
    Ok(())
}
