//! A row that shares violate, by the makers of rows in turn.

ghost use Rattle.std.specs.Prelude.{◌≡◌, length, IfOk, IfSome};
ghost use Rattle.cable_rows.specs.Made.{row_made};
ghost use Rattle.stored_makers.specs.Makers.{AreShares, IsSoundRow};
ghost use Rattle.search_parts.specs.Making.{AreReduced};

use bound_shares::Shares;
use cable_rows::Row;
use candidate_cables::Arcs;
use crossing_index::Crossings;
use cut_makers::connect_row;
use row_makers::{capacity_row, crossing_row};
use site_model::Site;
use std::alloc::{AllocError, Global};

/// Three quarters of each share, rounded down.
///
/// # Errors
///
/// `AllocError` where there is no memory.
fn reduced_shares(alloc: Global, arcs: &Arcs, shares: &Shares) -> Result<Shares, AllocError>
    requires { length shares.now ≡ length arcs.now }
    ensures { IfOk result (AreReduced shares.now) }
{
    let mut reduced = Shares::new(alloc, arcs.len())?;
    for arc in 0..arcs.len() {
        reduced.set(arc, 3 * shares.get(arc) / 4);
    }
    Ok(reduced)
}

/// A row of the first of three makers that finds one which the shares violate: of a set of points that they hardly leave, of turbines that need more cables
/// than leave them, and of arcs that can't be together. The last one is handed three quarters of the shares, since of the rows that whole shares violate
/// nearly all are listed already.
///
/// # Errors
///
/// `AllocError` where there is no memory.
pub fn first_row(
    alloc: Global,
    site: &Site,
    arcs: &Arcs,
    crossings: &Crossings,
    shares: &Shares,
) -> Result<Option<Row>, AllocError>
    requires shares { AreShares site.now arcs.now shares.now }
    requires crossings { crossings.now ≡ record { site = site.now; arcs = arcs.now } }
    ensures { IfOk result (λ answer. IfSome answer (λ row. IsSoundRow site.now arcs.now (row_made row))) }
{
    if let Some(row) = connect_row(alloc, site, arcs, shares)? {
        return Ok(Some(row));
    }
    if let Some(row) = capacity_row(alloc, site, arcs, shares)? {
        return Ok(Some(row));
    }
    let reduced = reduced_shares(alloc, arcs, shares)?;
    crossing_row(alloc, site, arcs, crossings, &reduced)
}
