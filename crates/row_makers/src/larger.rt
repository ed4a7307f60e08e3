//! More arcs for two of which no legal layout has both.

ghost use Rattle.std.specs.Prelude.{◌≡◌, ◌<◌, All, length, OnOk};
ghost use Rattle.cable_definitions.specs.Arcs.{AreArcs};

use bound_shares::Shares;
use candidate_cables::Arcs;
use crossing_index::Crossings;
use site_model::Site;
use std::alloc::{AllocError, Global};

/// The most members of a row.
const MOST: usize = 256;

/// Whether an arc is incompatible with each of some others.
fn is_apart(site: &Site, arcs: &Arcs, members: &[u32], arc: u32) -> bool
    requires arcs { AreArcs site.now arcs.now }
    requires members { All (λ m. m < length arcs.now) members.now }
    requires arc { arc < length arcs.now }
{
    for member in members {
        if !arcs.incompatible(site, *member, arc) {
            return false;
        }
    }
    true
}

/// Adds an arc that has some share and is incompatible with all members so far, while there is room for it.
fn add_apart(
    site: &Site,
    arcs: &Arcs,
    shares: &Shares,
    members: &mut Vec<u32>,
    arc: u32,
) -> Result<(), AllocError>
    requires arcs { AreArcs site.now arcs.now }
    requires shares { length shares.now ≡ length arcs.now }
    requires members { All (λ m. m < length arcs.now) members.old.items }
    requires arc { arc < length arcs.now }
    ensures { OnOk result (All (λ m. m < length arcs.now) members.new.items) }
{
    if members.len() >= MOST || shares.get(arc) == 0 {
        return Ok(());
    }
    if is_apart(site, arcs, members.as_slice(), arc) {
        members.push(arc)?;
    }
    Ok(())
}

/// Two arcs with further ones of some share that start with the first or clash with it, as far as all are incompatible: a search from the least
/// number on.
pub(crate) fn with_more(
    alloc: Global,
    site: &Site,
    arcs: &Arcs,
    crossings: &Crossings,
    shares: &Shares,
    first: u32,
    second: u32,
) -> Result<Vec<u32>, AllocError>
    requires arcs { AreArcs site.now arcs.now }
    requires crossings { crossings.now ≡ record { site = site.now; arcs = arcs.now } }
    requires shares { length shares.now ≡ length arcs.now }
    requires first { first < length arcs.now }
    requires second { second < length arcs.now }
{
    let mut members = Vec::new(alloc);
    members.push(first)?;
    members.push(second)?;
    let (start, past) = arcs.out_of(arcs.get(first).from);
    for arc in start..past {
        add_apart(site, arcs, shares, &mut members, arc)?;
    }
    for arc in crossings.clashing(alloc, first)?.as_slice() {
        add_apart(site, arcs, shares, &mut members, *arc)?;
    }
    members.as_mut_slice().sort_unstable();
    Ok(members)
}
