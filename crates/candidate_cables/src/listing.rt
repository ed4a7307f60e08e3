//! The list of the candidate arcs.

ghost use Rattle.std.specs.Prelude.{◌+◌, ◌<◌, ◌≤◌, length, IfOk, OnOk};
ghost use Rattle.cable_definitions.specs.Arcs.{AreArcs};
ghost use Rattle.candidate_cables.specs.Listing.{AreArcsBefore};

use cable_definitions::cable::Arc;
use site_model::Site;
use std::alloc::{AllocError, Global};

/// Lists the arc between two points, where it is a candidate.
fn list_arc(arcs: &mut Vec<Arc>, site: &Site, from: u32, to: u32) -> Result<(), AllocError>
    requires from { from < length site.now.points }
    requires to { to < length site.now.points }
    requires before { AreArcsBefore site.now from to arcs.old.items }
    ensures { OnOk result (AreArcsBefore site.now from (to + 1) arcs.new.items) }
{
    if site.is_candidate(from, to) {
        arcs.push(site.arc_between(from, to))?;
    }
    Ok(())
}

/// Lists the arcs that start in a point.
fn list_arcs_from(arcs: &mut Vec<Arc>, site: &Site, from: u32) -> Result<(), AllocError>
    requires from { from < length site.now.points }
    requires before { AreArcsBefore site.now from 0 arcs.old.items }
    ensures { OnOk result (AreArcsBefore site.now (from + 1) 0 arcs.new.items) }
{
    for to in 0..site.points().len() as u32 {
        list_arc(arcs, site, from, to)?;
    }
    Ok(())
}

/// The candidate arcs of a site, by start, then by end.
pub(crate) fn all_arcs(alloc: Global, site: &Site) -> Result<Vec<Arc>, AllocError>
    ensures arcs { IfOk result (λ arcs. AreArcs site.now arcs.items) }
    ensures count { IfOk result (λ arcs. length arcs.items ≤ 65280) }
{
    let mut arcs = Vec::new(alloc);
    for from in 0..site.points().len() as u32 {
        list_arcs_from(&mut arcs, site, from)?;
    }
    Ok(arcs)
}
