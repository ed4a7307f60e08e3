//! The arcs that clash with an arc.
//!
//! For one arc, all points of the site are put on its sides once; an arc with both ends on one side is passed over at the cost of two
//! look-ups, and the others are compared by their boxes first. Candidate arcs are mostly long, so that a grid of cells would list
//! each of them in many cells and look at more entries than there are arcs.
#![tactic(auto)]

mod scan;
mod sides;

use crate::scan::clashing_numbers;
use candidate_cables::Arcs;
use site_model::Site;
use std::alloc::{AllocError, Global};
use std::marker::Model;

/// The candidate arcs of a site, of which those that clash with one are found. It is seen as the site and its arcs.
#[derive(Drop)]
pub struct Crossings<'a> {
    site: &'a Site,
    arcs: &'a Arcs,
}

impl<'a> Model for Crossings<'a> {
    ghost use Rattle.cable_definitions.specs.Arcs.{AreArcs};
    ghost use Rattle.crossing_index.specs.Clashing.{SiteArcs};

    ghost Value = { SiteArcs };

    ghost view = { λ c. record { site = c.site.now; arcs = c.arcs.now } };

    ghost invariant = { λ c. AreArcs c.site.now c.arcs.now };
}

/// The numbers of some arcs, ascending.
#[derive(Drop)]
pub struct ArcList {
    numbers: Vec<u32>,
}

impl Model for ArcList {
    ghost use Rattle.std.specs.Prelude.{List, ℕ};

    ghost Value = { List ℕ };

    ghost view = { λ list. list.numbers.items };
}

impl ArcList {
    ghost use Rattle.std.specs.Prelude.{◌≡◌};

    /// The numbers as a slice.
    pub fn as_slice(&self) -> &[u32]
        ensures { result.now ≡ self.now }
    {
        self.numbers.as_slice()
    }
}

impl<'a> Crossings<'a> {
    ghost use Rattle.std.specs.Prelude.{◌≡◌, ◌<◌, length, IfOk};
    ghost use Rattle.cable_definitions.specs.Arcs.{AreArcs};
    ghost use Rattle.crossing_index.specs.Clashing.{AreClashing};

    /// The index over the candidate arcs of a site. An error comes for want of memory alone.
    pub fn new(alloc: Global, site: &'a Site, arcs: &'a Arcs) -> Result<Crossings<'a>, AllocError>
        requires arcs { AreArcs site.now arcs.now }
        ensures { IfOk result (λ crossings. crossings ≡ record { site = site.now; arcs = arcs.now }) }
    {
        Ok(Crossings { site, arcs })
    }

    /// The numbers of exactly the arcs that clash with an arc by its number, ascending: those on another unordered pair of points whose
    /// segment has a point in common with this one's that is no end of both. The reverse of an arc never clashes with it. An error
    /// comes for want of memory alone.
    pub fn clashing(&self, alloc: Global, arc: u32) -> Result<ArcList, AllocError>
        requires { arc < length self.now.arcs }
        ensures { IfOk result (AreClashing self.now.site self.now.arcs arc) }
    {
        let numbers = clashing_numbers(alloc, self.site, self.arcs, arc)?;
        Ok(ArcList { numbers })
    }
}
