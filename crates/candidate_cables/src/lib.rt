//! The candidate arcs of a site, numbered from 0 by start, then by end.
#![tactic(auto)]

ghost use Rattle.std.specs.Prelude.{◌≡◌, ℕ, ◌+◌, ◌<◌, ◌≤◌, ◌↔◌, IsTrue, length, slice_get, Some, IfOk, IfSome, IfNone};
ghost use Rattle.cable_definitions.specs.declared.cable.Arc.{Arc as AnArc};
ghost use Rattle.cable_definitions.specs.Arcs.{AreArcs};
ghost use Rattle.cable_definitions.specs.Row.{AreIncompatible};
ghost use Rattle.candidate_cables.specs.Tables.{IsNumberOf, IsFirstFrom, AreNumbersInto};

mod clashes;
mod listing;
mod own_costs;
mod tables;

use crate::clashes::are_incompatible;
use crate::listing::all_arcs;
pub use crate::own_costs::own_cost;
use crate::tables::{Numbers, all_into, first_numbers};
pub use cable_definitions::cable::Arc;
use site_model::Site;
use std::alloc::{AllocError, Global};
use std::marker::Model;

/// The candidate arcs of a site, in order of start, then end. An arc's number is its place in this order.
#[derive(Drop)]
pub struct Arcs {
    arcs: Vec<Arc>,
    first: Vec<u32>,
    into: Vec<Numbers>,
}

impl Model for Arcs {
    ghost use Rattle.std.specs.Prelude.{List};
    ghost use Rattle.cable_definitions.specs.declared.cable.Arc.{Arc};

    ghost Value = { List Arc };

    ghost use Rattle.candidate_cables.specs.Tables.{AreTables};

    ghost view = { λ a. a.arcs.items };

    ghost invariant = { λ a. AreTables a.arcs.items a.first.items a.into.items };
}

impl Arcs {
    /// Lists the candidate arcs of a site, each with its length in metres and the charge in cost units on its pair. An error comes
    /// for want of memory alone.
    pub fn new(alloc: Global, site: &Site) -> Result<Arcs, AllocError>
        ensures { IfOk result (AreArcs site.now) }
    {
        let arcs = all_arcs(alloc, site)?;
        let count = site.points().len() as u32;
        let first = first_numbers(alloc, arcs.as_slice(), count)?;
        let into = all_into(alloc, arcs.as_slice(), count)?;
        Ok(Arcs { arcs, first, into })
    }

    /// How many arcs there are: at most 65,280, which is 255 from each of 256 points.
    pub fn len(&self) -> u32
        ensures count { result ≡ length self.now }
        ensures most { result ≤ 65280 }
    {
        self.arcs.len() as u32
    }

    /// The arcs by their numbers.
    pub fn as_slice(&self) -> &[Arc]
        ensures { result.now ≡ self.now }
    {
        self.arcs.as_slice()
    }

    /// The arc of a number.
    pub fn get(&self, arc: u32) -> Arc
        requires { arc < length self.now }
        ensures { slice_get self.now arc ≡ Some result }
    {
        self.arcs[arc as usize]
    }

    /// The number of the first arc that starts in a point or in one after it, or the count of the arcs where there is none.
    fn first_from(&self, p: usize) -> u32
        ensures { IsFirstFrom self.now p result }
    {
        if p < self.first.len() {
            self.first[p]
        } else {
            self.arcs.len() as u32
        }
    }

    /// The arcs that start in a point: the number of the first, and the number past the last. The two are equal where no arc starts
    /// there.
    pub fn out_of(&self, p: u32) -> (u32, u32)
        ensures first { IsFirstFrom self.now p result.0 }
        ensures past { IsFirstFrom self.now (p + 1) result.1 }
    {
        let p = p as usize;
        (self.first_from(p), self.first_from(p + 1))
    }

    /// The number of the arc from one point to another. None exactly where there is no such arc.
    pub fn number(&self, from: u32, to: u32) -> Option<u32>
        ensures number { IfSome result (IsNumberOf self.now from to) }
        ensures none { IfNone result ((n : ℕ) → ¬ (IsNumberOf self.now from to n)) }
    {
        let (first, past) = self.out_of(from);
        for number in first..past {
            if self.arcs[number as usize].to == to {
                return Some(number);
            }
        }
        None
    }

    /// The numbers of the arcs that end in a point, ascending.
    pub fn into(&self, q: u32) -> &[u32]
        ensures { AreNumbersInto self.now q result.now }
    {
        let q = q as usize;
        if q < self.into.len() {
            self.into[q].as_slice()
        } else {
            &[]
        }
    }

    /// Whether two different arcs clash, have the same start, or are each other's reverse: no legal layout has both. The arcs are those
    /// of the site.
    pub fn incompatible(&self, site: &Site, a: u32, b: u32) -> bool
        requires arcs { AreArcs site.now self.now }
        requires first { a < length self.now }
        requires second { b < length self.now }
        ensures { (first second : AnArc) → slice_get self.now a ≡ Some first → slice_get self.now b ≡ Some second → (IsTrue result ↔ AreIncompatible site.now first second) }
    {
        are_incompatible(site, self.get(a), self.get(b))
    }
}
