//! A row of a pool in the box of a node.

ghost use Rattle.std.specs.Prelude.{◌≡◌, ◌≤◌, ◌<◌, ◌↔◌, [], ◌∷◌, AllPairs, IsTrue, length, slice_get, Some};
ghost use Rattle.cable_definitions.specs.Row.{Row, is_member};
ghost use Rattle.cable_definitions.specs.Choice.{IsSumOfExtremes, AtMost, AtLeast};
ghost use Rattle.cable_definitions.specs.Tree.{CannotMeet, counted};
ghost use Rattle.node_reasons.specs.Own.{starts_in};
ghost use Rattle.node_reasons.specs.Extents.{IsUpTo};
ghost use Rattle.node_reasons.specs.RowBox.{IsBoxedRow, IsArcExtent, IsExtentAt};

use crate::extent::{Extent, added, extent_of_use, greatest_or_none, least_or_none, nothing};
use crate::own::{further_arcs, points_of};
use cable_rows::RowPool;
use candidate_cables::Arcs;
use node_works::{Decisions, Mark};
use site_model::Site;

/// A row of a pool in the box of a node, with the largest capacity of the site's cable types, in power units.
#[derive(Drop)]
pub(crate) struct BoxedRow<'a> {
    pub(crate) site: &'a Site,
    pub(crate) arcs: &'a Arcs,
    pub(crate) decisions: &'a Decisions,
    pub(crate) pool: &'a RowPool,
    pub(crate) row: u32,
    pub(crate) largest: u32,
}

impl<'a> BoxedRow<'a> {
    /// The extent of what the row counts an arc as that is used.
    fn extent_of_used(&self, arc: u32) -> Extent
        requires facts { IsBoxedRow self.now }
        requires arc { arc < length self.now.arcs.now }
        ensures { IsArcExtent self.now arc Mark.Used result }
    {
        let counts = self.pool.coefficients(self.site, self.arcs, self.row, arc);
        let low = self.site.kind(self.arcs.get(arc).from).least_load();
        extent_of_use(counts, low, self.largest)
    }

    /// The extent of what the row counts an arc with this mark as.
    fn extent_of_arc(&self, arc: u32, mark: Mark) -> Extent
        requires facts { IsBoxedRow self.now }
        requires arc { arc < length self.now.arcs.now }
        ensures { IsArcExtent self.now arc mark result }
    {
        match mark {
            Mark::Unused => return nothing(),
            Mark::Used => return self.extent_of_used(arc),
            Mark::Free => (),
        }
        let used = self.extent_of_used(arc);
        Extent {
            least: least_or_none(used),
            greatest: greatest_or_none(used),
        }
    }

    /// The extent of what the row counts the arcs out of a point as.
    fn extent_out(&self, p: u32) -> Extent
        requires { IsBoxedRow self.now }
        ensures { IsExtentAt self.now (λ a. starts_in (p ∷ []) (slice_get self.now.arcs.now a)) 200000000000 result }
    {
        let _few = self.arcs.len();
        let (first, past) = self.arcs.out_of(p);
        let mut sum = nothing();
        for number in first..past {
            let mark = self.decisions.mark(number);
            sum = added(sum, self.extent_of_arc(number, mark));
        }
        sum
    }

    /// The extent of what the row counts the arcs out of some points as.
    fn extent_out_of(&self, points: &[u32]) -> Extent
        requires facts { IsBoxedRow self.now }
        requires ascending { AllPairs (λ m n. m < n) points.now }
        requires few { length points.now ≤ 256 }
        ensures { IsExtentAt self.now (λ a. starts_in points.now (slice_get self.now.arcs.now a)) 60000000000000 result }
    {
        let mut sum = nothing();
        for point in points {
            sum = added(sum, self.extent_out(*point));
        }
        sum
    }

    /// The extent of what the row counts the arcs of some numbers as; a number past the arcs is that of none.
    fn extent_among(&self, numbers: &[u32]) -> Extent
        requires facts { IsBoxedRow self.now }
        requires ascending { AllPairs (λ m n. m < n) numbers.now }
        requires few { length numbers.now ≤ 65280 }
        ensures { IsExtentAt self.now (λ a. is_member numbers.now a) 200000000000 result }
    {
        let mut sum = nothing();
        for number in numbers {
            if *number < self.arcs.len() {
                let mark = self.decisions.mark(*number);
                sum = added(sum, self.extent_of_arc(*number, mark));
            }
        }
        sum
    }

    /// The extent of the row's left side.
    fn extent(&self) -> Extent
        requires { IsBoxedRow self.now }
        ensures least { (r : Row) → slice_get self.now.pool.now self.now.row ≡ Some r
            → IsSumOfExtremes AtMost self.now.site.now self.now.arcs.now self.now.decisions.now (counted r) result.least }
        ensures greatest { (r : Row) → slice_get self.now.pool.now self.now.row ≡ Some r
            → IsSumOfExtremes AtLeast self.now.site.now self.now.arcs.now self.now.decisions.now (counted r) result.greatest }
        ensures least_small { IsUpTo 1000000000000000 result.least }
        ensures greatest_small { IsUpTo 1000000000000000 result.greatest }
    {
        let points = points_of(self.pool, self.row);
        let further = further_arcs(self.site, self.arcs, self.pool, self.row);
        added(self.extent_out_of(points), self.extent_among(further))
    }

    /// Whether the row can't be met.
    pub(crate) fn cannot_be_met(&self) -> bool
        requires { IsBoxedRow self.now }
        ensures { (r : Row) → slice_get self.now.pool.now self.now.row ≡ Some r
            → (IsTrue result ↔ CannotMeet self.now.site.now self.now.arcs.now self.now.decisions.now r) }
    {
        let left = self.extent();
        let right = self.pool.right(self.site, self.row);
        if left.greatest < right {
            return true;
        }
        if !self.pool.is_equation(self.row) {
            return false;
        }
        if right < left.least {
            return true;
        }
        false
    }
}
