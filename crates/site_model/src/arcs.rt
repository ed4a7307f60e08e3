//! Candidate arcs.

ghost use Rattle.std.specs.Prelude.{◌≡◌, ◌≢◌, ◌<◌, ◌↔◌, IsTrue, length, Some, All};
ghost use Rattle.cable_definitions.specs.Plane.{IsOn, edges, edges_from, last_corner};
ghost use Rattle.cable_definitions.specs.Arcs.{IsCandidate, charge_of, rule_of};
ghost use Rattle.site_model.specs.Passing.{PassesNone, IsClear};

use crate::Site;
use crate::pair_table::rule_in;
use cable_definitions::place::Place;
use cable_definitions::site::{Kind, Obstacle, PairRule, Point};
use plane_geometry::{lies_on, meets};

impl Site {
    /// Whether there is a candidate arc from one point to another: it starts in no substation, its ends differ, no rule closes their
    /// pair, it passes no other turbine or substation and meets no edge of an obstacle, and some cable type bears the power of its start.
    pub fn is_candidate(&self, from: u32, to: u32) -> bool
        requires from { from < length self.now.points }
        requires to { to < length self.now.points }
        ensures { IsTrue result ↔ IsCandidate self.now from to }
    {
        let start = &self.points()[from as usize];
        let end = &self.points()[to as usize];
        if from == to || start.kind.is_substation() {
            return false;
        }
        if self.is_closed(from, to) {
            return false;
        }
        if start.kind.power() > self.largest_capacity() {
            return false;
        }
        if !passes_none(self.points(), from, to, start.at, end.at) {
            return false;
        }
        is_clear(self.obstacles(), start.at, end.at)
    }

    /// The charge in cost units on the pair of two points, or 0.
    pub fn pair_charge(&self, a: u32, b: u32) -> u64
        ensures { result ≡ charge_of self.now a b }
    {
        match self.rule_of(a, b) {
            Some(PairRule::Charge(amount)) => amount,
            _ => 0,
        }
    }

    /// Whether the pair of two points is closed.
    fn is_closed(&self, a: u32, b: u32) -> bool
        ensures { IsTrue result ↔ (rule_of self.now a b ≡ Some PairRule.Closed) }
    {
        match self.rule_of(a, b) {
            Some(PairRule::Closed) => true,
            _ => false,
        }
    }

    /// The rule on the pair of two points. A number past 255 is that of no point, and has none.
    fn rule_of(&self, a: u32, b: u32) -> Option<PairRule>
        ensures { result ≡ rule_of self.now a b }
    {
        let table = self.rules.as_slice();
        if a > 255 {
            return None;
        }
        if b > 255 {
            return None;
        }
        rule_in(table, a, b)
    }
}

/// Whether the point is a turbine or a substation on the segment from `a` to `b`.
fn stands_on(point: &Point, a: Place, b: Place) -> bool
    ensures { IsTrue result ↔ ((point.now.kind ≢ Kind.Bend) × IsOn point.now.at a b) }
{
    if let Kind::Bend = point.kind {
        return false;
    }
    lies_on(point.at, a, b)
}

/// Whether point number `r`, which is this one, is passed by a cable from `from` at `a` to `to` at `b`.
fn is_passed(r: usize, point: &Point, from: u32, to: u32, a: Place, b: Place) -> bool
    ensures { IsTrue result ↔ ((r ≢ from) × (r ≢ to) × ((point.now.kind ≢ Kind.Bend) × IsOn point.now.at a b)) }
{
    if r == from as usize {
        return false;
    }
    if r == to as usize {
        return false;
    }
    stands_on(point, a, b)
}

/// Whether a cable from `from` at `a` to `to` at `b` passes no turbine or substation.
fn passes_none(points: &[Point], from: u32, to: u32, a: Place, b: Place) -> bool
    ensures { IsTrue result ↔ PassesNone points.now from to a b }
{
    for (r, point) in points.iter().enumerate() {
        if is_passed(r, point, from, to, a, b) {
            return false;
        }
    }
    true
}

/// The last of a corner and the corners after it.
fn last_of(first: Place, corners: &[Place]) -> Place
    ensures { result ≡ last_corner first corners.now }
{
    let mut last = first;
    for corner in corners {
        last = *corner;
    }
    last
}

/// Whether the segment from `a` to `b` meets none of the edges to these corners, each from the corner before it.
fn is_clear_from(before: Place, corners: &[Place], a: Place, b: Place) -> bool
    ensures { IsTrue result ↔ IsClear a b (edges_from before corners.now) }
{
    let mut last = before;
    for corner in corners {
        if meets(a, b, last, *corner) {
            return false;
        }
        last = *corner;
    }
    true
}

/// Whether the segment from `a` to `b` meets no edge of a polygon.
fn is_clear_of(corners: &[Place], a: Place, b: Place) -> bool
    ensures { IsTrue result ↔ IsClear a b (edges corners.now) }
{
    match corners.first() {
        None => true,
        Some(first) => is_clear_from(last_of(*first, corners), corners, a, b),
    }
}

/// Whether the segment from `a` to `b` meets no edge of an obstacle.
fn is_clear(obstacles: &[Obstacle], a: Place, b: Place) -> bool
    ensures { IsTrue result ↔ All (λ corners. IsClear a b (edges corners)) obstacles.now }
{
    for obstacle in obstacles {
        if !is_clear_of(obstacle.as_slice(), a, b) {
            return false;
        }
    }
    true
}
