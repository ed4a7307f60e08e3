//! On which side of an arc's line each point of a site stands.

ghost use Rattle.std.specs.Prelude.{◌≡◌, ◌<◌, ◌≤◌, ◌↔◌, IsTrue, length, slice_index_or};
ghost use Rattle.cable_definitions.specs.Plane.{orient as oriented};
ghost use Rattle.cable_definitions.specs.Site.{IsValid};
ghost use Rattle.candidate_cables.specs.Listing.{JoinsPoints};
ghost use Rattle.crossing_index.specs.Sides.{StandsOn, AreSides, HasSides, AreBeside};

use candidate_cables::Arc;
use plane_geometry::{Place, orient};
use site_model::{Point, Site};

/// The most points of a site.
pub(crate) const POINTS: usize = 256;

/// Where a place stands by the line of a segment.
#[derive(Clone, Copy, PartialEq, Eq)]
pub(crate) enum Side {
    Left,
    OnLine,
    Right,
}

/// Where `p` stands by the line through `a` and `b`, seen from `a` to `b`.
fn side_of(a: Place, b: Place, p: Place) -> Side
    ensures { StandsOn result (oriented a b p) }
{
    let side = orient(a, b, p);
    if side > 0 {
        return Side::Left;
    }
    if side < 0 {
        return Side::Right;
    }
    Side::OnLine
}

/// Where each of at most 256 points stands by the line through `a` and `b`.
fn sides_by(points: &[Point], a: Place, b: Place) -> [Side; POINTS]
    requires { length points.now ≤ 256 }
    ensures { AreSides points.now a b result }
{
    let mut sides = [Side::OnLine; POINTS];
    for (p, point) in points.iter().enumerate() {
        sides[p] = side_of(a, b, point.at);
    }
    sides
}

/// Where each point of a site stands by the line of an arc.
pub(crate) fn sides_of(site: &Site, arc: Arc) -> [Side; POINTS]
    requires { JoinsPoints site.now arc }
    ensures sides { HasSides site.now arc result }
    ensures valid { IsValid site.now }
{
    let points = site.points();
    let start = &points[arc.from as usize];
    let end = &points[arc.to as usize];
    sides_by(points, start.at, end.at)
}

/// Whether two places both stand on the left, or both on the right.
fn are_beside(first: Side, second: Side) -> bool
    ensures { IsTrue result ↔ AreBeside first second }
{
    match first {
        Side::Left => second == Side::Left,
        Side::OnLine => false,
        Side::Right => second == Side::Right,
    }
}

/// Whether both ends of an arc stand on the left, or both on the right.
pub(crate) fn is_beside(sides: &[Side; POINTS], arc: Arc) -> bool
    requires from { arc.from < 256 }
    requires to { arc.to < 256 }
    ensures { IsTrue result ↔ AreBeside (slice_index_or sides.now arc.from Side.OnLine) (slice_index_or sides.now arc.to Side.OnLine) }
{
    are_beside(sides[arc.from as usize], sides[arc.to as usize])
}
