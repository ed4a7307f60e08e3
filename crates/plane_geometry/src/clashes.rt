//! Segments that clash.

ghost use Rattle.std.specs.Prelude.{◌↔◌, IsTrue};
ghost use Rattle.cable_definitions.specs.Plane.{Clash, SamePlace};
ghost use Rattle.plane_geometry.specs.Sides.{IsInside, EndInside, SharesEnd, IsOneSegment};

use crate::boxes::boxes_meet;
use crate::common_point::meets;
use crate::on_segment::lies_on;
use cable_definitions::place::Place;

/// Whether two places are one.
fn is_same_place(a: Place, b: Place) -> bool
    ensures { IsTrue result ↔ SamePlace a b }
{
    if a.x != b.x {
        return false;
    }
    a.y == b.y
}

/// Whether `p` lies on the segment from `a` to `b` and is none of its ends.
fn is_inside(p: Place, a: Place, b: Place) -> bool
    ensures { IsTrue result ↔ IsInside p a b }
{
    if !lies_on(p, a, b) {
        return false;
    }
    if is_same_place(p, a) {
        return false;
    }
    !is_same_place(p, b)
}

/// Whether an end of one segment lies inside the other.
fn end_is_inside(a: Place, b: Place, c: Place, d: Place) -> bool
    ensures { IsTrue result ↔ EndInside a b c d }
{
    let first = is_inside(a, c, d);
    let second = is_inside(b, c, d);
    let third = is_inside(c, a, b);
    let fourth = is_inside(d, a, b);
    first || second || third || fourth
}

/// Whether two segments have an end in common.
fn shares_end(a: Place, b: Place, c: Place, d: Place) -> bool
    ensures { IsTrue result ↔ SharesEnd a b c d }
{
    let first = is_same_place(a, c);
    let second = is_same_place(a, d);
    let third = is_same_place(b, c);
    let fourth = is_same_place(b, d);
    first || second || third || fourth
}

/// Whether two segments are one, and no point.
fn is_one_segment(a: Place, b: Place, c: Place, d: Place) -> bool
    ensures { IsTrue result ↔ IsOneSegment a b c d }
{
    if is_same_place(a, b) {
        return false;
    }
    let first = is_same_place(a, c);
    let second = is_same_place(b, d);
    let third = is_same_place(a, d);
    let fourth = is_same_place(b, c);
    (first && second) || (third && fourth)
}

/// Whether the segments `a`-`b` and `c`-`d` have a common point that is not an end of both: they
/// cross, touch in the middle of one, or overlap along a stretch. A segment of two places clashes
/// with itself. Segments that meet in nothing but an end of both don't clash.
pub fn clash(a: Place, b: Place, c: Place, d: Place) -> bool
    ensures { IsTrue result ↔ Clash a b c d }
{
    if !boxes_meet(a, b, c, d) {
        return false;
    }
    if !shares_end(a, b, c, d) {
        return meets(a, b, c, d);
    }
    if end_is_inside(a, b, c, d) {
        return true;
    }
    is_one_segment(a, b, c, d)
}
