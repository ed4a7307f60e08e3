//! Whether the boxes of two segments meet: a cheap test that settles most pairs of segments before any product is formed.

ghost use Rattle.std.specs.Prelude.{◌↔◌, IsTrue};
ghost use Rattle.plane_geometry.specs.Boxes.{AreWestOf, AreSouthOf, IsWest, IsSouth, BoxesMeet};

use cable_definitions::place::Place;

/// Whether `a` and `b` stand west of `p`.
fn are_west_of(a: Place, b: Place, p: Place) -> bool
    ensures { IsTrue result ↔ AreWestOf a b p }
{
    if a.x >= p.x {
        return false;
    }
    b.x < p.x
}

/// Whether both ends of the segment `a`-`b` stand west of both ends of `c`-`d`.
fn is_west(a: Place, b: Place, c: Place, d: Place) -> bool
    ensures { IsTrue result ↔ IsWest a b c d }
{
    if !are_west_of(a, b, c) {
        return false;
    }
    are_west_of(a, b, d)
}

/// Whether `a` and `b` stand south of `p`.
fn are_south_of(a: Place, b: Place, p: Place) -> bool
    ensures { IsTrue result ↔ AreSouthOf a b p }
{
    if a.y >= p.y {
        return false;
    }
    b.y < p.y
}

/// Whether both ends of the segment `a`-`b` stand south of both ends of `c`-`d`.
fn is_south(a: Place, b: Place, c: Place, d: Place) -> bool
    ensures { IsTrue result ↔ IsSouth a b c d }
{
    if !are_south_of(a, b, c) {
        return false;
    }
    are_south_of(a, b, d)
}

/// Whether the boxes of the segments `a`-`b` and `c`-`d` meet, edges included. Segments with a common point have boxes that meet.
pub fn boxes_meet(a: Place, b: Place, c: Place, d: Place) -> bool
    ensures { IsTrue result ↔ BoxesMeet a b c d }
{
    if is_west(a, b, c, d) {
        return false;
    }
    if is_west(c, d, a, b) {
        return false;
    }
    if is_south(a, b, c, d) {
        return false;
    }
    !is_south(c, d, a, b)
}
