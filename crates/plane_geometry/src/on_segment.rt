//! Places on a segment.

ghost use Rattle.std.specs.Prelude.{◌↔◌, IsTrue};
ghost use Rattle.cable_definitions.specs.Plane.{IsOn};
ghost use Rattle.plane_geometry.specs.Sides.{Between, IsOnLineBetween};

use crate::orientation::is_on_line;
use cable_definitions::place::Place;

/// Whether `p` lies between two places from west to east.
fn is_between_in_x(p: Place, a: Place, b: Place) -> bool
    ensures { IsTrue result ↔ Between a.x b.x p.x }
{
    if a.x <= p.x && p.x <= b.x {
        return true;
    }
    b.x <= p.x && p.x <= a.x
}

/// Whether `p` lies between two places from south to north.
fn is_between_in_y(p: Place, a: Place, b: Place) -> bool
    ensures { IsTrue result ↔ Between a.y b.y p.y }
{
    if a.y <= p.y && p.y <= b.y {
        return true;
    }
    b.y <= p.y && p.y <= a.y
}

/// Whether `p` stands on the line through `a` and `b`, and between them in both coordinates.
fn is_on_line_between(p: Place, a: Place, b: Place) -> bool
    ensures { IsTrue result ↔ IsOnLineBetween p a b }
{
    if !is_between_in_x(p, a, b) {
        return false;
    }
    if !is_between_in_y(p, a, b) {
        return false;
    }
    is_on_line(p, a, b)
}

/// Whether `p` lies on the segment from `a` to `b`. Both ends lie on it, and the segment may be a
/// single place.
pub fn lies_on(p: Place, a: Place, b: Place) -> bool
    ensures { IsTrue result ↔ IsOn p a b }
{
    is_on_line_between(p, a, b)
}
