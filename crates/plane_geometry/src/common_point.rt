//! Common points of two segments.

ghost use Rattle.std.specs.Prelude.{◌↔◌, IsTrue};
ghost use Rattle.cable_definitions.specs.Plane.{Meet};
ghost use Rattle.plane_geometry.specs.Sides.{EndOn};

use crate::boxes::boxes_meet;
use crate::on_segment::lies_on;
use crate::orientation::{is_parallel, straddles};
use cable_definitions::place::Place;

/// Whether an end of one segment lies on the other.
fn end_lies_on(a: Place, b: Place, c: Place, d: Place) -> bool
    ensures { IsTrue result ↔ EndOn a b c d }
{
    let first = lies_on(a, c, d);
    let second = lies_on(b, c, d);
    let third = lies_on(c, a, b);
    let fourth = lies_on(d, a, b);
    first || second || third || fourth
}

/// Whether the segments `a`-`b` and `c`-`d` have a common point. Ends count, segments may be single
/// places, and they may overlap along a stretch.
pub fn meets(a: Place, b: Place, c: Place, d: Place) -> bool
    ensures { IsTrue result ↔ Meet a b c d }
{
    if !boxes_meet(a, b, c, d) {
        return false;
    }
    if is_parallel(a, b, c, d) {
        return end_lies_on(a, b, c, d);
    }
    if !straddles(a, b, c, d) {
        return false;
    }
    straddles(c, d, a, b)
}
