//! Places outside a polygon, by the even-odd rule (Shimrat, 1962).

ghost use Rattle.std.specs.Prelude.{◌≡◌, ◌↔◌, pos, ◌&&◌, int_le, int_lt, IsTrue};
ghost use Rattle.cable_definitions.specs.Plane.{orient as oriented, counts_for, IsOutside};

use crate::on_segment::lies_on;
use crate::orientation::orient;
use cable_definitions::place::Place;

/// Whether `p` stands left of the way from `a` to `b`.
fn is_left(p: Place, a: Place, b: Place) -> bool
    ensures { result ≡ int_lt (pos 0) (oriented a b p) }
{
    orient(a, b, p) > 0
}

/// Whether `p` stands right of the way from `a` to `b`.
fn is_right(p: Place, a: Place, b: Place) -> bool
    ensures { result ≡ int_lt (oriented a b p) (pos 0) }
{
    orient(a, b, p) < 0
}

/// Whether the edge from `a` to `b` rises through the height of `p`, with `p` on its left.
fn rises_past(p: Place, a: Place, b: Place) -> bool
    ensures { result ≡ (int_le a.y p.y && int_lt p.y b.y && int_lt (pos 0) (oriented a b p)) }
{
    let left = is_left(p, a, b);
    a.y <= p.y && p.y < b.y && left
}

/// Whether the edge from `a` to `b` falls through the height of `p`, with `p` on its right.
fn falls_past(p: Place, a: Place, b: Place) -> bool
    ensures { result ≡ (int_le b.y p.y && int_lt p.y a.y && int_lt (oriented a b p) (pos 0)) }
{
    let right = is_right(p, a, b);
    b.y <= p.y && p.y < a.y && right
}

/// Whether the edge from `a` to `b` counts for `p`.
fn counts(p: Place, a: Place, b: Place) -> bool
    ensures { result ≡ counts_for p (a, b) }
{
    let rises = rises_past(p, a, b);
    let falls = falls_past(p, a, b);
    rises || falls
}

/// Whether `p` is outside a closed polygon, given by its corners in order: `p` lies on no edge, and
/// the number of edges that count for it is even. Corners may repeat, and edges may cross.
pub fn outside(p: Place, corners: &[Place]) -> bool
    ensures { IsTrue result ↔ IsOutside p corners.now }
{
    let Some(last) = corners.last() else {
        return true;
    };
    let mut before = *last;
    let mut counted = 0usize;
    for corner in corners {
        if lies_on(p, before, *corner) {
            return false;
        }
        if counts(p, before, *corner) {
            counted += 1;
        }
        before = *corner;
    }
    counted % 2 == 0
}
