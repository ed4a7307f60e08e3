//! On which side of a way a place stands.

ghost use Rattle.std.specs.Prelude.{◌≡◌, pos, ◌≤◌, ◌↔◌, IsTrue, unsigned_abs, ◌-ℤ◌, ◌*ℤ◌};
ghost use Rattle.cable_definitions.specs.Coordinate.{IsCoordinate};
ghost use Rattle.cable_definitions.specs.Plane.{orient as oriented};
ghost use Rattle.plane_geometry.specs.Sides.{Straddle};

use cable_definitions::place::Place;

/// How far it is from one coordinate to another.
pub(crate) fn step(from: i64, to: i64) -> i64
    requires from { IsCoordinate from }
    requires to { IsCoordinate to }
    ensures value { result ≡ to -ℤ from }
    ensures short { unsigned_abs result ≤ 2000000 }
{
    to - from
}

/// The product of two steps.
fn product(a: i64, b: i64) -> i64
    requires first { unsigned_abs a ≤ 2000000 }
    requires second { unsigned_abs b ≤ 2000000 }
    ensures value { result ≡ a *ℤ b }
    ensures small { unsigned_abs result ≤ 4000000000000 }
{
    a * b
}

/// Twice the signed area of the triangle `a`, `b`, `p`, in square metres: above 0 where `p` stands left
/// of the way from `a` to `b`, below 0 where it stands right of it, 0 where all three lie on a line.
pub fn orient(a: Place, b: Place, p: Place) -> i128
    ensures { result ≡ oriented a b p }
{
    let along = product(step(a.x, b.x), step(a.y, p.y));
    let across = product(step(a.y, b.y), step(a.x, p.x));
    i128::from(along) - i128::from(across)
}

/// Whether `p` stands on the line through `a` and `b`.
pub(crate) fn is_on_line(p: Place, a: Place, b: Place) -> bool
    ensures { IsTrue result ↔ (oriented a b p ≡ pos 0) }
{
    orient(a, b, p) == 0
}

/// Whether `c` and `d` stand as far on the same side of the line through `a` and `b`.
pub(crate) fn is_parallel(a: Place, b: Place, c: Place, d: Place) -> bool
    ensures { IsTrue result ↔ (oriented a b c ≡ oriented a b d) }
{
    let first = orient(a, b, c);
    let second = orient(a, b, d);
    first == second
}

/// Whether one number is at most 0 and the other at least 0.
fn straddle(x: i128, y: i128) -> bool
    ensures { IsTrue result ↔ Straddle x y }
{
    (x <= 0 && 0 <= y) || (y <= 0 && 0 <= x)
}

/// Whether `c` and `d` do not stand on one side of the line through `a` and `b`.
pub(crate) fn straddles(a: Place, b: Place, c: Place, d: Place) -> bool
    ensures { IsTrue result ↔ Straddle (oriented a b c) (oriented a b d) }
{
    straddle(orient(a, b, c), orient(a, b, d))
}
