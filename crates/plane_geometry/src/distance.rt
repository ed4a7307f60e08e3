//! The length of a cable.

ghost use Rattle.std.specs.Prelude.{◌≡◌, ◌≤◌, ◌<◌, ◌+◌, ◌*◌, ◌^◌};
ghost use Rattle.cable_definitions.specs.Plane.{IsLength};

use crate::orientation::step;
use cable_definitions::place::Place;

/// The length of a cable between two places, in metres: the least whole number whose square is at
/// least the square of the distance, so a distance that is no whole number is rounded up.
pub fn length(a: Place, b: Place) -> u32
    ensures { IsLength a b result }
{
    let dx = step(a.x, b.x).unsigned_abs();
    let dy = step(a.y, b.y).unsigned_abs();
    let square = dx * dx + dy * dy;
    let root = whole_root(square);
    if root * root == square {
        root as u32
    } else {
        (root + 1) as u32
    }
}

/// The whole part of the square root. Heron's guess is right for nearly every distance of a site,
/// and the comparison says so; the bisection, which takes longer, serves where it isn't.
fn whole_root(square: u64) -> u64
    ensures not_above { result * result ≤ square }
    ensures next_above { square < (result + 1) * (result + 1) }
    ensures bound { result < 2 ^ 32 }
{
    let guess = guessed_root(square);
    if guess < 0xffff_ffff && guess * guess <= square && square < (guess + 1) * (guess + 1) {
        guess
    } else {
        square.isqrt()
    }
}

/// A guess at the whole part of the square root: a power of two near the root, and four of Heron's
/// steps, the first of which needs no division.
fn guessed_root(square: u64) -> u64 {
    let half = (64 - square.leading_zeros()) / 2;
    let mut guess = (1_u64 << half).wrapping_add(square >> half) / 2;
    for _ in 0..3 {
        guess = guess.wrapping_add(square / guess.max(1)) / 2;
    }
    if guess.wrapping_mul(guess) > square {
        guess.wrapping_sub(1)
    } else {
        guess
    }
}
