//! Whether weights on rows are lawful.

ghost use Rattle.std.specs.Prelude.{◌<◌, ◌↔◌, IsTrue};
ghost use Rattle.cable_definitions.specs.Choice.{AreLawful};
ghost use Rattle.bound_value.specs.Lawful.{IsLawfulWeight};

use cable_rows::RowPool;
use node_works::Weights;

/// The greatest absolute value of a weight: 2^76.
const MOST_WEIGHT: u128 = 75_557_863_725_914_323_419_136;

/// Whether a weight may stand on a row: the row is listed, and the weight isn't 0, is at most 2^76 in absolute value and isn't negative unless the
/// row is an equation.
fn is_lawful_weight(pool: &RowPool, row: u32, weight: i128) -> bool
    ensures lawful { IsTrue result ↔ IsLawfulWeight pool.now row weight }
    ensures row { IsTrue result → row < 16384 }
{
    if row >= pool.len() {
        return false;
    }
    if weight == 0 {
        return false;
    }
    if weight.unsigned_abs() > MOST_WEIGHT {
        return false;
    }
    if weight > 0 {
        return true;
    }
    pool.is_equation(row)
}

/// Whether weights are lawful: their rows are listed and stand in strictly ascending order, no weight is 0, none is above 2^76 in absolute value, and
/// none is negative on a row that isn't an equation. It takes no memory.
pub fn lawful(pool: &RowPool, weights: &Weights) -> bool
    ensures { IsTrue result ↔ AreLawful pool.now weights.now }
{
    let mut next = 0;
    for (row, weight) in weights.as_slice() {
        if *row < next {
            return false;
        }
        if !is_lawful_weight(pool, *row, *weight) {
            return false;
        }
        next = *row + 1;
    }
    true
}
